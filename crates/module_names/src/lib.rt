//! Library modules: the imports at the head of a file, the order in which files are loaded, how a
//! query is loaded, and the file that a place belongs to.
#![tactic(auto)]

mod alone;
mod body;
mod file_bytes;
mod head;
pub mod laws;
mod library_loading;
mod load_fault;
mod opening;
mod order;
mod places;
mod wanted;

pub use alone::Unread;
pub use body::other_body;
pub use file_bytes::{Contents, Kept, without_mark};
pub use head::{HeadFault, Import, imports};
pub use library_loading::load;
pub use load_fault::LoadFault;
pub use opening::read_named;
pub use order::{File, Loading, Refused, Source, Step, add_library, next_step, start_loading};
pub use places::locate;
