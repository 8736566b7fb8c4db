//! From the name of a query to its tree.

ghost use Rattle.std.specs.Prelude.{◌≡◌, ℕ, List, IfSome};
ghost use Rattle.query_files.specs.Files.{IsReadText};
ghost use Rattle.query_files.specs.Found.{IsWhole, IsFoundIn, file_texts};
ghost use Rattle.query_files.specs.inside.Loads.{HasTexts};
ghost use Rattle.query_files.specs.Leaves.{LeavesFound};
ghost use Rattle.query_files.specs.Seen.{reading_of, found_of};

use crate::file_reading::read_file;
use crate::merging::{Growing, put_together};
use crate::{Parser, Texts};
use item_tree::Str;
use module_names::{Contents, File, Kept, LoadFault, Refused, load};
use outside::Inputs;
use query_tree::Query;
use std::alloc::Global;

/// A query with its libraries, put together from the texts of their files.
#[derive(Drop)]
pub struct Together {
    pub query: Query,
    pub texts: Texts,
}

/// Why a query is not put together.
#[derive(Debug, Drop)]
pub enum Unfound {
    /// There is no file of the query's name.
    NoQuery,
    /// A file is refused, of which these bytes are kept, or it is not loaded.
    Refused(Refused, Contents),
    /// An open, or a call on a file, failed.
    ReadFault,
    /// Memory ran out.
    NoMemory,
}

fn refused(why: Refused, contents: Contents) -> Unfound
    ensures { result ≡ Unfound.Refused why contents }
{
    Unfound::Refused(why, contents)
}

// The query that these files are.
fn query_of_files<P: Parser>(
    alloc: Global,
    parser: &P,
    files: Vec<File<Kept<()>>>,
) -> Result<Together, Unfound>
    ensures found { (name : List ℕ) → IfSome (found_of name result)
        (IsWhole (file_texts files.items)) }
    ensures texts { HasTexts (file_texts files.items) result }
{
    match put_together(alloc, parser, &files) {
        Ok(
            Growing {
                whole,
                start,
                end: _end,
            },
        ) => Ok(Together {
            query: whole,
            texts: Texts::of(files, start),
        }),
        Err(_fault) => Err(Unfound::NoMemory),
    }
}

/// The query of this name, put together with its libraries, or why there is none. Its file is opened
/// and read, and then those of its libraries, each once; all are closed again.
///
/// Over a world that is told, it is what the definition finds. In any world the counts say what the
/// answer says.
pub fn find_query<I: Inputs, P: Parser>(
    alloc: Global,
    parser: &P,
    name: &Str,
    inputs: &mut I,
) -> Result<Together, Unfound>
    ensures world { I.world inputs.new ≡ I.world inputs.old }
    ensures found { IfSome (I.world inputs.old) (λ w.
        IfSome (found_of name.now result) (λ found. IsFoundIn w name.now found)) }
    ensures counts { LeavesFound result (I.counts inputs.old) (I.counts inputs.new) }
{
    let read = |text: &str|
        ensures { IfSome (reading_of result) (λ reading. IsReadText text.now reading) }
    { read_file(alloc, parser, text) };
    match load(alloc, name, inputs, read) {
        Ok(files) => query_of_files(alloc, parser, files),
        Err(LoadFault::Refused(why, contents)) => Err(refused(why, contents)),
        Err(LoadFault::NoQuery) => Err(Unfound::NoQuery),
        Err(LoadFault::ReadFault) => Err(Unfound::ReadFault),
        Err(LoadFault::NoMemory) => Err(Unfound::NoMemory),
    }
}
