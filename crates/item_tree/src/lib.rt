//! Items, the values of the query language, and the codes of its errors.
#![tactic(auto)]

mod atom_text;
mod class;
mod code;
mod compare;
mod date;
mod date_text;
mod decimal;
mod fault;
mod functions;
mod item;
mod key;
pub mod laws;
mod number;
mod push;
mod same;
mod shared;
mod str_bytes;
mod text;
mod truth;
mod wide;

pub use atom_text::text_of;
pub use class::Class;
pub use code::Code;
pub use compare::{cmp_atoms, deep_equal, same_key};
pub use date::{Day, Moment};
pub use date_text::DateText;
pub use decimal::DecimalBuffer;
pub use fault::{Fault, MakeFault, NoMemory, OpFault, Spot};
pub use functions::FnId;
pub use item::{
    FewIntegers, Item, Items, PairList, Pairs, array_from, array_of, array_of_few, object_from,
    object_of, object_of_distinct,
};
pub use key::{Key, key_of};
pub use number::{Units, Whole};
pub use push::push_last;
pub use text::Str;
pub use truth::ebv;
