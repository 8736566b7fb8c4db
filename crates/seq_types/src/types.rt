//! The types of sequences and of items.

/// A type of sequences.
#[derive(Clone, Copy, Debug, PartialEq, Eq)]
pub enum SeqType {
    /// No item: `empty-sequence()`.
    Empty,
    /// So many items, each of one type.
    Of { item: ItemType, times: Times },
}

/// A type of single items.
#[derive(Clone, Copy, Debug, PartialEq, Eq)]
pub enum ItemType {
    /// Every item.
    Item,
    /// Every object and every array.
    JsonItem,
    Object,
    Array,
    /// Every item that is neither an object nor an array.
    Atomic,
    /// Every string.
    Text,
    Integer,
    /// Every number: an integer is a decimal too.
    Decimal,
    Boolean,
    Null,
    Date,
    /// Every moment: a date with a time of day.
    DateTime,
}

/// How many items a type allows.
#[derive(Clone, Copy, Debug, PartialEq, Eq)]
pub enum Times {
    /// Exactly one: no sign.
    One,
    /// None or one: `?`.
    Optional,
    /// Any number: `*`.
    Any,
    /// One or more: `+`.
    Many,
}
