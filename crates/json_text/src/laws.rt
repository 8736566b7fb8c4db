//! Laws of the definitions, each the contract of a function that does nothing. Each holds of all
//! values: a call brings it to a proof, and does nothing when it runs.

ghost use Rattle.json_text.specs.Laws.{OneRawValue, TextsAreUtf8, ReadingIsExact, ItemsAreSound, ItemsAreUndated, PrintedReadsBack};

/// A text of JSON says one raw value.
pub fn one_raw_value()
    ensures { OneRawValue }
{}

/// A text of JSON is in UTF-8.
pub fn texts_are_utf8()
    ensures { TextsAreUtf8 }
{}

/// A line reads as what a reader makes of it, and as nothing else.
pub fn reading_is_exact()
    ensures { ReadingIsExact }
{}

/// An item that a line reads as keeps its bounds, its depth and different keys at every level.
pub fn items_are_sound()
    ensures { ItemsAreSound }
{}

/// No line reads as an item with a date or date-time in it.
pub fn items_are_undated()
    ensures { ItemsAreUndated }
{}

/// The text of an item reads as the item, with an equal integer in place of each decimal whose
/// value is whole, and a string in place of each date and date-time, at every depth.
pub fn printed_reads_back()
    ensures { PrintedReadsBack }
{}
