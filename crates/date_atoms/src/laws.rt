//! Laws of the definitions that contracts cite. Each holds of all values: a call brings it to a
//! proof, and does nothing when it runs.

ghost use Rattle.date_atoms.specs.Laws.{DaysAreReached, TextsSayOne, TextsAreDecided, TextsCompute, PrintedTextsAreRead};

/// Each date has a day number of its own from that of 0001-01-01 to that of 9999-12-31, and each
/// number from the one to the other is a date's.
pub fn days_are_reached()
    ensures { DaysAreReached }
{}

/// A text says one date at most, and one moment at most.
pub fn texts_say_one()
    ensures { TextsSayOne }
{}

/// A text says a date or none, and a moment or none.
pub fn texts_are_decided()
    ensures { TextsAreDecided }
{}

/// What a text says is computed.
pub fn texts_compute()
    ensures { TextsCompute }
{}

/// The text of a date says that date, and the text of a moment that moment.
pub fn printed_texts_are_read()
    ensures { PrintedTextsAreRead }
{}
