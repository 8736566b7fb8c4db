//! A law of the definitions. It holds of all words: a call brings it to a proof, and does nothing
//! when it runs.

ghost use Rattle.std.specs.Prelude.{List};
ghost use Rattle.run_words.specs.Table.{Text};
ghost use Rattle.run_words.specs.Given.{Use};
ghost use Rattle.run_words.specs.Spelled.{ReadsAsSpelled};

use crate::table::Verb;

/// What is read of the words behind the first one, word by word, is what they give piece by piece
/// as the table writes them, and nothing else is.
pub fn words_are_spelled()
    ensures { (verb : Verb) → (words : List Text) → (uses : List Use)
        → ReadsAsSpelled verb words uses }
{}
