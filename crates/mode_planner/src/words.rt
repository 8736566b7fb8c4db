//! The words for what a part is and for how it is evaluated.

ghost use Rattle.std.specs.Prelude.{◌≡◌};
ghost use Rattle.mode_planner.specs.Words.{label_word, mode_word};

use crate::{Label, Mode};

impl Label {
    /// The word for it: the keyword of a clause, the name of a function, or `json-lines`, `flwor`
    /// or `expression`.
    pub fn word(self) -> &'static str
        ensures { result.now ≡ label_word self }
    {
        match self {
            Label::For => "for",
            Label::Let => "let",
            Label::Where => "where",
            Label::Group => "group",
            Label::Order => "order",
            Label::Count => "count",
            Label::Return => "return",
            Label::JsonLines => "json-lines",
            Label::Call(id) => id.name(),
            Label::Flwor => "flwor",
            Label::Expression => "expression",
        }
    }
}

impl Mode {
    /// The word for it.
    pub fn word(self) -> &'static str
        ensures { result.now ≡ mode_word self }
    {
        match self {
            Mode::Local => "local",
            Mode::Partitioned => "partitioned",
            Mode::Gathered => "gathered",
        }
    }
}
