//! What the methods for the productions share.

ghost use Rattle.std.specs.Prelude.{◌≡◌, ◌<◌};
ghost use Rattle.grammar_parts.specs.Levels.{inside};
ghost use Rattle.grammar_parts.specs.Reads.{ReadsAs};
ghost use Rattle.query_tree.specs.NamedViews.{named_tree};
ghost use Rattle.query_grammar.specs.Grammar.{forms};
ghost use Rattle.grammar_parts.specs.Nests.{Nests};
ghost use Rattle.query_grammar.specs.Named.{class_of};
ghost use Rattle.query_grammar.specs.Classes.{single_first, pair_first, argument_first};
ghost use Rattle.grammar_parts.specs.Levels.{room_in};

use grammar_parts::{Cursor, Stop};
use query_grammar::{Class, Part, Word};
use query_tree::NamedExpr;
use std::alloc::Global;

/// A reader of productions, each by a method of its own. What stands inside a form is read by
/// `inner`, so that no production calls itself.
#[derive(Clone, Copy)]
pub struct Parts<F> {
    pub alloc: Global,
    /// Whether the forms of the wider grammar are taken.
    pub wide: bool,
    /// How many forms may still nest.
    pub depth: usize,
    pub inner: F,
}

impl<F: Fn(Global, bool, usize, Part, &mut Cursor<'_, Word>) -> Result<NamedExpr, Stop>> Parts<F> {
    /// What an expression inside a form begins with.
    pub fn single_class(&self) -> Class
        ensures { class_of result ≡ single_first self.now.wide (room_in self.now.depth) }
    {
        Class::Single {
            wide: self.wide,
            room: self.depth > 1,
        }
    }

    /// What a pair inside an object begins with.
    pub fn pair_class(&self) -> Class
        ensures { class_of result ≡ pair_first self.now.wide (room_in self.now.depth) }
    {
        Class::Pair {
            wide: self.wide,
            room: self.depth > 1,
        }
    }

    /// What an argument inside a call begins with.
    pub fn argument_class(&self) -> Class
        ensures { class_of result ≡ argument_first self.now.wide (room_in self.now.depth) }
    {
        Class::Argument {
            wide: self.wide,
            room: self.depth > 1,
        }
    }

    /// Reads a part that stands inside a form.
    #[tactic(auto, unfolding(grammar_parts::specs::Levels::inside))]
    pub fn inside(&self, part: Part, cursor: &mut Cursor<'_, Word>) -> Result<NamedExpr, Stop>
        requires nests { Nests forms named_tree self.now.wide self.now.depth (F.pre self.now.inner)
            (F.post self.now.inner) }
        ensures { ReadsAs named_tree
            ((inside forms self.now.wide self.now.depth part).read cursor.old.rest.now) result
            cursor.new.rest.now }
    {
        if self.depth == 0 {
            return Err(Stop::Refused);
        }
        (self.inner)(self.alloc, self.wide, self.depth - 1, part, cursor)
    }
}
