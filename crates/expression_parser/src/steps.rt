//! Steps.

ghost use Rattle.grammar_parts.specs.Readers.{read_mapped};
ghost use Rattle.grammar_parts.specs.Nests.{Nests};
ghost use Rattle.grammar_parts.specs.Reads.{ReadsAs};
ghost use Rattle.query_tree.specs.NamedViews.{named_tree, named_step, named_lookup};
ghost use Rattle.query_grammar.specs.Grammar as g;
ghost use Rattle.query_grammar.specs.Grammar.{forms};
ghost use Rattle.expression_parser.specs.Views as view;
ghost use Rattle.expression_parser.specs.Views.{reader};

use crate::nodes::{plain_key, postfix_of};
use crate::parts::Parts;
use grammar_parts::{Cursor, Stop, repeat};
use item_tree::Str;
use query_grammar::{Class, Kind, Part, Word};
use query_tree::{Lookup, NamedExpr, Step};
use std::alloc::Global;

impl<F: Fn(Global, bool, usize, Part, &mut Cursor<'_, Word>) -> Result<NamedExpr, Stop>> Parts<F> {
    /// `"[" Expr "]" "]"`, behind a first `[`.
    #[tactic(auto, unfolding(query_grammar::specs::Grammar::member))]
    fn member(
        &self,
        place: u32,
        cursor: &mut Cursor<'_, Word>,
    ) -> Result<Step<Str, NamedExpr>, Stop>
        requires { Nests forms named_tree self.now.wide self.now.depth (F.pre self.now.inner)
            (F.post self.now.inner) }
        ensures { ReadsAs (λ s. named_step s)
            (read_mapped (λ f. f place) (reader g.member self.now.wide self.now.depth)
            cursor.old.rest.now) result cursor.new.rest.now }
    {
        if self.depth == 0 {
            return Err(Stop::Refused);
        }
        cursor.expect(Kind::OpenBracket)?;
        let position = self.inside(Part::Expr, cursor)?;
        or_give_up!(position, cursor.expect(Kind::CloseBracket));
        or_give_up!(position, cursor.expect(Kind::CloseBracket));
        Ok(Step::Member { place, position })
    }

    /// `Expr "]"`, behind a `[`.
    #[tactic(auto, unfolding(query_grammar::specs::Grammar::filter))]
    fn filter(
        &self,
        place: u32,
        cursor: &mut Cursor<'_, Word>,
    ) -> Result<Step<Str, NamedExpr>, Stop>
        requires { Nests forms named_tree self.now.wide self.now.depth (F.pre self.now.inner)
            (F.post self.now.inner) }
        ensures { ReadsAs (λ s. named_step s)
            (read_mapped (λ f. f place) (reader g.filter self.now.wide self.now.depth)
            cursor.old.rest.now) result cursor.new.rest.now }
    {
        if self.depth == 0 || cursor.sees(Kind::OpenBracket) {
            return Err(Stop::Refused);
        }
        let test = self.inside(Part::Expr, cursor)?;
        or_give_up!(test, cursor.expect(Kind::CloseBracket));
        Ok(Step::Filter { place, test })
    }

    /// `"[" "]" | "[" "[" Expr "]" "]" | "[" Expr "]"`
    #[tactic(auto, unfolding(query_grammar::specs::Grammar::bracket_step, query_grammar::specs::Grammar::members))]
    fn bracket_step(&self, cursor: &mut Cursor<'_, Word>) -> Result<Step<Str, NamedExpr>, Stop>
        requires { Nests forms named_tree self.now.wide self.now.depth (F.pre self.now.inner)
            (F.post self.now.inner) }
        ensures { ReadsAs named_step
            (reader g.bracket_step self.now.wide self.now.depth cursor.old.rest.now) result
            cursor.new.rest.now }
    {
        let place = cursor.expect(Kind::OpenBracket)?.place;
        if cursor.sees(Kind::CloseBracket) {
            cursor.expect(Kind::CloseBracket)?;
            return Ok(Step::Members { place });
        }
        if cursor.sees_if(self.depth > 0, Kind::OpenBracket) {
            self.member(place, cursor)
        } else {
            self.filter(place, cursor)
        }
    }

    /// `Name | Text | Var | Context | "(" Expr ")"`
    #[tactic(auto, unfolding(query_grammar::specs::Grammar::plain_key, query_grammar::specs::Grammar::computed_lookup))]
    fn key(&self, cursor: &mut Cursor<'_, Word>) -> Result<Lookup<Str, NamedExpr>, Stop>
        requires { Nests forms named_tree self.now.wide self.now.depth (F.pre self.now.inner)
            (F.post self.now.inner) }
        ensures { ReadsAs named_lookup
            (reader view.key_part self.now.wide self.now.depth cursor.old.rest.now) result
            cursor.new.rest.now }
    {
        if cursor.sees(Class::LookupKey) {
            let word = cursor.expect(Class::LookupKey)?;
            return plain_key(self.alloc, word);
        }
        if self.depth == 0 {
            return Err(Stop::Refused);
        }
        let value = self.in_parens(cursor)?;
        Ok(Lookup::Computed { value })
    }

    /// `"." ( Name | Text | Var | Context | "(" Expr ")" )`
    #[tactic(auto, unfolding(query_grammar::specs::Grammar::field_step))]
    fn field_step(&self, cursor: &mut Cursor<'_, Word>) -> Result<Step<Str, NamedExpr>, Stop>
        requires { Nests forms named_tree self.now.wide self.now.depth (F.pre self.now.inner)
            (F.post self.now.inner) }
        ensures { ReadsAs named_step
            (reader g.field_step self.now.wide self.now.depth cursor.old.rest.now) result
            cursor.new.rest.now }
    {
        let place = cursor.expect(Kind::Dot)?.place;
        let key = self.key(cursor)?;
        Ok(Step::Field { place, key })
    }

    /// `"("`, in the wider grammar.
    #[tactic(auto, unfolding(query_grammar::specs::Grammar::call_step))]
    pub fn call_step(&self, cursor: &mut Cursor<'_, Word>) -> Result<Step<Str, NamedExpr>, Stop>
        requires { Nests forms named_tree self.now.wide self.now.depth (F.pre self.now.inner)
            (F.post self.now.inner) }
        ensures { ReadsAs named_step
            (reader g.call_step self.now.wide self.now.depth cursor.old.rest.now) result
            cursor.new.rest.now }
    {
        if !self.wide {
            return Err(Stop::Refused);
        }
        let open = cursor.expect(Kind::OpenParen)?;
        Ok(Step::Members { place: open.place })
    }

    /// `Step`
    #[tactic(auto, unfolding(query_grammar::specs::Grammar::step))]
    pub fn step(&self, cursor: &mut Cursor<'_, Word>) -> Result<Step<Str, NamedExpr>, Stop>
        requires { Nests forms named_tree self.now.wide self.now.depth (F.pre self.now.inner)
            (F.post self.now.inner) }
        ensures { ReadsAs named_step
            (reader g.step self.now.wide self.now.depth cursor.old.rest.now) result
            cursor.new.rest.now }
    {
        if cursor.sees(Kind::OpenBracket) {
            self.bracket_step(cursor)
        } else if cursor.sees(Kind::Dot) {
            self.field_step(cursor)
        } else {
            self.call_step(cursor)
        }
    }

    /// `{ Step }`
    #[tactic(auto, unfolding(query_grammar::specs::Grammar::steps))]
    pub fn steps(&self, cursor: &mut Cursor<'_, Word>) -> Result<Vec<Step<Str, NamedExpr>>, Stop>
        requires { Nests forms named_tree self.now.wide self.now.depth (F.pre self.now.inner)
            (F.post self.now.inner) }
        ensures { ReadsAs view.steps
            (reader g.steps self.now.wide self.now.depth cursor.old.rest.now) result
            cursor.new.rest.now }
    {
        repeat(
            self.alloc,
            Class::Step { wide: self.wide },
            |at| self.step(at),
            cursor,
        )
    }

    /// `Postfix`
    #[tactic(auto, unfolding(query_grammar::specs::Grammar::postfix))]
    pub fn postfix(&self, cursor: &mut Cursor<'_, Word>) -> Result<NamedExpr, Stop>
        requires { Nests forms named_tree self.now.wide self.now.depth (F.pre self.now.inner)
            (F.post self.now.inner) }
        ensures { ReadsAs named_tree
            (reader g.postfix self.now.wide self.now.depth cursor.old.rest.now) result
            cursor.new.rest.now }
    {
        let primary = self.primary(cursor)?;
        let steps = or_give_up!(primary, self.steps(cursor));
        postfix_of(self.alloc, primary, steps)
    }
}
