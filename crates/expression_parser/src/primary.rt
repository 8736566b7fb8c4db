//! Primary expressions.

ghost use Rattle.grammar_parts.specs.Nests.{Nests};
ghost use Rattle.grammar_parts.specs.Reads.{ReadsAs};
ghost use Rattle.query_tree.specs.NamedViews.{named_tree, source_pair};
ghost use Rattle.query_grammar.specs.Grammar as g;
ghost use Rattle.query_grammar.specs.Grammar.{forms};
ghost use Rattle.expression_parser.specs.Views as view;
ghost use Rattle.expression_parser.specs.Views.{reader};

use crate::gather::boxed;
use crate::nodes::{call_of, literal, unused};
use crate::parts::Parts;
use crate::values::name_of;
use grammar_parts::{Cursor, Stop, list};
use query_grammar::{Class, Kind, Part, Word};
use query_tree::{Expr, Kind as Form, NamedExpr, Pair};
use std::alloc::Global;

impl<F: Fn(Global, bool, usize, Part, &mut Cursor<'_, Word>) -> Result<NamedExpr, Stop>> Parts<F> {
    /// `Int | Dec | Text | True | False | Null | Var | Context`
    #[tactic(auto, using(query_tree::proofs::Layers::layers), unfolding(query_grammar::specs::Grammar::literal))]
    pub fn literal(&self, cursor: &mut Cursor<'_, Word>) -> Result<NamedExpr, Stop>
        requires { Nests forms named_tree self.now.wide self.now.depth (F.pre self.now.inner)
            (F.post self.now.inner) }
        ensures { ReadsAs named_tree
            (reader g.literal self.now.wide self.now.depth cursor.old.rest.now) result
            cursor.new.rest.now }
    {
        let word = cursor.expect(Class::Literal { wide: self.wide })?;
        literal(self.alloc, word)
    }

    /// `"(" Expr ")"`
    #[tactic(auto, unfolding(query_grammar::specs::Grammar::in_parens))]
    pub fn in_parens(&self, cursor: &mut Cursor<'_, Word>) -> Result<NamedExpr, Stop>
        requires { Nests forms named_tree self.now.wide self.now.depth (F.pre self.now.inner)
            (F.post self.now.inner) }
        ensures { ReadsAs named_tree
            (reader g.in_parens self.now.wide self.now.depth cursor.old.rest.now) result
            cursor.new.rest.now }
    {
        cursor.expect(Kind::OpenParen)?;
        let content = self.inside(Part::Expr, cursor)?;
        or_give_up!(content, cursor.expect(Kind::CloseParen));
        Ok(content)
    }

    /// `"{" Expr "}"`
    #[tactic(auto, unfolding(query_grammar::specs::Grammar::in_braces))]
    pub fn in_braces(&self, cursor: &mut Cursor<'_, Word>) -> Result<NamedExpr, Stop>
        requires { Nests forms named_tree self.now.wide self.now.depth (F.pre self.now.inner)
            (F.post self.now.inner) }
        ensures { ReadsAs named_tree
            (reader g.in_braces self.now.wide self.now.depth cursor.old.rest.now) result
            cursor.new.rest.now }
    {
        cursor.expect(Kind::OpenBrace)?;
        let content = self.inside(Part::Expr, cursor)?;
        or_give_up!(content, cursor.expect(Kind::CloseBrace));
        Ok(content)
    }

    /// `[ Expr ]`
    #[tactic(auto, unfolding(query_grammar::specs::Grammar::content))]
    pub fn content(&self, cursor: &mut Cursor<'_, Word>) -> Result<Option<Box<NamedExpr>>, Stop>
        requires { Nests forms named_tree self.now.wide self.now.depth (F.pre self.now.inner)
            (F.post self.now.inner) }
        ensures { ReadsAs view.boxed
            (reader g.content self.now.wide self.now.depth cursor.old.rest.now) result
            cursor.new.rest.now }
    {
        if !cursor.sees(self.single_class()) {
            return Ok(None);
        }
        let inner = self.inside(Part::Expr, cursor)?;
        Ok(Some(boxed(self.alloc, inner)?))
    }

    /// `"(" [ Expr ] ")"`
    #[tactic(auto, using(query_tree::proofs::Layers::layers), unfolding(query_grammar::specs::Grammar::paren))]
    pub fn paren(&self, cursor: &mut Cursor<'_, Word>) -> Result<NamedExpr, Stop>
        requires { Nests forms named_tree self.now.wide self.now.depth (F.pre self.now.inner)
            (F.post self.now.inner) }
        ensures { ReadsAs named_tree
            (reader g.paren self.now.wide self.now.depth cursor.old.rest.now) result
            cursor.new.rest.now }
    {
        if self.depth == 0 {
            return Err(Stop::Refused);
        }
        let open = cursor.expect(Kind::OpenParen)?;
        let content = self.content(cursor)?;
        or_give_up!(content, cursor.expect(Kind::CloseParen));
        Ok(Expr {
            place: open.place,
            kind: Form::Paren { content },
        })
    }

    /// `"{|" [ Expr ] "|}"`
    #[tactic(auto, using(query_tree::proofs::Layers::layers), unfolding(query_grammar::specs::Grammar::merge))]
    pub fn merge(&self, cursor: &mut Cursor<'_, Word>) -> Result<NamedExpr, Stop>
        requires { Nests forms named_tree self.now.wide self.now.depth (F.pre self.now.inner)
            (F.post self.now.inner) }
        ensures { ReadsAs named_tree
            (reader g.merge self.now.wide self.now.depth cursor.old.rest.now) result
            cursor.new.rest.now }
    {
        if self.depth == 0 {
            return Err(Stop::Refused);
        }
        let open = cursor.expect(Kind::OpenMerge)?;
        let content = self.content(cursor)?;
        or_give_up!(content, cursor.expect(Kind::CloseMerge));
        Ok(Expr {
            place: open.place,
            kind: Form::Merge { content },
        })
    }

    /// `"[" [ Expr ] "]"`
    #[tactic(auto, using(query_tree::proofs::Layers::layers), unfolding(query_grammar::specs::Grammar::array))]
    pub fn array(&self, cursor: &mut Cursor<'_, Word>) -> Result<NamedExpr, Stop>
        requires { Nests forms named_tree self.now.wide self.now.depth (F.pre self.now.inner)
            (F.post self.now.inner) }
        ensures { ReadsAs named_tree
            (reader g.array self.now.wide self.now.depth cursor.old.rest.now) result
            cursor.new.rest.now }
    {
        if self.depth == 0 {
            return Err(Stop::Refused);
        }
        let open = cursor.expect(Kind::OpenBracket)?;
        let content = self.content(cursor)?;
        or_give_up!(content, cursor.expect(Kind::CloseBracket));
        Ok(Expr {
            place: open.place,
            kind: Form::Array { content },
        })
    }

    /// `( Name | Single ) ":"`, where a name that `:` follows is a name, and then `Single`.
    #[tactic(auto, unfolding(query_grammar::specs::Grammar::pair, query_grammar::specs::Grammar::pair_key, query_grammar::specs::Grammar::name_key, query_grammar::specs::Grammar::computed_key))]
    pub fn pair(&self, cursor: &mut Cursor<'_, Word>) -> Result<Pair<NamedExpr>, Stop>
        requires { Nests forms named_tree self.now.wide self.now.depth (F.pre self.now.inner)
            (F.post self.now.inner) }
        ensures { ReadsAs source_pair
            (reader g.pair self.now.wide self.now.depth cursor.old.rest.now) result
            cursor.new.rest.now }
    {
        if cursor.sees_two(Class::Name, Kind::Colon) {
            let word = cursor.expect(Class::Name)?;
            let place = cursor.expect(Kind::Colon)?.place;
            let name = name_of(self.alloc, word)?;
            let value = or_give_up!(name, self.inside(Part::Single, cursor));
            return Ok(Pair::Named { name, place, value });
        }
        if cursor.sees(Class::Name) && !cursor.sees(self.single_class()) {
            cursor.skip();
            return Err(Stop::Refused);
        }
        let key = self.inside(Part::Single, cursor)?;
        let place = or_give_up!(key, cursor.expect(Kind::Colon)).place;
        let value = or_give_up!(key, self.inside(Part::Single, cursor));
        Ok(Pair::Computed { key, place, value })
    }

    /// `Pair { "," Pair }`
    #[tactic(auto, unfolding(query_grammar::specs::Grammar::pair_list))]
    pub fn pair_list(&self, cursor: &mut Cursor<'_, Word>) -> Result<Vec<Pair<NamedExpr>>, Stop>
        requires { Nests forms named_tree self.now.wide self.now.depth (F.pre self.now.inner)
            (F.post self.now.inner) }
        ensures { ReadsAs view.pairs
            (reader g.pair_list self.now.wide self.now.depth cursor.old.rest.now) result
            cursor.new.rest.now }
    {
        list(self.alloc, Kind::Comma, |at| self.pair(at), cursor)
    }

    /// `[ Pair { "," Pair } ]`
    #[tactic(auto, unfolding(query_grammar::specs::Grammar::pairs))]
    pub fn pairs(&self, cursor: &mut Cursor<'_, Word>) -> Result<Vec<Pair<NamedExpr>>, Stop>
        requires { Nests forms named_tree self.now.wide self.now.depth (F.pre self.now.inner)
            (F.post self.now.inner) }
        ensures { ReadsAs view.pairs
            (reader g.pairs self.now.wide self.now.depth cursor.old.rest.now) result
            cursor.new.rest.now }
    {
        if !cursor.sees(self.pair_class()) {
            return Ok(Vec::new(self.alloc));
        }
        self.pair_list(cursor)
    }

    /// `Object`
    #[tactic(auto, using(query_tree::proofs::Layers::layers), unfolding(query_grammar::specs::Grammar::object))]
    pub fn object(&self, cursor: &mut Cursor<'_, Word>) -> Result<NamedExpr, Stop>
        requires { Nests forms named_tree self.now.wide self.now.depth (F.pre self.now.inner)
            (F.post self.now.inner) }
        ensures { ReadsAs named_tree
            (reader g.object self.now.wide self.now.depth cursor.old.rest.now) result
            cursor.new.rest.now }
    {
        if self.depth == 0 {
            return Err(Stop::Refused);
        }
        let open = cursor.expect(Kind::OpenBrace)?;
        let pairs = self.pairs(cursor)?;
        or_give_up!(pairs, cursor.expect(Kind::CloseBrace));
        Ok(Expr {
            place: open.place,
            kind: Form::Object { pairs },
        })
    }

    /// An argument; the wider grammar also has `?`.
    #[tactic(auto, unfolding(query_grammar::specs::Grammar::argument))]
    pub fn argument(&self, cursor: &mut Cursor<'_, Word>) -> Result<NamedExpr, Stop>
        requires { Nests forms named_tree self.now.wide self.now.depth (F.pre self.now.inner)
            (F.post self.now.inner) }
        ensures { ReadsAs named_tree
            (reader g.argument self.now.wide self.now.depth cursor.old.rest.now) result
            cursor.new.rest.now }
    {
        if cursor.sees(self.single_class()) {
            return self.inside(Part::Single, cursor);
        }
        if !self.wide {
            return Err(Stop::Refused);
        }
        let mark = cursor.expect(Kind::Question)?;
        Ok(unused(mark))
    }

    /// `Single { "," Single }`
    #[tactic(auto, unfolding(query_grammar::specs::Grammar::argument_list))]
    pub fn argument_list(&self, cursor: &mut Cursor<'_, Word>) -> Result<Vec<NamedExpr>, Stop>
        requires { Nests forms named_tree self.now.wide self.now.depth (F.pre self.now.inner)
            (F.post self.now.inner) }
        ensures { ReadsAs view.trees
            (reader g.argument_list self.now.wide self.now.depth cursor.old.rest.now) result
            cursor.new.rest.now }
    {
        list(self.alloc, Kind::Comma, |at| self.argument(at), cursor)
    }

    /// `[ Single { "," Single } ]`
    #[tactic(auto, unfolding(query_grammar::specs::Grammar::some_arguments))]
    pub fn some_arguments(&self, cursor: &mut Cursor<'_, Word>) -> Result<Vec<NamedExpr>, Stop>
        requires { Nests forms named_tree self.now.wide self.now.depth (F.pre self.now.inner)
            (F.post self.now.inner) }
        ensures { ReadsAs view.trees
            (reader g.some_arguments self.now.wide self.now.depth cursor.old.rest.now) result
            cursor.new.rest.now }
    {
        if !cursor.sees(self.argument_class()) {
            return Ok(Vec::new(self.alloc));
        }
        self.argument_list(cursor)
    }

    /// `"(" [ Single { "," Single } ] ")"`
    #[tactic(auto, unfolding(query_grammar::specs::Grammar::arguments))]
    pub fn arguments(&self, cursor: &mut Cursor<'_, Word>) -> Result<Vec<NamedExpr>, Stop>
        requires { Nests forms named_tree self.now.wide self.now.depth (F.pre self.now.inner)
            (F.post self.now.inner) }
        ensures { ReadsAs view.trees
            (reader g.arguments self.now.wide self.now.depth cursor.old.rest.now) result
            cursor.new.rest.now }
    {
        cursor.expect(Kind::OpenParen)?;
        let found = self.some_arguments(cursor)?;
        or_give_up!(found, cursor.expect(Kind::CloseParen));
        Ok(found)
    }

    /// `"#" Int`, in the wider grammar.
    #[tactic(auto, unfolding(query_grammar::specs::Grammar::arity))]
    pub fn arity(&self, cursor: &mut Cursor<'_, Word>) -> Result<Vec<NamedExpr>, Stop>
        requires { Nests forms named_tree self.now.wide self.now.depth (F.pre self.now.inner)
            (F.post self.now.inner) }
        ensures { ReadsAs view.trees
            (reader g.arity self.now.wide self.now.depth cursor.old.rest.now) result
            cursor.new.rest.now }
    {
        if !self.wide {
            return Err(Stop::Refused);
        }
        cursor.expect(Kind::Hash)?;
        cursor.expect(Kind::Int)?;
        Ok(Vec::new(self.alloc))
    }

    /// `Call`
    #[tactic(auto, unfolding(query_grammar::specs::Grammar::call))]
    pub fn call(&self, cursor: &mut Cursor<'_, Word>) -> Result<NamedExpr, Stop>
        requires { Nests forms named_tree self.now.wide self.now.depth (F.pre self.now.inner)
            (F.post self.now.inner) }
        ensures { ReadsAs named_tree
            (reader g.call self.now.wide self.now.depth cursor.old.rest.now) result
            cursor.new.rest.now }
    {
        if self.depth == 0 {
            return Err(Stop::Refused);
        }
        let word = cursor.expect(Class::CallName)?;
        let arguments = if cursor.sees(Kind::OpenParen) {
            self.arguments(cursor)?
        } else {
            self.arity(cursor)?
        };
        call_of(self.alloc, word, arguments)
    }

    /// `"function" "("`, in the wider grammar.
    #[tactic(auto, unfolding(query_grammar::specs::Grammar::inline_function))]
    pub fn inline_function(&self, cursor: &mut Cursor<'_, Word>) -> Result<NamedExpr, Stop>
        requires { Nests forms named_tree self.now.wide self.now.depth (F.pre self.now.inner)
            (F.post self.now.inner) }
        ensures { ReadsAs named_tree
            (reader g.inline_function self.now.wide self.now.depth cursor.old.rest.now) result
            cursor.new.rest.now }
    {
        if !self.wide {
            return Err(Stop::Refused);
        }
        let word = cursor.expect(Kind::Function)?;
        cursor.expect(Kind::OpenParen)?;
        Ok(unused(word))
    }

    /// A primary expression.
    #[tactic(auto, unfolding(query_grammar::specs::Grammar::primary))]
    pub fn primary(&self, cursor: &mut Cursor<'_, Word>) -> Result<NamedExpr, Stop>
        requires { Nests forms named_tree self.now.wide self.now.depth (F.pre self.now.inner)
            (F.post self.now.inner) }
        ensures { ReadsAs named_tree
            (reader g.primary self.now.wide self.now.depth cursor.old.rest.now) result
            cursor.new.rest.now }
    {
        let room = self.depth > 0;
        if cursor.sees(Class::Literal { wide: self.wide }) {
            self.literal(cursor)
        } else if cursor.sees_if(room, Kind::OpenParen) {
            self.paren(cursor)
        } else if cursor.sees_if(room, Kind::OpenBrace) {
            self.object(cursor)
        } else if cursor.sees_if(room, Kind::OpenMerge) {
            self.merge(cursor)
        } else if cursor.sees_if(room, Kind::OpenBracket) {
            self.array(cursor)
        } else if cursor.sees_if(room, Class::CallName) {
            self.call(cursor)
        } else {
            self.inline_function(cursor)
        }
    }
}
