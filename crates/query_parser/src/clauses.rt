//! Clauses.

ghost use Rattle.grammar_parts.specs.Nests.{Nests};
ghost use Rattle.grammar_parts.specs.Reads.{ReadsAs};
ghost use Rattle.query_tree.specs.NamedViews.{named_tree, named_clause, named_group_var, named_order_key};
ghost use Rattle.query_grammar.specs.Grammar as g;
ghost use Rattle.query_grammar.specs.Grammar.{forms};
ghost use Rattle.expression_parser.specs.Views.{reader};
ghost use Rattle.query_parser.specs.Views as view;

use crate::nodes::{NamedClause, count_of, for_of, group_of, keep_of, let_of, order_of};
use crate::values::{is_descending, is_greatest, one};
use expression_parser::types::{as_type, variable};
use expression_parser::{Parts, or_give_up};
use grammar_parts::{Cursor, Stop, list, repeat};
use item_tree::Str;
use query_grammar::{Class, Kind, Part, Word};
use query_tree::{GroupVar, NamedExpr, OrderKey, Placed};
use std::alloc::Global;

/// A reader of clauses and statements, each production by a method of its own.
#[derive(Clone, Copy)]
pub struct Statements<F> {
    pub parts: Parts<F>,
}

impl<F: Fn(Global, bool, usize, Part, &mut Cursor<'_, Word>) -> Result<NamedExpr, Stop>> Statements<
    F,
> {
    /// `[ "allowing" "empty" ]`
    #[tactic(auto, unfolding(query_grammar::specs::Grammar::allowing))]
    pub fn allowing(&self, cursor: &mut Cursor<'_, Word>) -> Result<bool, Stop>
        requires { Nests forms named_tree self.now.parts.wide self.now.parts.depth
            (F.pre self.now.parts.inner) (F.post self.now.parts.inner) }
        ensures { ReadsAs (λ x. x)
            (reader g.allowing self.now.parts.wide self.now.parts.depth cursor.old.rest.now)
            result cursor.new.rest.now }
    {
        if !cursor.sees(Kind::Allowing) {
            return Ok(false);
        }
        cursor.expect(Kind::Allowing)?;
        cursor.expect(Kind::Empty)?;
        Ok(true)
    }

    /// `[ "at" Var ]`
    #[tactic(auto, unfolding(query_grammar::specs::Grammar::at_variable))]
    pub fn at_variable(&self, cursor: &mut Cursor<'_, Word>) -> Result<Option<Placed<Str>>, Stop>
        requires { Nests forms named_tree self.now.parts.wide self.now.parts.depth
            (F.pre self.now.parts.inner) (F.post self.now.parts.inner) }
        ensures { ReadsAs (λ x. x)
            (reader g.at_variable self.now.parts.wide self.now.parts.depth cursor.old.rest.now)
            result cursor.new.rest.now }
    {
        if !cursor.sees(Kind::At) {
            return Ok(None);
        }
        cursor.expect(Kind::At)?;
        let variable = variable(self.parts.alloc, cursor)?;
        Ok(Some(variable))
    }

    /// `ForVar`
    #[tactic(auto, unfolding(query_grammar::specs::Grammar::for_var))]
    pub fn for_var(&self, cursor: &mut Cursor<'_, Word>) -> Result<NamedClause, Stop>
        requires { Nests forms named_tree self.now.parts.wide self.now.parts.depth
            (F.pre self.now.parts.inner) (F.post self.now.parts.inner) }
        ensures { ReadsAs named_clause
            (reader g.for_var self.now.parts.wide self.now.parts.depth cursor.old.rest.now) result
            cursor.new.rest.now }
    {
        let variable = variable(self.parts.alloc, cursor)?;
        let of = or_give_up!(variable, as_type(self.parts.alloc, cursor));
        let allowing_empty = or_give_up!((variable, of), self.allowing(cursor));
        let at = or_give_up!((variable, of), self.at_variable(cursor));
        or_give_up!((variable, of, at), cursor.expect(Kind::In));
        let source = or_give_up!((variable, of, at), self.parts.inside(Part::Single, cursor));
        Ok(for_of(variable, of, allowing_empty, at, source))
    }

    /// `ForVar { "," ForVar }`
    #[tactic(auto, unfolding(query_grammar::specs::Grammar::for_vars))]
    pub fn for_vars(&self, cursor: &mut Cursor<'_, Word>) -> Result<Vec<NamedClause>, Stop>
        requires { Nests forms named_tree self.now.parts.wide self.now.parts.depth
            (F.pre self.now.parts.inner) (F.post self.now.parts.inner) }
        ensures { ReadsAs view.clauses
            (reader g.for_vars self.now.parts.wide self.now.parts.depth cursor.old.rest.now)
            result cursor.new.rest.now }
    {
        list(self.parts.alloc, Kind::Comma, |at| self.for_var(at), cursor)
    }

    /// `"tumbling" | "sliding"`, in the wider grammar.
    #[tactic(auto, unfolding(query_grammar::specs::Grammar::window))]
    pub fn window(&self, cursor: &mut Cursor<'_, Word>) -> Result<Vec<NamedClause>, Stop>
        requires { Nests forms named_tree self.now.parts.wide self.now.parts.depth
            (F.pre self.now.parts.inner) (F.post self.now.parts.inner) }
        ensures { ReadsAs view.clauses
            (reader g.window self.now.parts.wide self.now.parts.depth cursor.old.rest.now) result
            cursor.new.rest.now }
    {
        if !self.parts.wide {
            return Err(Stop::Refused);
        }
        cursor.expect(Class::Window)?;
        Ok(Vec::new(self.parts.alloc))
    }

    /// `For`
    #[tactic(auto, unfolding(query_grammar::specs::Grammar::for_clause))]
    pub fn for_clause(&self, cursor: &mut Cursor<'_, Word>) -> Result<(u32, Vec<NamedClause>), Stop>
        requires { Nests forms named_tree self.now.parts.wide self.now.parts.depth
            (F.pre self.now.parts.inner) (F.post self.now.parts.inner) }
        ensures { ReadsAs view.placed_clauses
            (reader g.for_clause self.now.parts.wide self.now.parts.depth cursor.old.rest.now)
            result cursor.new.rest.now }
    {
        let place = cursor.expect(Kind::For)?.place;
        if cursor.sees(Kind::Var) {
            let clauses = self.for_vars(cursor)?;
            return Ok((place, clauses));
        }
        let clauses = self.window(cursor)?;
        Ok((place, clauses))
    }

    /// `LetVar`
    #[tactic(auto, unfolding(query_grammar::specs::Grammar::let_var))]
    pub fn let_var(&self, cursor: &mut Cursor<'_, Word>) -> Result<NamedClause, Stop>
        requires { Nests forms named_tree self.now.parts.wide self.now.parts.depth
            (F.pre self.now.parts.inner) (F.post self.now.parts.inner) }
        ensures { ReadsAs named_clause
            (reader g.let_var self.now.parts.wide self.now.parts.depth cursor.old.rest.now) result
            cursor.new.rest.now }
    {
        let variable = variable(self.parts.alloc, cursor)?;
        let of = or_give_up!(variable, as_type(self.parts.alloc, cursor));
        or_give_up!((variable, of), cursor.expect(Kind::Assign));
        let value = or_give_up!((variable, of), self.parts.inside(Part::Single, cursor));
        Ok(let_of(variable, of, value))
    }

    /// `LetVar { "," LetVar }`
    #[tactic(auto, unfolding(query_grammar::specs::Grammar::let_vars))]
    pub fn let_vars(&self, cursor: &mut Cursor<'_, Word>) -> Result<Vec<NamedClause>, Stop>
        requires { Nests forms named_tree self.now.parts.wide self.now.parts.depth
            (F.pre self.now.parts.inner) (F.post self.now.parts.inner) }
        ensures { ReadsAs view.clauses
            (reader g.let_vars self.now.parts.wide self.now.parts.depth cursor.old.rest.now)
            result cursor.new.rest.now }
    {
        list(self.parts.alloc, Kind::Comma, |at| self.let_var(at), cursor)
    }

    /// `For | Let`
    #[tactic(auto, unfolding(query_grammar::specs::Grammar::first_clause, query_grammar::specs::Grammar::let_clause))]
    pub fn first_clause(
        &self,
        cursor: &mut Cursor<'_, Word>,
    ) -> Result<(u32, Vec<NamedClause>), Stop>
        requires { Nests forms named_tree self.now.parts.wide self.now.parts.depth
            (F.pre self.now.parts.inner) (F.post self.now.parts.inner) }
        ensures { ReadsAs view.placed_clauses
            (reader g.first_clause self.now.parts.wide self.now.parts.depth cursor.old.rest.now)
            result cursor.new.rest.now }
    {
        if cursor.sees(Kind::For) {
            return self.for_clause(cursor);
        }
        let place = cursor.expect(Kind::Let)?.place;
        let clauses = self.let_vars(cursor)?;
        Ok((place, clauses))
    }

    /// `Where`
    #[tactic(auto, unfolding(query_grammar::specs::Grammar::where_clause))]
    pub fn where_clause(&self, cursor: &mut Cursor<'_, Word>) -> Result<NamedClause, Stop>
        requires { Nests forms named_tree self.now.parts.wide self.now.parts.depth
            (F.pre self.now.parts.inner) (F.post self.now.parts.inner) }
        ensures { ReadsAs named_clause
            (reader g.where_clause self.now.parts.wide self.now.parts.depth cursor.old.rest.now)
            result cursor.new.rest.now }
    {
        let place = cursor.expect(Kind::Where)?.place;
        let test = self.parts.inside(Part::Single, cursor)?;
        Ok(keep_of(place, test))
    }

    /// `GroupVar`
    #[tactic(auto, unfolding(query_grammar::specs::Grammar::group_var, query_grammar::specs::Grammar::group_value))]
    pub fn group_var(&self, cursor: &mut Cursor<'_, Word>) -> Result<GroupVar<Str, NamedExpr>, Stop>
        requires { Nests forms named_tree self.now.parts.wide self.now.parts.depth
            (F.pre self.now.parts.inner) (F.post self.now.parts.inner) }
        ensures { ReadsAs named_group_var
            (reader g.group_var self.now.parts.wide self.now.parts.depth cursor.old.rest.now)
            result cursor.new.rest.now }
    {
        let variable = variable(self.parts.alloc, cursor)?;
        if !cursor.sees(Kind::Assign) {
            return Ok(GroupVar::Stream { variable });
        }
        or_give_up!(variable, cursor.expect(Kind::Assign));
        let value = or_give_up!(variable, self.parts.inside(Part::Single, cursor));
        Ok(GroupVar::Computed { variable, value })
    }

    /// `GroupVar { "," GroupVar }`
    #[tactic(auto, unfolding(query_grammar::specs::Grammar::group_vars))]
    pub fn group_vars(
        &self,
        cursor: &mut Cursor<'_, Word>,
    ) -> Result<Vec<GroupVar<Str, NamedExpr>>, Stop>
        requires { Nests forms named_tree self.now.parts.wide self.now.parts.depth
            (F.pre self.now.parts.inner) (F.post self.now.parts.inner) }
        ensures { ReadsAs view.group_vars
            (reader g.group_vars self.now.parts.wide self.now.parts.depth cursor.old.rest.now)
            result cursor.new.rest.now }
    {
        list(
            self.parts.alloc,
            Kind::Comma,
            |at| self.group_var(at),
            cursor,
        )
    }

    /// `Group`
    #[tactic(auto, unfolding(query_grammar::specs::Grammar::group_clause))]
    pub fn group_clause(&self, cursor: &mut Cursor<'_, Word>) -> Result<NamedClause, Stop>
        requires { Nests forms named_tree self.now.parts.wide self.now.parts.depth
            (F.pre self.now.parts.inner) (F.post self.now.parts.inner) }
        ensures { ReadsAs named_clause
            (reader g.group_clause self.now.parts.wide self.now.parts.depth cursor.old.rest.now)
            result cursor.new.rest.now }
    {
        let place = cursor.expect(Kind::Group)?.place;
        cursor.expect(Kind::By)?;
        let keys = self.group_vars(cursor)?;
        Ok(group_of(place, keys))
    }

    /// `[ "empty" ( "least" | "greatest" ) ]`, whether the empty value is put above all.
    #[tactic(auto, unfolding(query_grammar::specs::Grammar::empty_order))]
    pub fn empty_order(&self, cursor: &mut Cursor<'_, Word>) -> Result<bool, Stop>
        requires { Nests forms named_tree self.now.parts.wide self.now.parts.depth
            (F.pre self.now.parts.inner) (F.post self.now.parts.inner) }
        ensures { ReadsAs (λ x. x)
            (reader g.empty_order self.now.parts.wide self.now.parts.depth cursor.old.rest.now)
            result cursor.new.rest.now }
    {
        if !cursor.sees(Kind::Empty) {
            return Ok(false);
        }
        cursor.expect(Kind::Empty)?;
        let word = cursor.expect(Class::Extreme)?;
        Ok(is_greatest(word.kind))
    }

    /// `Key`
    #[tactic(auto, unfolding(query_grammar::specs::Grammar::order_key, query_grammar::specs::Grammar::direction))]
    pub fn order_key(&self, cursor: &mut Cursor<'_, Word>) -> Result<OrderKey<NamedExpr>, Stop>
        requires { Nests forms named_tree self.now.parts.wide self.now.parts.depth
            (F.pre self.now.parts.inner) (F.post self.now.parts.inner) }
        ensures { ReadsAs named_order_key
            (reader g.order_key self.now.parts.wide self.now.parts.depth cursor.old.rest.now)
            result cursor.new.rest.now }
    {
        let value = self.parts.inside(Part::Single, cursor)?;
        if !cursor.sees(Class::Direction) {
            let empty_greatest = or_give_up!(value, self.empty_order(cursor));
            return Ok(OrderKey {
                value,
                descending: false,
                empty_greatest,
            });
        }
        let word = or_give_up!(value, cursor.expect(Class::Direction));
        let empty_greatest = or_give_up!(value, self.empty_order(cursor));
        Ok(OrderKey {
            value,
            descending: is_descending(word.kind),
            empty_greatest,
        })
    }

    /// `Key { "," Key }`
    #[tactic(auto, unfolding(query_grammar::specs::Grammar::order_list))]
    pub fn order_list(
        &self,
        cursor: &mut Cursor<'_, Word>,
    ) -> Result<Vec<OrderKey<NamedExpr>>, Stop>
        requires { Nests forms named_tree self.now.parts.wide self.now.parts.depth
            (F.pre self.now.parts.inner) (F.post self.now.parts.inner) }
        ensures { ReadsAs view.order_keys
            (reader g.order_list self.now.parts.wide self.now.parts.depth cursor.old.rest.now)
            result cursor.new.rest.now }
    {
        list(
            self.parts.alloc,
            Kind::Comma,
            |at| self.order_key(at),
            cursor,
        )
    }

    /// `"by" Key { "," Key }`
    #[tactic(auto, unfolding(query_grammar::specs::Grammar::order_keys))]
    pub fn order_keys(
        &self,
        cursor: &mut Cursor<'_, Word>,
    ) -> Result<Vec<OrderKey<NamedExpr>>, Stop>
        requires { Nests forms named_tree self.now.parts.wide self.now.parts.depth
            (F.pre self.now.parts.inner) (F.post self.now.parts.inner) }
        ensures { ReadsAs view.order_keys
            (reader g.order_keys self.now.parts.wide self.now.parts.depth cursor.old.rest.now)
            result cursor.new.rest.now }
    {
        cursor.expect(Kind::By)?;
        self.order_list(cursor)
    }

    /// `Order`
    #[tactic(auto, unfolding(query_grammar::specs::Grammar::order_clause))]
    pub fn order_clause(&self, cursor: &mut Cursor<'_, Word>) -> Result<NamedClause, Stop>
        requires { Nests forms named_tree self.now.parts.wide self.now.parts.depth
            (F.pre self.now.parts.inner) (F.post self.now.parts.inner) }
        ensures { ReadsAs named_clause
            (reader g.order_clause self.now.parts.wide self.now.parts.depth cursor.old.rest.now)
            result cursor.new.rest.now }
    {
        if cursor.sees(Kind::Stable) {
            let place = cursor.expect(Kind::Stable)?.place;
            cursor.expect(Kind::Order)?;
            let keys = self.order_keys(cursor)?;
            return Ok(order_of(place, true, keys));
        }
        let place = cursor.expect(Kind::Order)?.place;
        let keys = self.order_keys(cursor)?;
        Ok(order_of(place, false, keys))
    }

    /// `Count`
    #[tactic(auto, unfolding(query_grammar::specs::Grammar::count_clause))]
    pub fn count_clause(&self, cursor: &mut Cursor<'_, Word>) -> Result<NamedClause, Stop>
        requires { Nests forms named_tree self.now.parts.wide self.now.parts.depth
            (F.pre self.now.parts.inner) (F.post self.now.parts.inner) }
        ensures { ReadsAs named_clause
            (reader g.count_clause self.now.parts.wide self.now.parts.depth cursor.old.rest.now)
            result cursor.new.rest.now }
    {
        let place = cursor.expect(Kind::Count)?.place;
        let variable = variable(self.parts.alloc, cursor)?;
        Ok(count_of(place, variable))
    }

    /// `Where | Group | Order | Count`
    #[tactic(auto, unfolding(query_grammar::specs::Grammar::one_clause))]
    pub fn one_clause(&self, cursor: &mut Cursor<'_, Word>) -> Result<NamedClause, Stop>
        requires { Nests forms named_tree self.now.parts.wide self.now.parts.depth
            (F.pre self.now.parts.inner) (F.post self.now.parts.inner) }
        ensures { ReadsAs named_clause
            (reader g.one_clause self.now.parts.wide self.now.parts.depth cursor.old.rest.now)
            result cursor.new.rest.now }
    {
        if cursor.sees(Kind::Where) {
            self.where_clause(cursor)
        } else if cursor.sees(Kind::Group) {
            self.group_clause(cursor)
        } else if cursor.sees(Class::OrderClause) {
            self.order_clause(cursor)
        } else {
            self.count_clause(cursor)
        }
    }

    /// `For | Let | Where | Group | Order | Count`
    #[tactic(auto, unfolding(query_grammar::specs::Grammar::clause))]
    pub fn clause(&self, cursor: &mut Cursor<'_, Word>) -> Result<Vec<NamedClause>, Stop>
        requires { Nests forms named_tree self.now.parts.wide self.now.parts.depth
            (F.pre self.now.parts.inner) (F.post self.now.parts.inner) }
        ensures { ReadsAs view.clauses
            (reader g.clause self.now.parts.wide self.now.parts.depth cursor.old.rest.now) result
            cursor.new.rest.now }
    {
        if cursor.sees(Class::FirstClause) {
            let (_, clauses) = self.first_clause(cursor)?;
            return Ok(clauses);
        }
        let clause = self.one_clause(cursor)?;
        one(self.parts.alloc, clause)
    }

    /// `{ For | Let | Where | Group | Order | Count }`
    #[tactic(auto, unfolding(query_grammar::specs::Grammar::clauses))]
    pub fn clauses(&self, cursor: &mut Cursor<'_, Word>) -> Result<Vec<Vec<NamedClause>>, Stop>
        requires { Nests forms named_tree self.now.parts.wide self.now.parts.depth
            (F.pre self.now.parts.inner) (F.post self.now.parts.inner) }
        ensures { ReadsAs view.clause_lists
            (reader g.clauses self.now.parts.wide self.now.parts.depth cursor.old.rest.now) result
            cursor.new.rest.now }
    {
        repeat(
            self.parts.alloc,
            Class::Clause,
            |at| self.clause(at),
            cursor,
        )
    }
}
