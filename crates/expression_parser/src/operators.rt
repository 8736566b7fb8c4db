//! Operators, from the tightest.

ghost use Rattle.grammar_parts.specs.Nests.{Nests};
ghost use Rattle.grammar_parts.specs.Reads.{ReadsAs};
ghost use Rattle.query_tree.specs.NamedViews.{named_tree, named_operand, named_term, named_factor};
ghost use Rattle.query_grammar.specs.Grammar as g;
ghost use Rattle.query_grammar.specs.Grammar.{forms};
ghost use Rattle.expression_parser.specs.Views as view;
ghost use Rattle.expression_parser.specs.Views.{reader};

use crate::gather::boxed;
use crate::nodes::{
    Chain, TypeTest, chained, compare_of, product_of, range_of, sign_of, sum_of, typed,
};
use crate::parts::Parts;
use crate::types::{seq_type, single_type};
use crate::values::{compare_op, product_op, sum_op};
use grammar_parts::{Cursor, Stop, repeat};
use query_grammar::{Class, Kind, Part, Word};
use query_tree::{
    CompareOp, Expr, Factor, Kind as Form, NamedExpr, Operand, Placed, SumOp, Term, TypeName,
};
use std::alloc::Global;

impl<F: Fn(Global, bool, usize, Part, &mut Cursor<'_, Word>) -> Result<NamedExpr, Stop>> Parts<F> {
    /// `"!" Postfix`
    #[tactic(auto, unfolding(query_grammar::specs::Grammar::mapped_operand))]
    pub fn mapped_operand(&self, cursor: &mut Cursor<'_, Word>) -> Result<Operand<NamedExpr>, Stop>
        requires { Nests forms named_tree self.now.wide self.now.depth (F.pre self.now.inner)
            (F.post self.now.inner) }
        ensures { ReadsAs named_operand
            (reader g.mapped_operand self.now.wide self.now.depth cursor.old.rest.now) result
            cursor.new.rest.now }
    {
        let place = cursor.expect(Kind::Bang)?.place;
        let value = self.postfix(cursor)?;
        Ok(Operand { place, value })
    }

    /// `{ "!" Postfix }`
    #[tactic(auto, unfolding(query_grammar::specs::Grammar::mapped_operands))]
    pub fn mapped_operands(
        &self,
        cursor: &mut Cursor<'_, Word>,
    ) -> Result<Vec<Operand<NamedExpr>>, Stop>
        requires { Nests forms named_tree self.now.wide self.now.depth (F.pre self.now.inner)
            (F.post self.now.inner) }
        ensures { ReadsAs view.operands
            (reader g.mapped_operands self.now.wide self.now.depth cursor.old.rest.now) result
            cursor.new.rest.now }
    {
        repeat(self.alloc, Kind::Bang, |at| self.mapped_operand(at), cursor)
    }

    /// `Map`
    #[tactic(auto, unfolding(query_grammar::specs::Grammar::map_level))]
    pub fn map_level(&self, cursor: &mut Cursor<'_, Word>) -> Result<NamedExpr, Stop>
        requires { Nests forms named_tree self.now.wide self.now.depth (F.pre self.now.inner)
            (F.post self.now.inner) }
        ensures { ReadsAs named_tree
            (reader g.map_level self.now.wide self.now.depth cursor.old.rest.now) result
            cursor.new.rest.now }
    {
        let first = self.postfix(cursor)?;
        let rest = or_give_up!(first, self.mapped_operands(cursor));
        chained(self.alloc, Chain::Map, first, rest)
    }

    /// `"+" | "-"`
    #[tactic(auto, unfolding(query_grammar::specs::Grammar::sign_mark))]
    pub fn sign_mark(&self, cursor: &mut Cursor<'_, Word>) -> Result<(SumOp, u32), Stop>
        requires { Nests forms named_tree self.now.wide self.now.depth (F.pre self.now.inner)
            (F.post self.now.inner) }
        ensures { ReadsAs (λ x. x)
            (reader g.sign_mark self.now.wide self.now.depth cursor.old.rest.now) result
            cursor.new.rest.now }
    {
        let mark = cursor.expect(Class::SumOp)?;
        Ok((sum_op(mark.kind), mark.place))
    }

    /// `{ "+" | "-" }`
    #[tactic(auto, unfolding(query_grammar::specs::Grammar::sign_marks))]
    pub fn sign_marks(&self, cursor: &mut Cursor<'_, Word>) -> Result<Vec<(SumOp, u32)>, Stop>
        requires { Nests forms named_tree self.now.wide self.now.depth (F.pre self.now.inner)
            (F.post self.now.inner) }
        ensures { ReadsAs (λ v. v.items)
            (reader g.sign_marks self.now.wide self.now.depth cursor.old.rest.now) result
            cursor.new.rest.now }
    {
        repeat(self.alloc, Class::SumOp, |at| self.sign_mark(at), cursor)
    }

    /// `Sign`
    #[tactic(auto, unfolding(query_grammar::specs::Grammar::sign))]
    pub fn sign(&self, cursor: &mut Cursor<'_, Word>) -> Result<NamedExpr, Stop>
        requires { Nests forms named_tree self.now.wide self.now.depth (F.pre self.now.inner)
            (F.post self.now.inner) }
        ensures { ReadsAs named_tree
            (reader g.sign self.now.wide self.now.depth cursor.old.rest.now) result
            cursor.new.rest.now }
    {
        let signs = self.sign_marks(cursor)?;
        let operand = or_give_up!(signs, self.map_level(cursor));
        sign_of(self.alloc, signs, operand)
    }

    /// A type that stands behind this word and `as`, with the place of the word.
    fn single_behind(
        &self,
        word: Kind,
        cursor: &mut Cursor<'_, Word>,
    ) -> Result<Option<(u32, Placed<TypeName>)>, Stop>
        ensures { ReadsAs (λ x. x) ((view.single_behind word).read cursor.old.rest.now) result
            cursor.new.rest.now }
    {
        if !cursor.sees(word) {
            return Ok(None);
        }
        let place = cursor.expect(word)?.place;
        cursor.expect(Kind::As)?;
        let name = single_type(self.alloc, cursor)?;
        Ok(Some((place, name)))
    }

    /// A type of sequences that stands behind these words, with the place of the first.
    fn type_behind(
        &self,
        word: Kind,
        second: Kind,
        cursor: &mut Cursor<'_, Word>,
    ) -> Result<Option<(u32, Placed<TypeName>)>, Stop>
        ensures { ReadsAs (λ x. x) ((view.type_behind word second).read cursor.old.rest.now)
            result cursor.new.rest.now }
    {
        if !cursor.sees(word) {
            return Ok(None);
        }
        let place = cursor.expect(word)?.place;
        cursor.expect(second)?;
        let name = seq_type(self.alloc, cursor)?;
        Ok(Some((place, name)))
    }

    /// `Cast`
    #[tactic(auto, unfolding(query_grammar::specs::Grammar::cast, query_grammar::specs::Grammar::cast_type))]
    pub fn cast(&self, cursor: &mut Cursor<'_, Word>) -> Result<NamedExpr, Stop>
        requires { Nests forms named_tree self.now.wide self.now.depth (F.pre self.now.inner)
            (F.post self.now.inner) }
        ensures { ReadsAs named_tree
            (reader g.cast self.now.wide self.now.depth cursor.old.rest.now) result
            cursor.new.rest.now }
    {
        let operand = self.sign(cursor)?;
        let to = or_give_up!(operand, self.single_behind(Kind::Cast, cursor));
        typed(self.alloc, TypeTest::Cast, operand, to)
    }

    /// `Castable`
    #[tactic(auto, unfolding(query_grammar::specs::Grammar::castable, query_grammar::specs::Grammar::castable_type))]
    pub fn castable(&self, cursor: &mut Cursor<'_, Word>) -> Result<NamedExpr, Stop>
        requires { Nests forms named_tree self.now.wide self.now.depth (F.pre self.now.inner)
            (F.post self.now.inner) }
        ensures { ReadsAs named_tree
            (reader g.castable self.now.wide self.now.depth cursor.old.rest.now) result
            cursor.new.rest.now }
    {
        let operand = self.cast(cursor)?;
        let to = or_give_up!(operand, self.single_behind(Kind::Castable, cursor));
        typed(self.alloc, TypeTest::Castable, operand, to)
    }

    /// `Treat`
    #[tactic(auto, unfolding(query_grammar::specs::Grammar::treat, query_grammar::specs::Grammar::treat_type))]
    pub fn treat(&self, cursor: &mut Cursor<'_, Word>) -> Result<NamedExpr, Stop>
        requires { Nests forms named_tree self.now.wide self.now.depth (F.pre self.now.inner)
            (F.post self.now.inner) }
        ensures { ReadsAs named_tree
            (reader g.treat self.now.wide self.now.depth cursor.old.rest.now) result
            cursor.new.rest.now }
    {
        let operand = self.castable(cursor)?;
        let to = or_give_up!(operand, self.type_behind(Kind::Treat, Kind::As, cursor));
        typed(self.alloc, TypeTest::Treat, operand, to)
    }

    /// `Instance`
    #[tactic(auto, unfolding(query_grammar::specs::Grammar::instance, query_grammar::specs::Grammar::instance_type))]
    pub fn instance(&self, cursor: &mut Cursor<'_, Word>) -> Result<NamedExpr, Stop>
        requires { Nests forms named_tree self.now.wide self.now.depth (F.pre self.now.inner)
            (F.post self.now.inner) }
        ensures { ReadsAs named_tree
            (reader g.instance self.now.wide self.now.depth cursor.old.rest.now) result
            cursor.new.rest.now }
    {
        let operand = self.treat(cursor)?;
        let of = or_give_up!(operand, self.type_behind(Kind::Instance, Kind::Of, cursor));
        typed(self.alloc, TypeTest::Instance, operand, of)
    }

    /// `( "*" | "div" | "idiv" | "mod" ) Instance`
    #[tactic(auto, unfolding(query_grammar::specs::Grammar::factor))]
    pub fn factor(&self, cursor: &mut Cursor<'_, Word>) -> Result<Factor<NamedExpr>, Stop>
        requires { Nests forms named_tree self.now.wide self.now.depth (F.pre self.now.inner)
            (F.post self.now.inner) }
        ensures { ReadsAs named_factor
            (reader g.factor self.now.wide self.now.depth cursor.old.rest.now) result
            cursor.new.rest.now }
    {
        let mark = cursor.expect(Class::ProductOp)?;
        let value = self.instance(cursor)?;
        Ok(Factor {
            op: product_op(mark.kind),
            place: mark.place,
            value,
        })
    }

    /// The further factors.
    #[tactic(auto, unfolding(query_grammar::specs::Grammar::factors))]
    pub fn factors(&self, cursor: &mut Cursor<'_, Word>) -> Result<Vec<Factor<NamedExpr>>, Stop>
        requires { Nests forms named_tree self.now.wide self.now.depth (F.pre self.now.inner)
            (F.post self.now.inner) }
        ensures { ReadsAs view.factors
            (reader g.factors self.now.wide self.now.depth cursor.old.rest.now) result
            cursor.new.rest.now }
    {
        repeat(self.alloc, Class::ProductOp, |at| self.factor(at), cursor)
    }

    /// `Product`
    #[tactic(auto, unfolding(query_grammar::specs::Grammar::product))]
    pub fn product(&self, cursor: &mut Cursor<'_, Word>) -> Result<NamedExpr, Stop>
        requires { Nests forms named_tree self.now.wide self.now.depth (F.pre self.now.inner)
            (F.post self.now.inner) }
        ensures { ReadsAs named_tree
            (reader g.product self.now.wide self.now.depth cursor.old.rest.now) result
            cursor.new.rest.now }
    {
        let first = self.instance(cursor)?;
        let rest = or_give_up!(first, self.factors(cursor));
        product_of(self.alloc, first, rest)
    }

    /// `( "+" | "-" ) Product`
    #[tactic(auto, unfolding(query_grammar::specs::Grammar::term))]
    pub fn term(&self, cursor: &mut Cursor<'_, Word>) -> Result<Term<NamedExpr>, Stop>
        requires { Nests forms named_tree self.now.wide self.now.depth (F.pre self.now.inner)
            (F.post self.now.inner) }
        ensures { ReadsAs named_term
            (reader g.term self.now.wide self.now.depth cursor.old.rest.now) result
            cursor.new.rest.now }
    {
        let mark = cursor.expect(Class::SumOp)?;
        let value = self.product(cursor)?;
        Ok(Term {
            op: sum_op(mark.kind),
            place: mark.place,
            value,
        })
    }

    /// The further terms.
    #[tactic(auto, unfolding(query_grammar::specs::Grammar::terms))]
    pub fn terms(&self, cursor: &mut Cursor<'_, Word>) -> Result<Vec<Term<NamedExpr>>, Stop>
        requires { Nests forms named_tree self.now.wide self.now.depth (F.pre self.now.inner)
            (F.post self.now.inner) }
        ensures { ReadsAs view.terms
            (reader g.terms self.now.wide self.now.depth cursor.old.rest.now) result
            cursor.new.rest.now }
    {
        repeat(self.alloc, Class::SumOp, |at| self.term(at), cursor)
    }

    /// `Sum`
    #[tactic(auto, unfolding(query_grammar::specs::Grammar::sum))]
    pub fn sum(&self, cursor: &mut Cursor<'_, Word>) -> Result<NamedExpr, Stop>
        requires { Nests forms named_tree self.now.wide self.now.depth (F.pre self.now.inner)
            (F.post self.now.inner) }
        ensures { ReadsAs named_tree (reader g.sum self.now.wide self.now.depth cursor.old.rest.now)
            result cursor.new.rest.now }
    {
        let first = self.product(cursor)?;
        let rest = or_give_up!(first, self.terms(cursor));
        sum_of(self.alloc, first, rest)
    }

    /// `[ "to" Sum ]`
    #[tactic(auto, unfolding(query_grammar::specs::Grammar::range_end))]
    pub fn range_end(&self, cursor: &mut Cursor<'_, Word>) -> Result<Option<(u32, NamedExpr)>, Stop>
        requires { Nests forms named_tree self.now.wide self.now.depth (F.pre self.now.inner)
            (F.post self.now.inner) }
        ensures { ReadsAs view.range_end
            (reader g.range_end self.now.wide self.now.depth cursor.old.rest.now) result
            cursor.new.rest.now }
    {
        if !cursor.sees(Kind::To) {
            return Ok(None);
        }
        let place = cursor.expect(Kind::To)?.place;
        let value = self.sum(cursor)?;
        Ok(Some((place, value)))
    }

    /// `Range`
    #[tactic(auto, unfolding(query_grammar::specs::Grammar::range))]
    pub fn range(&self, cursor: &mut Cursor<'_, Word>) -> Result<NamedExpr, Stop>
        requires { Nests forms named_tree self.now.wide self.now.depth (F.pre self.now.inner)
            (F.post self.now.inner) }
        ensures { ReadsAs named_tree
            (reader g.range self.now.wide self.now.depth cursor.old.rest.now) result
            cursor.new.rest.now }
    {
        let left = self.sum(cursor)?;
        let right = or_give_up!(left, self.range_end(cursor));
        range_of(self.alloc, left, right)
    }

    /// `"||" Range`
    #[tactic(auto, unfolding(query_grammar::specs::Grammar::concat_operand))]
    pub fn concat_operand(&self, cursor: &mut Cursor<'_, Word>) -> Result<Operand<NamedExpr>, Stop>
        requires { Nests forms named_tree self.now.wide self.now.depth (F.pre self.now.inner)
            (F.post self.now.inner) }
        ensures { ReadsAs named_operand
            (reader g.concat_operand self.now.wide self.now.depth cursor.old.rest.now) result
            cursor.new.rest.now }
    {
        let place = cursor.expect(Kind::Bars)?.place;
        let value = self.range(cursor)?;
        Ok(Operand { place, value })
    }

    /// `{ "||" Range }`
    #[tactic(auto, unfolding(query_grammar::specs::Grammar::concat_operands))]
    pub fn concat_operands(
        &self,
        cursor: &mut Cursor<'_, Word>,
    ) -> Result<Vec<Operand<NamedExpr>>, Stop>
        requires { Nests forms named_tree self.now.wide self.now.depth (F.pre self.now.inner)
            (F.post self.now.inner) }
        ensures { ReadsAs view.operands
            (reader g.concat_operands self.now.wide self.now.depth cursor.old.rest.now) result
            cursor.new.rest.now }
    {
        repeat(self.alloc, Kind::Bars, |at| self.concat_operand(at), cursor)
    }

    /// `Concat`
    #[tactic(auto, unfolding(query_grammar::specs::Grammar::concat))]
    pub fn concat(&self, cursor: &mut Cursor<'_, Word>) -> Result<NamedExpr, Stop>
        requires { Nests forms named_tree self.now.wide self.now.depth (F.pre self.now.inner)
            (F.post self.now.inner) }
        ensures { ReadsAs named_tree
            (reader g.concat self.now.wide self.now.depth cursor.old.rest.now) result
            cursor.new.rest.now }
    {
        let first = self.range(cursor)?;
        let rest = or_give_up!(first, self.concat_operands(cursor));
        chained(self.alloc, Chain::Concat, first, rest)
    }

    /// `CmpOp Concat`
    #[tactic(auto, unfolding(query_grammar::specs::Grammar::compared))]
    pub fn compared(
        &self,
        cursor: &mut Cursor<'_, Word>,
    ) -> Result<(CompareOp, u32, NamedExpr), Stop>
        requires { Nests forms named_tree self.now.wide self.now.depth (F.pre self.now.inner)
            (F.post self.now.inner) }
        ensures { ReadsAs view.compared
            (reader g.compared self.now.wide self.now.depth cursor.old.rest.now) result
            cursor.new.rest.now }
    {
        let mark = cursor.expect(Class::CompareOp)?;
        let value = self.concat(cursor)?;
        Ok((compare_op(mark.kind), mark.place, value))
    }

    /// `[ CmpOp Concat ]`
    #[tactic(auto, unfolding(query_grammar::specs::Grammar::comparison))]
    pub fn comparison(
        &self,
        cursor: &mut Cursor<'_, Word>,
    ) -> Result<Option<(CompareOp, u32, NamedExpr)>, Stop>
        requires { Nests forms named_tree self.now.wide self.now.depth (F.pre self.now.inner)
            (F.post self.now.inner) }
        ensures { ReadsAs view.comparison
            (reader g.comparison self.now.wide self.now.depth cursor.old.rest.now) result
            cursor.new.rest.now }
    {
        if !cursor.sees(Class::CompareOp) {
            return Ok(None);
        }
        let compared = self.compared(cursor)?;
        Ok(Some(compared))
    }

    /// `Compare`
    #[tactic(auto, unfolding(query_grammar::specs::Grammar::compare))]
    pub fn compare(&self, cursor: &mut Cursor<'_, Word>) -> Result<NamedExpr, Stop>
        requires { Nests forms named_tree self.now.wide self.now.depth (F.pre self.now.inner)
            (F.post self.now.inner) }
        ensures { ReadsAs named_tree
            (reader g.compare self.now.wide self.now.depth cursor.old.rest.now) result
            cursor.new.rest.now }
    {
        let left = self.concat(cursor)?;
        let right = or_give_up!(left, self.comparison(cursor));
        compare_of(self.alloc, left, right)
    }

    /// `Not`
    #[tactic(auto, using(query_tree::proofs::Layers::layers), unfolding(query_grammar::specs::Grammar::not_level))]
    pub fn not_level(&self, cursor: &mut Cursor<'_, Word>) -> Result<NamedExpr, Stop>
        requires { Nests forms named_tree self.now.wide self.now.depth (F.pre self.now.inner)
            (F.post self.now.inner) }
        ensures { ReadsAs named_tree
            (reader g.not_level self.now.wide self.now.depth cursor.old.rest.now) result
            cursor.new.rest.now }
    {
        if !cursor.sees(Kind::Not) {
            return self.compare(cursor);
        }
        let place = cursor.expect(Kind::Not)?.place;
        let operand = boxed(self.alloc, self.compare(cursor)?)?;
        Ok(Expr {
            place,
            kind: Form::Not { operand },
        })
    }

    /// `"and" Not`
    #[tactic(auto, unfolding(query_grammar::specs::Grammar::and_operand))]
    pub fn and_operand(&self, cursor: &mut Cursor<'_, Word>) -> Result<Operand<NamedExpr>, Stop>
        requires { Nests forms named_tree self.now.wide self.now.depth (F.pre self.now.inner)
            (F.post self.now.inner) }
        ensures { ReadsAs named_operand
            (reader g.and_operand self.now.wide self.now.depth cursor.old.rest.now) result
            cursor.new.rest.now }
    {
        let place = cursor.expect(Kind::And)?.place;
        let value = self.not_level(cursor)?;
        Ok(Operand { place, value })
    }

    /// `{ "and" Not }`
    #[tactic(auto, unfolding(query_grammar::specs::Grammar::and_operands))]
    pub fn and_operands(
        &self,
        cursor: &mut Cursor<'_, Word>,
    ) -> Result<Vec<Operand<NamedExpr>>, Stop>
        requires { Nests forms named_tree self.now.wide self.now.depth (F.pre self.now.inner)
            (F.post self.now.inner) }
        ensures { ReadsAs view.operands
            (reader g.and_operands self.now.wide self.now.depth cursor.old.rest.now) result
            cursor.new.rest.now }
    {
        repeat(self.alloc, Kind::And, |at| self.and_operand(at), cursor)
    }

    /// `And`
    #[tactic(auto, unfolding(query_grammar::specs::Grammar::and_level))]
    pub fn and_level(&self, cursor: &mut Cursor<'_, Word>) -> Result<NamedExpr, Stop>
        requires { Nests forms named_tree self.now.wide self.now.depth (F.pre self.now.inner)
            (F.post self.now.inner) }
        ensures { ReadsAs named_tree
            (reader g.and_level self.now.wide self.now.depth cursor.old.rest.now) result
            cursor.new.rest.now }
    {
        let first = self.not_level(cursor)?;
        let rest = or_give_up!(first, self.and_operands(cursor));
        chained(self.alloc, Chain::And, first, rest)
    }

    /// `"or" And`
    #[tactic(auto, unfolding(query_grammar::specs::Grammar::or_operand))]
    pub fn or_operand(&self, cursor: &mut Cursor<'_, Word>) -> Result<Operand<NamedExpr>, Stop>
        requires { Nests forms named_tree self.now.wide self.now.depth (F.pre self.now.inner)
            (F.post self.now.inner) }
        ensures { ReadsAs named_operand
            (reader g.or_operand self.now.wide self.now.depth cursor.old.rest.now) result
            cursor.new.rest.now }
    {
        let place = cursor.expect(Kind::Or)?.place;
        let value = self.and_level(cursor)?;
        Ok(Operand { place, value })
    }

    /// `{ "or" And }`
    #[tactic(auto, unfolding(query_grammar::specs::Grammar::or_operands))]
    pub fn or_operands(
        &self,
        cursor: &mut Cursor<'_, Word>,
    ) -> Result<Vec<Operand<NamedExpr>>, Stop>
        requires { Nests forms named_tree self.now.wide self.now.depth (F.pre self.now.inner)
            (F.post self.now.inner) }
        ensures { ReadsAs view.operands
            (reader g.or_operands self.now.wide self.now.depth cursor.old.rest.now) result
            cursor.new.rest.now }
    {
        repeat(self.alloc, Kind::Or, |at| self.or_operand(at), cursor)
    }

    /// `Or`
    #[tactic(auto, unfolding(query_grammar::specs::Grammar::or_level))]
    pub fn or_level(&self, cursor: &mut Cursor<'_, Word>) -> Result<NamedExpr, Stop>
        requires { Nests forms named_tree self.now.wide self.now.depth (F.pre self.now.inner)
            (F.post self.now.inner) }
        ensures { ReadsAs named_tree
            (reader g.or_level self.now.wide self.now.depth cursor.old.rest.now) result
            cursor.new.rest.now }
    {
        let first = self.and_level(cursor)?;
        let rest = or_give_up!(first, self.or_operands(cursor));
        chained(self.alloc, Chain::Or, first, rest)
    }
}
