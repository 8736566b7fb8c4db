//! Statements and expressions.

ghost use Rattle.grammar_parts.specs.Nests.{Nests};
ghost use Rattle.grammar_parts.specs.Reads.{ReadsAs};
ghost use Rattle.query_tree.specs.NamedViews.{named_tree, named_operand, named_bind, named_case, named_type_case, named_catch};
ghost use Rattle.query_grammar.specs.Nodes as n;
ghost use Rattle.query_grammar.specs.Classes.{is_name};
ghost use Rattle.query_grammar.specs.Languages.{mapped, one};
ghost use Rattle.query_grammar.specs.Grammar as g;
ghost use Rattle.query_grammar.specs.Grammar.{forms};
ghost use Rattle.expression_parser.specs.Views.{reader, trees, operands};
ghost use Rattle.query_parser.specs.Views as view;

use crate::clauses::Statements;
use crate::nodes::{catch_of, flwor_of, if_of, quant_of, switch_of, try_of, typeswitch_of};
use expression_parser::types::{as_type, seq_type, variable};
use expression_parser::{Chain, chained, name_of, or_give_up};
use grammar_parts::{Cursor, Stop, list, repeat, repeat_some};
use item_tree::Str;
use query_grammar::{Class, Kind, Part, Word};
use query_tree::{Bind, Case, Catch, NamedExpr, Operand, Placed, TypeCase, TypeName};
use std::alloc::Global;

/// The name of a code.
fn catch_name(alloc: Global, cursor: &mut Cursor<'_, Word>) -> Result<Str, Stop>
    ensures { ReadsAs (λ x. x) ((mapped n.name_of (one is_name)).read cursor.old.rest.now) result
        cursor.new.rest.now }
{
    let word = cursor.expect(Class::Name)?;
    name_of(alloc, word)
}

impl<F: Fn(Global, bool, usize, Part, &mut Cursor<'_, Word>) -> Result<NamedExpr, Stop>> Statements<
    F,
> {
    /// `"return" Single`
    #[tactic(auto, unfolding(query_grammar::specs::Grammar::returned))]
    pub fn returned(&self, cursor: &mut Cursor<'_, Word>) -> Result<NamedExpr, Stop>
        requires { Nests forms named_tree self.now.parts.wide self.now.parts.depth
            (F.pre self.now.parts.inner) (F.post self.now.parts.inner) }
        ensures { ReadsAs named_tree
            (reader g.returned self.now.parts.wide self.now.parts.depth cursor.old.rest.now)
            result cursor.new.rest.now }
    {
        cursor.expect(Kind::Return)?;
        self.parts.inside(Part::Single, cursor)
    }

    /// `Flwor`
    #[tactic(auto, unfolding(query_grammar::specs::Grammar::flwor))]
    pub fn flwor(&self, cursor: &mut Cursor<'_, Word>) -> Result<NamedExpr, Stop>
        requires { Nests forms named_tree self.now.parts.wide self.now.parts.depth
            (F.pre self.now.parts.inner) (F.post self.now.parts.inner) }
        ensures { ReadsAs named_tree
            (reader g.flwor self.now.parts.wide self.now.parts.depth cursor.old.rest.now) result
            cursor.new.rest.now }
    {
        if self.parts.depth == 0 {
            return Err(Stop::Refused);
        }
        let first = self.first_clause(cursor)?;
        let others = or_give_up!(first, self.clauses(cursor));
        let place = or_give_up!((first, others), cursor.expect(Kind::Return)).place;
        let value = or_give_up!((first, others), self.parts.inside(Part::Single, cursor));
        flwor_of(self.parts.alloc, first, others, place, value)
    }

    /// `Bind`
    #[tactic(auto, unfolding(query_grammar::specs::Grammar::bind))]
    pub fn bind(
        &self,
        cursor: &mut Cursor<'_, Word>,
    ) -> Result<Bind<Str, TypeName, NamedExpr>, Stop>
        requires { Nests forms named_tree self.now.parts.wide self.now.parts.depth
            (F.pre self.now.parts.inner) (F.post self.now.parts.inner) }
        ensures { ReadsAs named_bind
            (reader g.bind self.now.parts.wide self.now.parts.depth cursor.old.rest.now) result
            cursor.new.rest.now }
    {
        let variable = variable(self.parts.alloc, cursor)?;
        let of = or_give_up!(variable, as_type(self.parts.alloc, cursor));
        or_give_up!((variable, of), cursor.expect(Kind::In));
        let source = or_give_up!((variable, of), self.parts.inside(Part::Single, cursor));
        Ok(Bind {
            variable,
            of,
            source,
        })
    }

    /// `Bind { "," Bind }`
    #[tactic(auto, unfolding(query_grammar::specs::Grammar::binds))]
    pub fn binds(
        &self,
        cursor: &mut Cursor<'_, Word>,
    ) -> Result<Vec<Bind<Str, TypeName, NamedExpr>>, Stop>
        requires { Nests forms named_tree self.now.parts.wide self.now.parts.depth
            (F.pre self.now.parts.inner) (F.post self.now.parts.inner) }
        ensures { ReadsAs view.binds
            (reader g.binds self.now.parts.wide self.now.parts.depth cursor.old.rest.now) result
            cursor.new.rest.now }
    {
        list(self.parts.alloc, Kind::Comma, |at| self.bind(at), cursor)
    }

    /// `Quant`
    #[tactic(auto, unfolding(query_grammar::specs::Grammar::quant))]
    pub fn quant(&self, cursor: &mut Cursor<'_, Word>) -> Result<NamedExpr, Stop>
        requires { Nests forms named_tree self.now.parts.wide self.now.parts.depth
            (F.pre self.now.parts.inner) (F.post self.now.parts.inner) }
        ensures { ReadsAs named_tree
            (reader g.quant self.now.parts.wide self.now.parts.depth cursor.old.rest.now) result
            cursor.new.rest.now }
    {
        if self.parts.depth == 0 {
            return Err(Stop::Refused);
        }
        let word = cursor.expect(Class::Quantifier)?;
        let binds = self.binds(cursor)?;
        or_give_up!(binds, cursor.expect(Kind::Satisfies));
        let test = or_give_up!(binds, self.parts.inside(Part::Single, cursor));
        quant_of(self.parts.alloc, word, binds, test)
    }

    /// `"case" Single`
    #[tactic(auto, unfolding(query_grammar::specs::Grammar::case_test))]
    pub fn case_test(&self, cursor: &mut Cursor<'_, Word>) -> Result<NamedExpr, Stop>
        requires { Nests forms named_tree self.now.parts.wide self.now.parts.depth
            (F.pre self.now.parts.inner) (F.post self.now.parts.inner) }
        ensures { ReadsAs named_tree
            (reader g.case_test self.now.parts.wide self.now.parts.depth cursor.old.rest.now)
            result cursor.new.rest.now }
    {
        cursor.expect(Kind::Case)?;
        self.parts.inside(Part::Single, cursor)
    }

    /// `"case" Single { "case" Single }`
    #[tactic(auto, unfolding(query_grammar::specs::Grammar::case_tests))]
    pub fn case_tests(&self, cursor: &mut Cursor<'_, Word>) -> Result<Vec<NamedExpr>, Stop>
        requires { Nests forms named_tree self.now.parts.wide self.now.parts.depth
            (F.pre self.now.parts.inner) (F.post self.now.parts.inner) }
        ensures { ReadsAs trees
            (reader g.case_tests self.now.parts.wide self.now.parts.depth cursor.old.rest.now)
            result cursor.new.rest.now }
    {
        repeat_some(
            self.parts.alloc,
            Kind::Case,
            |at| self.case_test(at),
            cursor,
        )
    }

    /// `Case`
    #[tactic(auto, unfolding(query_grammar::specs::Grammar::case))]
    pub fn case(&self, cursor: &mut Cursor<'_, Word>) -> Result<Case<NamedExpr>, Stop>
        requires { Nests forms named_tree self.now.parts.wide self.now.parts.depth
            (F.pre self.now.parts.inner) (F.post self.now.parts.inner) }
        ensures { ReadsAs named_case
            (reader g.case self.now.parts.wide self.now.parts.depth cursor.old.rest.now) result
            cursor.new.rest.now }
    {
        let tests = self.case_tests(cursor)?;
        let value = or_give_up!(tests, self.returned(cursor));
        Ok(Case {
            tests,
            result: value,
        })
    }

    /// `Case { Case }`
    #[tactic(auto, unfolding(query_grammar::specs::Grammar::cases))]
    pub fn cases(&self, cursor: &mut Cursor<'_, Word>) -> Result<Vec<Case<NamedExpr>>, Stop>
        requires { Nests forms named_tree self.now.parts.wide self.now.parts.depth
            (F.pre self.now.parts.inner) (F.post self.now.parts.inner) }
        ensures { ReadsAs view.cases
            (reader g.cases self.now.parts.wide self.now.parts.depth cursor.old.rest.now) result
            cursor.new.rest.now }
    {
        repeat_some(self.parts.alloc, Kind::Case, |at| self.case(at), cursor)
    }

    /// `Switch`
    #[tactic(auto, unfolding(query_grammar::specs::Grammar::switch))]
    pub fn switch(&self, cursor: &mut Cursor<'_, Word>) -> Result<NamedExpr, Stop>
        requires { Nests forms named_tree self.now.parts.wide self.now.parts.depth
            (F.pre self.now.parts.inner) (F.post self.now.parts.inner) }
        ensures { ReadsAs named_tree
            (reader g.switch self.now.parts.wide self.now.parts.depth cursor.old.rest.now) result
            cursor.new.rest.now }
    {
        if self.parts.depth == 0 {
            return Err(Stop::Refused);
        }
        let place = cursor.expect(Kind::Switch)?.place;
        let operand = self.parts.in_parens(cursor)?;
        let cases = or_give_up!(operand, self.cases(cursor));
        or_give_up!((operand, cases), cursor.expect(Kind::Default));
        let default = or_give_up!((operand, cases), self.returned(cursor));
        switch_of(self.parts.alloc, place, operand, cases, default)
    }

    /// `[ Var "as" ]`
    #[tactic(auto, unfolding(query_grammar::specs::Grammar::case_variable))]
    pub fn case_variable(&self, cursor: &mut Cursor<'_, Word>) -> Result<Option<Placed<Str>>, Stop>
        requires { Nests forms named_tree self.now.parts.wide self.now.parts.depth
            (F.pre self.now.parts.inner) (F.post self.now.parts.inner) }
        ensures { ReadsAs (λ x. x)
            (reader g.case_variable self.now.parts.wide self.now.parts.depth cursor.old.rest.now)
            result cursor.new.rest.now }
    {
        if !cursor.sees(Kind::Var) {
            return Ok(None);
        }
        let variable = variable(self.parts.alloc, cursor)?;
        or_give_up!(variable, cursor.expect(Kind::As));
        Ok(Some(variable))
    }

    /// `SeqType { "|" SeqType }`
    #[tactic(auto, unfolding(query_grammar::specs::Grammar::seq_types))]
    pub fn seq_types(&self, cursor: &mut Cursor<'_, Word>) -> Result<Vec<Placed<TypeName>>, Stop>
        requires { Nests forms named_tree self.now.parts.wide self.now.parts.depth
            (F.pre self.now.parts.inner) (F.post self.now.parts.inner) }
        ensures { ReadsAs (λ v. v.items)
            (reader g.seq_types self.now.parts.wide self.now.parts.depth cursor.old.rest.now)
            result cursor.new.rest.now }
    {
        list(
            self.parts.alloc,
            Kind::Bar,
            |at| seq_type(self.parts.alloc, at),
            cursor,
        )
    }

    /// `TCase`
    #[tactic(auto, unfolding(query_grammar::specs::Grammar::type_case))]
    pub fn type_case(
        &self,
        cursor: &mut Cursor<'_, Word>,
    ) -> Result<TypeCase<Str, TypeName, NamedExpr>, Stop>
        requires { Nests forms named_tree self.now.parts.wide self.now.parts.depth
            (F.pre self.now.parts.inner) (F.post self.now.parts.inner) }
        ensures { ReadsAs named_type_case
            (reader g.type_case self.now.parts.wide self.now.parts.depth cursor.old.rest.now)
            result cursor.new.rest.now }
    {
        cursor.expect(Kind::Case)?;
        let variable = self.case_variable(cursor)?;
        let types = or_give_up!(variable, self.seq_types(cursor));
        let value = or_give_up!((variable, types), self.returned(cursor));
        Ok(TypeCase {
            variable,
            types,
            result: value,
        })
    }

    /// `TCase { TCase }`
    #[tactic(auto, unfolding(query_grammar::specs::Grammar::type_cases))]
    pub fn type_cases(
        &self,
        cursor: &mut Cursor<'_, Word>,
    ) -> Result<Vec<TypeCase<Str, TypeName, NamedExpr>>, Stop>
        requires { Nests forms named_tree self.now.parts.wide self.now.parts.depth
            (F.pre self.now.parts.inner) (F.post self.now.parts.inner) }
        ensures { ReadsAs view.type_cases
            (reader g.type_cases self.now.parts.wide self.now.parts.depth cursor.old.rest.now)
            result cursor.new.rest.now }
    {
        repeat_some(
            self.parts.alloc,
            Kind::Case,
            |at| self.type_case(at),
            cursor,
        )
    }

    /// `[ Var ]`
    #[tactic(auto, unfolding(query_grammar::specs::Grammar::default_variable))]
    pub fn default_variable(
        &self,
        cursor: &mut Cursor<'_, Word>,
    ) -> Result<Option<Placed<Str>>, Stop>
        requires { Nests forms named_tree self.now.parts.wide self.now.parts.depth
            (F.pre self.now.parts.inner) (F.post self.now.parts.inner) }
        ensures { ReadsAs (λ x. x)
            (reader g.default_variable self.now.parts.wide self.now.parts.depth
            cursor.old.rest.now) result cursor.new.rest.now }
    {
        if !cursor.sees(Kind::Var) {
            return Ok(None);
        }
        let variable = variable(self.parts.alloc, cursor)?;
        Ok(Some(variable))
    }

    /// `"default" [ Var ] "return" Single`
    #[tactic(auto, unfolding(query_grammar::specs::Grammar::type_default))]
    pub fn type_default(
        &self,
        cursor: &mut Cursor<'_, Word>,
    ) -> Result<(Option<Placed<Str>>, NamedExpr), Stop>
        requires { Nests forms named_tree self.now.parts.wide self.now.parts.depth
            (F.pre self.now.parts.inner) (F.post self.now.parts.inner) }
        ensures { ReadsAs view.type_default
            (reader g.type_default self.now.parts.wide self.now.parts.depth cursor.old.rest.now)
            result cursor.new.rest.now }
    {
        cursor.expect(Kind::Default)?;
        let variable = self.default_variable(cursor)?;
        let value = or_give_up!(variable, self.returned(cursor));
        Ok((variable, value))
    }

    /// `Typeswitch`
    #[tactic(auto, unfolding(query_grammar::specs::Grammar::typeswitch))]
    pub fn typeswitch(&self, cursor: &mut Cursor<'_, Word>) -> Result<NamedExpr, Stop>
        requires { Nests forms named_tree self.now.parts.wide self.now.parts.depth
            (F.pre self.now.parts.inner) (F.post self.now.parts.inner) }
        ensures { ReadsAs named_tree
            (reader g.typeswitch self.now.parts.wide self.now.parts.depth cursor.old.rest.now)
            result cursor.new.rest.now }
    {
        if self.parts.depth == 0 {
            return Err(Stop::Refused);
        }
        let place = cursor.expect(Kind::Typeswitch)?.place;
        let operand = self.parts.in_parens(cursor)?;
        let cases = or_give_up!(operand, self.type_cases(cursor));
        let default = or_give_up!((operand, cases), self.type_default(cursor));
        typeswitch_of(self.parts.alloc, place, operand, cases, default)
    }

    /// `If`, where it may stand.
    pub fn if_content(&self, cursor: &mut Cursor<'_, Word>) -> Result<NamedExpr, Stop>
        requires { Nests forms named_tree self.now.parts.wide self.now.parts.depth
            (F.pre self.now.parts.inner) (F.post self.now.parts.inner) }
        ensures { ReadsAs named_tree
            (reader view.if_content self.now.parts.wide self.now.parts.depth cursor.old.rest.now)
            result cursor.new.rest.now }
    {
        let place = cursor.expect(Kind::If)?.place;
        let condition = self.parts.in_parens(cursor)?;
        or_give_up!(condition, cursor.expect(Kind::Then));
        let when_true = or_give_up!(condition, self.parts.inside(Part::Single, cursor));
        or_give_up!((condition, when_true), cursor.expect(Kind::Else));
        let when_false = or_give_up!(
            (condition, when_true),
            self.parts.inside(Part::Single, cursor)
        );
        if_of(self.parts.alloc, place, condition, when_true, when_false)
    }

    /// `If`
    pub fn if_then(&self, cursor: &mut Cursor<'_, Word>) -> Result<NamedExpr, Stop>
        requires { Nests forms named_tree self.now.parts.wide self.now.parts.depth
            (F.pre self.now.parts.inner) (F.post self.now.parts.inner) }
        ensures { ReadsAs named_tree
            (reader g.if self.now.parts.wide self.now.parts.depth cursor.old.rest.now) result
            cursor.new.rest.now }
    {
        let depth = self.parts.depth;
        if depth == 0 {
            return Err(Stop::Refused);
        }
        self.if_content(cursor)
    }

    /// `Name { "|" Name }`, as the names of codes.
    pub fn catch_names(&self, cursor: &mut Cursor<'_, Word>) -> Result<Vec<Str>, Stop>
        requires { Nests forms named_tree self.now.parts.wide self.now.parts.depth
            (F.pre self.now.parts.inner) (F.post self.now.parts.inner) }
        ensures { ReadsAs view.some_codes
            (reader view.named_codes self.now.parts.wide self.now.parts.depth cursor.old.rest.now)
            result cursor.new.rest.now }
    {
        list(
            self.parts.alloc,
            Kind::Bar,
            |at| catch_name(self.parts.alloc, at),
            cursor,
        )
    }

    /// `"*" | Name { "|" Name }`
    #[tactic(auto, unfolding(query_grammar::specs::Grammar::catch_codes))]
    pub fn catch_codes(&self, cursor: &mut Cursor<'_, Word>) -> Result<Option<Vec<Str>>, Stop>
        requires { Nests forms named_tree self.now.parts.wide self.now.parts.depth
            (F.pre self.now.parts.inner) (F.post self.now.parts.inner) }
        ensures { ReadsAs view.codes
            (reader g.catch_codes self.now.parts.wide self.now.parts.depth cursor.old.rest.now)
            result cursor.new.rest.now }
    {
        if cursor.sees(Kind::Star) {
            cursor.expect(Kind::Star)?;
            return Ok(None);
        }
        let names = self.catch_names(cursor)?;
        Ok(Some(names))
    }

    /// `Catch`
    #[tactic(auto, unfolding(query_grammar::specs::Grammar::catch))]
    pub fn catch(&self, cursor: &mut Cursor<'_, Word>) -> Result<Catch<Str, NamedExpr>, Stop>
        requires { Nests forms named_tree self.now.parts.wide self.now.parts.depth
            (F.pre self.now.parts.inner) (F.post self.now.parts.inner) }
        ensures { ReadsAs named_catch
            (reader g.catch self.now.parts.wide self.now.parts.depth cursor.old.rest.now) result
            cursor.new.rest.now }
    {
        let place = cursor.expect(Kind::Catch)?.place;
        let codes = self.catch_codes(cursor)?;
        let body = or_give_up!(codes, self.parts.in_braces(cursor));
        catch_of(self.parts.alloc, place, codes, body)
    }

    /// `Catch { Catch }`
    #[tactic(auto, unfolding(query_grammar::specs::Grammar::catches))]
    pub fn catches(&self, cursor: &mut Cursor<'_, Word>) -> Result<Vec<Catch<Str, NamedExpr>>, Stop>
        requires { Nests forms named_tree self.now.parts.wide self.now.parts.depth
            (F.pre self.now.parts.inner) (F.post self.now.parts.inner) }
        ensures { ReadsAs view.catches
            (reader g.catches self.now.parts.wide self.now.parts.depth cursor.old.rest.now) result
            cursor.new.rest.now }
    {
        repeat_some(self.parts.alloc, Kind::Catch, |at| self.catch(at), cursor)
    }

    /// `Try`, where it may stand.
    pub fn try_content(&self, cursor: &mut Cursor<'_, Word>) -> Result<NamedExpr, Stop>
        requires { Nests forms named_tree self.now.parts.wide self.now.parts.depth
            (F.pre self.now.parts.inner) (F.post self.now.parts.inner) }
        ensures { ReadsAs named_tree
            (reader view.try_content self.now.parts.wide self.now.parts.depth cursor.old.rest.now)
            result cursor.new.rest.now }
    {
        let place = cursor.expect(Kind::Try)?.place;
        let body = self.parts.in_braces(cursor)?;
        let catches = or_give_up!(body, self.catches(cursor));
        try_of(self.parts.alloc, place, body, catches)
    }

    /// `Try`
    pub fn try_catch(&self, cursor: &mut Cursor<'_, Word>) -> Result<NamedExpr, Stop>
        requires { Nests forms named_tree self.now.parts.wide self.now.parts.depth
            (F.pre self.now.parts.inner) (F.post self.now.parts.inner) }
        ensures { ReadsAs named_tree
            (reader g.try self.now.parts.wide self.now.parts.depth cursor.old.rest.now) result
            cursor.new.rest.now }
    {
        let depth = self.parts.depth;
        if depth == 0 {
            return Err(Stop::Refused);
        }
        self.try_content(cursor)
    }

    /// `Single`
    #[tactic(auto, unfolding(query_grammar::specs::Grammar::single))]
    pub fn single(&self, cursor: &mut Cursor<'_, Word>) -> Result<NamedExpr, Stop>
        requires { Nests forms named_tree self.now.parts.wide self.now.parts.depth
            (F.pre self.now.parts.inner) (F.post self.now.parts.inner) }
        ensures { ReadsAs named_tree
            (reader g.single self.now.parts.wide self.now.parts.depth cursor.old.rest.now) result
            cursor.new.rest.now }
    {
        let room = self.parts.depth > 0;
        if cursor.sees(Class::Flwor { room }) {
            self.flwor(cursor)
        } else if cursor.sees_if(room, Class::Quantifier) {
            self.quant(cursor)
        } else if cursor.sees_if(room, Kind::Switch) {
            self.switch(cursor)
        } else if cursor.sees_if(room, Kind::Typeswitch) {
            self.typeswitch(cursor)
        } else if cursor.sees_if(room, Kind::If) {
            self.if_then(cursor)
        } else if cursor.sees_if(room, Kind::Try) {
            self.try_catch(cursor)
        } else {
            self.parts.or_level(cursor)
        }
    }

    /// `"," Single`
    #[tactic(auto, unfolding(query_grammar::specs::Grammar::comma_operand))]
    pub fn comma_operand(&self, cursor: &mut Cursor<'_, Word>) -> Result<Operand<NamedExpr>, Stop>
        requires { Nests forms named_tree self.now.parts.wide self.now.parts.depth
            (F.pre self.now.parts.inner) (F.post self.now.parts.inner) }
        ensures { ReadsAs named_operand
            (reader g.comma_operand self.now.parts.wide self.now.parts.depth cursor.old.rest.now)
            result cursor.new.rest.now }
    {
        let place = cursor.expect(Kind::Comma)?.place;
        let value = self.single(cursor)?;
        Ok(Operand { place, value })
    }

    /// `{ "," Single }`
    #[tactic(auto, unfolding(query_grammar::specs::Grammar::comma_operands))]
    pub fn comma_operands(
        &self,
        cursor: &mut Cursor<'_, Word>,
    ) -> Result<Vec<Operand<NamedExpr>>, Stop>
        requires { Nests forms named_tree self.now.parts.wide self.now.parts.depth
            (F.pre self.now.parts.inner) (F.post self.now.parts.inner) }
        ensures { ReadsAs operands
            (reader g.comma_operands self.now.parts.wide self.now.parts.depth cursor.old.rest.now)
            result cursor.new.rest.now }
    {
        repeat(
            self.parts.alloc,
            Kind::Comma,
            |at| self.comma_operand(at),
            cursor,
        )
    }

    /// `Expr`
    #[tactic(auto, unfolding(query_grammar::specs::Grammar::expr))]
    pub fn expr(&self, cursor: &mut Cursor<'_, Word>) -> Result<NamedExpr, Stop>
        requires { Nests forms named_tree self.now.parts.wide self.now.parts.depth
            (F.pre self.now.parts.inner) (F.post self.now.parts.inner) }
        ensures { ReadsAs named_tree
            (reader g.expr self.now.parts.wide self.now.parts.depth cursor.old.rest.now) result
            cursor.new.rest.now }
    {
        let first = self.single(cursor)?;
        let rest = or_give_up!(first, self.comma_operands(cursor));
        chained(self.parts.alloc, Chain::Comma, first, rest)
    }
}
