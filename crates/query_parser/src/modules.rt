//! Modules, and what is declared in them.

ghost use Rattle.std.specs.Prelude.{◌≡◌, ◌++◌, ◌∷◌, [], MatchResult};
ghost use Rattle.grammar_parts.specs.declared.cursor.Stop.TheVariants.{NoMemory};
ghost use Rattle.grammar_parts.specs.Levels.{level};
ghost use Rattle.grammar_parts.specs.Reads.{ReadsAs};
ghost use Rattle.query_tree.specs.NamedViews.{named_tree, named_query};
ghost use Rattle.query_grammar.specs.Nodes as n;
ghost use Rattle.query_grammar.specs.Grammar as g;
ghost use Rattle.query_grammar.specs.Grammar.{forms};
ghost use Rattle.query_parser.specs.Views as view;
ghost use Rattle.query_parser.specs.Views.{top_reader, variables_of, functions_of};

use crate::clauses::Statements;
use expression_parser::types::{as_type, variable};
use expression_parser::{Parts, or_give_up, placed};
use grammar_parts::{Cursor, Stop, list, repeat};
use item_tree::Str;
use query_grammar::{Class, Kind, Part, Word};
use query_tree::{Function, Module, NamedExpr, Param, Query, TypeName, Variable};
use std::alloc::Global;

/// What a module declares: a variable or a function.
#[derive(Drop)]
pub enum Declared<V, F> {
    Variable(V),
    Function(F),
}

/// A declaration as it was read.
pub type Declaration = Declared<Variable<Str, Str, TypeName>, Function<Str, Str, TypeName>>;

/// A part of the grammar where this many forms may nest.
pub fn read(
    alloc: Global,
    wide: bool,
    depth: usize,
    part: Part,
    cursor: &mut Cursor<'_, Word>,
) -> Result<NamedExpr, Stop>
    ensures { ReadsAs named_tree ((level forms wide depth part).read cursor.old.rest.now) result
        cursor.new.rest.now }
{
    let statements = Statements {
        parts: Parts {
            alloc,
            wide,
            depth,
            inner: read,
        },
    };
    match part {
        Part::Expr => statements.expr(cursor),
        Part::Single => statements.single(cursor),
    }
}

/// Puts a declaration behind those of its kind.
fn put<V: Drop, F: Drop>(
    declared: Declared<V, F>,
    variables: &mut Vec<V>,
    functions: &mut Vec<F>,
) -> Result<(), Stop>
    ensures { MatchResult result
        (λ _.
        (variables.new.items ≡ variables.old.items ++ variables_of (declared ∷ []))
        × (functions.new.items ≡ functions.old.items ++ functions_of (declared ∷ [])))
        (λ e. e ≡ NoMemory) }
{
    match declared {
        Declared::Variable(variable) => {
            variables.push(variable)?;
            Ok(())
        }
        Declared::Function(function) => {
            functions.push(function)?;
            Ok(())
        }
    }
}

/// The declarations by their kinds, beside a body.
fn sorted<V: Drop, F: Drop, E: Drop>(
    alloc: Global,
    declarations: Vec<Declared<V, F>>,
    body: E,
) -> Result<(Vec<V>, Vec<F>, E), Stop>
    ensures { MatchResult result
        (λ z.
        (z.0.items ≡ variables_of declarations.items)
        × (z.1.items ≡ functions_of declarations.items) × (z.2 ≡ body)) (λ e. e ≡ NoMemory) }
{
    let mut variables = Vec::new(alloc);
    let mut functions = Vec::new(alloc);
    for declared in declarations {
        put(declared, &mut variables, &mut functions)?;
    }
    Ok((variables, functions, body))
}

/// The module of these declarations and a body.
fn module_with(
    alloc: Global,
    declarations: Vec<Declaration>,
    body: NamedExpr,
) -> Result<Query, Stop>
    ensures { MatchResult result
        (λ m. named_query m ≡ n.module_with (view.declarations declarations, named_tree body))
        (λ e. e ≡ NoMemory) }
{
    let (variables, functions, body) = sorted(alloc, declarations, body)?;
    Ok(Module {
        variables,
        functions,
        body,
    })
}

/// A reader of the productions of modules, each by a method of its own.
#[derive(Clone, Copy)]
pub struct Top {
    pub alloc: Global,
    /// Whether the forms of the wider grammar are taken.
    pub wide: bool,
    /// How many forms may nest.
    pub depth: usize,
}

impl Top {
    /// `Param`
    #[tactic(auto, unfolding(query_grammar::specs::Grammar::param))]
    fn param(&self, cursor: &mut Cursor<'_, Word>) -> Result<Param<Str, TypeName>, Stop>
        ensures { ReadsAs (λ x. x)
            (top_reader g.param self.now.wide self.now.depth cursor.old.rest.now) result
            cursor.new.rest.now }
    {
        let variable = variable(self.alloc, cursor)?;
        let of = or_give_up!(variable, as_type(self.alloc, cursor));
        Ok(Param { variable, of })
    }

    /// `Param { "," Param }`
    #[tactic(auto, unfolding(query_grammar::specs::Grammar::param_list))]
    fn param_list(&self, cursor: &mut Cursor<'_, Word>) -> Result<Vec<Param<Str, TypeName>>, Stop>
        ensures { ReadsAs (λ v. v.items)
            (top_reader g.param_list self.now.wide self.now.depth cursor.old.rest.now) result
            cursor.new.rest.now }
    {
        list(self.alloc, Kind::Comma, |at| self.param(at), cursor)
    }

    /// `[ Param { "," Param } ]`
    #[tactic(auto, unfolding(query_grammar::specs::Grammar::some_params))]
    fn some_params(&self, cursor: &mut Cursor<'_, Word>) -> Result<Vec<Param<Str, TypeName>>, Stop>
        ensures { ReadsAs (λ v. v.items)
            (top_reader g.some_params self.now.wide self.now.depth cursor.old.rest.now) result
            cursor.new.rest.now }
    {
        if !cursor.sees(Kind::Var) {
            return Ok(Vec::new(self.alloc));
        }
        self.param_list(cursor)
    }

    /// `"(" [ Param { "," Param } ] ")"`
    #[tactic(auto, unfolding(query_grammar::specs::Grammar::params))]
    fn params(&self, cursor: &mut Cursor<'_, Word>) -> Result<Vec<Param<Str, TypeName>>, Stop>
        ensures { ReadsAs (λ v. v.items)
            (top_reader g.params self.now.wide self.now.depth cursor.old.rest.now) result
            cursor.new.rest.now }
    {
        cursor.expect(Kind::OpenParen)?;
        let params = self.some_params(cursor)?;
        or_give_up!(params, cursor.expect(Kind::CloseParen));
        Ok(params)
    }

    /// `"{" Expr "}"`
    #[tactic(auto, unfolding(query_grammar::specs::Grammar::function_body))]
    fn function_body(&self, cursor: &mut Cursor<'_, Word>) -> Result<NamedExpr, Stop>
        ensures { ReadsAs named_tree
            (top_reader g.function_body self.now.wide self.now.depth cursor.old.rest.now) result
            cursor.new.rest.now }
    {
        cursor.expect(Kind::OpenBrace)?;
        let body = read(self.alloc, self.wide, self.depth, Part::Expr, cursor)?;
        or_give_up!(body, cursor.expect(Kind::CloseBrace));
        Ok(body)
    }

    /// A variable, behind `declare`.
    #[tactic(auto, unfolding(query_grammar::specs::Grammar::variable_declaration))]
    fn variable_declaration(&self, cursor: &mut Cursor<'_, Word>) -> Result<Declaration, Stop>
        ensures { ReadsAs view.declaration
            (top_reader g.variable_declaration self.now.wide self.now.depth cursor.old.rest.now)
            result cursor.new.rest.now }
    {
        cursor.expect(Kind::Variable)?;
        let variable = variable(self.alloc, cursor)?;
        let of = or_give_up!(variable, as_type(self.alloc, cursor));
        or_give_up!((variable, of), cursor.expect(Kind::Assign));
        let value = or_give_up!(
            (variable, of),
            read(self.alloc, self.wide, self.depth, Part::Single, cursor)
        );
        Ok(Declared::Variable(Variable {
            variable,
            of,
            value,
        }))
    }

    /// A function, behind `declare`.
    #[tactic(auto, unfolding(query_grammar::specs::Grammar::function_declaration))]
    fn function_declaration(&self, cursor: &mut Cursor<'_, Word>) -> Result<Declaration, Stop>
        ensures { ReadsAs view.declaration
            (top_reader g.function_declaration self.now.wide self.now.depth cursor.old.rest.now)
            result cursor.new.rest.now }
    {
        cursor.expect(Kind::Function)?;
        let name = cursor.expect(Class::Name)?;
        let params = self.params(cursor)?;
        let of = or_give_up!(params, as_type(self.alloc, cursor));
        let body = or_give_up!((params, of), self.function_body(cursor));
        let function = or_give_up!((params, of, body), placed(self.alloc, name));
        Ok(Declared::Function(Function {
            function,
            params,
            of,
            body,
        }))
    }

    /// `( Variable | Function ) ";"`
    #[tactic(auto, unfolding(query_grammar::specs::Grammar::declaration))]
    fn declaration(&self, cursor: &mut Cursor<'_, Word>) -> Result<Declaration, Stop>
        ensures { ReadsAs view.declaration
            (top_reader g.declaration self.now.wide self.now.depth cursor.old.rest.now) result
            cursor.new.rest.now }
    {
        cursor.expect(Kind::Declare)?;
        if cursor.sees(Kind::Variable) {
            let declared = self.variable_declaration(cursor)?;
            or_give_up!(declared, cursor.expect(Kind::Semicolon));
            return Ok(declared);
        }
        let declared = self.function_declaration(cursor)?;
        or_give_up!(declared, cursor.expect(Kind::Semicolon));
        Ok(declared)
    }

    /// `{ ( Variable | Function ) ";" }`
    #[tactic(auto, unfolding(query_grammar::specs::Grammar::declarations))]
    fn declarations(&self, cursor: &mut Cursor<'_, Word>) -> Result<Vec<Declaration>, Stop>
        ensures { ReadsAs view.declarations
            (top_reader g.declarations self.now.wide self.now.depth cursor.old.rest.now) result
            cursor.new.rest.now }
    {
        repeat(self.alloc, Kind::Declare, |at| self.declaration(at), cursor)
    }

    /// `Module`
    #[tactic(auto, unfolding(query_grammar::specs::Grammar::module_part))]
    pub fn module(&self, cursor: &mut Cursor<'_, Word>) -> Result<Query, Stop>
        ensures { ReadsAs named_query
            (top_reader g.module_part self.now.wide self.now.depth cursor.old.rest.now) result
            cursor.new.rest.now }
    {
        let declarations = self.declarations(cursor)?;
        let body = or_give_up!(
            declarations,
            read(self.alloc, self.wide, self.depth, Part::Expr, cursor)
        );
        module_with(self.alloc, declarations, body)
    }
}
