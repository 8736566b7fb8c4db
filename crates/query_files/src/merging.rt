//! Queries that are put together from the texts of files.

ghost use Rattle.std.specs.Prelude.{◌≡◌, ◌<◌, ◌+◌, ◌∷◌, ◌++◌, [], length, get_or, IfOk, IfSome};
ghost use Rattle.item_reader.specs.Lines.{without_mark};
ghost use Rattle.query_tree.specs.NamedViews.{named_query};
ghost use Rattle.module_names.specs.Loading.{merged};
ghost use Rattle.module_names.specs.Remaining.{done_file};
ghost use Rattle.module_names.specs.declared.file_bytes.Kept.{Kept};
ghost use Rattle.module_names.specs.declared.order.File.{File};
ghost use Rattle.query_files.specs.Files.{IsModuleAt};
ghost use Rattle.query_files.specs.Merged.{Texts};
ghost use Rattle.query_files.specs.Found.{text_of, file_texts};
ghost use Rattle.query_files.specs.inside.Grown.{Grows, IsGrownFrom};

use crate::Parser;
use item_tree::NoMemory;
use module_names::{Contents, File, Kept, imports};
use query_lexer::tokens;
use query_tree::{Module, Query, discard};
use std::alloc::Global;

/// A query that some texts were put together to, and the places where the last of these begins and
/// ends.
#[derive(Drop)]
pub(crate) struct Growing {
    pub whole: Query,
    pub start: u32,
    pub end: u32,
}

// The query that a text is as a file, where its first byte has this place. The text was read alone,
// so nothing of it is refused; were it so, `NoMemory` would tell that too.
fn module_at<P: Parser>(
    alloc: Global,
    parser: &P,
    text: &str,
    start: u32,
) -> Result<Query, NoMemory>
    ensures { IfOk result (λ query. IsModuleAt start text.now (named_query query)) }
{
    let Ok(tokens) = tokens(alloc, text) else {
        return Err(NoMemory);
    };
    let Ok((_imports, count)) = imports(alloc, text, &tokens) else {
        return Err(NoMemory);
    };
    match parser.parse_at(alloc, text, &tokens[count..], start) {
        Ok(query) => Ok(query),
        Err(_fault) => Err(NoMemory),
    }
}

fn module_of<P: Parser>(
    alloc: Global,
    parser: &P,
    contents: &Contents,
    start: u32,
) -> Result<Query, NoMemory>
    ensures { IfOk result (λ query.
        IsModuleAt start (without_mark contents.now) (named_query query)) }
{
    match std::str::from_utf8(contents.text()) {
        Ok(text) => module_at(alloc, parser, text, start),
        Err(_fault) => Err(NoMemory),
    }
}

// The place where a text ends that begins at this one.
fn end_of(contents: &Contents, start: u32) -> Option<u32>
    ensures { IfSome result (λ end. end ≡ start + length (without_mark contents.now)) }
{
    let length = u32::try_from(contents.text().len()).ok()?;
    start.checked_add(length)
}

// The query that this file is alone, where its text begins at this place.
fn grow_from<P: Parser>(
    alloc: Global,
    parser: &P,
    file: &File<Kept<()>>,
    start: u32,
) -> Result<Growing, NoMemory>
    ensures module { IfOk result (λ g.
        IsModuleAt start (without_mark file.now.source.rest.contents) (named_query g.whole)) }
    ensures start { IfOk result (λ g. g.start ≡ start) }
    ensures end { IfOk result (λ g.
        g.end ≡ start + length (without_mark file.now.source.rest.contents)) }
{
    let contents = &file.source.rest.contents;
    let Some(end) = end_of(contents, start) else {
        return Err(NoMemory);
    };
    let whole = module_of(alloc, parser, contents, start)?;
    Ok(Growing { whole, start, end })
}

// Some elements, and after them others.
fn joined<A: Drop>(first: Vec<A>, second: Vec<A>) -> Result<Vec<A>, NoMemory>
    ensures { IfOk result (λ all. all.items ≡ first.items ++ second.items) }
{
    let mut all = first;
    let mut second = second;
    all.append(&mut second)?;
    Ok(all)
}

// The declarations of two queries in order, and the body of the second.
fn with_next(first: Query, next: Query) -> Result<Query, NoMemory>
    ensures { IfOk result (λ whole.
        named_query whole ≡ merged (named_query first ∷ []) (named_query next)) }
{
    let Module {
        variables,
        functions,
        body,
    } = first;
    discard(body);
    let Module {
        variables: more_variables,
        functions: more_functions,
        body,
    } = next;
    match (
        joined(variables, more_variables),
        joined(functions, more_functions),
    ) {
        (Ok(variables), Ok(functions)) => Ok(Module {
            variables,
            functions,
            body,
        }),
        (variables, functions) => {
            discard(variables);
            discard(functions);
            discard(body);
            Err(NoMemory)
        }
    }
}

// What is put together so far, and a file after it.
fn add_to(so_far: Query, next: Growing) -> Result<Growing, NoMemory>
    ensures whole { IfOk result (λ g.
        named_query g.whole ≡ merged (named_query so_far ∷ []) (named_query next.whole)) }
    ensures places { IfOk result (λ g. (g.start ≡ next.start) × (g.end ≡ next.end)) }
{
    let Growing { whole, start, end } = next;
    match with_next(so_far, whole) {
        Ok(whole) => Ok(Growing { whole, start, end }),
        Err(stop) => Err(stop),
    }
}

// One file more.
fn grow<P: Parser>(
    alloc: Global,
    parser: &P,
    so_far: Growing,
    file: &File<Kept<()>>,
) -> Result<Growing, NoMemory>
    ensures { IfOk result (λ g. (texts : Texts) → Grows texts so_far
        → Grows (texts ++ text_of (done_file file.now) ∷ []) g) }
{
    let Growing {
        whole,
        start: _start,
        end,
    } = so_far;
    match grow_from(alloc, parser, file, end) {
        Ok(next) => add_to(whole, next),
        Err(stop) => {
            discard(whole);
            Err(stop)
        }
    }
}

// The query that the file at this position is alone, where its text begins at this place.
fn grow_at<P: Parser>(
    alloc: Global,
    parser: &P,
    files: &[File<Kept<()>>],
    position: usize,
    start: u32,
) -> Result<Growing, NoMemory>
    requires { position < length files.now }
    ensures { IfOk result (λ g. (d : File (Kept (Unit {0})))
        → IsGrownFrom start (text_of (done_file (get_or files.now position d))).1 g) }
{
    grow_from(alloc, parser, &files[position], start)
}

// These files more.
fn grow_on<P: Parser>(
    alloc: Global,
    parser: &P,
    so_far: Growing,
    rest: &[File<Kept<()>>],
) -> Result<Growing, NoMemory>
    ensures { IfOk result (λ g. (texts : Texts) → Grows texts so_far
        → Grows (texts ++ file_texts rest.now) g) }
{
    let mut growing = so_far;
    for file in rest {
        let next = grow(alloc, parser, growing, file)?;
        growing = next;
    }
    Ok(growing)
}

/// The query that these files are put together, and where their texts end.
pub(crate) fn put_together<P: Parser>(
    alloc: Global,
    parser: &P,
    files: &[File<Kept<()>>],
) -> Result<Growing, NoMemory>
    ensures grown { IfOk result (λ g. Grows (file_texts files.now) g) }
    ensures some { IfOk result (λ g. 0 < length files.now) }
{
    if files.len() < 1 {
        return Err(NoMemory);
    }
    let growing = grow_at(alloc, parser, files, 0, 0)?;
    grow_on(alloc, parser, growing, &files[1..])
}
