//! The order in which files are loaded, import by import.

ghost use Rattle.std.specs.Prelude.{◌≡◌, ◌<◌, ◌+◌, ◌-◌, ◌^◌, ◌∷◌, [], length, IfOk, OnOk};
ghost use Rattle.module_names.specs.Loading.{has_name};
ghost use Rattle.module_names.specs.Remaining.{IsStep, IsOfInnermost, state_of, files_in, begun, source_view};
ghost use Rattle.module_names.specs.inside.Order.{file_names, IsRefused};

use crate::Import;
use item_tree::{Code, NoMemory, Str};
use std::alloc::Global;

/// How many files may be loaded, the query counted.
const MOST_FILES: usize = 64;

/// A file that was read alone: its imports, where its body stands if that is not `()`, and what
/// else its reader keeps of it.
#[derive(Debug, Drop)]
pub struct Source<T> {
    pub imports: Vec<Import>,
    pub body: Option<u32>,
    pub rest: T,
}

/// A file with its name, of whose imports so many were taken.
#[derive(Debug, Drop)]
pub struct File<T> {
    pub name: Str,
    pub source: Source<T>,
    pub taken: usize,
}

/// Why a file is not loaded: a code at a place of this file; and how many files were opened until
/// then.
#[derive(Debug, Drop)]
pub struct Refused {
    pub file: Str,
    pub code: Code,
    pub place: u32,
    pub opened: usize,
}

/// What one step of loading comes to.
#[derive(Debug, Drop)]
pub enum Step {
    /// An import was taken, or a file is done.
    Taken,
    /// The file of this import is to be read.
    Wanted(Import),
    /// The query is refused.
    Refused(Refused),
    /// All files are done.
    Done,
}

/// A query that is being loaded: the files that are under way, the innermost last, and those that
/// are done, in order.
#[derive(Debug, Drop)]
pub struct Loading<T> {
    pub path: Vec<File<T>>,
    pub done: Vec<File<T>>,
}

/// A query that was read, before its first import is taken.
pub fn start_loading<T: Drop>(
    alloc: Global,
    name: Str,
    source: Source<T>,
) -> Result<Loading<T>, NoMemory>
    ensures { IfOk result (λ loading. state_of loading
        ≡ record { path = begun name (source_view source) ∷ []; done = [] }) }
{
    let mut path = Vec::new(alloc);
    path.push(File {
        name,
        source,
        taken: 0,
    })?;
    Ok(Loading {
        path,
        done: Vec::new(alloc),
    })
}

/// A library that was wanted and read goes under way.
pub fn add_library<T: Drop>(
    loading: &mut Loading<T>,
    name: Str,
    source: Source<T>,
) -> Result<(), NoMemory>
    ensures { OnOk result (state_of loading.new ≡ record {
      path = begun name (source_view source) ∷ (state_of loading.old).path;
      done = (state_of loading.old).done;
    }) }
{
    loading.path.push(File {
        name,
        source,
        taken: 0,
    })?;
    Ok(())
}

/// Takes the next import of the innermost file, or finishes that file. Where that file is refused,
/// it stays the innermost.
pub fn next_step<T: Drop>(loading: &mut Loading<T>) -> Result<Step, NoMemory>
    ensures step { IfOk result (λ s. IsStep (state_of loading.old) (state_of loading.new) s) }
    ensures files { IfOk result (λ s.
        files_in (state_of loading.new) ≡ files_in (state_of loading.old)) }
    ensures refused { IfOk result (λ s. IsOfInnermost (state_of loading.new) s) }
{
    let Some(file) = loading.path.pop() else {
        return Ok(Step::Done);
    };
    if file.taken >= file.source.imports.len() {
        loading.done.push(file)?;
        return Ok(Step::Taken);
    }
    let import = copy_of(&file.source.imports[file.taken])?;
    let opened = loading.path.len() + loading.done.len() + 1;
    if import.name == file.name || has_file(&loading.path, &import.name) {
        let circle = refuse(&file, Code::PJST0006, import.place, opened)?;
        loading.path.push(file)?;
        return Ok(Step::Refused(circle));
    }
    if has_file(&loading.done, &import.name) {
        loading.path.push(after_import(file))?;
        return Ok(Step::Taken);
    }
    if opened >= MOST_FILES {
        let full = refuse(&file, Code::PJST0008, import.place, opened)?;
        loading.path.push(file)?;
        return Ok(Step::Refused(full));
    }
    loading.path.push(after_import(file))?;
    Ok(Step::Wanted(import))
}

fn copy_of(import: &Import) -> Result<Import, NoMemory>
    ensures { IfOk result (λ i. i ≡ import.now) }
{
    let name = import.name.copy()?;
    Ok(Import {
        name,
        place: import.place,
    })
}

fn after_import<T>(file: File<T>) -> File<T>
    requires { file.taken < 2 ^ 64 - 1 }
    ensures { result ≡ record file { taken = file.taken + 1 } }
{
    let File {
        name,
        source,
        taken,
    } = file;
    File {
        name,
        source,
        taken: taken + 1,
    }
}

/// How many files were read: those under way, and those that are done.
pub(crate) fn count_files<T>(loading: &Loading<T>) -> usize
    ensures { result ≡ length (files_in (state_of loading.now)) }
{
    loading.path.len() + loading.done.len()
}

fn refuse<T>(file: &File<T>, code: Code, place: u32, opened: usize) -> Result<Refused, NoMemory>
    ensures { IfOk result (λ r. IsRefused file.now.name code place opened r) }
{
    let file = file.name.copy()?;
    Ok(Refused {
        file,
        code,
        place,
        opened,
    })
}

// Whether one of the files has this name.
fn has_file<T>(files: &[File<T>], name: &Str) -> bool
    ensures { result ≡ has_name name.now (file_names files.now) }
{
    for file in files {
        if *name == file.name {
            return true;
        }
    }
    false
}
