//! Loading a query with the libraries that it imports.

ghost use Rattle.std.specs.Prelude.{◌≡◌, ◌≤◌, ◌<◌, [], length, Ok, true, IfSome};
ghost use Rattle.std.specs.Fn.{FnReturnsAt};
ghost use Rattle.module_names.specs.Alone.{AreSources};
ghost use Rattle.module_names.specs.Answers.{IsLoaded, AreHeld, HasContents, IsMissing, OpensLoaded};
ghost use Rattle.module_names.specs.Counts.{LeavesLoad};
ghost use Rattle.module_names.specs.Loading.{most_files, Sources};
ghost use Rattle.module_names.specs.Remaining.{State, Asks, state_of, files_in};
ghost use Rattle.module_names.specs.declared.file_bytes.Kept as kept;
ghost use Rattle.module_names.specs.inside.Advance.{RefusesTop, StepsTo, StaysHeld, OpensStep, EndsAs, OpensRest};

use crate::order::count_files;
use crate::wanted::{Found, read_file};
use crate::{
    Contents, File, Import, Kept, LoadFault, Loading, Refused, Source, Step, Unread, add_library,
    next_step, start_loading,
};
use item_tree::{Code, Str};
use outside::Inputs;
use std::alloc::Global;

fn refused(file: Str, code: Code, place: u32, opened: usize, contents: Contents) -> LoadFault
    ensures { result ≡ LoadFault.Refused
        (record { file = file; code = code; place = place; opened = opened }) contents }
{
    let refused = Refused {
        file,
        code,
        place,
        opened,
    };
    LoadFault::Refused(refused, contents)
}

fn contents_of<T: Drop>(source: Source<Kept<T>>) -> Contents
    ensures { result ≡ source.rest.contents }
{
    let Source {
        imports: _imports,
        body: _body,
        rest,
    } = source;
    let Kept {
        contents,
        rest: _rest,
    } = rest;
    contents
}

// The innermost file is refused at this place.
fn refuse_top<T: Drop>(
    loading: &mut Loading<Kept<T>>,
    code: Code,
    place: u32,
    opened: usize,
) -> LoadFault
    ensures { RefusesTop (state_of loading.old).path code place opened result }
{
    let Some(file) = loading.path.pop() else {
        return LoadFault::NoMemory;
    };
    let File {
        name,
        source,
        taken: _taken,
    } = file;
    refused(name, code, place, opened, contents_of(source))
}

// The library of this import, which the innermost file wants, goes under way.
fn add_wanted<I: Inputs, T: Drop, F: Fn(&str) -> Result<Source<T>, Unread>>(
    alloc: Global,
    loading: &mut Loading<Kept<T>>,
    import: Import,
    inputs: &mut I,
    read: F,
) -> Result<(), LoadFault>
    requires callable { F.IsAlwaysCallable read }
    requires room { length (files_in (state_of loading.old)) < most_files }
    ensures world { I.world inputs.new ≡ I.world inputs.old }
    ensures told { IfSome (I.world inputs.old) (λ w. (sources : Sources (kept.Kept T))
        (before : State (kept.Kept T)) → AreSources (FnReturnsAt F.Fn read) w sources
        → Asks before (state_of loading.old) import
        → StepsTo sources before (state_of loading.new) result) }
    ensures held { IfSome (I.world inputs.old) (λ w. AreHeld w (files_in (state_of loading.old))
        → StaysHeld w (files_in (state_of loading.new)) result) }
    ensures counts { LeavesLoad (FnReturnsAt F.Fn read) result (I.counts inputs.old)
        (I.counts inputs.new) }
    ensures opened { OpensStep (length (files_in (state_of loading.old)))
        (length (files_in (state_of loading.new))) result (I.counts inputs.old)
        (I.counts inputs.new) }
{
    let opened = count_files(loading);
    match read_file(alloc, inputs, &import.name, read)? {
        Found::Missing => Err(refuse_top(loading, Code::PJST0007, import.place, opened)),
        Found::Refused(code, place, contents) => {
            Err(refused(import.name, code, place, opened + 1, contents))
        }
        Found::Read(source) => match source.body {
            Some(place) => {
                let contents = contents_of(source);
                Err(refused(import.name, Code::PJST0009, place, opened + 1, contents))
            }
            None => Ok(add_library(loading, import.name, source)?),
        },
    }
}

// One step of loading, and whether all files are done.
fn advance<I: Inputs, T: Drop, F: Fn(&str) -> Result<Source<T>, Unread>>(
    alloc: Global,
    loading: &mut Loading<Kept<T>>,
    inputs: &mut I,
    read: F,
) -> Result<bool, LoadFault>
    requires callable { F.IsAlwaysCallable read }
    requires few { length (files_in (state_of loading.old)) ≤ most_files }
    ensures world { I.world inputs.new ≡ I.world inputs.old }
    ensures done { result ≡ Ok true → (state_of loading.new).path ≡ [] }
    ensures told { IfSome (I.world inputs.old) (λ w. (sources : Sources (kept.Kept T))
        → AreSources (FnReturnsAt F.Fn read) w sources
        → StepsTo sources (state_of loading.old) (state_of loading.new) result) }
    ensures held { IfSome (I.world inputs.old) (λ w. AreHeld w (files_in (state_of loading.old))
        → StaysHeld w (files_in (state_of loading.new)) result) }
    ensures counts { LeavesLoad (FnReturnsAt F.Fn read) result (I.counts inputs.old)
        (I.counts inputs.new) }
    ensures opened { OpensStep (length (files_in (state_of loading.old)))
        (length (files_in (state_of loading.new))) result (I.counts inputs.old)
        (I.counts inputs.new) }
{
    match next_step(loading)? {
        Step::Done => Ok(true),
        Step::Taken => Ok(false),
        Step::Refused(why) => Err(refuse_top(loading, why.code, why.place, why.opened)),
        Step::Wanted(import) => {
            add_wanted(alloc, loading, import, inputs, read)?;
            Ok(false)
        }
    }
}

// All steps from these files on. No query takes 2 ^ 64 of them, since each takes an import or
// finishes a file.
fn finish<I: Inputs, T: Drop, F: Fn(&str) -> Result<Source<T>, Unread> + Copy>(
    alloc: Global,
    mut loading: Loading<Kept<T>>,
    inputs: &mut I,
    read: F,
) -> Result<Vec<File<Kept<T>>>, LoadFault>
    requires callable { F.IsAlwaysCallable read }
    requires few { length (files_in (state_of loading)) ≤ most_files }
    ensures world { I.world inputs.new ≡ I.world inputs.old }
    ensures told { IfSome (I.world inputs.old) (λ w. (sources : Sources (kept.Kept T))
        → AreSources (FnReturnsAt F.Fn read) w sources
        → EndsAs sources (state_of loading) result) }
    ensures held { IfSome (I.world inputs.old) (λ w. AreHeld w (files_in (state_of loading))
        → HasContents w result) }
    ensures counts { LeavesLoad (FnReturnsAt F.Fn read) result (I.counts inputs.old)
        (I.counts inputs.new) }
    ensures opened { OpensRest (length (files_in (state_of loading))) result (I.counts inputs.old)
        (I.counts inputs.new) }
{
    'steps: for step in 0..u64::MAX {
        if advance(alloc, &mut loading, inputs, read)? {
            return Ok(loading.done);
        }
    }
    Err(LoadFault::NoMemory)
}

/// Loads the query of this name with the libraries that it imports, each by what the reader makes
/// of its text: the files in the order in which they are done, the query last.
///
/// Over a world that is told, they are what loading comes to, or the refusal is its first one, if
/// each text has one answer of the reader; and each file has the bytes that stand in the world. In
/// any world, each file that was opened is closed again, as many were opened as are answered, and
/// the counts of faults and of files that were missing say what the answer says.
pub fn load<I: Inputs, T: Drop, F: Fn(&str) -> Result<Source<T>, Unread> + Copy>(
    alloc: Global,
    name: &Str,
    inputs: &mut I,
    read: F,
) -> Result<Vec<File<Kept<T>>>, LoadFault>
    requires callable { F.IsAlwaysCallable read }
    ensures world { I.world inputs.new ≡ I.world inputs.old }
    ensures told { IfSome (I.world inputs.old) (λ w. (sources : Sources (kept.Kept T))
        → AreSources (FnReturnsAt F.Fn read) w sources → IsLoaded sources name.now result) }
    ensures held { IfSome (I.world inputs.old) (λ w. HasContents w result) }
    ensures missing { IfSome (I.world inputs.old) (λ w. IsMissing w name.now result) }
    ensures counts { LeavesLoad (FnReturnsAt F.Fn read) result (I.counts inputs.old)
        (I.counts inputs.new) }
    ensures opened { OpensLoaded result (I.counts inputs.old) (I.counts inputs.new) }
{
    match read_file(alloc, inputs, name, read)? {
        Found::Missing => Err(LoadFault::NoQuery),
        Found::Refused(code, place, contents) => {
            Err(refused(name.copy()?, code, place, 1, contents))
        }
        Found::Read(source) => {
            let loading = start_loading(alloc, name.copy()?, source)?;
            finish(alloc, loading, inputs, read)
        }
    }
}
