//! A query that is one input and nothing else: its items are printed as they are read, so that none
//! of them is kept.

ghost use Rattle.std.specs.Prelude.{◌≡◌, ◌∷◌, [], IfOk, IfSome, option_map, string_bytes};
ghost use Rattle.item_reader.specs.inside.Items.{items_of};
ghost use Rattle.query_meaning.specs.inside.Computed.{read_of};
ghost use Rattle.query_tree.specs.BoundViews.{bound_form};
ghost use Rattle.query_tree.specs.Compiled.{bound_trees};
ghost use Rattle.query_tree.specs.declared.bound.Target.TheVariants.{Lines};
ghost use Rattle.rumble_run.specs.Answer.{of_outcome};
ghost use Rattle.rumble_run.specs.inside.LoneInput.{IsCallOf, IsLoneInput, lone_value};
ghost use Rattle.rumble_run.specs.inside.Reads.{Searched, search_of_name};
ghost use Rattle.rumble_run.specs.inside.Seen.{answer_of, IsOfStatus, LeavesRun};

use crate::ending::Ending;
use crate::items::print_lines;
use crate::read::read_named;
use crate::status::Stop;
use crate::telling::{tells_error, writes_items};
use item_tree::{Code, Fault, NoMemory, Str};
use outside::Inputs;
use query_tree::{BoundModule, Kind, Slot, Target};
use seq_types::SeqType;
use std::alloc::Global;

type BoundKind = Kind<Slot, Target, SeqType>;

// The name of the input where a call of this target reads one.
fn only_name(target: &Target) -> Option<&Str>
    ensures { IfSome result (λ name. target.now ≡ Lines (name.now ∷ [])) }
{
    match target {
        Target::Lines(names) => match names.as_slice() {
            [name] => Some(name),
            _ => None,
        },
        Target::Built(_) => None,
        Target::Own(_) => None,
    }
}

// The same where an expression of this kind is such a call.
fn name_read(kind: &BoundKind) -> Option<&Str>
    ensures { IfSome result (λ name. IsCallOf name.now (bound_form kind.now)) }
{
    match kind {
        Kind::Call { function, .. } => only_name(function),
        _ => None,
    }
}

/// The input, and the place of the call that reads it, where a query that names these inputs is
/// nothing but a call of `json-lines` with one name. Where it names more, as in a function that is
/// never called, all of them must be read. No contract asks that an input is found: where none is,
/// the items are kept, and the answer is the same.
pub(crate) fn lone_input<'a>(query: &BoundModule, names: &'a [Str]) -> Option<(&'a Str, u32)>
    ensures { IfSome result (λ r. (names.now ≡ r.0.now ∷ [])
        × IsLoneInput r.0.now r.1 (bound_trees query.now)) }
{
    let [only] = names else {
        return None;
    };
    match name_read(&query.body.kind) {
        Some(name) if query.variables.is_empty() && name == only => {
            Some((only, query.body.place))
        }
        _ => None,
    }
}

// What such a query comes to, whose input has these bytes, where there is one.
fn of_bytes(
    alloc: Global,
    stats: bool,
    text: &[u8],
    input: Option<Vec<u8>>,
    place: u32,
) -> Result<Ending, NoMemory>
    ensures { IfOk result (λ e. answer_of e ≡ of_outcome stats text.now
        (lone_value (option_map (λ v. items_of v.items) input) place)) }
{
    let Some(bytes) = input else {
        return Ok(tells_error(alloc, text, &Fault::at(Code::FODC0002, place))?);
    };
    match print_lines(alloc, &bytes) {
        Ok(printed) => Ok(writes_items(alloc, stats, printed)?),
        Err(fault) => match fault.code() {
            Some(code) => Ok(tells_error(alloc, text, &Fault::at(code, place))?),
            None => Err(NoMemory),
        },
    }
}

/// What a query comes to that is this input, read at this place.
pub(crate) fn of_lone_input<I: Inputs>(
    alloc: Global,
    stats: bool,
    text: &[u8],
    name: &Str,
    place: u32,
    inputs: &mut I,
) -> Result<Ending, Stop>
    ensures world { I.world inputs.new ≡ I.world inputs.old }
    ensures value { IfOk result (λ e. IfSome (I.world inputs.old) (λ w. answer_of e
        ≡ of_outcome stats text.now (lone_value (read_of w name.now) place))) }
    ensures shape { IfOk result (λ e.
        IsOfStatus stats e.out.items (string_bytes e.err) e.status) }
    ensures counts { LeavesRun result (I.counts inputs.old) (I.counts inputs.new) }
    ensures searched { IfSome (I.world inputs.old) (λ w. Searched result
        (search_of_name w name.now) (I.counts inputs.old) (I.counts inputs.new)) }
{
    let input = read_named(alloc, inputs, name.as_str())?;
    let ending = of_bytes(alloc, stats, text, input, place)?;
    Ok(ending)
}
