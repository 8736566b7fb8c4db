//! What the inputs of a query hold: they are all read before anything is evaluated.

ghost use Rattle.std.specs.Prelude.{◌≡◌, option_map, IfOk, IfSome};
ghost use Rattle.item_reader.specs.inside.Items.{items_of};
ghost use Rattle.query_meaning.specs.inside.Computed.{inputs_of};
ghost use Rattle.query_meaning.specs.inside.Views.{held_read, library_of};
ghost use Rattle.rumble_run.specs.Opens.{search_among};
ghost use Rattle.rumble_run.specs.inside.Held.{entry, read_entry};
ghost use Rattle.rumble_run.specs.inside.Reads.{Leaves, Searched, search_of_name};

use crate::items::read_items;
use crate::read::read_named;
use crate::status::Stop;
use item_tree::{NoMemory, Str};
use outside::Inputs;
use query_meaning::{Held, Library, Sequence};
use std::alloc::Global;
use std::hash::{DefaultHasher, Hasher};

// What these bytes read as, where there is such an input. The hasher takes the bytes.
fn held_of(
    alloc: Global,
    input: Option<Vec<u8>>,
    hasher: &mut DefaultHasher,
) -> Result<Held, NoMemory>
    ensures { IfOk result (λ h. held_read h ≡ option_map (λ v. items_of v.items) input) }
{
    let Some(bytes) = input else {
        return Ok(Held::Missing);
    };
    hasher.write(&bytes);
    match read_items(alloc, &bytes) {
        Ok(items) => Ok(Held::Items(Sequence::of(items))),
        Err(fault) => match fault.code() {
            Some(code) => Ok(Held::Raised(code)),
            None => Err(NoMemory),
        },
    }
}

// Reads the input of this name.
fn read_input<I: Inputs>(
    alloc: Global,
    inputs: &mut I,
    name: &Str,
    hasher: &mut DefaultHasher,
) -> Result<(Str, Held), Stop>
    ensures world { I.world inputs.new ≡ I.world inputs.old }
    ensures held { IfOk result (λ e. IfSome (I.world inputs.old) (λ w.
        entry e ≡ read_entry w name.now)) }
    ensures counts { Leaves result (I.counts inputs.old) (I.counts inputs.new) }
    ensures searched { IfSome (I.world inputs.old) (λ w. Searched result
        (search_of_name w name.now) (I.counts inputs.old) (I.counts inputs.new)) }
{
    let own = name.copy()?;
    let input = read_named(alloc, inputs, name.as_str())?;
    let held = held_of(alloc, input, hasher)?;
    Ok((own, held))
}

/// Reads the inputs of these names in order. The seed of the library depends on all their bytes, so
/// whoever changes an input to slow down a table of groups changes the seed.
pub(crate) fn read_inputs<I: Inputs>(
    alloc: Global,
    inputs: &mut I,
    names: &[Str],
) -> Result<Library, Stop>
    ensures world { I.world inputs.new ≡ I.world inputs.old }
    ensures held { IfOk result (λ l.
        IfSome (I.world inputs.old) (λ w. library_of l ≡ inputs_of w names.now)) }
    ensures counts { Leaves result (I.counts inputs.old) (I.counts inputs.new) }
    ensures searched { IfSome (I.world inputs.old) (λ w. Searched result
        (search_among w names.now) (I.counts inputs.old) (I.counts inputs.new)) }
{
    let mut held: Vec<(Str, Held)> = Vec::new(alloc);
    let mut hasher = DefaultHasher::new();
    for name in names {
        let one = read_input(alloc, inputs, name, &mut hasher)?;
        held.push(one)?;
    }
    Ok(Library::seeded(held, hasher.finish()))
}
