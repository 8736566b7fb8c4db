//! Values of declared types.

ghost use Rattle.std.specs.Prelude.{◌≡◌, Ok, if◌then◌else◌};
ghost use Rattle.item_tree.specs.declared.code.Code.TheVariants.{XPTY0004};
ghost use Rattle.seq_types.specs.Fits.{fits};
ghost use Rattle.query_meaning.specs.Outcome.{raised};
ghost use Rattle.query_meaning.specs.Checks.{typed};
ghost use Rattle.query_meaning.specs.inside.Gives.{Gives};
ghost use Rattle.query_meaning.specs.inside.Views.{items_of};

use item_tree::Code;
use query_meaning::{EvalFault, Value};
use query_tree::Placed;
use seq_types::{SeqType, matches};

/// The value, if it is of the type that is declared here, or none is.
pub fn typed<'a>(
    place: u32,
    of: &Option<Placed<SeqType>>,
    value: Value<'a>,
) -> Result<Value<'a>, EvalFault>
    ensures { Gives items_of result (typed place of.now (items_of value.entry)) }
{
    match of {
        None => Ok(value),
        Some(t) => fitting(place, &t.name, value),
    }
}

fn fitting<'a>(place: u32, t: &SeqType, value: Value<'a>) -> Result<Value<'a>, EvalFault>
    ensures { Gives items_of result (if fits t.now (items_of value.entry)
        then Ok (items_of value.entry) else raised XPTY0004 place) }
{
    if matches(value.items(), t) {
        Ok(value)
    } else {
        Err(EvalFault::raised(Code::XPTY0004, place))
    }
}
