//! Functions between items and their JSON texts.

ghost use Rattle.std.specs.Prelude.{◌≡◌, Ok, IfOk, IfErr};
ghost use Rattle.std.specs.String.{string_bytes};
ghost use Rattle.item_tree.specs.Item.{datum, datums};
ghost use Rattle.item_tree.specs.ItemText.{item_text};
ghost use Rattle.value_rules.specs.Operands.{FailsWith};
ghost use Rattle.fn_objects.specs.Faults.{MayFailWith};
ghost use Rattle.fn_table.specs.Texts.{serialize, parse_json};
ghost use Rattle.fn_call.specs.inside.LineFaults.{op_fault};

use crate::results::one_item;
use item_printer::print_item;
use item_reader::{LineFault, read_item};
use item_tree::{Code, Item, NoMemory, OpFault, Str};
use json_text::laws::{printed_reads_back, texts_are_utf8};
use std::alloc::Global;
use value_rules::optional_string;

/// The JSON text of the one item of a sequence.
pub(crate) fn serialize(alloc: Global, s: &[Item]) -> Result<Vec<Item>, OpFault>
    ensures value { IfOk result (λ xs. serialize (datums s.now) ≡ Ok (datums xs.items)) }
    ensures fault { IfErr result (FailsWith (serialize (datums s.now))) }
{
    let [item] = s else {
        return Err(OpFault::Raised(Code::XPTY0004));
    };
    let text = Str::from_string(alloc, printed(alloc, item)?)?;
    Ok(one_item(alloc, Item::Text(text))?)
}

// The JSON text of an item, which is UTF-8.
fn printed(alloc: Global, item: &Item) -> Result<String, NoMemory>
    ensures { IfOk result (λ t. string_bytes t ≡ item_text (datum item.now)) }
{
    let mut bytes = Vec::new(alloc);
    print_item(item, &mut bytes)?;
    let _depth = item.depth();
    printed_reads_back();
    texts_are_utf8();
    Ok(unsafe { String::from_utf8_unchecked(bytes) })
}

/// The item of a JSON text, by the rules for a line of an input; nothing where there is no text.
/// Memory is taken before the whole text is known to be one.
pub(crate) fn parse_json(alloc: Global, s: &[Item]) -> Result<Vec<Item>, OpFault>
    ensures value { IfOk result (λ xs. parse_json (datums s.now) ≡ Ok (datums xs.items)) }
    ensures fault { IfErr result (MayFailWith (parse_json (datums s.now))) }
{
    if s.is_empty() {
        return Ok(Vec::new(alloc));
    }
    let text = optional_string(s)?;
    match read_item(alloc, text.as_bytes()) {
        Ok(None) => Err(OpFault::Raised(Code::JNDY0021)),
        Ok(Some(item)) => Ok(one_item(alloc, item)?),
        Err(fault) => Err(fault_of(fault)),
    }
}

fn fault_of(fault: LineFault) -> OpFault
    ensures { result ≡ op_fault fault }
{
    match fault.code() {
        Some(code) => OpFault::Raised(code),
        None => OpFault::NoMemory,
    }
}
