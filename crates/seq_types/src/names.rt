//! The names of types.

ghost use Rattle.std.specs.Prelude.{◌≡◌};
ghost use Rattle.std.specs.Str.{chars};
ghost use Rattle.seq_types.specs.Names.{type_named};

use crate::ItemType;

/// The type of items with this name, as a query writes it. Parentheses may follow the names `item`,
/// `json-item`, `object` and `array`, and no other. `None` exactly where no type is written so.
pub fn find_type(name: &str, parens: bool) -> Option<ItemType>
    ensures { result ≡ type_named (chars name.now) parens }
{
    type_spelled(name, parens)
}

// The table of names. It is read by their bytes.
fn type_spelled(name: &str, parens: bool) -> Option<ItemType>
    ensures { result ≡ type_named name.now parens }
{
    match name {
        "item" => Some(ItemType::Item),
        "json-item" => Some(ItemType::JsonItem),
        "object" => Some(ItemType::Object),
        "array" => Some(ItemType::Array),
        _ if parens => None,
        "atomic" => Some(ItemType::Atomic),
        "string" => Some(ItemType::Text),
        "integer" => Some(ItemType::Integer),
        "decimal" => Some(ItemType::Decimal),
        "boolean" => Some(ItemType::Boolean),
        "null" => Some(ItemType::Null),
        "date" => Some(ItemType::Date),
        "dateTime" => Some(ItemType::DateTime),
        _ => None,
    }
}
