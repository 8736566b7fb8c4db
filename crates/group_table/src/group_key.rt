//! What the keys of groups are compared by.

ghost use Rattle.std.specs.Prelude.{◌≡◌, IfOk};
ghost use Rattle.item_tree.specs.Laws.{IsKey};
ghost use Rattle.tuple_rows.specs.Keys.{AllKeys, key_datum, key_data};
ghost use Rattle.group_table.specs.inside.KeyParts.{IsKeyFor, IsPartFor, AreParts};

use item_tree::{Item, Key, NoMemory, key_of};
use std::alloc::Global;

/// What key lists are compared by. The first key stands here and not behind a pointer, since most
/// groups have one key.
#[derive(Debug, Drop, PartialEq, Eq, Hash)]
pub(crate) struct GroupKey {
    pub first: Option<Key>,
    pub others: Vec<Option<Key>>,
}

/// What this key list is compared by.
pub(crate) fn group_key(alloc: Global, keys: &[Option<Item>]) -> Result<GroupKey, NoMemory>
    requires { AllKeys (key_data keys.now) }
    ensures { IfOk result (λ k. IsKeyFor k (key_data keys.now)) }
{
    match keys {
        [] => Ok(GroupKey {
            first: None,
            others: Vec::new(alloc),
        }),
        [key, rest @ ..] => {
            let first = part(key)?;
            let others = parts(alloc, rest)?;
            Ok(GroupKey { first, others })
        }
    }
}

fn parts(alloc: Global, keys: &[Option<Item>]) -> Result<Vec<Option<Key>>, NoMemory>
    requires { AllKeys (key_data keys.now) }
    ensures { IfOk result (λ v. AreParts v.items (key_data keys.now)) }
{
    let mut parts = Vec::new(alloc);
    for key in keys {
        parts.push(part(key)?)?;
    }
    Ok(parts)
}

fn part(key: &Option<Item>) -> Result<Option<Key>, NoMemory>
    requires { IsKey (key_datum key.now) }
    ensures { IfOk result (λ p. IsPartFor p (key_datum key.now)) }
{
    match key {
        None => Ok(None),
        Some(item) => Ok(Some(key_of(item)?)),
    }
}
