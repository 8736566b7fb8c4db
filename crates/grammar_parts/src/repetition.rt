//! Repetitions and lists.

ghost use Rattle.std.specs.Prelude.{◌≡◌, [], ◌∷◌, true, false, MatchResult};
ghost use Rattle.grammar_parts.specs.declared.cursor.Stop.TheVariants.{NoMemory};
ghost use Rattle.grammar_parts.specs.Turns.{start, Ended, Repeated, Listed};

use crate::cursor::{Cursor, Stop};
use crate::token::TokenClass;
use std::alloc::Global;

/// Goes to where an item begins: behind the next token, if that stands before the item.
fn to_item<T>(separated: bool, cursor: &mut Cursor<'_, T>)
    ensures { cursor.new.rest.now ≡ start separated cursor.old.rest.now }
{
    if separated {
        cursor.skip();
    }
}

fn one<R: Drop>(alloc: Global, item: R) -> Result<Vec<R>, Stop>
    ensures { MatchResult result (λ v. v.items ≡ item ∷ []) (λ e. e ≡ NoMemory) }
{
    let mut found = Vec::new(alloc);
    found.push(item)?;
    Ok(found)
}

/// Reads further items, as often as a token of the class is next. Such a token begins an item, or,
/// where items are separated, it stands before one.
fn more<T, C: TokenClass<T>, R: Drop, G: Fn(&mut Cursor<'_, T>) -> Result<R, Stop>>(
    mut found: Vec<R>,
    class: C,
    separated: bool,
    item: G,
    cursor: &mut Cursor<'_, T>,
) -> Result<Vec<R>, Stop>
    requires { G.IsAlwaysCallable item }
    ensures { Ended separated (C.takes class) (G.post item) found.items cursor.old.rest.now result
        cursor.new.rest.now }
{
    'turns: for turn in 0..cursor.left() {
        if !cursor.sees(class) {
            break;
        }
        to_item(separated, cursor);
        found.push(item(cursor)?)?;
    }
    Ok(found)
}

/// Reads an item as often as a token of the class is next.
pub fn repeat<T, C: TokenClass<T>, R: Drop, G: Fn(&mut Cursor<'_, T>) -> Result<R, Stop>>(
    alloc: Global,
    class: C,
    item: G,
    cursor: &mut Cursor<'_, T>,
) -> Result<Vec<R>, Stop>
    requires { G.IsAlwaysCallable item }
    ensures { Repeated (C.takes class) (G.post item) cursor.old.rest.now result
        cursor.new.rest.now }
{
    more(Vec::new(alloc), class, false, item, cursor)
}

/// Reads an item, and then further ones as often as a token of the class is next.
pub fn repeat_some<T, C: TokenClass<T>, R: Drop, G: Fn(&mut Cursor<'_, T>) -> Result<R, Stop>>(
    alloc: Global,
    class: C,
    item: G,
    cursor: &mut Cursor<'_, T>,
) -> Result<Vec<R>, Stop>
    requires { G.IsAlwaysCallable item }
    ensures { Listed false (C.takes class) (G.post item) cursor.old.rest.now result
        cursor.new.rest.now }
{
    let found = one(alloc, item(cursor)?)?;
    more(found, class, false, item, cursor)
}

/// Reads items with a token of the class between each two.
pub fn list<T, C: TokenClass<T>, R: Drop, G: Fn(&mut Cursor<'_, T>) -> Result<R, Stop>>(
    alloc: Global,
    separator: C,
    item: G,
    cursor: &mut Cursor<'_, T>,
) -> Result<Vec<R>, Stop>
    requires { G.IsAlwaysCallable item }
    ensures { Listed true (C.takes separator) (G.post item) cursor.old.rest.now result
        cursor.new.rest.now }
{
    let found = one(alloc, item(cursor)?)?;
    more(found, separator, true, item, cursor)
}
