//! Puts values last in a list.

ghost use Rattle.std.specs.Prelude.{◌≡◌, ◌++◌, ◌∷◌, [], OnOk, OnErr};

use crate::NoMemory;

/// One more value goes last in a list, without a call where there is room. Where memory runs out
/// the list stays as it was.
#[inline(always)]
pub fn push_last<T: Drop>(list: &mut Vec<T>, value: T) -> Result<(), NoMemory>
    ensures ok { OnOk result (list.new.items ≡ list.old.items ++ value ∷ []) }
    ensures err { OnErr result (list.new.items ≡ list.old.items) }
{
    if list.len() < list.capacity() {
        list.push_reserved(value);
        return Ok(());
    }
    push_more(list, value)
}

// The same where there is no room. Out of line, so that its room on the stack is not set to zero
// where it is not called.
#[inline(never)]
fn push_more<T: Drop>(list: &mut Vec<T>, value: T) -> Result<(), NoMemory>
    ensures ok { OnOk result (list.new.items ≡ list.old.items ++ value ∷ []) }
    ensures err { OnErr result (list.new.items ≡ list.old.items) }
{
    list.push(value)?;
    Ok(())
}
