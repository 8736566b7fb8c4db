//! Tuples of a FLWOR that wait to go through the clauses that are left to them.

ghost use Rattle.std.specs.Prelude.{◌≡◌, ◌++◌, ◌+◌, length, reverse, IfOk};
ghost use Rattle.clause_eval.specs.Carrying.{given_tuples};
ghost use Rattle.clause_eval.specs.Frames.{frame_tuples};
ghost use Rattle.clause_eval.specs.Waits.{left_tuples, waits_of, waits_at};

use crate::progress::Given;
use crate::tuples::Frame;
use item_tree::NoMemory;

/// Tuples that are through so many of the clauses. Of several the last one goes on first.
#[derive(Drop)]
pub(crate) struct Waiting<'a> {
    pub passed: usize,
    pub given: Given<'a>,
}

// The same tuples, so that of several the last one goes on first.
fn turned<'a>(given: Given<'a>) -> Given<'a>
    ensures { left_tuples result ≡ given_tuples given.entry }
{
    match given {
        Given::One(frame) => Given::One(frame),
        Given::Many(frames) => {
            let mut last_first = frames;
            last_first.reverse();
            Given::Many(last_first)
        }
    }
}

/// What a clause gives for a tuple, which goes on before the others.
pub(crate) fn with_given<'a>(
    passed: usize,
    given: Given<'a>,
    others: Vec<Waiting<'a>>,
) -> Result<Vec<Waiting<'a>>, NoMemory>
    ensures waits { IfOk result (λ v. waits_of v.items
        ≡ waits_at passed (given_tuples given.entry) ++ waits_of others.entry.items) }
    ensures lists { IfOk result (λ v. length v.items ≡ length others.entry.items + 1) }
{
    let given = turned(given);
    let mut waiting = others;
    waiting.push(Waiting { passed, given })?;
    Ok(waiting)
}

/// What is left of a list, of which the last one goes on first.
pub(crate) fn with_left<'a>(
    passed: usize,
    left: Vec<Frame<'a>>,
    others: Vec<Waiting<'a>>,
) -> Result<Vec<Waiting<'a>>, NoMemory>
    ensures waits { IfOk result (λ v. waits_of v.items
        ≡ waits_at passed (frame_tuples (reverse left.entry.items))
        ++ waits_of others.entry.items) }
    ensures lists { IfOk result (λ v. length v.items ≡ length others.entry.items + 1) }
{
    let given = Given::Many(left);
    let mut waiting = others;
    waiting.push(Waiting { passed, given })?;
    Ok(waiting)
}
