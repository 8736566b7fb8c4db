//! What comes out of a stage, and what is kept of its items.

ghost use Rattle.std.specs.Prelude.{◌≡◌, ◌++◌, IfOk};
ghost use Rattle.clause_eval.specs.Frames.{tuples_of, entries_of};

use clause_eval::Frame;
use item_tree::{Item, NoMemory};
use piece_outcomes::Kept;
use piece_seats::ItemsKept;

/// What comes out of a stage: the tuples of `count`, those of `group by` with their keys, or what
/// is kept of the items of `return`.
#[derive(Drop)]
pub struct CameOut<'a, I> {
    /// The tuples.
    pub tuples: Vec<Frame<'a>>,
    /// The tuples with their keys.
    pub keyed: Vec<(Vec<Option<Item>>, Frame<'a>)>,
    /// What is kept of the items.
    pub items: I,
}

// Tuples, and after them more.
fn tuples_behind<'a>(
    tuples: Vec<Frame<'a>>,
    later: Vec<Frame<'a>>,
) -> Result<Vec<Frame<'a>>, NoMemory>
    ensures { IfOk result (λ v. tuples_of v ≡ tuples_of tuples.entry ++ tuples_of later.entry) }
{
    let mut tuples = tuples;
    let mut later = later;
    tuples.append(&mut later)?;
    Ok(tuples)
}

// Tuples with their keys, and after them more.
fn keyed_behind<'a>(
    keyed: Vec<(Vec<Option<Item>>, Frame<'a>)>,
    later: Vec<(Vec<Option<Item>>, Frame<'a>)>,
) -> Result<Vec<(Vec<Option<Item>>, Frame<'a>)>, NoMemory>
    ensures { IfOk result (λ v. entries_of v ≡ entries_of keyed.entry ++ entries_of later.entry) }
{
    let mut keyed = keyed;
    let mut later = later;
    keyed.append(&mut later)?;
    Ok(keyed)
}

impl<'a, I: ItemsKept> Kept for CameOut<'a, I> {
    ghost use Rattle.piece_run.specs.Outcomes.{CameIs};

    ghost stands = { λ w came. CameIs I.stands w came };

    fn follow(self, later: Self) -> Result<Self, NoMemory> {
        let CameOut {
            tuples,
            keyed,
            items,
        } = self;
        let tuples = tuples_behind(tuples, later.tuples)?;
        let keyed = keyed_behind(keyed, later.keyed)?;
        let items = items.follow(later.items)?;
        Ok(CameOut {
            tuples,
            keyed,
            items,
        })
    }
}
