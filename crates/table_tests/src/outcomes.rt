//! What is gathered of the outcomes of pieces.

ghost use Rattle.std.specs.Prelude.{◌≡◌, length, IfOk};
ghost use Rattle.table_tests.specs.Pieces.{OfOneTuple};

use fault_merge::Done;
use item_tree::{Code, Fault, Item, NoMemory, Whole};
use order_runs::ClassSeen;
use piece_outcomes::{
    Counted, Counts, Gathered, Kept, MetFault, OrderCounted, OrderOutcome, Outcome, gather,
    gather_orders,
};
use std::alloc::Global;
use std::test::Fail;

// A text that is put together as its pieces are. It stands for whatever came out.
#[derive(Drop)]
struct Listed {
    text: String,
}

impl Kept for Listed {
    ghost stands = { λ w c. Unit {0} };

    fn follow(self, later: Listed) -> Result<Listed, NoMemory> {
        let mut text = self.text;
        text.push_str(later.text.as_str())?;
        Ok(Listed { text })
    }
}

fn text_of(alloc: Global, numbers: &str) -> Result<Listed, Fail> {
    Ok(Listed {
        text: format!(in alloc; "{numbers}")?,
    })
}

// What the steps 1, 2 and 3 took in.
fn counts(alloc: Global, a: u64, b: u64, c: u64) -> Result<Counts, Fail> {
    Ok(Counts {
        first: 1,
        taken: vec![in alloc; a, b, c]?,
    })
}

// The numbers, or the fault by its clause, its tuple and its place.
fn shown(alloc: Global, found: Result<Gathered<Listed>, NoMemory>) -> Result<String, Fail> {
    match found {
        Ok(Gathered::Whole(all)) => Ok(all.text),
        Ok(Gathered::Met(met)) => {
            let fault = met.marked();
            let place = fault.place;
            match fault.spot {
                Some(spot) => {
                    let clause = spot.clause;
                    let tuple = spot.tuple;
                    Ok(format!(in alloc; "clause {clause}, tuple {tuple}, at {place}")?)
                }
                None => Err(Fail::new("no spot")),
            }
        }
        Err(NoMemory) => Err(Fail::new("no memory")),
    }
}

#[test]
fn puts_pieces_in_order(rt: HostRuntime) -> Result<(), Fail> {
    let alloc = rt.alloc();
    let first = Counted {
        outcome: Outcome::Whole(text_of(alloc, "1 2 ")?),
        into: counts(alloc, 2, 2, 2)?,
    };
    let second = Counted {
        outcome: Outcome::Whole(text_of(alloc, "3 ")?),
        into: counts(alloc, 1, 1, 1)?,
    };
    assert_eq!(rt; first.told(), None);
    let pieces = vec![in alloc;
        Done {
            piece: 0,
            limit: 4,
            out: first
        },
        Done {
            piece: 1,
            limit: 4,
            out: second
        },
    ]?;
    let found = gather(alloc, text_of(alloc, "")?, pieces);
    assert_eq!(rt; shown(alloc, found)?.as_str(), "1 2 3 ");
    Ok(())
}

// The last piece ran at a limit below all steps.
#[test]
fn takes_the_fault_of_the_earliest_step(rt: HostRuntime) -> Result<(), Fail> {
    let alloc = rt.alloc();
    let whole = Counted {
        outcome: Outcome::Whole(text_of(alloc, "1 ")?),
        into: counts(alloc, 5, 3, 1)?,
    };
    let late = Counted {
        outcome: Outcome::Met(MetFault {
            step: 3,
            tuple: 2,
            fault: Fault::at(Code::XPTY0004, 70),
        }),
        into: counts(alloc, 5, 4, 2)?,
    };
    let early = Counted {
        outcome: Outcome::Met(MetFault {
            step: 2,
            tuple: 6,
            fault: Fault::at(Code::XPTY0004, 50),
        }),
        into: counts(alloc, 7, 6, 0)?,
    };
    let clean = Counted {
        outcome: Outcome::Clean,
        into: counts(alloc, 9, 9, 0)?,
    };
    assert_eq!(rt; late.told(), Some(3));
    assert_eq!(rt; clean.told(), None);
    let pieces = vec![in alloc;
        Done {
            piece: 0,
            limit: 4,
            out: whole
        },
        Done {
            piece: 1,
            limit: 4,
            out: late
        },
        Done {
            piece: 2,
            limit: 3,
            out: early
        },
        Done {
            piece: 3,
            limit: 2,
            out: clean
        },
    ]?;
    let found = gather(alloc, text_of(alloc, "")?, pieces);
    assert_eq!(rt; shown(alloc, found)?.as_str(), "clause 2, tuple 13, at 50");
    Ok(())
}

// What was seen of a tuple with this key.
fn seen_key(alloc: Global, key: Item) -> Result<ClassSeen, Fail>
    ensures wide { IfOk result (λ s. length s.columns ≡ 1) }
    ensures stands { IfOk result OfOneTuple }
{
    let keys = vec![in alloc; Some(key)]?;
    let mut seen = match ClassSeen::new(alloc, 1) {
        Ok(seen) => seen,
        Err(NoMemory) => return Err(Fail::new("no memory")),
    };
    if seen.tuples() + 1 >= ClassSeen::MOST_TUPLES {
        return Err(Fail::new("too many"));
    }
    seen.note(keys.as_slice());
    Ok(seen)
}

#[test]
fn compares_keys_between_pieces(rt: HostRuntime) -> Result<(), Fail> {
    let alloc = rt.alloc();
    let number = seen_key(alloc, Item::Int(Whole::new(7)))?;
    let truth = seen_key(alloc, Item::Bool(true))?;
    let first = OrderCounted {
        outcome: OrderOutcome::Whole(text_of(alloc, "1 ")?, number),
        into: counts(alloc, 4, 3, 1)?,
    };
    let second = OrderCounted {
        outcome: OrderOutcome::Whole(text_of(alloc, "2 ")?, truth),
        into: counts(alloc, 4, 2, 1)?,
    };
    assert_eq!(rt; first.told(), None);
    let pieces = vec![in alloc;
        Done {
            piece: 0,
            limit: 4,
            out: first
        },
        Done {
            piece: 1,
            limit: 4,
            out: second
        },
    ]?;
    let found = gather_orders(alloc, 3, &[90], text_of(alloc, "")?, pieces);
    assert_eq!(rt; shown(alloc, found)?.as_str(), "clause 3, tuple 2, at 90");
    Ok(())
}

#[test]
fn counts_by_step(rt: HostRuntime) -> Result<(), Fail> {
    let alloc = rt.alloc();
    let Ok(mut low) = Counts::new(alloc, 2, 3) else {
        return Err(Fail::new("no memory"));
    };
    assert!(rt; low.first == 2 && low.taken.len() == 3);
    assert!(rt; low.count_in(3, 5) == Ok(5) && low.count_in(3, 1) == Ok(6));
    assert!(rt; low.count_in(3, u64::MAX) == Err(NoMemory));
    let high = Counts {
        first: 3,
        taken: vec![in alloc; 10, 20, 30]?,
    };
    let Ok(both) = low.plus(alloc, &high) else {
        return Err(Fail::new("no memory"));
    };
    for (step, want) in [(1, 0), (2, 0), (3, 16), (4, 20), (5, 30), (6, 0)] {
        assert_eq!(rt; both.at(step), want, "at {step}");
    }
    Ok(())
}
