//! Gates round pieces: that two workers run at once, and that each piece has one gate before it and
//! one after it.

ghost use Rattle.std.specs.Prelude.{◌<◌, length};

use crate::script::{Act, Script, Seat};
use outside::Gate;
use piece_board::run_pieces;
use std::sync::atomic::{AtomicBool, AtomicU64, Ordering};
use std::test::*;

// Piece 0 waits until piece 1 is done, up to a number of turns.
#[derive(Drop)]
struct Meeting {
    met: AtomicBool,
    saw: AtomicBool,
}

impl Gate for Meeting {
    fn before(&self, piece: u64) {
        if piece == 0 {
            for _turn in 0..300_000_000u64 {
                if self.met.load(Ordering::SeqCst) {
                    self.saw.store(true, Ordering::SeqCst);
                    break;
                }
            }
        }
    }

    fn after(&self, piece: u64) {
        if piece == 1 {
            self.met.store(true, Ordering::SeqCst);
        }
    }
}

#[test]
fn gate_two_workers(rt: HostRuntime) -> Result<(), Fail> {
    let alloc = rt.alloc();
    let acts = [Act::Nothing, Act::Nothing];
    let job = Script {
        acts: acts.as_slice(),
        full: 4,
    };
    let gate = Meeting {
        met: AtomicBool::new(false),
        saw: AtomicBool::new(false),
    };
    let seats = vec![in alloc; Seat { trouble: 0 }; 2]?;
    let (_seats, ended) = run_pieces(&rt, alloc, &job, 2, 4, seats, &gate);
    assert!(rt; ended.is_ok());
    assert!(rt; gate.saw.load(Ordering::SeqCst));
    Ok(())
}

// Adds up what was before and after pieces: 1 for piece 0, 10 for piece 1, and 100 for others.
#[derive(Drop)]
struct Counting {
    before: AtomicU64,
    after: AtomicU64,
}

fn weight(piece: u64) -> u64 {
    match piece {
        0 => 1,
        1 => 10,
        _ => 100,
    }
}

impl Gate for Counting {
    fn before(&self, piece: u64) {
        self.before.fetch_add(weight(piece), Ordering::SeqCst);
    }

    fn after(&self, piece: u64) {
        self.after.fetch_add(weight(piece), Ordering::SeqCst);
    }
}

#[test]
fn each_piece_has_its_gate_once(rt: HostRuntime) -> Result<(), Fail> {
    let alloc = rt.alloc();
    let acts = [Act::Fault(2), Act::Nothing, Act::Fault(1)];
    let job = Script {
        acts: acts.as_slice(),
        full: 4,
    };
    for workers in [1, 2, 64] {
        let gate = Counting {
            before: AtomicU64::new(0),
            after: AtomicU64::new(0),
        };
        let seats = vec![in alloc; Seat { trouble: 0 }; workers]?;
        let (_seats, ended) = run_pieces(&rt, alloc, &job, 3, 4, seats, &gate);
        assert!(rt; ended.is_ok());
        assert_eq!(rt; gate.before.load(Ordering::SeqCst), 111);
        assert_eq!(rt; gate.after.load(Ordering::SeqCst), 111);
    }
    Ok(())
}
