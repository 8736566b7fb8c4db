//! How runs of a job end, on 1, 2 and 64 workers. What is told of a run is the same by whatever
//! schedule it ran.

use crate::script::{Act, Outcome, Script, Seat};
use board_core::CoreEvent;
use fault_merge::{At, enough, least};
use outside::FreeGate;
use piece_board::{JobFault, Pieces, run_pieces};
use std::alloc::Global;
use std::sync::Wait;
use std::test::*;
use std::thread::Threads;

// What is told of the outputs: each piece, the least fault, and each limit that is not enough.
fn outputs(alloc: Global, pieces: &Pieces<Outcome>, full: u32) -> Result<String, Fail> {
    let mut text = String::new(alloc);
    let mut first = None;
    for done in &pieces.done {
        text.push_str(format!(in alloc; "{}:{} ", done.piece, done.out.piece)?.as_str())?;
        if let Some(clause) = done.out.clause {
            let piece = done.piece;
            first = Some(least(first, At { clause, piece }));
        }
    }
    match first {
        None => text.push_str("no fault")?,
        Some(at) => text.push_str(format!(in alloc; "{} in {}", at.clause, at.piece)?.as_str())?,
    }
    for done in &pieces.done {
        if !enough(done.limit, done.piece, first, full) {
            text.push_str(", not enough")?;
        }
    }
    Ok(text)
}

// How a run of 4 clauses ends, how much trouble the seats had, and whether any is lost.
fn run<R: Threads + Wait + Sync>(
    rt: &R,
    alloc: Global,
    acts: &[Act],
    workers: usize,
) -> Result<String, Fail> {
    if acts.len() > 8 || workers == 0 {
        return Ok(format!(in alloc; "not run")?);
    }
    let job = Script { acts, full: 4 };
    let seats = vec![in alloc; Seat { trouble: 0 }; workers]?;
    let total = acts.len() as u64;
    let (seats, ended) = run_pieces(rt, alloc, &job, total, 4, seats, &FreeGate);
    let mut trouble: u64 = 0;
    for seat in &seats {
        trouble = trouble.saturating_add(seat.trouble);
    }
    let told = match ended {
        Ok(pieces) => outputs(alloc, &pieces, 4)?,
        Err(JobFault::Job(_)) => format!(in alloc; "failed")?,
        Err(JobFault::NoMemory) => format!(in alloc; "no memory")?,
    };
    let lost = if seats.len() == workers {
        ""
    } else {
        ", seats lost"
    };
    Ok(format!(in alloc; "{told}, trouble {trouble}{lost}")?)
}

#[test]
fn runs_end_the_same_on_any_number_of_workers(rt: HostRuntime) -> Result<(), Fail> {
    let alloc = rt.alloc();
    let none: [Act; 0] = [];
    let clean = [Act::Nothing, Act::Nothing, Act::Nothing];
    let lowers = [Act::Fault(2), Act::Fault(3), Act::Nothing];
    let late = [Act::Nothing, Act::Fault(3), Act::Fault(1)];
    let fails = [Act::Nothing, Act::Fail, Act::Nothing];
    let starves = [Act::Nothing, Act::Nothing, Act::Starve];
    let rows = [
        (none.as_slice(), "no fault, trouble 0"),
        (clean.as_slice(), "0:0 1:1 2:2 no fault, trouble 0"),
        (lowers.as_slice(), "0:0 1:1 2:2 2 in 0, trouble 0"),
        (late.as_slice(), "0:0 1:1 2:2 1 in 2, trouble 0"),
        (fails.as_slice(), "failed, trouble 1"),
        (starves.as_slice(), "no memory, trouble 0"),
    ];
    for (acts, wanted) in rows {
        for workers in [1, 2, 64] {
            let told = run(&rt, alloc, acts, workers)?;
            assert_eq!(rt; told.as_str(), wanted);
        }
    }
    Ok(())
}

// On one worker the schedule is known: a piece that faults lowers the limit of the next.
#[test]
fn fault_lowers_the_limit_of_the_next_piece(rt: HostRuntime) -> Result<(), Fail> {
    let alloc = rt.alloc();
    let acts = [Act::Fault(2), Act::Fault(3), Act::Fault(1)];
    let job = Script {
        acts: acts.as_slice(),
        full: 4,
    };
    let seats = vec![in alloc; Seat { trouble: 0 }; 1]?;
    let (_seats, ended) = run_pieces(&rt, alloc, &job, 3, 4, seats, &FreeGate);
    let pieces = ended.ok().ok_or("ended")?;
    let events = [
        CoreEvent::Took { piece: 0, limit: 4 },
        CoreEvent::Told {
            clause: 2,
            piece: 0,
        },
        CoreEvent::Took { piece: 1, limit: 2 },
        CoreEvent::Took { piece: 2, limit: 2 },
        CoreEvent::Told {
            clause: 1,
            piece: 2,
        },
    ];
    assert!(rt; pieces.events.as_slice() == events.as_slice());
    Ok(())
}
