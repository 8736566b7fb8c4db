//! What the calls of a board answer, and the log that they leave.

use board_core::CoreEvent;
use item_tree::NoMemory;
use piece_board::{Board, Ticket};
use std::test::*;

fn ticket(piece: u64, limit: u32) -> Option<Ticket> {
    Some(Ticket { piece, limit })
}

#[test]
fn notes_what_is_taken_and_told(rt: HostRuntime) -> Result<(), Fail> {
    let mut board = Board::new(rt.alloc(), 3, 4).map_err(|_e: NoMemory| "memory")?;
    assert_eq!(rt; board.take(), ticket(0, 4));
    board.tell(4, 0);
    board.tell(2, 1);
    board.tell(2, 0);
    assert_eq!(rt; board.take(), ticket(1, 2));
    board.tell(3, 1);
    assert_eq!(rt; board.take(), ticket(2, 2));
    assert_eq!(rt; board.take(), None);
    let (state, log) = board.into_log();
    assert_eq!(rt; state.next, 3);
    assert_eq!(rt; state.limit(), 2);
    let events = [
        CoreEvent::Took { piece: 0, limit: 4 },
        CoreEvent::Told {
            clause: 2,
            piece: 0,
        },
        CoreEvent::Took { piece: 1, limit: 2 },
        CoreEvent::Told {
            clause: 3,
            piece: 1,
        },
        CoreEvent::Took { piece: 2, limit: 2 },
    ];
    assert!(rt; log.as_slice() == events.as_slice());
    Ok(())
}

#[test]
fn hands_out_nothing_after_a_stop(rt: HostRuntime) -> Result<(), Fail> {
    let mut board = Board::new(rt.alloc(), 1, 4).map_err(|_e: NoMemory| "memory")?;
    assert_eq!(rt; board.take(), ticket(0, 4));
    board.tell(3, 0);
    board.tell(2, 0);
    board.stop();
    board.stop();
    assert_eq!(rt; board.take(), None);
    let (state, log) = board.into_log();
    assert!(rt; state.stopped);
    let events = [
        CoreEvent::Took { piece: 0, limit: 4 },
        CoreEvent::Told {
            clause: 3,
            piece: 0,
        },
        CoreEvent::Stopped,
    ];
    assert!(rt; log.as_slice() == events.as_slice());
    Ok(())
}

#[test]
fn stops_before_the_first_piece(rt: HostRuntime) -> Result<(), Fail> {
    let mut board = Board::new(rt.alloc(), 3, 4).map_err(|_e: NoMemory| "memory")?;
    board.stop();
    assert_eq!(rt; board.take(), None);
    Ok(())
}
