//! Events that the core allows one after the other, of 3 pieces with 4 clauses.

use board_core::{CoreEvent, CoreState, step};
use fault_merge::{At, enough};

fn took(piece: u64, limit: u32) -> CoreEvent {
    CoreEvent::Took { piece, limit }
}

fn told(clause: u32, piece: u64) -> CoreEvent {
    CoreEvent::Told { clause, piece }
}

// The state after all events, where each is allowed.
fn after(events: &[CoreEvent]) -> Option<CoreState> {
    let mut state = CoreState::opening(3, 4);
    for event in events {
        state = step(&state, event)?;
    }
    Some(state)
}

#[test]
fn takes_pieces_at_the_least_clause_told(rt: HostRuntime) {
    let events = [took(0, 4), took(1, 4), told(3, 1), took(2, 3), told(2, 0)];
    let least = Some(At {
        clause: 2,
        piece: 0,
    });
    let ended = CoreState {
        total: 3,
        full: 4,
        next: 3,
        least,
        stopped: false,
    };
    assert_eq!(rt; after(&events), Some(ended));
    assert_eq!(rt; ended.limit(), 2);
    assert!(rt; enough(4, 0, least, 4));
    assert!(rt; enough(4, 1, least, 4));
    assert!(rt; enough(3, 2, least, 4));
}

#[test]
fn allows_no_other_event(rt: HostRuntime) {
    let begun = [took(0, 4), took(1, 4), told(3, 1)];
    let state = after(&begun).unwrap_or(CoreState::opening(0, 0));
    assert_eq!(rt; state.next, 2);
    let refused = [
        took(2, 4),
        took(2, 2),
        took(1, 3),
        took(3, 3),
        told(1, 2),
        told(4, 1),
    ];
    for event in refused {
        assert_eq!(rt; step(&state, &event), None);
    }
    assert_eq!(rt; after(&[took(0, 4), told(1, 2)]), None);
    assert_eq!(rt; after(&[CoreEvent::Stopped, took(0, 4)]), None);
    assert_eq!(rt;
        after(&[took(0, 4), took(1, 4), took(2, 4), took(3, 4)]),
        None
    );
    assert!(rt;
        after(&[
            took(0, 4),
            CoreEvent::Stopped,
            told(1, 0),
            CoreEvent::Stopped
        ])
        .is_some()
    );
}

// The core does not know which tells are true. With one that is not, a limit need not be enough.
#[test]
fn allows_a_tell_that_is_not_true(rt: HostRuntime) {
    let events = [took(0, 4), told(1, 0), took(1, 1)];
    assert!(rt; after(&events).is_some());
    assert!(rt; !enough(1, 1, None, 4));
}
