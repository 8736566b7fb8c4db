//! Least faults, and limits that are enough for them.

use fault_merge::{At, Done, enough, least};

fn at(clause: u32, piece: u64) -> At {
    At { clause, piece }
}

#[test]
fn finds_the_lesser_place(rt: HostRuntime) {
    let rows = [
        (None, at(3, 1), at(3, 1)),
        (Some(at(2, 5)), at(3, 1), at(2, 5)),
        (Some(at(3, 1)), at(2, 5), at(2, 5)),
        (Some(at(3, 1)), at(3, 0), at(3, 0)),
        (Some(at(3, 0)), at(3, 1), at(3, 0)),
        (Some(at(3, 1)), at(3, 1), at(3, 1)),
    ];
    for (a, b, lesser) in rows {
        assert_eq!(rt; least(a, b), lesser);
    }
    assert!(rt; at(2, 5) < at(3, 1));
    assert!(rt; at(3, 0) < at(3, 1));
}

// The least fault is in clause 2 of piece 5, and a whole run has 4 clauses.
#[test]
fn tells_which_limits_are_enough(rt: HostRuntime) {
    let fault = Some(at(2, 5));
    let rows = [
        (None, 4, 0, true),
        (None, 3, 0, false),
        (None, 5, 0, false),
        (fault, 2, 4, false),
        (fault, 3, 4, true),
        (fault, 2, 5, false),
        (fault, 3, 5, true),
        (fault, 1, 6, false),
        (fault, 2, 6, true),
        (fault, 4, 6, true),
    ];
    for (least, limit, piece, is) in rows {
        let done = Done {
            piece,
            limit,
            out: is,
        };
        assert_eq!(rt; enough(done.limit, done.piece, least, 4), done.out);
    }
}
