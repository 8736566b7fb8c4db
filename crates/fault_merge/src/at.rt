//! Where a fault stands, and which limits are enough for it.

ghost use Rattle.std.specs.Prelude.{◌≡◌, IfSome};
ghost use Rattle.fault_merge.specs.Places.{NotAfter, least_of};
ghost use Rattle.fault_merge.specs.Enough.{enough_of};

/// Where a fault stands: the clause in which it arose, and the piece of work in which it did, from
/// 0. Places are ordered by clause, and in one clause by piece.
#[derive(Clone, Copy, Debug, PartialEq, Eq, PartialOrd, Ord)]
pub struct At {
    pub clause: u32,
    pub piece: u64,
}

/// The lesser of two places. Without the first it is the second.
#[tactic(auto, using(crate::proofs::Lesser::least_first))]
pub fn least(a: Option<At>, b: At) -> At
    ensures value { result ≡ least_of a b }
    ensures first { NotAfter result b × IfSome a (NotAfter result) }
{
    match a {
        Some(a) if a.clause < b.clause => a,
        Some(a) if a.clause == b.clause && a.piece <= b.piece => a,
        _ => b,
    }
}

/// Whether a piece of this number that ran the clauses below `limit` tells each fault of its own
/// that does not come after the least one. Without a least fault, whether it ran all clauses, which
/// are those below `full`.
pub fn enough(limit: u32, piece: u64, least: Option<At>, full: u32) -> bool
    ensures { result ≡ enough_of limit piece least full }
{
    match least {
        None => limit == full,
        Some(at) if piece <= at.piece => at.clause < limit,
        Some(at) => at.clause <= limit,
    }
}
