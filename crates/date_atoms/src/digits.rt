//! Numbers of as many digits as are asked for.

ghost use Rattle.std.specs.Prelude.{◌≡◌, ℕ, ◌≤◌, List, ◌∷◌, length, MatchOption};
ghost use Rattle.date_atoms.specs.inside.Fronts.{IsNumber, IsNumberFront, IsTriple};

/// The number that digits spell. `None` where not all are digits.
pub(crate) fn number(digits: &[u8]) -> Option<u32>
    requires { length digits.now ≤ 9 }
    ensures { MatchOption result ((n : ℕ) → ¬ IsNumber (length digits.now) digits.now n)
        (IsNumber (length digits.now) digits.now) }
{
    let mut n = 0;
    for digit in digits {
        if !digit.is_ascii_digit() {
            return None;
        }
        n = n * 10 + u32::from(*digit - b'0');
    }
    Some(n)
}

/// The number of so many digits at the front, and what is behind it.
pub(crate) fn number_front(bytes: &[u8], count: usize) -> Option<(u32, &[u8])>
    requires { count ≤ 9 }
    ensures { MatchOption result
        ((n : ℕ) (rest : List ℕ) → ¬ IsNumberFront count bytes.now n rest)
        (λ found. IsNumberFront count bytes.now found.0 found.1.now) }
{
    if bytes.len() < count {
        return None;
    }
    let (digits, rest) = bytes.split_at(count);
    match number(digits) {
        Some(n) => Some((n, rest)),
        None => None,
    }
}

/// The number of two digits behind a mark at the front, and what is behind it.
pub(crate) fn marked_front(bytes: &[u8], mark: u8) -> Option<(u32, &[u8])>
    ensures { MatchOption result
        ((behind : List ℕ) (n : ℕ) (rest : List ℕ) → bytes.now ≡ mark ∷ behind
        → ¬ IsNumberFront 2 behind n rest)
        (λ found. (behind : List ℕ) × (bytes.now ≡ mark ∷ behind)
        × IsNumberFront 2 behind found.0 found.1.now) }
{
    match bytes {
        [first, behind @ ..] if *first == mark => number_front(behind, 2),
        _ => None,
    }
}

/// Three numbers, of which the second and the third have two digits, and what is behind them.
#[derive(Clone, Copy, Debug)]
pub(crate) struct Triple<'a> {
    pub(crate) first: u32,
    pub(crate) second: u32,
    pub(crate) third: u32,
    pub(crate) rest: &'a [u8],
}

/// Three numbers at the front, with a mark before the second and the third.
pub(crate) fn triple_front(bytes: &[u8], width: usize, mark: u8) -> Option<Triple<'_>>
    requires { width ≤ 9 }
    ensures { MatchOption result
        ((a b c : ℕ) (rest : List ℕ) → ¬ IsTriple width mark bytes.now a b c rest)
        (λ t. IsTriple width mark bytes.now t.first t.second t.third t.rest.now) }
{
    let (first, behind) = number_front(bytes, width)?;
    let (second, behind) = marked_front(behind, mark)?;
    let (third, rest) = marked_front(behind, mark)?;
    Some(Triple {
        first,
        second,
        third,
        rest,
    })
}
