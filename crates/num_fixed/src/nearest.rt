//! The whole number nearest to a ratio.

ghost use Rattle.std.specs.Prelude.{◌≡◌, ◌≢◌, ◌+◌, ◌-◌, ◌/◌, ◌^◌, ◌<◌, ◌≤◌, ℤ, pos, unsigned_abs};
ghost use Rattle.num_fixed.specs.Nearest.{IsNearest, IsNearestNatural};
ghost use Rattle.num_fixed.specs.Signs.{with_sign, is_negative, differ};

/// The whole number nearest to a ratio of numbers without sign.
fn nearest_size(n: u128, d: u128) -> u128
    requires some { 0 < d }
    requires small { d < 2 ^ 126 }
    ensures nearest { IsNearestNatural n d result }
    ensures within { result ≤ n / d + 1 }
{
    let whole = n / d;
    let rest = n % d;
    if 2 * rest < d || 2 * rest == d && whole % 2 == 0 {
        whole
    } else {
        whole + 1
    }
}

/// Whether a number is below 0.
fn is_negative(n: i128) -> bool
    ensures { result ≡ is_negative n }
{
    n < 0
}

/// Whether one of two flags is set, and the other isn't.
fn differ(a: bool, b: bool) -> bool
    ensures { result ≡ differ a b }
{
    a != b
}

/// The number of this size, below 0 where `negative` is set.
pub(crate) fn with_sign(negative: bool, size: u128) -> i128
    requires { size < 2 ^ 127 }
    ensures { result ≡ with_sign negative size }
{
    if negative {
        -(size as i128)
    } else {
        size as i128
    }
}

/// The whole number nearest to n / d.
pub(crate) fn nearest(n: i128, d: i128) -> i128
    requires some { d ≢ pos 0 }
    requires small { unsigned_abs d < 2 ^ 126 }
    requires room { unsigned_abs n / unsigned_abs d < 2 ^ 127 - 1 }
    ensures { IsNearest n d result }
{
    let size = nearest_size(n.unsigned_abs(), d.unsigned_abs());
    with_sign(differ(is_negative(n), is_negative(d)), size)
}
