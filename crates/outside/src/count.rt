//! Counters.

ghost use Rattle.std.specs.Prelude.{◌≡◌};
ghost use Rattle.outside.specs.Counted.{count_up};

/// A counter's next value. It stays at its last value.
pub(crate) fn count_up(count: u64) -> u64
    ensures { result ≡ count_up count }
{
    count.saturating_add(1)
}
