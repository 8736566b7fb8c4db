//! Numbers of 128 bits that need no more than the alignment of a word.

ghost use Rattle.std.specs.Prelude.{◌≡◌};
ghost use Rattle.std.specs.Ordering.{int_eq};

use std::marker::Model;

/// A number of 128 bits in two words. One that is not split would align an item to two words, and
/// make it a third larger.
#[derive(Clone, Copy, Debug)]
pub(crate) struct Wide {
    high: u64,
    low: u64,
}

impl Model for Wide {
    ghost use Rattle.std.specs.Prelude.{ℤ};

    ghost Value = { ℤ };

    ghost use Rattle.item_tree.specs.inside.Words.{joined, words_of, AreWords, words_back};

    ghost view = { λ a. joined a.high a.low };

    ghost invariant = { AreWords };

    ghost inverse = { words_of };

    ghost inverse_ok = { words_back };
}

impl Wide {
    #[tactic(auto, unfolding(crate::specs::inside::Words::joined))]
    pub(crate) fn new(n: i128) -> Wide
        ensures { result ≡ n }
    {
        let bits = n.cast_unsigned();
        Wide {
            high: (bits >> 64) as u64,
            low: (bits % (1 << 64)) as u64,
        }
    }

    #[tactic(auto, unfolding(crate::specs::inside::Words::joined))]
    pub(crate) fn get(&self) -> i128
        ensures { result ≡ self.now }
    {
        (u128::from(self.high) * (1 << 64) + u128::from(self.low)).cast_signed()
    }
}

impl PartialEq for Wide {
    ghost use Rattle.std.specs.Cmp.{partial_equiv_from_equiv};
    ghost use Rattle.std.proofs.lemmas.Cmp.{int_eq_equiv};

    ghost eq = { int_eq };

    ghost laws = { partial_equiv_from_equiv int_eq_equiv };

    fn eq(&self, other: &Wide) -> bool {
        self.get() == other.get()
    }
}

impl Eq for Wide {
    ghost use Rattle.std.proofs.lemmas.Cmp.{int_eq_equiv};

    ghost laws = { int_eq_equiv };
}
