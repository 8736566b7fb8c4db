//! Integers and decimals in their bounds.

ghost use Rattle.std.specs.Prelude.{◌≡◌};
ghost use Rattle.item_tree.specs.Compare.{whole_units};
ghost use Rattle.item_tree.specs.Datum.{IsWhole, IsUnits};

use crate::wide::Wide;
use std::marker::Model;

/// An integer: a whole number n with |n| < 10^20.
#[derive(Clone, Copy, Debug, PartialEq, Eq)]
pub struct Whole {
    n: Wide,
}

impl Model for Whole {
    ghost use Rattle.std.specs.Prelude.{ℤ, pos, negsuc, ◌<ℤ◌, ◌^◌};

    ghost Value = { ℤ };

    ghost use Rattle.item_tree.specs.Datum.{IsWhole};

    ghost view = { λ a. a.n };

    ghost invariant = { λ a. IsWhole a.n };

    ghost inverse = { λ z. record { n = z } };
}

impl Whole {
    /// The integer n, which is within the bounds.
    pub fn new(n: i128) -> Whole
        requires { IsWhole n }
        ensures { result ≡ n }
    {
        Whole { n: Wide::new(n) }
    }

    /// The whole number.
    pub fn get(&self) -> i128
        ensures value { result ≡ self.now }
        ensures within { IsWhole self.now }
    {
        self.n.get()
    }

    /// The number in units of 10^-6.
    pub fn units(&self) -> i128
        ensures { result ≡ whole_units self.now }
    {
        self.get() * 1_000_000
    }
}

/// A decimal: a whole number m of units of 10^-6, with |m| < 10^26.
#[derive(Clone, Copy, Debug, PartialEq, Eq)]
pub struct Units {
    m: Wide,
}

impl Model for Units {
    ghost use Rattle.std.specs.Prelude.{ℤ, pos, negsuc, ◌<ℤ◌, ◌^◌};

    ghost Value = { ℤ };

    ghost use Rattle.item_tree.specs.Datum.{IsUnits};

    ghost view = { λ a. a.m };

    ghost invariant = { λ a. IsUnits a.m };

    ghost inverse = { λ z. record { m = z } };
}

impl Units {
    /// The decimal of so many units, which are within the bounds.
    pub fn new(m: i128) -> Units
        requires { IsUnits m }
        ensures { result ≡ m }
    {
        Units { m: Wide::new(m) }
    }

    /// The number of units of 10^-6.
    pub fn get(&self) -> i128
        ensures value { result ≡ self.now }
        ensures within { IsUnits self.now }
    {
        self.m.get()
    }
}
