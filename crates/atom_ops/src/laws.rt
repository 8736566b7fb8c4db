//! Laws of the definitions, each the contract of a function that does nothing.
ghost use Rattle.std.specs.Prelude.{◌≡◌, ℕ, Bool, List, Err};
ghost use Rattle.item_tree.specs.declared.code.Code.TheVariants.{FORG0001};
ghost use Rattle.num_fixed.specs.Numeral.{Numeral};
ghost use Rattle.num_fixed.specs.Values.{said};
ghost use Rattle.atom_ops.specs.Casts.{in_bounds_or_over, number_in};
ghost use Rattle.atom_ops.specs.Laws.{IsPlainText};

/// The number in a text is what the text says as a numeral without an exponent, and for an integer
/// without a point; a text that is no such numeral is refused.
pub fn texts_of_numbers()
    ensures said { (point : Bool) → (l : List ℕ) → (n : Numeral) →
        IsPlainText point l n → number_in point l ≡ in_bounds_or_over (said n) }
    ensures refused { (point : Bool) → (l : List ℕ) →
        ((n : Numeral) → ¬ IsPlainText point l n) → number_in point l ≡ Err FORG0001 }
{}
