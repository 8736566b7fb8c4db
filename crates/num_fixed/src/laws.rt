//! Laws of the definitions, each the contract of a function that does nothing.
ghost use Rattle.std.specs.Prelude.{◌≡◌, ◌≢◌, ◌↔◌, ℕ, ℤ, pos, List, [], ◌++◌, true, false};
ghost use Rattle.std.specs.Int.RustNames.{int_div, int_rem};
ghost use Rattle.num_fixed.specs.Bounds.{InBounds, NumberInBounds};
ghost use Rattle.num_fixed.specs.Fronts.{has_number, numeral_front, behind_front, IsFront};
ghost use Rattle.num_fixed.specs.Laws.{ToldBy, IsMet, IsSingle, IsCounted, IsJoined, IsOneNumeral, StaysBefore, IsCutFrom, IsReached};
ghost use Rattle.num_fixed.specs.Nearest.{IsNearest, IsNearestUnit};
ghost use Rattle.num_fixed.specs.Numeral.{Numeral, IsNumeral, IsOutOfBounds, Says};
ghost use Rattle.num_fixed.specs.Quotients.{IsDivided, IsProduct, IsTruncated, IsRemainder};
ghost use Rattle.num_fixed.specs.Rounding.{IsFloor, IsCeiling, IsRoundedUp, IsRoundedEven};
ghost use Rattle.num_fixed.specs.Totals.{Tally, tally_of, IsSum};
ghost use Rattle.num_fixed.specs.Values.{in_bounds, number_in_bounds, near, near_unit, product, whole_of, floor_of, ceiling_of, rounded_up, rounded_even, sum_of, said};
ghost use Rattle.num_fixed.specs.declared.number.Kind.{Kind};
ghost use Rattle.num_fixed.specs.declared.number.Kind.TheVariants.{Whole};
ghost use Rattle.num_fixed.specs.declared.number.Number.{Number};

/// Exactly one whole number is nearest to a ratio.
pub fn one_nearest()
    ensures some { (n : ℤ) → (d : ℤ) → d ≢ pos 0 → IsMet (IsNearest n d) }
    ensures one { (n : ℤ) → (d : ℤ) → d ≢ pos 0 → IsSingle (IsNearest n d) }
{}

/// Exactly one quotient and remainder belong to a dividend and a divisor.
pub fn one_division()
    ensures some { (a : ℤ) → (b : ℤ) → b ≢ pos 0 → (q : ℤ) × (r : ℤ) × IsDivided a b q r }
    ensures quotient { (a : ℤ) → (b : ℤ) → IsSingle (IsTruncated a b) }
    ensures remainder { (a : ℤ) → (b : ℤ) → IsSingle (IsRemainder a b) }
{}

/// Exactly one number is each rounding of a number.
pub fn one_rounding()
    ensures floor { (m : ℤ) → IsSingle (IsFloor m) }
    ensures ceiling { (m : ℤ) → IsSingle (IsCeiling m) }
    ensures up { (m : ℤ) → IsSingle (IsRoundedUp m) }
    ensures even { (m : ℤ) → IsSingle (IsRoundedEven m) }
    ensures some_floor { (m : ℤ) → IsMet (IsFloor m) }
    ensures some_ceiling { (m : ℤ) → IsMet (IsCeiling m) }
    ensures some_up { (m : ℤ) → IsMet (IsRoundedUp m) }
    ensures some_even { (m : ℤ) → IsMet (IsRoundedEven m) }
{}

/// Each function gives what its relation holds of.
pub fn computed()
    ensures nearest { (n : ℤ) → (d : ℤ) → d ≢ pos 0 → IsNearest n d (near n d) }
    ensures unit { (a : ℤ) → (b : ℤ) → b ≢ pos 0 → IsNearestUnit a b (near_unit a b) }
    ensures product { (kind : Kind) → (a : ℤ) → (b : ℤ) → IsProduct kind a b (product kind a b) }
    ensures divided { (a : ℤ) → (b : ℤ) → b ≢ pos 0 → IsDivided a b (int_div a b) (int_rem a b) }
    ensures whole { (m : ℤ) → IsTruncated m (pos 1000000) (whole_of m) }
    ensures floor { (m : ℤ) → IsFloor m (floor_of m) }
    ensures ceiling { (m : ℤ) → IsCeiling m (ceiling_of m) }
    ensures up { (m : ℤ) → IsRoundedUp m (rounded_up m) }
    ensures even { (m : ℤ) → IsRoundedEven m (rounded_even m) }
    ensures sum { (k : Kind) → (t : Tally) → IsMet (IsSum k t) → IsSum k t (sum_of k t) }
    ensures said { (n : Numeral) → Says n (said n) }
    ensures bounds { (kind : Kind) → (m : ℤ) → (in_bounds kind m ≡ true) ↔ InBounds kind m }
    ensures numbers { (x : Number) → (number_in_bounds x ≡ true) ↔ NumberInBounds x }
{}

/// A result is out of bounds exactly where the computed one is.
pub fn told()
    ensures nearest { (n : ℤ) → (d : ℤ) → d ≢ pos 0 → ToldBy (IsNearest n d) (near n d) }
    ensures unit { (a : ℤ) → (b : ℤ) → b ≢ pos 0 → ToldBy (IsNearestUnit a b) (near_unit a b) }
    ensures product { (k : Kind) → (a : ℤ) → (b : ℤ) → ToldBy (IsProduct k a b) (product k a b) }
    ensures quotient { (a : ℤ) → (b : ℤ) → b ≢ pos 0 → ToldBy (IsTruncated a b) (int_div a b) }
    ensures floor { (m : ℤ) → ToldBy (IsFloor m) (floor_of m) }
    ensures ceiling { (m : ℤ) → ToldBy (IsCeiling m) (ceiling_of m) }
    ensures up { (m : ℤ) → ToldBy (IsRoundedUp m) (rounded_up m) }
    ensures even { (m : ℤ) → ToldBy (IsRoundedEven m) (rounded_even m) }
    ensures sum { (k : Kind) → (t : Tally) → IsMet (IsSum k t) → ToldBy (IsSum k t) (sum_of k t) }
    ensures said { (n : Numeral) → IsOutOfBounds n ↔ (number_in_bounds (said n) ≡ false) }
{}

/// The total of numbers and of later numbers is both totals joined, and the sum of integers is
/// the units of a whole number.
pub fn totals()
    ensures joined { (xs : List Number) → (ys : List Number) → IsJoined xs ys }
    ensures whole { (xs : List Number) → (tally_of xs).whole ≡ true → IsCounted (tally_of xs) }
    ensures one { (kind : Kind) → (t : Tally) → IsSingle (IsSum kind t) }
{}

/// A text is one numeral at most, and what a numeral says of bytes with a rest behind it is what it
/// says of the bytes before that rest.
pub fn numerals()
    ensures one { (l : List ℕ) → IsOneNumeral l }
    ensures before { (n : Numeral) → (w : List ℕ) → (r : List ℕ) → StaysBefore n w r }
    ensures cut { (n : Numeral) → (l : List ℕ) → (r : List ℕ) → IsNumeral n l r → IsCutFrom n l r }
{}

/// Exactly one number, in bounds or out of them, is what a numeral says.
pub fn one_number()
    ensures some { (n : Numeral) → (x : Number) × Says n x }
    ensures one { (n : Numeral) → (x : Number) → (y : Number) → Says n x → Says n y → x ≡ y }
{}

/// Where a number stands at the front of a text, the longest is one, and no number at the front is
/// longer; where none is found, none stands there.
pub fn fronts()
    ensures is { (l : List ℕ) → has_number l ≡ true → IsFront (numeral_front l) l (behind_front l) }
    ensures longest { (n : Numeral) → (l : List ℕ) → (r : List ℕ) → IsFront n l r → IsReached l r }
{}
