//! Laws of the definitions. Each is the contract of a function that does nothing.

ghost use Rattle.eq_join.specs.Laws.{OperandsTurnRound};

/// It does not matter which of two keys stands on the left.
pub fn operands_turn_round()
    ensures { OperandsTurnRound }
{}
