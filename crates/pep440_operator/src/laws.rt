//! Laws of operators. The functions do nothing: each one's contract is its law.

ghost use Rattle.std.specs.Prelude.{◌≡◌, ◌↔◌, ℕ, false, List, Some};
ghost use Rattle.pep440_operator.specs.declared.operator.Operator.{Operator};
ghost use Rattle.pep440_operator.specs.Operators.{is_star};
ghost use Rattle.pep440_operator.specs.OperatorPrint.{operator_text};
ghost use Rattle.pep440_operator.specs.OperatorReading.{operator_of};

/// A text is read as an operator exactly where it is that operator's print; a star is never part of it.
pub fn operator_text_is_read()
    ensures { (text : List ℕ) (operator : Operator)
        → (operator_of text ≡ Some operator)
        ↔ ((is_star operator ≡ false) × (operator_text operator ≡ text)) }
{}
