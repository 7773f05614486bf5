//! The parts of formulas, one after another.

ghost use Rattle.std.specs.Prelude.{◌≡◌, [], ◌∷◌, MatchOption};
ghost use Rattle.pep508_formula.specs.Postfix.{parts_in, part_of};

use crate::formula::Token;
use pep508_marker::MarkerExpression;

/// One part of a formula in postfix order.
#[derive(Clone, Copy)]
pub enum FormulaPart<'a> {
    /// A comparison.
    Says(&'a MarkerExpression),
    /// A meaningless comparison, which is ignored.
    LeftOut,
    /// The last two formulas, joined by `and`.
    And,
    /// The last two formulas, joined by `or`.
    Or,
}

/// The remaining parts of a formula.
#[derive(Clone, Copy)]
pub struct Parts<'a> {
    pub(crate) tokens: &'a [Token],
    pub(crate) said: &'a [Box<MarkerExpression>],
}

impl<'a> Parts<'a> {
    /// Returns the first part and the parts after it, if there is one.
    pub fn split_first(self) -> Option<(FormulaPart<'a>, Parts<'a>)>
        ensures { MatchOption result (parts_in self.entry ≡ [])
            (λ found. parts_in self.entry ≡ part_of found.0 ∷ parts_in found.1) }
    {
        let (token, tokens) = self.tokens.split_first()?;
        let behind = Parts {
            tokens,
            said: self.said,
        };
        match *token {
            Token::Says => match self.said.split_first() {
                Some((expression, said)) => {
                    Some((FormulaPart::Says(expression), Parts { tokens, said }))
                }
                None => Some((FormulaPart::LeftOut, behind)),
            },
            Token::LeftOut => Some((FormulaPart::LeftOut, behind)),
            Token::And => Some((FormulaPart::And, behind)),
            Token::Or => Some((FormulaPart::Or, behind)),
        }
    }
}
