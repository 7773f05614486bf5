//! The order of specifiers, and their hash.
//!
//! Equal specifiers may accept different versions: `==1.*` equals `==1.0.*`. A cache keyed by specifiers
//! has to know this (law `equal_stars_may_differ`).

ghost use Rattle.std.specs.Prelude.{◌≡◌, refl};
ghost use Rattle.std.specs.Ordering.{as_partial_cmp};
ghost use Rattle.pep440_specifier.specs.SpecifierOrder.{operator_rank, specifier_cmp, specifier_eq};
ghost use Rattle.pep440_specifier.specs.SpecifierHash.{fed_specifier};
ghost use Rattle.pep440_specifier.specs.SpecifierOrderLaws.{specifier_cmp_total, specifier_eq_equiv};
ghost use Rattle.pep440_specifier.specs.SpecifierOrderLaws.{specifier_eq_partial, specifier_partial_order};
ghost use Rattle.pep440_specifier.specs.SpecifierOrderLaws.{alike_specifiers};

use crate::VersionSpecifier;
use std::cmp::Ordering;
use std::hash::{Hash, Hasher};

impl PartialEq for VersionSpecifier {
    ghost eq = { specifier_eq };

    ghost laws = { specifier_eq_partial };

    fn eq(&self, other: &VersionSpecifier) -> bool {
        self.cmp(other).is_eq()
    }
}

impl Eq for VersionSpecifier {
    ghost laws = { specifier_eq_equiv };
}

impl Ord for VersionSpecifier {
    ghost cmp = { specifier_cmp };

    ghost total = { specifier_cmp_total };

    ghost matches_partial_cmp = { λ x y. refl };

    ghost matches_eq = { λ x y. refl };

    #[tactic(auto, unfolding(crate::specs::SpecifierOrder::specifier_key))]
    fn cmp(&self, other: &VersionSpecifier) -> Ordering {
        rank(self.operator())
            .cmp(&rank(other.operator()))
            .then(self.version().cmp(other.version()))
    }
}

impl PartialOrd for VersionSpecifier {
    ghost partial_cmp = { as_partial_cmp specifier_cmp };

    ghost laws = { specifier_partial_order };

    fn partial_cmp(&self, other: &VersionSpecifier) -> Option<Ordering> {
        Some(self.cmp(other))
    }
}

impl Hash for VersionSpecifier {
    ghost hash_input = { fed_specifier };

    ghost respects_eq = { alike_specifiers };

    #[tactic(auto, unfolding(crate::specs::SpecifierOrder::specifier_key))]
    fn hash<H: Hasher>(&self, state: &mut H) {
        state.write_u64(rank(self.operator()));
        state.write_u8(255);
        self.version().hash(state);
    }
}

fn rank(operator: crate::Operator) -> u64
    ensures { result ≡ operator_rank operator }
{
    match operator {
        crate::Operator::Equal => 0,
        crate::Operator::EqualStar => 1,
        crate::Operator::ExactEqual => 2,
        crate::Operator::NotEqual => 3,
        crate::Operator::NotEqualStar => 4,
        crate::Operator::TildeEqual => 5,
        crate::Operator::LessThan => 6,
        crate::Operator::LessThanEqual => 7,
        crate::Operator::GreaterThan => 8,
        crate::Operator::GreaterThanEqual => 9,
    }
}
