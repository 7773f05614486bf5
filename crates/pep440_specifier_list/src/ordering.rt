//! The order of lists, and their hash.

ghost use Rattle.std.specs.Prelude.{◌≡◌, fold, refl};
ghost use Rattle.std.specs.List.{flat_map};
ghost use Rattle.std.specs.Ordering.{as_partial_cmp};
ghost use Rattle.pep440_specifier_list.specs.ListOrder.{list_cmp, list_eq};
ghost use Rattle.pep440_specifier_list.specs.ListHash.{fed_member, fed_list};
ghost use Rattle.pep440_specifier_list.specs.ListOrderLaws.{list_cmp_total, list_eq_equiv, list_eq_partial};
ghost use Rattle.pep440_specifier_list.specs.ListOrderLaws.{list_partial_order, alike_lists};

use crate::VersionSpecifiers;
use pep440_specifier::VersionSpecifier;
use std::cmp::Ordering;
use std::hash::{Hash, Hasher};

impl PartialEq for VersionSpecifiers {
    ghost eq = { list_eq };

    ghost laws = { list_eq_partial };

    fn eq(&self, other: &VersionSpecifiers) -> bool {
        self.cmp(other).is_eq()
    }
}

impl Eq for VersionSpecifiers {
    ghost laws = { list_eq_equiv };
}

impl PartialOrd for VersionSpecifiers {
    ghost partial_cmp = { as_partial_cmp list_cmp };

    ghost laws = { list_partial_order };

    fn partial_cmp(&self, other: &VersionSpecifiers) -> Option<Ordering> {
        Some(self.cmp(other))
    }
}

impl Ord for VersionSpecifiers {
    ghost cmp = { list_cmp };

    ghost total = { list_cmp_total };

    ghost matches_partial_cmp = { λ x y. refl };

    ghost matches_eq = { λ x y. refl };

    fn cmp(&self, other: &VersionSpecifiers) -> Ordering {
        self.as_slice().cmp(other.as_slice())
    }
}

impl Hash for VersionSpecifiers {
    ghost hash_input = { fed_list };

    ghost respects_eq = { alike_lists };

    fn hash<H: Hasher>(&self, state: &mut H) {
        feed_members(self.as_slice(), state);
        state.write_u8(0);
    }
}

fn feed_members<H: Hasher>(members: &[VersionSpecifier], state: &mut H)
    ensures { state.new ≡ fold H.write state.old (flat_map fed_member members.now) }
{
    for member in members {
        state.write_u8(1);
        member.hash(state);
    }
}
