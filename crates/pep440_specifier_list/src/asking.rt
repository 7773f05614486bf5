//! Testing the members of a list, one after another.

ghost use Rattle.std.specs.Prelude.{◌≡◌, ◌≢◌, ◌≤◌, length, All, IsOk, IfOk, OnOk, OnErr};
ghost use Rattle.pep440_operator.specs.declared.operator.Operator.TheVariants.{ExactEqual};
ghost use Rattle.pep440_specifier_list.specs.Lists.{matches_all, asked};
ghost use Rattle.pep440_specifier_list.specs.Refusals.{IsRefusal};

use pep440_specifier::VersionSpecifier;
use pep440_version::Version;
use std::alloc::{AllocError, Global};

/// Whether the members accept a version, and how many were tested for that.
#[derive(Drop)]
pub(crate) struct Asking {
    pub(crate) asked: usize,
    pub(crate) answer: Result<bool, AllocError>,
}

/// Tests the members in order, up to the first that rejects the version or runs out of memory.
pub(crate) fn ask(alloc: Global, members: &[VersionSpecifier], version: &Version) -> Asking
    ensures answer { IfOk result.answer (λ taken. taken ≡ matches_all members.now version.now) }
    ensures count { OnOk result.answer (result.asked ≡ asked members.now version.now) }
    ensures refusal { OnErr result.answer (IsRefusal members.now version.now result.asked) }
    ensures memory { All (λ s. s.operator ≢ ExactEqual) members.now → IsOk result.answer }
{
    let mut asked = 0;
    for member in members {
        asked += 1;
        match member.contains(alloc, version) {
            Ok(true) => {}
            Ok(false) => {
                return Asking {
                    asked,
                    answer: Ok(false),
                };
            }
            Err(error) => {
                return Asking {
                    asked,
                    answer: Err(error),
                };
            }
        }
    }
    Asking {
        asked,
        answer: Ok(true),
    }
}
