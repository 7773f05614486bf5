//! Laws of printed requirements. The functions do nothing: each one's contract is its law.

ghost use Rattle.std.specs.Prelude.{◌≡◌};
ghost use Rattle.pep508_requirement_ref.specs.RequirementOrder.{requirement_cmp};
ghost use Rattle.pep508_requirement_ref.specs.Views.{SayTheSame};

use crate::RequirementRef;
use pep508_url::Pep508Url;
use std::fmt;

/// Requirements are ordered by their parts, one after another: the first that differs decides.
pub fn the_order_is_by_parts<'a, T: Pep508Url + Ord>(
    left: &RequirementRef<'a, T>,
    right: &RequirementRef<'a, T>,
)
    ensures { ⟦<RequirementRef<'a, T> as Ord>⟧.cmp left.now right.now
        ≡ requirement_cmp T.cmp left.now right.now }
{}

/// Requirements of any two interners that mean the same print the same.
#[tactic(auto, using(crate::proofs::Alike::alike_print))]
pub fn what_says_the_same_prints_the_same<'a, T: Pep508Url>(
    left: &RequirementRef<'a, T>,
    right: &RequirementRef<'a, T>,
)
    ensures { SayTheSame left.now right.now → ⟦<RequirementRef<'a, T> as fmt::Display>⟧.output left.now
        ≡ ⟦<RequirementRef<'a, T> as fmt::Display>⟧.output right.now }
{
    left.is_canonical();
    right.is_canonical();
}
