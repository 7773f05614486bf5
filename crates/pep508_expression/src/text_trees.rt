//! Trees of comparisons of texts, and of extras.

ghost use Rattle.std.specs.Prelude.{◌≡◌, not, IfOk};
ghost use Rattle.version_ranges.specs.Boundaries.{point_of};
ghost use Rattle.version_ranges.specs.Point.{At, point_cmp};
ghost use Rattle.version_ranges.specs.Turns.{flips, reaches};
ghost use Rattle.std.specs.Ordering.{is_eq};
ghost use Rattle.pep508_marker.specs.declared.operators.MarkerOperator.TheVariants.{TildeEqual};
ghost use Rattle.pep508_marker.specs.Values.{extra_of};
ghost use Rattle.pep508_diagram.specs.Text.{text_cmp};
ghost use Rattle.pep508_tree.specs.Meaning.{Extends};
ghost use Rattle.pep508_expression.specs.Expressions.{text_holds, extra_flag, extra_holds};
ghost use Rattle.pep508_tree.specs.Truths.{IsTreeOf};

use pep508_diagram::{Flag, MarkerText, NodeValue};
use pep508_marker::{ExtraOperator, MarkerOperator, MarkerValueExtra, MarkerValueString};
use pep508_tree::{Interner, MarkerTree};
use std::alloc::{AllocError, Global};
use version_ranges::Boundary;

/// Returns the tree of the text alone, or of all others.
fn equal_tree(
    alloc: Global,
    interner: &mut Interner,
    key: MarkerValueString,
    text: MarkerText,
    negated: bool,
) -> Result<MarkerTree, AllocError>
    ensures made { IfOk result (IsTreeOf interner.new.nodes
        (λ v. flips negated (is_eq (point_cmp text_cmp (v.text key) (At text))))) }
    ensures keeps { Extends interner.old.nodes interner.new.nodes }
    ensures counts { interner.new.conjunctions ≡ interner.old.conjunctions }
{
    let copy = text.copied(alloc)?;
    let boundaries = [Boundary::At(text), Boundary::JustAbove(copy)];
    interner.texts_tree(alloc, key, negated, &boundaries)
}

/// Returns the tree of the texts from an endpoint on, or of those below it.
fn side_tree(
    alloc: Global,
    interner: &mut Interner,
    key: MarkerValueString,
    boundary: Boundary<MarkerText>,
    below: bool,
) -> Result<MarkerTree, AllocError>
    ensures made { IfOk result (IsTreeOf interner.new.nodes
        (λ v. flips below (reaches (point_cmp text_cmp) (point_of boundary) (v.text key)))) }
    ensures keeps { Extends interner.old.nodes interner.new.nodes }
    ensures counts { interner.new.conjunctions ≡ interner.old.conjunctions }
{
    interner.texts_tree(alloc, key, below, &[boundary])
}

/// Returns the tree of a flag that is set, or that is not.
fn flag_tree(
    alloc: Global,
    interner: &mut Interner,
    flag: Flag,
    negated: bool,
) -> Result<MarkerTree, AllocError>
    ensures made { IfOk result (IsTreeOf interner.new.nodes (λ v. flips negated (v.flag flag))) }
    ensures keeps { Extends interner.old.nodes interner.new.nodes }
    ensures counts { interner.new.conjunctions ≡ interner.old.conjunctions }
{
    let tree = interner.flag_tree(alloc, flag)?;
    Ok(if negated { tree.negate() } else { tree })
}

/// Returns the tree of a key and a text.
pub(crate) fn text_tree(
    alloc: Global,
    interner: &mut Interner,
    key: MarkerValueString,
    operator: MarkerOperator,
    value: &str,
) -> Result<MarkerTree, AllocError>
    requires { operator ≡ TildeEqual → ⊥ }
    ensures made { IfOk result (IsTreeOf interner.new.nodes (text_holds key operator value.now)) }
    ensures keeps { Extends interner.old.nodes interner.new.nodes }
    ensures counts { interner.new.conjunctions ≡ interner.old.conjunctions }
{
    let text = MarkerText::copy_of(alloc, value)?;
    match operator {
        MarkerOperator::Equal => equal_tree(alloc, interner, key, text, false),
        MarkerOperator::NotEqual => equal_tree(alloc, interner, key, text, true),
        MarkerOperator::GreaterThan => {
            side_tree(alloc, interner, key, Boundary::JustAbove(text), false)
        }
        MarkerOperator::GreaterEqual => {
            side_tree(alloc, interner, key, Boundary::At(text), false)
        }
        MarkerOperator::LessThan => side_tree(alloc, interner, key, Boundary::At(text), true),
        MarkerOperator::LessEqual => {
            side_tree(alloc, interner, key, Boundary::JustAbove(text), true)
        }
        MarkerOperator::TildeEqual => unreachable!(),
        MarkerOperator::In => flag_tree(alloc, interner, Flag::In(key, text), false),
        MarkerOperator::NotIn => flag_tree(alloc, interner, Flag::In(key, text), true),
        MarkerOperator::Contains => flag_tree(alloc, interner, Flag::Contains(key, text), false),
        MarkerOperator::NotContains => {
            flag_tree(alloc, interner, Flag::Contains(key, text), true)
        }
    }
}

/// Returns the flag of an extra.
fn flag_of(alloc: Global, name: &MarkerValueExtra) -> Result<Flag, AllocError>
    ensures { IfOk result (λ flag. flag ≡ extra_flag (extra_of name.now)) }
{
    match name {
        MarkerValueExtra::Extra(name) => Ok(Flag::Extra(name.try_clone(alloc)?)),
        MarkerValueExtra::Arbitrary(text) => Ok(Flag::Arbitrary(MarkerText::copy_of(
            alloc,
            text.as_str(),
        )?)),
    }
}

/// Returns the tree of an extra.
pub(crate) fn extra_tree(
    alloc: Global,
    interner: &mut Interner,
    operator: ExtraOperator,
    name: &MarkerValueExtra,
) -> Result<MarkerTree, AllocError>
    ensures made { IfOk result (IsTreeOf interner.new.nodes (extra_holds operator (extra_of name.now))) }
    ensures keeps { Extends interner.old.nodes interner.new.nodes }
    ensures counts { interner.new.conjunctions ≡ interner.old.conjunctions }
{
    let flag = flag_of(alloc, name)?;
    flag_tree(alloc, interner, flag, operator == ExtraOperator::NotEqual)
}
