//! The child of a node that an environment with extras selects.

ghost use Rattle.std.specs.Prelude.{◌≡◌};
ghost use Rattle.version_ranges.specs.Point.{At, point_cmp};
ghost use Rattle.version_ranges.specs.Boundaries.{point_of};
ghost use Rattle.version_ranges.specs.Turns.{reaches};
ghost use Rattle.pep440_version.specs.Order.{version_cmp};
ghost use Rattle.pep508_diagram.specs.Branches.{RisingBranches, branch_at};
ghost use Rattle.pep508_diagram.specs.Text.{text_cmp};
ghost use Rattle.pep508_tree.specs.Meaning.{IsTree, holds};
ghost use Rattle.pep508_tree.specs.Nodes.{turned};
ghost use Rattle.pep508_evaluation.specs.Steps.{Answers};
ghost use Rattle.pep508_evaluation.specs.Valuations.{stands_in, variable_in, is_set, valuation_of};

use pep440_version::Version;
use pep508_diagram::{Branch, Flag, MarkerText, VersionVariable, branch_at};
use pep508_environment::MarkerEnvironment;
use pep508_name::ExtraName;
use pep508_tree::{Children, Interner, MarkerTree, TreeNode};
use std::ops::ControlFlow;
use version_ranges::Boundary;

/// Returns whether a text lies at the endpoint or above it.
pub(crate) fn is_reached(boundary: &Boundary<MarkerText>, text: &str) -> bool
    ensures { result ≡ reaches (point_cmp text_cmp) (point_of boundary.now) (At text.now) }
{
    match boundary {
        Boundary::At(bound) => bound.as_str().cmp(text).is_le(),
        Boundary::JustAbove(bound) => bound.as_str().cmp(text).is_lt(),
    }
}

/// Returns the child at a text. Compares as many endpoints as the logarithm of their number.
fn branch_at_text(
    first: MarkerTree,
    later: &[Branch<MarkerText, MarkerTree>],
    text: &str,
) -> MarkerTree
    requires { RisingBranches text_cmp later.now }
    ensures { result ≡ branch_at text_cmp first later.now (At text.now) }
{
    let reached = later.partition_point(|branch| is_reached(&branch.boundary, text));
    match reached.checked_sub(1) {
        Some(last) => later[last].child,
        None => first,
    }
}

/// Returns the child at a version.
fn version_child(children: Children<Version>, version: &Version) -> MarkerTree
    requires { RisingBranches version_cmp children.later.now }
    ensures { result ≡ turned children.entry.negated
        (branch_at version_cmp children.entry.first children.entry.later.now (At version.now)) }
{
    branch_at(children.first, children.later, version).turned(children.negated)
}

/// Returns the child at a text.
fn text_child(children: Children<MarkerText>, text: &str) -> MarkerTree
    requires { RisingBranches text_cmp children.later.now }
    ensures { result ≡ turned children.entry.negated
        (branch_at text_cmp children.entry.first children.entry.later.now (At text.now)) }
{
    branch_at_text(children.first, children.later, text).turned(children.negated)
}

/// Returns the version of a variable in an environment.
fn variable_in(environment: &MarkerEnvironment, key: VersionVariable) -> &Version
    ensures { result.now ≡ variable_in environment.now key }
{
    match key {
        VersionVariable::ImplementationVersion => &environment.implementation_version().version,
        VersionVariable::PythonFullVersion => &environment.python_full_version().version,
    }
}

/// Returns whether a text occurs in another one, by their bytes.
#[tactic(auto, using(crate::proofs::Standing::contains_is))]
pub fn stands_in(text: &str, whole: &str) -> bool
    ensures { result ≡ stands_in text.now whole.now }
{
    whole.contains(text)
}

/// Returns whether a flag is set.
fn is_set(environment: &MarkerEnvironment, extras: &[ExtraName], flag: &Flag) -> bool
    ensures { result ≡ is_set environment.now extras.now flag.now }
{
    match flag {
        Flag::In(key, text) => stands_in(environment.get_string(*key), text.as_str()),
        Flag::Contains(key, text) => stands_in(text.as_str(), environment.get_string(*key)),
        Flag::Extra(name) => extras.contains(name),
        Flag::Arbitrary(_) => false,
    }
}

/// Returns the truth of a constant tree, or else the child that the environment selects.
#[tactic(auto, using(crate::proofs::Choosing::choice_rules))]
pub(crate) fn step(
    tree: MarkerTree,
    interner: &Interner,
    environment: &MarkerEnvironment,
    extras: &[ExtraName],
) -> ControlFlow<bool, MarkerTree>
    requires { IsTree interner.now.nodes tree }
    ensures { Answers interner.now.nodes tree (valuation_of environment.now extras.now) result }
{
    match tree.node(interner) {
        TreeNode::Constant(truth) => ControlFlow::Break(truth),
        TreeNode::Versions(key, children) => {
            ControlFlow::Continue(version_child(children, variable_in(environment, key)))
        }
        TreeNode::Texts(key, children) => {
            ControlFlow::Continue(text_child(children, environment.get_string(key)))
        }
        TreeNode::Flagged(flag, set, unset) => {
            let is_set = is_set(environment, extras, flag);
            ControlFlow::Continue(if is_set { set } else { unset })
        }
    }
}

/// Returns whether a tree holds in an environment with extras.
pub(crate) fn evaluate(
    tree: MarkerTree,
    interner: &Interner,
    environment: &MarkerEnvironment,
    extras: &[ExtraName],
) -> bool
    requires { IsTree interner.now.nodes tree }
    ensures { result ≡ holds interner.now.nodes tree (valuation_of environment.now extras.now) }
{
    let mut tree = tree;
    loop {
        match step(tree, interner, environment, extras) {
            ControlFlow::Break(truth) => return truth,
            ControlFlow::Continue(next) => tree = next,
        }
    }
}
