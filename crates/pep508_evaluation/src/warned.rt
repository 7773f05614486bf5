//! The warnings of evaluating a tree.
//!
//! The kinds of warnings are read off the diagram and not off nodes: two tests in a row are of one node
//! where they share a variable, so the definition needs no interner. Old names are reported of the last
//! tree on a list, whose children are pushed there, the last one first. That this ends is shown by the
//! number of steps on all paths, which is read off the diagram and never counted by the program
//! (`proofs/Telling.antt`).

ghost use Rattle.std.specs.Prelude.{◌≡◌, ◌++◌, OnOk, IfOk, None, Some, [], ◌∷◌, map, option_copied};
ghost use Rattle.std.specs.Prelude.{option_to_list, is_some, reverse};
ghost use Rattle.std.specs.List.{FoldsTo};
ghost use Rattle.version_ranges.specs.Boundaries.{point_of};
ghost use Rattle.version_ranges.specs.Bounds.{single_value};
ghost use Rattle.version_ranges.specs.Point.{At};
ghost use Rattle.pep508_diagram.specs.Text.{text_cmp};
ghost use Rattle.pep508_tree.specs.Meaning.{IsTree, holds, diagram_of};
ghost use Rattle.pep508_evaluation.specs.Valuations.{valuation_of};
ghost use Rattle.pep508_evaluation.specs.Warned.{key_names, old_names, edge, compared, warned, TakesKind};
ghost use Rattle.pep508_evaluation.specs.Edges.{text_edges, root_edges, root_names};
ghost use Rattle.pep508_evaluation.specs.Steps.{children_of};
ghost use Rattle.pep508_tree.specs.Roots.{root_of};

use crate::chosen::{evaluate, is_reached, step};
use crate::holding::{root_child, root_child_count};
use pep508_diagram::{Branch, MarkerText};
use pep508_environment::MarkerEnvironment;
use pep508_marker::{MarkerValueString, MarkerWarningKind, Reporter};
use pep508_name::ExtraName;
use pep508_tree::{Interner, MarkerTree, TreeNode};
use std::alloc::{AllocError, Global};
use std::ops::ControlFlow;
use version_ranges::Boundary;

/// Returns the warning's text for an old name. That of `sys.platform` has two blanks, as it always had.
fn old_name_text(alloc: Global, key: MarkerValueString) -> Result<String, AllocError> {
    let gap = if key == MarkerValueString::SysPlatformDeprecated {
        "  "
    } else {
        " "
    };
    let mut text = format!(in alloc; "{}{gap}is deprecated", key.written())?;
    write!(text, " in favor of {}", key.name())?;
    Ok(text)
}

/// Reports a key that is an old name.
fn report_old_name<R: Reporter>(
    alloc: Global,
    key: MarkerValueString,
    reporter: &mut R,
) -> Result<(), AllocError>
    requires { R.can_report reporter.old }
    ensures again { R.can_report reporter.new }
    ensures taken { OnOk result (FoldsTo (TakesKind R.takes) reporter.old (key_names key) reporter.new) }
{
    if !key.is_deprecated() || !reporter.wants() {
        return Ok(());
    }
    let text = old_name_text(alloc, key)?;
    reporter.report(MarkerWarningKind::DeprecatedMarkerName, text)
}

/// Reports a bound that a text is compared with.
fn report_bound<R: Reporter>(
    alloc: Global,
    text: &str,
    bound: &Boundary<MarkerText>,
    reporter: &mut R,
) -> Result<(), AllocError>
    requires { R.can_report reporter.old }
    ensures again { R.can_report reporter.new }
    ensures taken { OnOk result
        (TakesKind R.takes reporter.old MarkerWarningKind.LexicographicComparison reporter.new) }
{
    if !reporter.wants() {
        return Ok(());
    }
    let value = match bound {
        Boundary::At(value) => value,
        Boundary::JustAbove(value) => value,
    };
    let message = format!(in alloc; "Comparing {text} and {} lexicographically", value.as_str())?;
    reporter.report(MarkerWarningKind::LexicographicComparison, message)
}

/// Returns whether an edge is a single text.
fn is_single(lower: Option<&Boundary<MarkerText>>, upper: Option<&Boundary<MarkerText>>) -> bool
    ensures { result ≡ is_some (single_value text_cmp (map point_of
        (option_to_list (option_copied lower.entry) ++ option_to_list (option_copied upper.entry)))) }
{
    match (lower, upper) {
        (Some(Boundary::At(lower)), Some(Boundary::JustAbove(upper))) => lower.cmp(upper).is_eq(),
        _ => false,
    }
}

/// Reports the bounds of an edge.
fn report_edge<R: Reporter>(
    alloc: Global,
    text: &str,
    lower: Option<&Boundary<MarkerText>>,
    upper: Option<&Boundary<MarkerText>>,
    reporter: &mut R,
) -> Result<(), AllocError>
    requires { R.can_report reporter.old }
    ensures again { R.can_report reporter.new }
    ensures taken { OnOk result (FoldsTo (TakesKind R.takes) reporter.old
        (edge (option_to_list (option_copied lower.entry)) (option_to_list (option_copied upper.entry)))
        reporter.new) }
{
    if is_single(lower, upper) {
        return Ok(());
    }
    if let Some(bound) = lower {
        report_bound(alloc, text, bound, reporter)?;
    }
    if let Some(bound) = upper {
        report_bound(alloc, text, bound, reporter)?;
    }
    Ok(())
}

/// Reports the edges of a node of texts, up to the one that contains a text.
fn report_edges<R: Reporter>(
    alloc: Global,
    text: &str,
    later: &[Branch<MarkerText, MarkerTree>],
    reporter: &mut R,
) -> Result<(), AllocError>
    requires { R.can_report reporter.old }
    ensures again { R.can_report reporter.new }
    ensures taken { OnOk result (FoldsTo (TakesKind R.takes) reporter.old
        (text_edges [] later.now (At text.now)) reporter.new) }
{
    let mut lower = None;
    for branch in later {
        report_edge(alloc, text, lower, Some(&branch.boundary), reporter)?;
        if !is_reached(&branch.boundary, text) {
            return Ok(());
        }
        lower = Some(&branch.boundary);
    }
    report_edge(alloc, text, lower, None, reporter)
}

/// Reports the edges of the node at a tree's root.
fn report_root_edges<R: Reporter>(
    alloc: Global,
    tree: MarkerTree,
    interner: &Interner,
    environment: &MarkerEnvironment,
    extras: &[ExtraName],
    reporter: &mut R,
) -> Result<(), AllocError>
    requires made { IsTree interner.now.nodes tree }
    requires can { R.can_report reporter.old }
    ensures again { R.can_report reporter.new }
    ensures taken { OnOk result (FoldsTo (TakesKind R.takes) reporter.old
        (root_edges (root_of interner.now.nodes tree) (valuation_of environment.now extras.now))
        reporter.new) }
{
    match tree.node(interner) {
        TreeNode::Constant(_) => Ok(()),
        TreeNode::Versions(_, _) => Ok(()),
        TreeNode::Texts(key, children) => {
            report_edges(alloc, environment.get_string(key), children.later, reporter)
        }
        TreeNode::Flagged(_, _, _) => Ok(()),
    }
}

/// Returns whether a tree holds in an environment with extras, and reports the comparisons on the way.
fn report_compared<R: Reporter>(
    alloc: Global,
    tree: MarkerTree,
    interner: &Interner,
    environment: &MarkerEnvironment,
    extras: &[ExtraName],
    reporter: &mut R,
) -> Result<bool, AllocError>
    requires made { IsTree interner.now.nodes tree }
    requires can { R.can_report reporter.old }
    ensures answer { IfOk result (λ yes.
        yes ≡ holds interner.now.nodes tree (valuation_of environment.now extras.now)) }
    ensures again { R.can_report reporter.new }
    ensures taken { OnOk result (FoldsTo (TakesKind R.takes) reporter.old
        (compared (valuation_of environment.now extras.now) None (diagram_of interner.now.nodes tree))
        reporter.new) }
{
    interner.are_sound();
    let mut tree = tree;
    loop {
        report_root_edges(alloc, tree, interner, environment, extras, reporter)?;
        match step(tree, interner, environment, extras) {
            ControlFlow::Break(truth) => return Ok(truth),
            ControlFlow::Continue(next) => tree = next,
        }
    }
}

/// Reports the old name that the node at a tree's root has.
#[tactic(auto, using(crate::proofs::Rooted::signed_names, crate::proofs::Rooted::signed_version_names))]
fn report_root_name<R: Reporter>(
    alloc: Global,
    tree: MarkerTree,
    interner: &Interner,
    reporter: &mut R,
) -> Result<(), AllocError>
    requires made { IsTree interner.now.nodes tree }
    requires can { R.can_report reporter.old }
    ensures again { R.can_report reporter.new }
    ensures taken { OnOk result (FoldsTo (TakesKind R.takes) reporter.old
        (root_names (root_of interner.now.nodes tree)) reporter.new) }
{
    match tree.node(interner) {
        TreeNode::Constant(_) => Ok(()),
        TreeNode::Versions(_, _) => Ok(()),
        TreeNode::Texts(key, _) => report_old_name(alloc, key, reporter),
        TreeNode::Flagged(_, _, _) => Ok(()),
    }
}

/// Pushes the children of a tree's node onto the trees left to visit, the first one last.
fn add_children(
    tree: MarkerTree,
    interner: &Interner,
    waiting: &mut Vec<MarkerTree>,
) -> Result<(), AllocError>
    requires { IsTree interner.now.nodes tree }
    ensures { OnOk result (waiting.new.items
        ≡ waiting.old.items ++ reverse (children_of (root_of interner.now.nodes tree))) }
{
    let mut left = root_child_count(tree, interner);
    while left > 0 {
        left -= 1;
        match root_child(tree, interner, left) {
            Some(child) => waiting.push(child)?,
            None => unreachable!(),
        }
    }
    Ok(())
}

/// Reports all old names in a tree. The trees left to visit are kept in a list, so that a long path takes
/// memory and no stack.
fn report_old_names<R: Reporter>(
    alloc: Global,
    tree: MarkerTree,
    interner: &Interner,
    reporter: &mut R,
) -> Result<(), AllocError>
    requires made { IsTree interner.now.nodes tree }
    requires can { R.can_report reporter.old }
    ensures again { R.can_report reporter.new }
    ensures taken { OnOk result (FoldsTo (TakesKind R.takes) reporter.old
        (old_names None (diagram_of interner.now.nodes tree)) reporter.new) }
{
    interner.are_sound();
    let mut waiting = vec![in alloc; tree]?;
    while let Some(next) = waiting.pop() {
        report_root_name(alloc, next, interner, reporter)?;
        add_children(next, interner, &mut waiting)?;
    }
    Ok(())
}

/// Returns whether a tree holds in an environment with extras, and reports old names and comparisons. For a
/// reporter that wants nothing it walks one path alone. No recursion, however deep the tree is.
pub(crate) fn evaluate_reporter<R: Reporter>(
    alloc: Global,
    tree: MarkerTree,
    interner: &Interner,
    environment: &MarkerEnvironment,
    extras: &[ExtraName],
    reporter: &mut R,
) -> Result<bool, AllocError>
    requires made { IsTree interner.now.nodes tree }
    requires can { R.can_report reporter.old }
    ensures answer { IfOk result (λ yes.
        yes ≡ holds interner.now.nodes tree (valuation_of environment.now extras.now)) }
    ensures again { R.can_report reporter.new }
    ensures taken { OnOk result (FoldsTo (TakesKind R.takes) reporter.old
        (warned (valuation_of environment.now extras.now) (diagram_of interner.now.nodes tree))
        reporter.new) }
{
    if reporter.wants() {
        report_old_names(alloc, tree, interner, reporter)?;
        return report_compared(alloc, tree, interner, environment, extras, reporter);
    }
    Ok(evaluate(tree, interner, environment, extras))
}

/// A reporter that keeps each warning.
#[derive(Drop)]
pub(crate) struct Collected {
    pub(crate) warnings: Vec<(MarkerWarningKind, String)>,
}

impl Reporter for Collected {
    ghost use Rattle.std.specs.Prelude.{◌≡◌, [], ◌∷◌, ◌++◌, map};

    ghost takes = { λ old warning new. map (λ kept. kept.0) new.warnings.items
        ≡ map (λ kept. kept.0) old.warnings.items ++ warning.kind ∷ [] };

    fn report(&mut self, kind: MarkerWarningKind, text: String) -> Result<(), AllocError> {
        self.warnings.push((kind, text))?;
        Ok(())
    }
}

/// Returns whether a tree holds in an environment with extras, and the warnings of `evaluate_reporter`.
#[tactic(auto, using(crate::proofs::Edging::collected))]
pub(crate) fn evaluate_collect_warnings(
    alloc: Global,
    tree: MarkerTree,
    interner: &Interner,
    environment: &MarkerEnvironment,
    extras: &[ExtraName],
) -> Result<(bool, Vec<(MarkerWarningKind, String)>), AllocError>
    requires { IsTree interner.now.nodes tree }
    ensures answer { IfOk result (λ told.
        told.0 ≡ holds interner.now.nodes tree (valuation_of environment.now extras.now)) }
    ensures kinds { IfOk result (λ told. map (λ warning. warning.0) told.1.items
        ≡ warned (valuation_of environment.now extras.now) (diagram_of interner.now.nodes tree)) }
{
    let mut collected = Collected {
        warnings: Vec::new(alloc),
    };
    let holds = evaluate_reporter(alloc, tree, interner, environment, extras, &mut collected)?;
    Ok((holds, collected.warnings))
}
