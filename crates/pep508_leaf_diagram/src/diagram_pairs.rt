//! The children of two diagrams in pairs, for each value of a variable.

ghost use Rattle.std.specs.Prelude.{◌≡◌, ◌⊎◌, IfOk, IfSome};
ghost use Rattle.std.specs.declared.cmp.Ordering.TheVariants.{Equal};
ghost use Rattle.pep508_diagram.specs.Text.{text_cmp};
ghost use Rattle.pep508_tree.specs.Nodes.{IsRising, IsChildIn, chosen, node_place};
ghost use Rattle.pep508_leaf_diagram.specs.Forms.{record_of};
ghost use Rattle.pep508_leaf_diagram.specs.Pairing.{ArePaired, PairedNodes, under, AreJoined, AreSplit};
ghost use Rattle.pep508_leaf_diagram.specs.Pairing.{IsDiagram, MadeIn};

use crate::child::{Child, Pair};
use crate::diagram::Diagram;
use crate::diagram_node::opened;
use crate::form::Form;
use pep440_version::Version;
use pep508_diagram::{Branch, MarkerText, paired};
use pep508_tree::Interner;
use std::alloc::{AllocError, Global};
use std::cmp::Ordering;

/// Returns the pairs of each child of a node with a child that doesn't test its variable.
fn with_second(alloc: Global, form: &Form<Child>, second: &Child) -> Result<Form<Pair>, AllocError>
    requires { IsRising (record_of form.now) }
    ensures { IfOk result (λ pairs. ArePaired (node_place (record_of form.now)) (chosen (record_of form.now))
        (λ v. second.now) (λ c. IsChildIn c (record_of form.now)) (λ c. c ≡ second.now) (record_of pairs)) }
{
    match form {
        Form::Versions(key, first, later) => {
            let pairs = paired(alloc, *first, later, *second, &[])?;
            Ok(Form::Versions(*key, (*first, *second), pairs))
        }
        Form::Texts(key, first, later) => {
            let pairs = paired(alloc, *first, later, *second, &[])?;
            Ok(Form::Texts(*key, (*first, *second), pairs))
        }
        Form::Flagged(flag, _, _) => {
            let flag = flag.try_clone(alloc)?;
            Ok(Form::Flagged(flag, (form.first(), *second), (form.second(), *second)))
        }
    }
}

/// Returns the pairs of a child that doesn't test a node's variable with each child of the node.
fn with_first(alloc: Global, first: &Child, form: &Form<Child>) -> Result<Form<Pair>, AllocError>
    requires { IsRising (record_of form.now) }
    ensures { IfOk result (λ pairs. ArePaired (node_place (record_of form.now)) (λ v. first.now)
        (chosen (record_of form.now)) (λ c. c ≡ first.now)
        (λ c. IsChildIn c (record_of form.now)) (record_of pairs)) }
{
    match form {
        Form::Versions(key, second, later) => {
            let pairs = paired(alloc, *first, &[], *second, later)?;
            Ok(Form::Versions(*key, (*first, *second), pairs))
        }
        Form::Texts(key, second, later) => {
            let pairs = paired(alloc, *first, &[], *second, later)?;
            Ok(Form::Texts(*key, (*first, *second), pairs))
        }
        Form::Flagged(flag, _, _) => {
            let flag = flag.try_clone(alloc)?;
            Ok(Form::Flagged(flag, (*first, form.first()), (*first, form.second())))
        }
    }
}

/// Returns the pairs of the children of a node and of one of the same variable, whose children are given.
fn with_parts(
    alloc: Global,
    form: &Form<Child>,
    first: &Child,
    versions: &[Branch<Version, Child>],
    texts: &[Branch<MarkerText, Child>],
    second: &Child,
) -> Result<Form<Pair>, AllocError>
    requires rising { IsRising (record_of form.now) }
    requires other_rising { IsRising (under (record_of form.now) first.now versions.now texts.now
        second.now) }
    ensures { IfOk result (λ pairs. PairedNodes (record_of form.now)
        (under (record_of form.now) first.now versions.now texts.now second.now) (record_of pairs)) }
{
    match form {
        Form::Versions(key, own, later) => {
            let pairs = paired(alloc, *own, later, *first, versions)?;
            Ok(Form::Versions(*key, (*own, *first), pairs))
        }
        Form::Texts(key, own, later) => {
            let pairs = paired(alloc, *own, later, *first, texts)?;
            Ok(Form::Texts(*key, (*own, *first), pairs))
        }
        Form::Flagged(flag, set, unset) => {
            let flag = flag.try_clone(alloc)?;
            Ok(Form::Flagged(flag, (*set, *first), (*unset, *second)))
        }
    }
}

/// Returns the pairs of the children of two nodes of one variable.
fn with_form(
    alloc: Global,
    form: &Form<Child>,
    other: &Form<Child>,
) -> Result<Form<Pair>, AllocError>
    requires same { text_cmp (node_place (record_of form.now)) (node_place (record_of other.now)) ≡ Equal }
    requires rising { IsRising (record_of form.now) }
    requires other_rising { IsRising (record_of other.now) }
    ensures { IfOk result (λ pairs.
        PairedNodes (record_of form.now) (record_of other.now) (record_of pairs)) }
{
    let first = other.first();
    let second = other.second();
    with_parts(
        alloc,
        form,
        &first,
        other.versions(),
        other.texts(),
        &second,
    )
}

/// Returns the pairs of the children of two nodes; the one whose variable comes later is paired as a whole.
fn with_other(
    alloc: Global,
    first: Child,
    second: Child,
    form: &Form<Child>,
    other: &Form<Child>,
) -> Result<Form<Pair>, AllocError>
    requires rising { IsRising (record_of form.now) }
    requires other_rising { IsRising (record_of other.now) }
    ensures { IfOk result (λ pairs. AreJoined first second (record_of form.now) (record_of other.now)
        (record_of pairs)) }
{
    match form.cmp_variable(other) {
        Ordering::Less => with_second(alloc, form, &second),
        Ordering::Equal => with_form(alloc, form, other),
        Ordering::Greater => with_first(alloc, &first, other),
    }
}

/// Returns the pairs of the children of two children, for each value of the first variable that either tests;
/// `None` where both are leaves.
pub(crate) fn split(
    alloc: Global,
    interner: &Interner,
    a: &Diagram,
    b: &Diagram,
    first: Child,
    second: Child,
) -> Result<Option<Form<Pair>>, AllocError>
    requires a { IsDiagram interner.now.nodes a.now }
    requires b { IsDiagram interner.now.nodes b.now }
    requires first { MadeIn interner.now.nodes a.now first }
    requires second { MadeIn interner.now.nodes b.now second }
    ensures { IfOk result (λ form. IfSome form (λ form.
        AreSplit interner.now.nodes a.now b.now first second (record_of form))) }
{
    let form = opened(alloc, interner, a, first)?;
    let other = opened(alloc, interner, b, second)?;
    match (form, other) {
        (None, None) => Ok(None),
        (Some(form), None) => {
            let pairs = with_second(alloc, form.form(), &second)?;
            Ok(Some(pairs))
        }
        (None, Some(other)) => {
            let pairs = with_first(alloc, &first, other.form())?;
            Ok(Some(pairs))
        }
        (Some(form), Some(other)) => {
            let pairs = with_other(alloc, first, second, form.form(), other.form())?;
            Ok(Some(pairs))
        }
    }
}
