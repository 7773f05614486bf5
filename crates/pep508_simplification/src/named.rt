//! Trees in which the named extras are assumed to be present.

ghost use Rattle.std.specs.Prelude.{◌≡◌, ℕ, Bool, List, IfOk, MatchOption};
ghost use Rattle.pep508_diagram.specs.Question.{Valuation};
ghost use Rattle.pep508_tree.specs.Meaning.{IsTree, Extends, holds};
ghost use Rattle.pep508_simplification.specs.Simplified.{is_listed, is_named, with_named};
ghost use Rattle.pep508_simplification.specs.Parts.{record_of, is_root_named};
ghost use Rattle.pep508_simplification.specs.Named.{AnswersBy, IsNamed, IsAsked};

use crate::extras_walk::walked;
use crate::root_copy::{Root, copy_of_root};
use pep508_diagram::Flag;
use pep508_name::ExtraName;
use pep508_tree::{Interner, MarkerTree};
use std::alloc::{AllocError, Global};

/// Returns whether the flag is an extra that is named.
fn is_flag_named<F: Fn(&ExtraName) -> bool>(flag: &Flag, predicate: &F) -> bool
    requires { F.IsAlwaysCallable predicate.now }
    ensures { (says : List ℕ → Bool) → AnswersBy (F.post predicate.now) says →
        result ≡ is_named says flag.now }
{
    match flag {
        Flag::In(_, _) => false,
        Flag::Contains(_, _) => false,
        Flag::Extra(name) => predicate(name),
        Flag::Arbitrary(_) => false,
    }
}

/// Returns whether the root tests an extra that is named.
fn is_root_named<F: Fn(&ExtraName) -> bool>(root: &Root, predicate: &F) -> bool
    requires { F.IsAlwaysCallable predicate.now }
    ensures { (says : List ℕ → Bool) → AnswersBy (F.post predicate.now) says →
        result ≡ is_root_named says (record_of root.now) }
{
    match root {
        Root::Constant => false,
        Root::Versions(_, _, _) => false,
        Root::Texts(_, _, _) => false,
        Root::Flagged(flag, _, _) => is_flag_named(flag, predicate),
    }
}

/// Returns a copy of a tree's root, in which a flag whose extra is named has the same child on both sides.
pub(crate) fn named_root<F: Fn(&ExtraName) -> bool>(
    alloc: Global,
    interner: &Interner,
    predicate: &F,
    tree: MarkerTree,
) -> Result<Root, AllocError>
    requires callable { F.IsAlwaysCallable predicate.now }
    requires made { IsTree interner.now.nodes tree }
    ensures { IfOk result (λ root. MatchOption (record_of root) (tree.place ≡ 0)
        (IsAsked (F.post predicate.now) interner.now.nodes tree)) }
{
    let root = copy_of_root(alloc, interner, tree)?;
    let is_named = is_root_named(&root, predicate);
    Ok(root.with_set(is_named))
}

/// Returns the tree with the named extras assumed to be present. No recursion, however deep the tree is.
pub(crate) fn with_extras<F: Fn(&ExtraName) -> bool>(
    alloc: Global,
    interner: &mut Interner,
    tree: MarkerTree,
    predicate: &F,
) -> Result<MarkerTree, AllocError>
    requires callable { F.IsAlwaysCallable predicate.now }
    requires made { IsTree interner.old.nodes tree }
    ensures named { IfOk result (λ simple.
        IsNamed (F.post predicate.now) interner.old.nodes interner.new.nodes tree simple) }
    ensures keeps { Extends interner.old.nodes interner.new.nodes }
    ensures counts { interner.new.conjunctions ≡ interner.old.conjunctions }
{
    let negated = tree.is_negated();
    let plain = tree.turned(negated);
    let simple = walked(alloc, interner, predicate, plain)?;
    let signed = simple.turned(negated);
    Ok(signed)
}

/// Returns the tree with the listed extras assumed to be present.
pub(crate) fn with_listed(
    alloc: Global,
    interner: &mut Interner,
    tree: MarkerTree,
    extras: &[ExtraName],
) -> Result<MarkerTree, AllocError>
    requires { IsTree interner.old.nodes tree }
    ensures made { IfOk result (λ simple. IsTree interner.new.nodes simple) }
    ensures truth { IfOk result (λ simple. (v : Valuation) → holds interner.new.nodes simple v
        ≡ holds interner.old.nodes tree (with_named (is_listed extras.now) v)) }
    ensures keeps { Extends interner.old.nodes interner.new.nodes }
    ensures counts { interner.new.conjunctions ≡ interner.old.conjunctions }
{
    let listed = |name: &ExtraName| -> bool
        ensures { result ≡ is_listed extras.entry.now name.now }
    { extras.contains(name) };
    with_extras(alloc, interner, tree, &listed)
}
