//! The key of entries: each thing that is required once, with a tree that holds where it is.

ghost use Rattle.std.specs.Prelude.{◌≡◌, ◌++◌, ℕ, List, map, IfOk, OnOk};
ghost use Rattle.std.specs.List.{AllByRecursion};
ghost use Rattle.pep508_diagram.specs.Question.{Valuation};
ghost use Rattle.pep508_tree.specs.Meaning.{Extends, IsTree, holds};
ghost use Rattle.reqtable_key.specs.Entries.{AppendsRegion, any_holds, trees_at, WritesRegions};

use crate::entries::Groups;
use pep440_key::push_text;
use pep508_conjunctions::conjunction_of_all;
use pep508_marker_key::MarkerTreeKey;
use pep508_tree::{Interner, MarkerTree};
use std::alloc::{AllocError, Global};

/// The key of groups. A group needs the trees of its halves joined, and the key of the whole.
pub(crate) fn written(
    alloc: Global,
    interner: &mut Interner,
    groups: &Groups<'_>,
) -> Result<Vec<u8>, AllocError>
    requires { (q : List ℕ) → AllByRecursion (IsTree interner.old.nodes) (trees_at groups.now q) }
    ensures key { IfOk result (λ key. WritesRegions interner.old.nodes groups.now key.items) }
    ensures keeps { Extends interner.old.nodes interner.new.nodes }
{
    let mut key = Vec::new(alloc);
    for group in groups.iter() {
        let head = group.0;
        let trees = group.1;
        push_region(alloc, interner, &mut key, head, trees)?;
    }
    key.push(0)?;
    Ok(key)
}

/// Appends the region where one of some trees holds.
fn push_region(
    alloc: Global,
    interner: &mut Interner,
    key: &mut Vec<u8>,
    head: &[u8],
    trees: &[MarkerTree],
) -> Result<(), AllocError>
    requires { AllByRecursion (IsTree interner.old.nodes) trees.now }
    ensures region { OnOk result
        (AppendsRegion interner.old.nodes head.now trees.now key.old.items key.new.items) }
    ensures keeps { Extends interner.old.nodes interner.new.nodes }
{
    let tree = union(alloc, interner, trees)?;
    let bytes = tree.key(alloc, interner)?;
    key.push(1)?;
    push_text(key, head)?;
    push_text(key, bytes.as_slice())
}

/// The tree that holds where one of some trees does, joined by halves.
fn union(
    alloc: Global,
    interner: &mut Interner,
    trees: &[MarkerTree],
) -> Result<MarkerTree, AllocError>
    requires { AllByRecursion (IsTree interner.old.nodes) trees.now }
    ensures made { IfOk result (IsTree interner.new.nodes) }
    ensures truth { IfOk result (λ tree. (v : Valuation) →
        holds interner.new.nodes tree v ≡ any_holds interner.old.nodes trees.now v) }
    ensures keeps { Extends interner.old.nodes interner.new.nodes }
{
    let neither = conjunction_of_all(alloc, interner, trees, true)?;
    Ok(neither.negate())
}
