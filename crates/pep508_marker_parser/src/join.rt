//! Trees of chains of `and` and `or`.
//!
//! A chain's trees are joined by one call, once the chain is read: joining from the left would walk over
//! everything joined before, again and again. `or` is the negation of the conjunction of the negations.

ghost use Rattle.std.specs.Prelude.{◌≡◌, IfOk, IfSome, map, option_map, ◌++◌};
ghost use Rattle.std.specs.List.{AllByRecursion};
ghost use Rattle.pep508_diagram.specs.Question.{Valuation};
ghost use Rattle.pep508_tree.specs.Meaning.{IsTree, Extends, holds};
ghost use Rattle.pep508_marker_parser.specs.TreeReading.{connective, chain_truth, listed};

use crate::word::Word;
use pep508_conjunctions::conjunction_of_all;
use pep508_tree::{Interner, MarkerTree};
use std::alloc::{AllocError, Global};

/// Returns the tree of trees with a word between them; `None` where there are none. Costs are those of
/// `conjunction_of_all`.
pub(crate) fn join_all(
    alloc: Global,
    interner: &mut Interner,
    word: Word,
    trees: &[MarkerTree],
) -> Result<Option<MarkerTree>, AllocError>
    requires { AllByRecursion (IsTree interner.old.nodes) trees.now }
    ensures made { IfOk result (λ tree. IfSome tree (IsTree interner.new.nodes)) }
    ensures truth { IfOk result (λ tree. (v : Valuation) → option_map (λ t. holds interner.new.nodes t v) tree
        ≡ chain_truth (connective word) (map (λ t. holds interner.old.nodes t v) trees.now)) }
    ensures keeps { Extends interner.old.nodes interner.new.nodes }
    ensures counts { interner.new.conjunctions ≡ interner.old.conjunctions }
{
    if trees.is_empty() {
        return Ok(None);
    }
    match word {
        Word::And => {
            let tree = conjunction_of_all(alloc, interner, trees, false)?;
            Ok(Some(tree))
        }
        Word::Or => {
            let neither = conjunction_of_all(alloc, interner, trees, true)?;
            Ok(Some(neither.negate()))
        }
    }
}

/// Appends a tree, where there is one.
pub(crate) fn push_part(
    trees: &mut Vec<MarkerTree>,
    part: Option<MarkerTree>,
) -> Result<(), AllocError>
    ensures { IfOk result (λ _. trees.new.items ≡ trees.old.items ++ listed part) }
{
    if let Some(tree) = part {
        trees.push(tree)?;
    }
    Ok(())
}
