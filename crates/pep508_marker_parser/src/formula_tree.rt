//! Building the tree of a formula.
//!
//! The chains are found again in the formula: the trees that wait are chains with a word (`TreeChain`),
//! which grow while the word stays the same, so that all trees of a chain are joined at once, as
//! `conjunction_of_all` does it. A piece of which everything was left out has no tree, rather than a
//! constant one, which would count under `and` or under `or`.

ghost use Rattle.std.specs.Prelude.{◌≡◌, None, IfOk, OnOk, reverse};
ghost use Rattle.std.specs.List.{AllByRecursion};
ghost use Rattle.pep508_diagram.specs.Question.{Valuation};
ghost use Rattle.pep508_expression.specs.Expressions.{expression_holds};
ghost use Rattle.pep508_formula.specs.Postfix.{joined_last, told_by, part_of, formula_of};
ghost use Rattle.pep508_tree.specs.Meaning.{Extends};
ghost use Rattle.pep508_marker_parser.specs.Formula.{joined};
ghost use Rattle.pep508_marker_parser.specs.TreeReading.{connective, joins};
ghost use Rattle.pep508_marker_parser.specs.FormulaTrees.{IsChain, truth_of, TakesOff, Puts, Steps};
ghost use Rattle.pep508_marker_parser.specs.MarkerOutcome.{IsTreeOf};

use crate::join::{join_all, push_part};
use crate::word::Word;
use pep508_expression::comparison_tree;
use pep508_formula::{FormulaPart, MarkerFormula};
use pep508_tree::{Interner, MarkerTree};
use std::alloc::{AllocError, Global};

/// Trees with a word between them. With one tree, or none, either word means the same.
#[derive(Drop)]
pub(crate) struct TreeChain {
    pub word: Word,
    pub trees: Vec<MarkerTree>,
}

/// Removes and returns the last chain; one without trees where there is none.
fn taken(alloc: Global, stack: &mut Vec<TreeChain>) -> TreeChain
    ensures { TakesOff (reverse stack.old.items) result (reverse stack.new.items) }
{
    match stack.pop() {
        Some(chain) => chain,
        None => TreeChain {
            word: Word::And,
            trees: Vec::new(alloc),
        },
    }
}

/// Returns a chain of this word that holds where the given one does; its trees are joined where it has the
/// other word.
fn with_word(
    alloc: Global,
    interner: &mut Interner,
    word: Word,
    chain: TreeChain,
) -> Result<TreeChain, AllocError>
    requires { IsChain interner.old.nodes chain }
    ensures word { IfOk result (λ turned. turned.word ≡ word) }
    ensures made { IfOk result (IsChain interner.new.nodes) }
    ensures truth { IfOk result (λ turned. (v : Valuation) →
        truth_of interner.new.nodes turned v ≡ truth_of interner.old.nodes chain v) }
    ensures keeps { Extends interner.old.nodes interner.new.nodes }
    ensures counts { interner.new.conjunctions ≡ interner.old.conjunctions }
{
    if chain.word == word {
        return Ok(chain);
    }
    let mut trees = chain.trees;
    let tree = join_all(alloc, interner, chain.word, &trees)?;
    trees.clear();
    push_part(&mut trees, tree)?;
    Ok(TreeChain { word, trees })
}

/// Returns the chain of two chains with the word between them.
fn join_two(
    alloc: Global,
    interner: &mut Interner,
    word: Word,
    first: TreeChain,
    next: TreeChain,
) -> Result<TreeChain, AllocError>
    requires first { IsChain interner.old.nodes first }
    requires next { IsChain interner.old.nodes next }
    ensures made { IfOk result (IsChain interner.new.nodes) }
    ensures truth { IfOk result (λ chain. (v : Valuation) → truth_of interner.new.nodes chain v
        ≡ joined (joins (connective word)) (truth_of interner.old.nodes first v)
        (truth_of interner.old.nodes next v)) }
    ensures keeps { Extends interner.old.nodes interner.new.nodes }
    ensures counts { interner.new.conjunctions ≡ interner.old.conjunctions }
{
    let mut chain = with_word(alloc, interner, word, first)?;
    let tree = join_all(alloc, interner, next.word, &next.trees)?;
    push_part(&mut chain.trees, tree)?;
    Ok(chain)
}

/// Joins the last two chains by the word.
fn join_last(
    alloc: Global,
    interner: &mut Interner,
    word: Word,
    stack: &mut Vec<TreeChain>,
) -> Result<(), AllocError>
    requires { AllByRecursion (IsChain interner.old.nodes) (reverse stack.old.items) }
    ensures step { OnOk result (Steps interner.old.nodes interner.new.nodes
        (λ v. joined_last None (joined (joins (connective word))))
        (reverse stack.old.items) (reverse stack.new.items)) }
    ensures keeps { Extends interner.old.nodes interner.new.nodes }
    ensures counts { interner.new.conjunctions ≡ interner.old.conjunctions }
{
    let next = taken(alloc, stack);
    let first = taken(alloc, stack);
    let chain = join_two(alloc, interner, word, first, next)?;
    stack.push(chain)?;
    Ok(())
}

/// Appends a tree as a chain of its own; a chain without trees where there is none.
fn put_tree(
    alloc: Global,
    stack: &mut Vec<TreeChain>,
    tree: Option<MarkerTree>,
) -> Result<(), AllocError>
    ensures { OnOk result (Puts tree (reverse stack.old.items) (reverse stack.new.items)) }
{
    let mut trees = Vec::new(alloc);
    push_part(&mut trees, tree)?;
    stack.push(TreeChain {
        word: Word::And,
        trees,
    })?;
    Ok(())
}

/// Updates the chains by one more part of the formula.
fn put_part(
    alloc: Global,
    interner: &mut Interner,
    stack: &mut Vec<TreeChain>,
    part: FormulaPart<'_>,
) -> Result<(), AllocError>
    requires { AllByRecursion (IsChain interner.old.nodes) (reverse stack.old.items) }
    ensures step { OnOk result (Steps interner.old.nodes interner.new.nodes
        (λ v. told_by (λ e. expression_holds e v) (part_of part.entry))
        (reverse stack.old.items) (reverse stack.new.items)) }
    ensures keeps { Extends interner.old.nodes interner.new.nodes }
    ensures counts { interner.new.conjunctions ≡ interner.old.conjunctions }
{
    match part {
        FormulaPart::Says(expression) => {
            let tree = comparison_tree(alloc, interner, expression)?;
            put_tree(alloc, stack, Some(tree))
        }
        FormulaPart::LeftOut => put_tree(alloc, stack, None),
        FormulaPart::And => join_last(alloc, interner, Word::And, stack),
        FormulaPart::Or => join_last(alloc, interner, Word::Or, stack),
    }
}

/// Returns the tree of a formula; the tree that always holds where all comparisons are left out. Takes no
/// stack, and none of it counts as one of the interner's conjunctions.
///
/// The trees of a chain of `and` or `or` are joined together, which costs what `conjunction_of_all` does.
///
/// # Errors
///
/// `AllocError` when memory runs out.
pub fn tree_of(
    alloc: Global,
    interner: &mut Interner,
    formula: &MarkerFormula,
) -> Result<MarkerTree, AllocError>
    ensures made { IfOk result (λ tree. IsTreeOf interner.new.nodes tree (formula_of formula.now)) }
    ensures keeps { Extends interner.old.nodes interner.new.nodes }
    ensures counts { interner.new.conjunctions ≡ interner.old.conjunctions }
{
    let mut stack = Vec::new(alloc);
    let mut left = formula.parts();
    while let Some((part, behind)) = left.split_first() {
        put_part(alloc, interner, &mut stack, part)?;
        left = behind;
    }
    let whole = taken(alloc, &mut stack);
    let tree = join_all(alloc, interner, whole.word, &whole.trees)?;
    Ok(tree.unwrap_or(MarkerTree::TRUE))
}
