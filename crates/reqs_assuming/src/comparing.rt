//! `same` where a condition holds.

ghost use Rattle.std.specs.Prelude.{◌≡◌, ◌≢◌, ◌≤◌, ◌∷◌, [], length, IfErr};
ghost use Rattle.pep508_formula.specs.Postfix.{formula_of};
ghost use Rattle.reqs_io_faults.specs.Within.{Bounded};
ghost use Rattle.reqs_lists.specs.Comparison.{IsFewSame, CantBeWithin};
ghost use Rattle.reqs_lists.specs.Lists.{IsOfLists, AnswersLists};
ghost use Rattle.reqs_assuming.specs.Lists.{two_lists_where};
ghost use Rattle.reqs_assuming.specs.Comparison.{RunsSameWhere, SamePassesWhere};

use crate::assumed::lists_where;
use crate::terms::Terms;
use pep508_tree::Interner;
use reqs_io_faults::{Input, RunFault, Status, read_input, write_answer};
use reqs_lists::lent::{Answer, same_of};
use std::alloc::Global;
use std::io::{Read, Write};

/// Writes whether two lists require the same in all environments and with all extras for which the condition
/// holds, as `reqs_lists::same_within` does of lists whose lines' markers are joined with the condition by
/// `and`. So the marker of a difference holds nowhere else.
///
/// The trees are made in `interner`, best a fresh one by `Interner::with_most(alloc, bounds.nodes)`.
///
/// # Errors
///
/// Those of `reqs_lists::same_within`; of `Excess::Nodes` also where there are more than `bounds.nodes` nodes
/// once the condition is joined. Nothing is written then.
pub fn same_where<L: Read, R: Read, W: Write>(
    alloc: Global,
    left: &mut L,
    right: &mut R,
    limit: u64,
    terms: &Terms<'_>,
    interner: &mut Interner,
    output: &mut W,
) -> Result<Status, RunFault>
    requires { length interner.old.nodes ≤ terms.now.bounds.nodes }
    ensures runs { RunsSameWhere (formula_of terms.now.condition.now) terms.now.bounds interner.new.nodes
        terms.now.format limit terms.now.vars.now (L.remaining left.old) (R.remaining right.old)
        W.contents output.old output.new result }
    // A refused command has written nothing.
    ensures unwritten { IfErr result (λ fault. fault ≢ RunFault.Write → output.new ≡ output.old) }
{
    let mut left = read_input(alloc, Input::First, left)?;
    let mut right = read_input(alloc, Input::Second, right)?;
    let answer = same_answer(alloc, &mut left, &mut right, limit, terms, interner)?;
    write_answer(output, answer.text.as_str(), answer.status)
}

/// The answer on two lists. Drops the bytes of each once they are parsed.
fn same_answer(
    alloc: Global,
    left: &mut Vec<u8>,
    right: &mut Vec<u8>,
    limit: u64,
    terms: &Terms<'_>,
    interner: &mut Interner,
) -> Result<Answer, RunFault>
    requires { length interner.old.nodes ≤ terms.now.bounds.nodes }
    ensures { Bounded (AnswersLists (IsOfLists terms.now.vars.now (left.old.items ∷ right.old.items ∷ []))
        (IsFewSame terms.now.format limit terms.now.bounds.clauses)
        (CantBeWithin limit terms.now.bounds.cases)
        (two_lists_where (formula_of terms.now.condition.now) terms.now.vars.now
        (left.old.items ∷ right.old.items ∷ [])))
        (length interner.new.nodes ≤ terms.now.bounds.nodes)
        (SamePassesWhere (formula_of terms.now.condition.now) terms.now.bounds interner.new.nodes
        limit terms.now.vars.now (left.old.items ∷ right.old.items ∷ [])) result }
{
    let both = lists_where(alloc, left, right, terms, interner)?;
    let bounds = terms.bounds;
    same_of(
        alloc,
        &both.left,
        &both.right,
        interner,
        limit,
        terms.format,
        bounds,
    )
}
