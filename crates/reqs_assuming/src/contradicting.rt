//! `conflicts` where a condition holds.

ghost use Rattle.std.specs.Prelude.{◌≡◌, ◌≢◌, ◌≤◌, ◌∷◌, [], length, IfErr};
ghost use Rattle.pep508_formula.specs.Postfix.{formula_of};
ghost use Rattle.reqs_io_faults.specs.Within.{Bounded};
ghost use Rattle.reqs_lists.specs.Contradictions.{IsConflictsBy, HasTooManyWithin};
ghost use Rattle.reqs_lists.specs.Lists.{IsOfLists, AnswersLists};
ghost use Rattle.reqs_assuming.specs.Lists.{one_list_where};
ghost use Rattle.reqs_assuming.specs.Contradictions.{RunsConflictsWhere, ConflictsPassWhere};

use crate::assumed::list_where;
use crate::terms::Terms;
use pep508_tree::Interner;
use reqs_io_faults::{Input, RunFault, Status, read_input, write_answer};
use reqs_lists::lent::{Answer, Request, conflicts_of};
use std::alloc::Global;
use std::io::{Read, Write};

/// Writes the conflicts of a list in environments and with extras for which the condition holds, as
/// `reqs_lists::conflicts_within` does of a list whose lines' markers are joined with the condition by `and`.
/// So a case of a package counts only if just its lines apply somewhere where the condition holds. Where
/// `strict` it ends with `Status::Unsatisfied` if there are any.
///
/// The trees are made in `interner`, best a fresh one by `Interner::with_most(alloc, bounds.nodes)`.
///
/// # Errors
///
/// Those of `reqs_lists::conflicts_within`; of `Excess::Nodes` also where there are more than `bounds.nodes`
/// nodes once the condition is joined. Nothing is written then.
pub fn conflicts_where<R: Read, W: Write>(
    alloc: Global,
    requirements: &mut R,
    limit: u64,
    strict: bool,
    terms: &Terms<'_>,
    interner: &mut Interner,
    output: &mut W,
) -> Result<Status, RunFault>
    requires { length interner.old.nodes ≤ terms.now.bounds.nodes }
    ensures runs { RunsConflictsWhere (formula_of terms.now.condition.now) strict terms.now.bounds
        interner.new.nodes terms.now.format limit terms.now.vars.now
        (R.remaining requirements.old) W.contents output.old output.new result }
    // A refused command has written nothing.
    ensures unwritten { IfErr result (λ fault. fault ≢ RunFault.Write → output.new ≡ output.old) }
{
    let mut requirements = read_input(alloc, Input::First, requirements)?;
    let answer = conflicts_answer(alloc, &mut requirements, limit, strict, terms, interner)?;
    write_answer(output, answer.text.as_str(), answer.status)
}

/// The answer on a list. Drops its bytes once they are parsed.
fn conflicts_answer(
    alloc: Global,
    requirements: &mut Vec<u8>,
    limit: u64,
    strict: bool,
    terms: &Terms<'_>,
    interner: &mut Interner,
) -> Result<Answer, RunFault>
    requires { length interner.old.nodes ≤ terms.now.bounds.nodes }
    ensures { Bounded (AnswersLists (IsOfLists terms.now.vars.now (requirements.old.items ∷ []))
        (IsConflictsBy strict terms.now.format limit terms.now.bounds.cases)
        (HasTooManyWithin limit terms.now.bounds.cases)
        (one_list_where (formula_of terms.now.condition.now) terms.now.vars.now
        (requirements.old.items ∷ [])))
        (length interner.new.nodes ≤ terms.now.bounds.nodes)
        (ConflictsPassWhere (formula_of terms.now.condition.now) terms.now.bounds interner.new.nodes
        limit terms.now.vars.now (requirements.old.items ∷ [])) result }
{
    let list = list_where(alloc, requirements, terms, interner)?;
    let request = Request {
        limit,
        format: terms.format,
        bounds: terms.bounds,
        strict,
    };
    conflicts_of(alloc, &list, interner, request)
}
