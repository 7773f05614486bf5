//! Parsed lists where a condition holds.
//!
//! Both lists are parsed before one is restricted, so that what is refused of a list is what is refused of it
//! without a condition.

ghost use Rattle.std.specs.Prelude.{◌≡◌, ◌≤◌, ◌⊎◌, ◌∷◌, [], List, length, IfOk, IfErr};
ghost use Rattle.std.specs.List.{AllZip};
ghost use Rattle.pep508_formula.specs.Postfix.{formula_of};
ghost use Rattle.pep508_tree.specs.Meaning.{Extends};
ghost use Rattle.pep508_url.specs.Vars.{Variables};
ghost use Rattle.reqtable_requirements.specs.Asks.{AreOfNodes};
ghost use Rattle.reqtable_requirements.specs.LineReading.{LineRecord};
ghost use Rattle.reqtable_requirements.specs.Requirements.{StandsFor};
ghost use Rattle.reqtable_assumption.specs.Where.{lines_where};
ghost use Rattle.reqs_io_faults.specs.Within.{Outgrows};
ghost use Rattle.reqs_assuming.specs.Restricted.{ReadsOneWhere, ReadsBothWhere};

use crate::terms::Terms;
use pep508_tree::Interner;
use reqs_io_faults::{Excess, Input, RunFault, requirements_within};
use reqtable_assumption::assume;
use reqtable_requirements::Requirements;
use std::alloc::Global;

/// Two parsed lists.
#[derive(Drop)]
pub(crate) struct BothLists {
    pub(crate) left: Requirements,
    pub(crate) right: Requirements,
}

/// A list where the condition holds. Drops its bytes once they are parsed.
pub(crate) fn list_where(
    alloc: Global,
    bytes: &mut Vec<u8>,
    terms: &Terms<'_>,
    interner: &mut Interner,
) -> Result<Requirements, RunFault>
    requires { length interner.old.nodes ≤ terms.now.bounds.nodes }
    ensures { ReadsOneWhere (formula_of terms.now.condition.now) terms.now.vars.now terms.now.bounds.nodes
        interner.new.nodes (bytes.old.items ∷ []) result }
{
    let most = terms.bounds.nodes;
    let said = requirements_within(alloc, Input::First, bytes, interner, terms.vars, most)?;
    assumed(alloc, said, terms, interner)
}

/// Two lists where the condition holds. Drops the bytes of each once they are parsed.
pub(crate) fn lists_where(
    alloc: Global,
    left: &mut Vec<u8>,
    right: &mut Vec<u8>,
    terms: &Terms<'_>,
    interner: &mut Interner,
) -> Result<BothLists, RunFault>
    requires { length interner.old.nodes ≤ terms.now.bounds.nodes }
    ensures { ReadsBothWhere (formula_of terms.now.condition.now) terms.now.vars.now terms.now.bounds.nodes
        interner.new.nodes (left.old.items ∷ right.old.items ∷ []) result }
{
    let most = terms.bounds.nodes;
    let said = requirements_within(alloc, Input::First, left, interner, terms.vars, most)?;
    let others = requirements_within(alloc, Input::Second, right, interner, terms.vars, most)?;
    both_assumed(alloc, said, others, terms, interner)
}

/// Two parsed lists where the condition holds.
fn both_assumed(
    alloc: Global,
    left: Requirements,
    right: Requirements,
    terms: &Terms<'_>,
    interner: &mut Interner,
) -> Result<BothLists, RunFault>
    requires left { AreOfNodes interner.old.nodes left }
    requires right { AreOfNodes interner.old.nodes right }
    ensures left { IfOk result (λ both. (vars : Variables) (said : List LineRecord) →
        AllZip (StandsFor vars interner.old.nodes) left said →
        AllZip (StandsFor vars interner.new.nodes) both.left
        (lines_where (formula_of terms.now.condition.now) said)) }
    ensures right { IfOk result (λ both. (vars : Variables) (said : List LineRecord) →
        AllZip (StandsFor vars interner.old.nodes) right said →
        AllZip (StandsFor vars interner.new.nodes) both.right
        (lines_where (formula_of terms.now.condition.now) said)) }
    ensures fits { IfOk result (λ _. length interner.new.nodes ≤ terms.now.bounds.nodes) }
    ensures fault { IfErr result (λ fault.
        (fault ≡ RunFault.Memory) ⊎ Outgrows terms.now.bounds.nodes interner.new.nodes fault) }
{
    let left = assumed(alloc, left, terms, interner)?;
    let right = assumed(alloc, right, terms, interner)?;
    Ok(BothLists { left, right })
}

/// A parsed list where the condition holds.
fn assumed(
    alloc: Global,
    requirements: Requirements,
    terms: &Terms<'_>,
    interner: &mut Interner,
) -> Result<Requirements, RunFault>
    requires { AreOfNodes interner.old.nodes requirements }
    ensures lines { IfOk result (λ restricted. (vars : Variables) (said : List LineRecord) →
        AllZip (StandsFor vars interner.old.nodes) requirements said →
        AllZip (StandsFor vars interner.new.nodes) restricted
        (lines_where (formula_of terms.now.condition.now) said)) }
    ensures fits { IfOk result (λ _. length interner.new.nodes ≤ terms.now.bounds.nodes) }
    ensures fault { IfErr result (λ fault.
        (fault ≡ RunFault.Memory) ⊎ Outgrows terms.now.bounds.nodes interner.new.nodes fault) }
    ensures keeps { Extends interner.old.nodes interner.new.nodes }
{
    let most = terms.bounds.nodes;
    let restricted = assume(alloc, requirements, interner, terms.condition);
    if interner.node_count() > most {
        return Err(RunFault::TooMany(Excess::Nodes { most }));
    }
    match restricted {
        Ok(requirements) => Ok(requirements),
        Err(_) => Err(RunFault::Memory),
    }
}
