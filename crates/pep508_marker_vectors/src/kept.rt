//! Earlier trees where a call runs out of memory.

ghost use Rattle.std.specs.Prelude.{IfOk};
ghost use Rattle.pep508_tree.specs.Meaning.{IsTree, Extends};

use crate::made::{Call, made};
use crate::reading::read;
use crate::stop::{Stop, Told, stop_behind};
use crate::texts::text_of;
use pep508_environment::MarkerEnvironment;
use pep508_evaluation::MarkerTreeEvaluation;
use pep508_tree::{Interner, MarkerTree};
use pep508_tree_laws::earlier_trees_keep;
use std::alloc::Global;
use std::fmt::Write;

/// Answers which of two markers hold in an environment, and the text of the tree that a call makes. Where
/// the call runs out of memory it is made again; `lost` is the answer if the markers then hold otherwise or
/// have another text.
pub fn keeps(
    alloc: Global,
    answer: &mut String,
    interner: &mut Interner,
    environment: &MarkerEnvironment,
    call: &Call,
) -> Told {
    let left = read(alloc, answer, interner, call.left)?;
    let right = read(alloc, answer, interner, call.right)?;
    earlier_trees_keep();
    let before = holding(interner, environment, left, right);
    let mut told = String::new(alloc);
    tell(alloc, &mut told, interner, environment, left, right)?;
    let tree = made_again(
        alloc,
        answer,
        interner,
        environment,
        &told,
        call,
        left,
        right,
    )?;
    let after = holding(interner, environment, left, right);
    write!(answer, "{before}, {after}: ")?;
    text_of(alloc, answer, interner, tree)
}

/// Appends which of two trees hold, and the text of each.
fn tell(
    alloc: Global,
    text: &mut String,
    interner: &Interner,
    environment: &MarkerEnvironment,
    left: MarkerTree,
    right: MarkerTree,
) -> Told
    requires left { IsTree interner.now.nodes left }
    requires right { IsTree interner.now.nodes right }
{
    text.push_str(holding(interner, environment, left, right))?;
    text_of(alloc, text, interner, left)?;
    text_of(alloc, text, interner, right)
}

/// Returns whether two trees hold as before, and have the same texts.
fn is_as_before(
    alloc: Global,
    interner: &Interner,
    environment: &MarkerEnvironment,
    before: &str,
    left: MarkerTree,
    right: MarkerTree,
) -> Result<bool, Stop>
    requires left { IsTree interner.now.nodes left }
    requires right { IsTree interner.now.nodes right }
{
    let mut after = String::new(alloc);
    tell(alloc, &mut after, interner, environment, left, right)?;
    Ok(after.as_str() == before)
}

/// Returns the tree that a call makes, at the second attempt where the first runs out of memory.
fn made_again(
    alloc: Global,
    answer: &mut String,
    interner: &mut Interner,
    environment: &MarkerEnvironment,
    before: &str,
    call: &Call,
    left: MarkerTree,
    right: MarkerTree,
) -> Result<MarkerTree, Stop>
    requires left { IsTree interner.old.nodes left }
    requires right { IsTree interner.old.nodes right }
    ensures made { IfOk result (IsTree interner.new.nodes) }
    ensures keeps { Extends interner.old.nodes interner.new.nodes }
{
    earlier_trees_keep();
    match made(alloc, answer, interner, call, left, right) {
        Ok(tree) => Ok(tree),
        Err(Stop::Told) => Err(Stop::Told),
        Err(Stop::Memory) => {
            answer.clear();
            if !is_as_before(alloc, interner, environment, before, left, right)? {
                return Err(stop_behind(answer.push_str("lost")));
            }
            made(alloc, answer, interner, call, left, right)
        }
    }
}

/// Returns which of two trees hold.
fn holding(
    interner: &Interner,
    environment: &MarkerEnvironment,
    left: MarkerTree,
    right: MarkerTree,
) -> &'static str
    requires left { IsTree interner.now.nodes left }
    requires right { IsTree interner.now.nodes right }
{
    let is_left = left.evaluate(interner, environment, &[]);
    let is_right = right.evaluate(interner, environment, &[]);
    match (is_left, is_right) {
        (true, true) => "both",
        (true, false) => "left",
        (false, true) => "right",
        (false, false) => "none",
    }
}
