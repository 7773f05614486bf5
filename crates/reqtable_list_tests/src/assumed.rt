//! What two lists require where a marker holds: callers that are proved from the public contracts and laws.

ghost use Rattle.std.specs.Prelude.{◌≡◌, true, IfOk, List};
ghost use Rattle.std.specs.List.{AllZip};
ghost use Rattle.pep508_formula.specs.Postfix.{formula_of};
ghost use Rattle.pep508_url.specs.Vars.{Variables};
ghost use Rattle.reqtable_requirements.specs.Asks.{AreOfNodes};
ghost use Rattle.reqtable_requirements.specs.LineReading.{LineRecord};
ghost use Rattle.reqtable_requirements.specs.Requirements.{StandsFor};
ghost use Rattle.reqtable_assumption.specs.Where.{RequireTheSameWhere};

use pep508_formula::MarkerFormula;
use pep508_marker::Silent;
use pep508_marker_parser::parse_formula;
use pep508_tree::Interner;
use pep508_url::{Vars, VerbatimUrl};
use reqtable_assumption::assume;
use reqtable_assumption::laws::same_lists_where_a_condition_holds;
use reqtable_compare::{Same, SameError, same};
use reqtable_requirements::Requirements;
use reqtable_requirements::laws::{
    lines_last_while_nodes_are_added, lines_that_were_read_are_of_the_nodes,
};
use std::alloc::{AllocError, Global};
use std::test::Fail;

/// Whether two lists require the same wherever a condition holds.
fn are_same_where(
    alloc: Global,
    interner: &mut Interner,
    left: Requirements,
    right: Requirements,
    condition: &MarkerFormula,
) -> Result<bool, SameError>
    requires left { AreOfNodes interner.old.nodes left }
    requires right { AreOfNodes interner.old.nodes right }
    ensures { IfOk result (λ are_same. are_same ≡ true → (vars : Variables) (said others : List LineRecord) →
        AllZip (StandsFor vars interner.old.nodes) left said →
        AllZip (StandsFor vars interner.old.nodes) right others →
        RequireTheSameWhere (formula_of condition.now) said others) }
{
    lines_last_while_nodes_are_added();
    same_lists_where_a_condition_holds();
    let left = assume(alloc, left, interner, condition)?;
    let right = assume(alloc, right, interner, condition)?;
    match same(alloc, &left, &right, interner, 64)? {
        Same::Yes => Ok(true),
        Same::No { .. } => Ok(false),
    }
}

/// Whether the lists that two texts are require the same wherever a condition holds. All texts are valid.
fn are_texts_same_where(
    alloc: Global,
    left: &str,
    right: &str,
    condition: &str,
) -> Result<bool, AllocError> {
    let vars = Vars::new(alloc, &[], "/w")?;
    let mut interner = Interner::new(alloc);
    lines_that_were_read_are_of_the_nodes();
    lines_last_while_nodes_are_added();
    let Ok(left) = Requirements::parse(alloc, left.as_bytes(), &mut interner, &vars) else {
        return Err(AllocError);
    };
    let Ok(right) = Requirements::parse(alloc, right.as_bytes(), &mut interner, &vars) else {
        return Err(AllocError);
    };
    let Ok(condition) = parse_formula::<VerbatimUrl, Silent>(alloc, condition, &mut Silent) else {
        return Err(AllocError);
    };
    are_same_where(alloc, &mut interner, left, right, &condition).or(Err(AllocError))
}

#[test]
fn lists_are_compared_where_a_marker_holds(rt: HostRuntime) -> Result<(), Fail> {
    let alloc = rt.alloc();
    let left = "foo>=1\nbar ; os_name == 'nt'\n";
    let right = "foo>=1 ; python_full_version >= '3.8'\n";
    for (condition, wanted) in [
        ("os_name == 'posix' and python_full_version >= '3.9'", true),
        ("os_name == 'posix'", false),
        ("python_full_version >= '3.9'", false),
        ("os_name == 'a' and os_name == 'b'", true),
    ] {
        assert!(rt; are_texts_same_where(alloc, left, right, condition)? == wanted);
    }
    Ok(())
}
