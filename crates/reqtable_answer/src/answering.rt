//! The answer: requirements and candidates are grouped by package once, and each package is decided by its
//! own requirements and candidates alone.
//!
//! The answer is defined over whole lists (`Answer.antt`), so that a reader needs no map; a package's row
//! (`IsRow`) is that of the asks and candidates of its name (`IsRowOf`). The code goes by groups
//! (`Groups.antt`), and `proofs/ByPackage.antt` shows that these agree.

ghost use Rattle.std.specs.Prelude.{◌≡◌, ℕ, true, ◌<◌, List, All, map, length, IfOk};
ghost use Rattle.std.specs.List.{list_all};
ghost use Rattle.pep508_requirement_text.specs.FrontReading.{Front};
ghost use Rattle.reqtable_answer.specs.Admission.{Admits, AnswersBy};
ghost use Rattle.reqtable_answer.specs.Asks.{is_of};
ghost use Rattle.reqtable_answer.specs.Answer.{IsRowOf, IsAnswer};
ghost use Rattle.reqtable_answer.specs.Groups.{numbered_seen};
ghost use Rattle.reqtable_answer.specs.Rows.{row_seen, IsTakenBelow};
ghost use Rattle.reqtable_answer.specs.Says.{SayAll, asks_seen};

use crate::admission::Admission;
use crate::answer::{Answer, Row};
use crate::ask::Ask;
use crate::choosing::{Numbered, outcome};
use crate::extras::extras_of;
use crate::grouping::by_package;
use pep440_version::Version;
use reqtable_candidates::Candidates;
use std::alloc::{AllocError, Global};

/// The answer to these requirements: a row for each package that one of them names.
///
/// A package is `Direct` if one of its requirements has a URL. Otherwise the highest candidate of its name is
/// selected that all specifiers of its requirements accept (PEP 440, "Version specifiers") and that is
/// admitted, the first in the list among equals. The admission is passed whether one of the specifiers names
/// a pre-release or developmental release. The order of `asks` doesn't matter.
///
/// With A requirements, C candidates and P packages that are O((A + C) log P) comparisons of names.
/// Candidates of other packages are left out, and a candidate is tested, against its own package's
/// requirements, only if it is higher than the best one before it.
///
/// With n specifiers and m candidates of a package that are O((n + m) log n) comparisons of versions, or n
/// times m where that is at most 1,024. In addition each tested candidate is matched against each specifier
/// whose range would need a number past 64 bits, and at most four `<` and `>` and two `===`, which imply the
/// others that no range decides. So n times m is reached only where most specifiers need such a number.
///
/// # Errors
///
/// `AllocError` when memory runs out.
pub fn answer_to<F: Fn(&Version, bool) -> bool>(
    alloc: Global,
    asks: &[Ask<'_>],
    candidates: &Candidates,
    admission: &Admission<F>,
) -> Result<Answer, AllocError>
    requires { F.IsAlwaysCallable admission.now }
    ensures answered { IfOk result (λ answer. (admits : Admits) (said : List Front) →
        AnswersBy (F.post admission.now) admits → SayAll asks.now said →
        IsAnswer admits said candidates.now (map row_seen answer.rows.items)) }
    ensures places { IfOk result (λ answer.
        All (λ row. IsTakenBelow (length candidates.now) row.outcome) answer.rows.items) }
{
    let groups = by_package(alloc, asks, candidates.items())?;
    let mut rows = Vec::new(alloc);
    for entry in groups.iter() {
        let group = entry.1;
        let row = row_of(alloc, &group.asks, &group.candidates, admission)?;
        rows.push(row)?;
    }
    Ok(Answer { rows })
}

/// The row of the package that all these requirements and candidates are of.
fn row_of<F: Fn(&Version, bool) -> bool>(
    alloc: Global,
    asks: &[Ask<'_>],
    candidates: &[Numbered<'_>],
    admission: &Admission<F>,
) -> Result<Row, AllocError>
    requires callable { F.IsAlwaysCallable admission.now }
    requires asked { 0 < length asks.now }
    ensures name { IfOk result (λ row. (q : List ℕ) →
        list_all (is_of q) (asks_seen asks.now) ≡ true → row.package ≡ q) }
    ensures row { IfOk result (λ row. (admits : Admits) → AnswersBy (F.post admission.now) admits →
        IsRowOf admits (asks_seen asks.now) (map numbered_seen candidates.now) (row_seen row)) }
    ensures below { IfOk result (λ row. (count : ℕ) →
        All (λ c. c.0 < count) (map numbered_seen candidates.now) → IsTakenBelow count row.outcome) }
{
    let outcome = outcome(alloc, asks, candidates, admission)?;
    let package = asks[0].name.try_clone(alloc)?;
    let extras = extras_of(alloc, asks)?;
    Ok(Row {
        package,
        extras,
        outcome,
    })
}
