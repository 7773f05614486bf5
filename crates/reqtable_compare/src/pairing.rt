//! The first pair of cases that hold together and don't require what a relation has.
//!
//! A case whose tree is also a case's on the other side, where both require what the relation has, needs no
//! other comparison; nor does one that requires the same as an earlier case which fits all on the other side.
//! If there are few others, each is compared with all cases on the other side. If there are many, one diagram
//! of both sides' cases tells which pairs hold together, and only those are compared; but where very many do,
//! all are compared, so that no long list is kept. A conjunction is made of the one pair that is reported.

ghost use Rattle.std.specs.Prelude.{◌≡◌, map, List, IfOk, IfSome, IsTrue, MatchOption};
ghost use Rattle.std.specs.List.{AllByRecursion};
ghost use Rattle.pep508_tree.specs.Meaning.{IsTree, NodeRecord};
ghost use Rattle.pep508_cases.specs.Pairs.{AreMeeting};
ghost use Rattle.reqtable_compare.specs.Seen.{summary_record};
ghost use Rattle.reqtable_compare.specs.Pairs.{Decides, FindsStanding, FindsTrees, AreOfTrees, AreApart};
ghost use Rattle.reqtable_compare.specs.Pairs.{PassesAll, FitsAll, ArePartners, case_trees, ExtrasRise};
ghost use Rattle.reqtable_compare.specs.Summed.{Alike};

use crate::sides::Relation;
use crate::summary::Summary;
use pep508_cases::meeting_pairs;
use pep508_disjointness::MarkerTreeDisjointness;
use pep508_tree::{Interner, MarkerTree};
use std::alloc::{AllocError, Global};
use std::collections::HashMap;

/// Up to this many cases a linear scan beats a map lookup.
const FEW: usize = 4;

/// Up to this many comparisons of cases take less time than a diagram.
const MANY: usize = 65_536;

/// At most this many pairs are listed per case of both sides.
const LISTED: u64 = 16;

/// The indices of one side's cases, by their trees.
type Places = HashMap<MarkerTree, usize>;

/// The trees of two cases that hold together and don't require what a relation has.
#[derive(Clone, Copy)]
pub(crate) struct Meeting {
    pub(crate) one: MarkerTree,
    pub(crate) other: MarkerTree,
}

/// How a case stands to all cases on the other side.
enum Standing {
    /// It and each of them require what the relation has.
    Fits,
    /// It and each of those with which it holds together require what the relation has.
    Passes,
    /// The tree of the first with which it holds together, where both don't.
    Fails(MarkerTree),
}

/// The trees of the first pair of cases that hold together and don't require what the relation has, by the
/// left side's cases and then by the right side's. `None` if each pair does or never holds together.
///
/// A case whose tree is also a case's on the other side, where both require what the relation has, is
/// compared with no other, since those never hold together with it: so sides that are equal need as many
/// comparisons as they have cases. If there are many other cases, one comparison is needed for each pair of
/// cases that hold together, and the time of the diagram of all cases. If there are few, or very many such
/// pairs, k and m cases need at most k * m comparisons, and one check whether two trees are disjoint for each
/// pair that doesn't require what the relation has.
pub(crate) fn first_trees(
    alloc: Global,
    relation: Relation,
    interner: &Interner,
    left: &[Summary],
    right: &[Summary],
) -> Result<Option<Meeting>, AllocError>
    requires left { AreOfTrees interner.now.nodes (map summary_record left.now) }
    requires right { AreOfTrees interner.now.nodes (map summary_record right.now) }
    requires rise { AllByRecursion ExtrasRise (map summary_record left.now) }
    requires apart { AreApart interner.now.nodes (map summary_record right.now) }
    ensures { IfOk result (FindsTrees relation interner.now.nodes (map summary_record left.now)
        (map summary_record right.now)) }
{
    let places = places_of(alloc, right)?;
    if are_many(alloc, relation, left, right, &places)? {
        if let Some(pairs) = listed_pairs(alloc, interner, left, right)? {
            return first_listed(alloc, relation, interner, left, right, &pairs);
        }
    }
    first_of_all(alloc, relation, interner, left, right, &places)
}

/// The index of each case by its tree, or nothing if there are only a few cases.
fn places_of(alloc: Global, right: &[Summary]) -> Result<Places, AllocError> {
    let mut places = HashMap::new(alloc);
    if right.len() <= FEW {
        return Ok(places);
    }
    for (place, other) in right.iter().enumerate() {
        places.insert(other.tree, place)?;
    }
    Ok(places)
}

/// Whether many comparisons are needed of the cases that have no partner, and that require another thing than
/// the last one that fits all on the other side.
fn are_many(
    alloc: Global,
    relation: Relation,
    left: &[Summary],
    right: &[Summary],
    places: &Places,
) -> Result<bool, AllocError>
    requires { AllByRecursion ExtrasRise (map summary_record left.now) }
{
    let mut comparisons: usize = 0;
    let mut fitting: Option<&Summary> = None;
    for one in left {
        let has = has_partner(alloc, relation, places, one, right)?;
        if has || is_like(one, fitting) {
            continue;
        }
        comparisons = comparisons.saturating_add(right.len());
        if comparisons > MANY {
            return Ok(true);
        }
        if fits_all(alloc, relation, one, right)? {
            fitting = Some(one);
        }
    }
    Ok(false)
}

/// Whether two cases, the second if there is one, require the same.
fn is_like(one: &Summary, fitting: Option<&Summary>) -> bool
    ensures { IsTrue result → MatchOption fitting.entry ⊥
        (λ other. Alike (summary_record one.now) (summary_record other.now)) }
{
    match fitting {
        Some(other) => one.is_alike(other),
        None => false,
    }
}

/// Whether a case and each on the other side require what the relation has.
fn fits_all(
    alloc: Global,
    relation: Relation,
    one: &Summary,
    right: &[Summary],
) -> Result<bool, AllocError>
    requires { ExtrasRise (summary_record one.now) }
    ensures { IfOk result (λ fits.
        IsTrue fits → FitsAll relation (map summary_record right.now) (summary_record one.now)) }
{
    for other in right {
        let fits = one.fits(alloc, relation, other)?;
        if !fits {
            return Ok(false);
        }
    }
    Ok(true)
}

/// Whether a case of the other side has the same tree, and both require what the relation has.
fn has_partner(
    alloc: Global,
    relation: Relation,
    places: &Places,
    one: &Summary,
    right: &[Summary],
) -> Result<bool, AllocError>
    requires { ExtrasRise (summary_record one.now) }
    ensures { IfOk result (λ has. (nodes : List NodeRecord) → AreApart nodes (map summary_record right.now) →
        IsTrue has → PassesAll relation nodes (map summary_record right.now) (summary_record one.now)) }
{
    match places.get(&one.tree) {
        Some(place) => {
            if *place < right.len() {
                let is = is_partner(alloc, relation, one, &right[*place])?;
                return Ok(is);
            }
            Ok(false)
        }
        None => Ok(false),
    }
}

/// Whether both cases have the same tree, and require what the relation has.
fn is_partner(
    alloc: Global,
    relation: Relation,
    one: &Summary,
    other: &Summary,
) -> Result<bool, AllocError>
    requires { ExtrasRise (summary_record one.now) }
    ensures { IfOk result (λ is.
        IsTrue is → ArePartners relation (summary_record one.now) (summary_record other.now)) }
{
    if one.tree != other.tree {
        return Ok(false);
    }
    let fits = one.fits(alloc, relation, other)?;
    Ok(fits)
}

/// The pairs of cases that may hold together, by their indices. `None` if there are very many such pairs.
fn listed_pairs(
    alloc: Global,
    interner: &Interner,
    left: &[Summary],
    right: &[Summary],
) -> Result<Option<Vec<(usize, usize)>>, AllocError>
    requires left { AreOfTrees interner.now.nodes (map summary_record left.now) }
    requires right { AreOfTrees interner.now.nodes (map summary_record right.now) }
    ensures { IfOk result (λ pairs. IfSome pairs (λ pairs. AreMeeting interner.now.nodes
        (case_trees (map summary_record left.now)) (case_trees (map summary_record right.now)) pairs.items)) }
{
    let cases = (left.len() as u64).saturating_add(right.len() as u64);
    let ours = trees_of(alloc, left)?;
    let theirs = trees_of(alloc, right)?;
    meeting_pairs(
        alloc,
        interner,
        &ours,
        &theirs,
        cases.saturating_mul(LISTED),
    )
}

/// The trees of some cases.
fn trees_of(alloc: Global, cases: &[Summary]) -> Result<Vec<MarkerTree>, AllocError>
    ensures { IfOk result (λ trees. trees.items ≡ case_trees (map summary_record cases.now)) }
{
    let mut trees = Vec::with_capacity(alloc, cases.len())?;
    for case in cases {
        trees.push(case.tree)?;
    }
    Ok(trees)
}

/// The trees of the first of some pairs that holds together and doesn't require what the relation has.
fn first_listed(
    alloc: Global,
    relation: Relation,
    interner: &Interner,
    left: &[Summary],
    right: &[Summary],
    pairs: &[(usize, usize)],
) -> Result<Option<Meeting>, AllocError>
    requires left { AreOfTrees interner.now.nodes (map summary_record left.now) }
    requires right { AreOfTrees interner.now.nodes (map summary_record right.now) }
    requires rise { AllByRecursion ExtrasRise (map summary_record left.now) }
    requires pairs { AreMeeting interner.now.nodes
        (case_trees (map summary_record left.now)) (case_trees (map summary_record right.now)) pairs.now }
    ensures { IfOk result (FindsTrees relation interner.now.nodes (map summary_record left.now)
        (map summary_record right.now)) }
{
    for pair in pairs {
        let ours = &left[pair.0];
        let theirs = &right[pair.1];
        if !passes(alloc, relation, interner, ours, theirs)? {
            return Ok(Some(Meeting {
                one: ours.tree,
                other: theirs.tree,
            }));
        }
    }
    Ok(None)
}

/// The trees of the first of all pairs that holds together and doesn't require what the relation has.
fn first_of_all(
    alloc: Global,
    relation: Relation,
    interner: &Interner,
    left: &[Summary],
    right: &[Summary],
    places: &Places,
) -> Result<Option<Meeting>, AllocError>
    requires left { AreOfTrees interner.now.nodes (map summary_record left.now) }
    requires right { AreOfTrees interner.now.nodes (map summary_record right.now) }
    requires rise { AllByRecursion ExtrasRise (map summary_record left.now) }
    requires apart { AreApart interner.now.nodes (map summary_record right.now) }
    ensures { IfOk result (FindsTrees relation interner.now.nodes (map summary_record left.now)
        (map summary_record right.now)) }
{
    let mut fitting: Option<&Summary> = None;
    for one in left {
        match standing_of(alloc, relation, interner, one, right, places, fitting)? {
            Standing::Fits => fitting = Some(one),
            Standing::Passes => {}
            Standing::Fails(other) => {
                return Ok(Some(Meeting {
                    one: one.tree,
                    other,
                }));
            }
        }
    }
    Ok(None)
}

/// How a case stands to all cases on the right, where another one may be known to fit them all.
fn standing_of(
    alloc: Global,
    relation: Relation,
    interner: &Interner,
    one: &Summary,
    right: &[Summary],
    places: &Places,
    fitting: Option<&Summary>,
) -> Result<Standing, AllocError>
    requires one { IsTree interner.now.nodes one.now.tree }
    requires rise { ExtrasRise (summary_record one.now) }
    requires right { AreOfTrees interner.now.nodes (map summary_record right.now) }
    requires apart { AreApart interner.now.nodes (map summary_record right.now) }
    requires fitting { IfSome fitting
        (λ other. FitsAll relation (map summary_record right.now) (summary_record other.now)) }
    ensures { IfOk result (FindsStanding relation interner.now.nodes (summary_record one.now)
        (map summary_record right.now)) }
{
    let has = has_partner(alloc, relation, places, one, right)?;
    if has {
        return Ok(Standing::Passes);
    }
    if is_like(one, fitting) {
        return Ok(Standing::Fits);
    }
    compared(alloc, relation, interner, one, right)
}

/// How a case stands to all cases on the right, each of which is compared up to the first that fails.
fn compared(
    alloc: Global,
    relation: Relation,
    interner: &Interner,
    one: &Summary,
    right: &[Summary],
) -> Result<Standing, AllocError>
    requires one { IsTree interner.now.nodes one.now.tree }
    requires rise { ExtrasRise (summary_record one.now) }
    requires right { AreOfTrees interner.now.nodes (map summary_record right.now) }
    ensures { IfOk result (FindsStanding relation interner.now.nodes (summary_record one.now)
        (map summary_record right.now)) }
{
    let mut fits_all = true;
    for other in right {
        let fits = one.fits(alloc, relation, other)?;
        if fits {
            continue;
        }
        fits_all = false;
        if !one.tree.is_disjoint(alloc, interner, other.tree)? {
            return Ok(Standing::Fails(other.tree));
        }
    }
    if fits_all {
        return Ok(Standing::Fits);
    }
    Ok(Standing::Passes)
}

/// Whether two cases require what the relation has, or never hold together.
fn passes(
    alloc: Global,
    relation: Relation,
    interner: &Interner,
    one: &Summary,
    other: &Summary,
) -> Result<bool, AllocError>
    requires one { IsTree interner.now.nodes one.now.tree }
    requires rise { ExtrasRise (summary_record one.now) }
    requires other { IsTree interner.now.nodes other.now.tree }
    ensures { IfOk result (Decides relation interner.now.nodes (summary_record one.now)
        (summary_record other.now)) }
{
    if one.fits(alloc, relation, other)? {
        return Ok(true);
    }
    one.tree.is_disjoint(alloc, interner, other.tree)
}
