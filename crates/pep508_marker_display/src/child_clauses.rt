//! The clauses for one child of a node: one holds exactly where the key's value leads to that child.

ghost use Rattle.std.specs.Prelude.{◌≡◌, [], ◌∷◌, ◌++◌, true, false, map, IfOk, option_map};
ghost use Rattle.std.specs.Range.Bound.{bound_map};
ghost use Rattle.pep508_marker.specs.Expression.{expression_of};
ghost use Rattle.pep508_clauses.specs.Terms.{clause_of, clauses_shown};
ghost use Rattle.pep508_marker_text_laws.specs.Groups.{points_where};
ghost use Rattle.pep508_marker_text_laws.specs.Saying.{single, lower_terms, upper_terms, interval_clause};
ghost use Rattle.pep508_marker_text_laws.specs.Saying.{set_clauses};
ghost use Rattle.pep508_marker_display.specs.Said.{terms_shown};
ghost use Rattle.pep508_marker_display.specs.Spans.{spans, value_between, differs_from, star_from};
ghost use Rattle.pep508_marker_display.specs.Spans.{star_between};
ghost use Rattle.pep508_marker_display.specs.Spans.{left_out_by};
ghost use Rattle.pep508_marker_display.specs.Trees.{same_tree};

use crate::intervals::{is_same, next_interval};
use crate::says::{Relation, Says};
use pep508_diagram::Branch;
use pep508_marker::MarkerExpression;
use pep508_tree::MarkerTree;
use std::alloc::{AllocError, Global};
use std::ops::Bound;

/// Returns the value of an interval that is a single value.
fn value_between<'a, T, S: Says<T>>(
    says: &S,
    lower: Bound<&'a T>,
    upper: Bound<&'a T>,
) -> Option<&'a T>
    ensures { option_map (λ v. v.now) result ≡ value_between (S.saying says.now).cmp
        (bound_map (λ v. v.now) lower.entry) (bound_map (λ v. v.now) upper.entry) }
{
    match (lower, upper) {
        (Bound::Included(lower), Bound::Included(upper)) => {
            if says.are_equal(lower, upper) {
                Some(lower)
            } else {
                None
            }
        }
        _ => None,
    }
}

/// Returns the one comparison that expresses an interval, where there is one.
fn single_term<T, S: Says<T>>(
    alloc: Global,
    says: &S,
    lower: Bound<&T>,
    upper: Bound<&T>,
) -> Result<Option<MarkerExpression>, AllocError>
    ensures { IfOk result (λ found. option_map expression_of found ≡ single (S.saying says.now)
        (bound_map (λ v. v.now) lower.entry) (bound_map (λ v. v.now) upper.entry)) }
{
    match (lower, upper) {
        (Bound::Included(lower), Bound::Included(upper)) => {
            if says.are_equal(lower, upper) {
                Ok(Some(says.term(alloc, Relation::Equal, lower)?))
            } else {
                Ok(None)
            }
        }
        (Bound::Included(lower), Bound::Excluded(upper)) => says.star(alloc, false, lower, upper),
        _ => Ok(None),
    }
}

/// Returns the comparison of a lower bound, where there is a bound.
fn lower_term<T, S: Says<T>>(
    alloc: Global,
    says: &S,
    bound: Bound<&T>,
) -> Result<Option<MarkerExpression>, AllocError>
    ensures { IfOk result (λ found.
        terms_shown found ≡ lower_terms (S.saying says.now) (bound_map (λ v. v.now) bound.entry)) }
{
    match bound {
        Bound::Included(value) => Ok(Some(says.term(alloc, Relation::AtLeast, value)?)),
        Bound::Excluded(value) => Ok(Some(says.term(alloc, Relation::Above, value)?)),
        Bound::Unbounded => Ok(None),
    }
}

/// Returns the comparison of an upper bound, where there is a bound.
fn upper_term<T, S: Says<T>>(
    alloc: Global,
    says: &S,
    bound: Bound<&T>,
) -> Result<Option<MarkerExpression>, AllocError>
    ensures { IfOk result (λ found.
        terms_shown found ≡ upper_terms (S.saying says.now) (bound_map (λ v. v.now) bound.entry)) }
{
    match bound {
        Bound::Included(value) => Ok(Some(says.term(alloc, Relation::AtMost, value)?)),
        Bound::Excluded(value) => Ok(Some(says.term(alloc, Relation::Below, value)?)),
        Bound::Unbounded => Ok(None),
    }
}

/// Returns the terms that are there, in order.
fn present(
    alloc: Global,
    first: Option<MarkerExpression>,
    second: Option<MarkerExpression>,
) -> Result<Vec<MarkerExpression>, AllocError>
    ensures { IfOk result (λ terms. clause_of terms.items ≡ terms_shown first ++ terms_shown second) }
{
    let mut terms = Vec::new(alloc);
    if let Some(term) = first {
        terms.push(term)?;
    }
    if let Some(term) = second {
        terms.push(term)?;
    }
    Ok(terms)
}

/// Returns the comparisons of an interval.
fn interval_clause<T, S: Says<T>>(
    alloc: Global,
    says: &S,
    lower: Bound<&T>,
    upper: Bound<&T>,
) -> Result<Vec<MarkerExpression>, AllocError>
    ensures { IfOk result (λ clause. clause_of clause.items ≡ interval_clause (S.saying says.now)
        (bound_map (λ v. v.now) lower.entry, bound_map (λ v. v.now) upper.entry)) }
{
    if let Some(term) = single_term(alloc, says, lower, upper)? {
        return present(alloc, Some(term), None);
    }
    let first = lower_term(alloc, says, lower)?;
    let second = upper_term(alloc, says, upper)?;
    present(alloc, first, second)
}

/// Returns the clause of each interval in which the tree is the child.
fn interval_clauses<T, S: Says<T>>(
    alloc: Global,
    says: &S,
    tree: MarkerTree,
    held: bool,
    later: &[Branch<T, MarkerTree>],
) -> Result<Vec<Vec<MarkerExpression>>, AllocError>
    ensures { IfOk result (λ clauses. clauses_shown clauses.items
        ≡ map (interval_clause (S.saying says.now)) (spans tree false held later.now)) }
{
    let mut clauses = Vec::new(alloc);
    let mut held = held;
    let mut left = later;
    while let Some((lower, upper, rest)) = next_interval(tree, false, held, left) {
        held = false;
        left = rest;
        let clause = interval_clause(alloc, says, lower, upper)?;
        clauses.push(clause)?;
    }
    Ok(clauses)
}

/// Returns the clause that the value differs from each value at which the tree is not the child, where
/// these are all single values; else `None`. Below the first endpoint the tree is the child.
fn differs_from<T, S: Says<T>>(
    alloc: Global,
    says: &S,
    tree: MarkerTree,
    later: &[Branch<T, MarkerTree>],
) -> Result<Option<Vec<MarkerExpression>>, AllocError>
    ensures { IfOk result (λ found. option_map (λ terms. clause_of terms.items) found
        ≡ differs_from (S.saying says.now) (spans tree true false later.now)) }
{
    let mut terms = Vec::new(alloc);
    let mut left = later;
    while let Some((lower, upper, rest)) = next_interval(tree, true, false, left) {
        left = rest;
        let Some(value) = value_between(says, lower, upper) else {
            return Ok(None);
        };
        let term = says.term(alloc, Relation::NotEqual, value)?;
        terms.push(term)?;
    }
    Ok(Some(terms))
}

/// Returns the comparison by `!=` with the star that the values between two bounds are, where they are a
/// star's.
fn star_between<T, S: Says<T>>(
    alloc: Global,
    says: &S,
    lower: Bound<&T>,
    upper: Bound<&T>,
) -> Result<Option<Vec<MarkerExpression>>, AllocError>
    ensures { IfOk result (λ found. option_map (λ terms. clause_of terms.items) found
        ≡ star_between (S.saying says.now)
        (bound_map (λ v. v.now) lower.entry) (bound_map (λ v. v.now) upper.entry)) }
{
    match (lower, upper) {
        (Bound::Included(lower), Bound::Excluded(upper)) => {
            let Some(term) = says.star(alloc, true, lower, upper)? else {
                return Ok(None);
            };
            let terms = present(alloc, Some(term), None)?;
            Ok(Some(terms))
        }
        _ => Ok(None),
    }
}

/// Returns the clause that the value is none of a star's, where these are all at which the tree is not the
/// child; else `None`. Below the first endpoint the tree is the child.
fn star_from<T, S: Says<T>>(
    alloc: Global,
    says: &S,
    tree: MarkerTree,
    later: &[Branch<T, MarkerTree>],
) -> Result<Option<Vec<MarkerExpression>>, AllocError>
    ensures { IfOk result (λ found. option_map (λ terms. clause_of terms.items) found
        ≡ star_from (S.saying says.now) (spans tree true false later.now)) }
{
    let Some((lower, upper, rest)) = next_interval(tree, true, false, later) else {
        return Ok(None);
    };
    if next_interval(tree, true, false, rest).is_some() {
        return Ok(None);
    }
    star_between(alloc, says, lower, upper)
}

/// Returns the clause of what the value differs from, where the tree is the child below the first endpoint
/// and for all values but single ones, or for all but those of a star; else `None`.
fn exclusion<T, S: Says<T>>(
    alloc: Global,
    says: &S,
    tree: MarkerTree,
    later: &[Branch<T, MarkerTree>],
) -> Result<Option<Vec<MarkerExpression>>, AllocError>
    ensures { IfOk result (λ found. option_map (λ terms. clause_of terms.items) found
        ≡ left_out_by (S.saying says.now) (spans tree true false later.now)) }
{
    if let Some(terms) = differs_from(alloc, says, tree, later)? {
        return Ok(Some(terms));
    }
    star_from(alloc, says, tree, later)
}

/// Returns a list of this one clause.
fn alone(
    alloc: Global,
    clause: Vec<MarkerExpression>,
) -> Result<Vec<Vec<MarkerExpression>>, AllocError>
    ensures { IfOk result (λ clauses. clauses_shown clauses.items ≡ clause_of clause.items ∷ []) }
{
    let mut clauses = Vec::new(alloc);
    clauses.push(clause)?;
    Ok(clauses)
}

/// Returns the clauses for where the tree is the child: one of what the value differs from, or one for each
/// interval.
#[tactic(auto, using(crate::proofs::Spanning::span_rules))]
pub(crate) fn set_clauses<T, S: Says<T>>(
    alloc: Global,
    says: &S,
    tree: MarkerTree,
    first: MarkerTree,
    later: &[Branch<T, MarkerTree>],
) -> Result<Vec<Vec<MarkerExpression>>, AllocError>
    ensures { IfOk result (λ clauses. clauses_shown clauses.items
        ≡ set_clauses (S.saying says.now) (points_where (same_tree tree) first later.now)) }
{
    if !is_same(tree, first) {
        let clauses = interval_clauses(alloc, says, tree, false, later)?;
        return Ok(clauses);
    }
    match exclusion(alloc, says, tree, later)? {
        Some(clause) => {
            let clauses = alone(alloc, clause)?;
            Ok(clauses)
        }
        None => {
            let clauses = interval_clauses(alloc, says, tree, true, later)?;
            Ok(clauses)
        }
    }
}
