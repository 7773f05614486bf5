//! The extra that all clauses require.

ghost use Rattle.std.specs.Prelude.{◌≡◌, option_map};
ghost use Rattle.std.specs.List.{list_all};
ghost use Rattle.pep508_marker.specs.Expression.{expression_of};
ghost use Rattle.pep508_marker.specs.Values.{extra_of};
ghost use Rattle.pep508_clauses.specs.Terms.{clause_of, clauses_shown};
ghost use Rattle.pep508_marker_display.specs.TopExtra.{extra_asked, first_extra, asks_first, common_extra};

use pep508_clauses::is_same_extra;
use pep508_marker::{ExtraOperator, MarkerExpression, MarkerValueExtra};

/// Returns the extra that a comparison requires by `==`.
fn extra_asked(term: &MarkerExpression) -> Option<&MarkerValueExtra>
    ensures { option_map (λ extra. extra_of extra.now) result ≡ extra_asked (expression_of term.now) }
{
    match term {
        MarkerExpression::Extra {
            operator: ExtraOperator::Equal,
            name,
        } => Some(name),
        _ => None,
    }
}

/// Returns the first extra that a clause requires.
fn first_extra(clause: &[MarkerExpression]) -> Option<&MarkerValueExtra>
    ensures { option_map (λ extra. extra_of extra.now) result ≡ first_extra (clause_of clause.now) }
{
    for term in clause {
        if let Some(extra) = extra_asked(term) {
            return Some(extra);
        }
    }
    None
}

/// Returns whether this is the first extra that a clause requires.
fn asks_first(extra: &MarkerValueExtra, clause: &[MarkerExpression]) -> bool
    ensures { result ≡ asks_first (extra_of extra.now) (clause_of clause.now) }
{
    match first_extra(clause) {
        Some(other) => is_same_extra(extra, other),
        None => false,
    }
}

/// Returns whether this is the first extra that every clause requires.
fn all_ask(extra: &MarkerValueExtra, clauses: &[Vec<MarkerExpression>]) -> bool
    ensures { result ≡ list_all (asks_first (extra_of extra.now)) (clauses_shown clauses.now) }
{
    for clause in clauses {
        if !asks_first(extra, clause) {
            return false;
        }
    }
    true
}

/// Returns the first extra that each clause requires, where each requires one and all are the same.
pub(crate) fn common_extra(clauses: &[Vec<MarkerExpression>]) -> Option<&MarkerValueExtra>
    ensures { option_map (λ extra. extra_of extra.now) result ≡ common_extra (clauses_shown clauses.now) }
{
    let (first, others) = clauses.split_first()?;
    let extra = first_extra(first)?;
    if all_ask(extra, others) {
        Some(extra)
    } else {
        None
    }
}
