//! Clauses of comparisons: a marker holds where one of its clauses does.

ghost use Rattle.std.specs.Prelude.{◌≡◌, IfOk};
ghost use Rattle.std.specs.String.{string_bytes};
ghost use Rattle.pep508_marker_text_laws.specs.MarkerText.{clauses_text};
ghost use Rattle.pep508_marker_text_laws.specs.SameTerms.{same_term, opposite_term};
ghost use Rattle.pep508_marker_text_laws.specs.Simplified.{simplified};
ghost use Rattle.pep508_clauses.specs.Terms.{clauses_shown};

use crate::clause_text::Clauses;
use crate::simplify::simplified;
use pep508_marker::MarkerExpression;
use std::alloc::{AllocError, Global};

/// Returns the clauses without the terms that other clauses make needless, and then without the clauses
/// that others cover; no comparison is copied.
///
/// For each clause of several terms it looks at four numbers of each other one at most: the bits, by
/// hashes, of its values, twice, and of its terms, in two kinds. Where the bits are all the clause's own,
/// but for one of each kind of terms, it looks for the hashes of the other's terms among those of the
/// clause, from the last term on, up to the second that isn't there. The others of which at most one isn't
/// there are kept. For each term of the clause it looks at that one of each kept clause, and where it is
/// the negation's, or where there is none, at the terms, up to the first that decides.
///
/// Then, for each clause but those of one term by whose hash no other clause begins, it looks at the four
/// numbers of each other clause again, and at the terms at once where the bits are all the clause's own, so
/// that the clause may be covered. Clauses of the same ten flags have all bits of each other's values: of
/// these it goes on for one in 30 to 110, by the flags' names, where one in 100 matters. The more terms the
/// clauses have, beyond some twenty, the less the bits rule out.
///
/// The clauses of n flags with `or` between them, of one to n terms, take some n * n look-ups of a hash,
/// and n * n * n / 6 comparisons of two hashes.
///
/// # Errors
///
/// `AllocError` when memory runs out.
pub fn simplified_clauses(
    alloc: Global,
    clauses: Vec<Vec<MarkerExpression>>,
) -> Result<Vec<Vec<MarkerExpression>>, AllocError>
    ensures { IfOk result (λ simple. clauses_shown simple.items
        ≡ simplified same_term opposite_term (clauses_shown clauses.items)) }
{
    let simple = simplified(alloc, clauses)?;
    Ok(simple)
}

/// Returns the text of clauses, with `or` between them; a clause of several terms among others is in
/// brackets. Linear in the text.
///
/// # Errors
///
/// `AllocError` when memory runs out.
pub fn clauses_text(alloc: Global, clauses: &[Vec<MarkerExpression>]) -> Result<String, AllocError>
    ensures { IfOk result (λ text. string_bytes text ≡ clauses_text (clauses_shown clauses.now)) }
{
    let text = Clauses { clauses };
    format!(in alloc; "{text}")
}
