//! The text of clauses.

ghost use Rattle.std.specs.Prelude.{◌≡◌, ◌++◌, Some};
ghost use Rattle.std.specs.List.{flat_map};
ghost use Rattle.pep508_marker.specs.Expression.{expression_of, expression_text};
ghost use Rattle.pep508_marker_text_laws.specs.MarkerText.{clause_text, bracketed_text, clauses_text};
ghost use Rattle.pep508_clauses.specs.Terms.{clause_of, clauses_shown};
ghost use Rattle.pep508_clauses.specs.Texts.{and_term, or_clause};

use pep508_marker::MarkerExpression;
use std::fmt;

/// A printer of a term, and of more with `and` before each.
#[derive(Clone, Copy)]
struct Joined<'a> {
    first: &'a MarkerExpression,
    others: &'a [MarkerExpression],
}

impl fmt::Display for Joined<'_> {
    ghost output = { λ text. Some (expression_text (expression_of text.first.now)
        ++ flat_map and_term text.others.now) };

    fn fmt<W: fmt::Write>(&self, f: &mut fmt::Formatter<W>) -> fmt::Result {
        let first = self.first;
        write!(f, "{first}")?;
        for term in self.others {
            write!(f, " and {term}")?;
        }
        Ok(())
    }
}

/// A printer of terms with `and` between them.
#[derive(Clone, Copy)]
struct Terms<'a> {
    terms: &'a [MarkerExpression],
}

impl fmt::Display for Terms<'_> {
    ghost output = { λ text. Some (clause_text (clause_of text.terms.now)) };

    #[tactic(auto, using(crate::proofs::Texts::joined_terms))]
    fn fmt<W: fmt::Write>(&self, f: &mut fmt::Formatter<W>) -> fmt::Result {
        match self.terms.split_first() {
            None => Ok(()),
            Some((first, others)) => write!(f, "{}", Joined { first, others }),
        }
    }
}

/// A printer of a clause among others: in brackets where it has several terms.
#[derive(Clone, Copy)]
struct Bracketed<'a> {
    terms: &'a [MarkerExpression],
}

impl fmt::Display for Bracketed<'_> {
    ghost output = { λ text. Some (bracketed_text (clause_of text.terms.now)) };

    fn fmt<W: fmt::Write>(&self, f: &mut fmt::Formatter<W>) -> fmt::Result {
        let terms = Terms { terms: self.terms };
        match self.terms {
            [] | [_] => write!(f, "{terms}"),
            _ => write!(f, "({terms})"),
        }
    }
}

/// A printer of a clause, and of more with `or` before each.
#[derive(Clone, Copy)]
struct Alternatives<'a> {
    first: &'a [MarkerExpression],
    others: &'a [Vec<MarkerExpression>],
}

impl fmt::Display for Alternatives<'_> {
    ghost output = { λ text. Some (bracketed_text (clause_of text.first.now)
        ++ flat_map or_clause text.others.now) };

    fn fmt<W: fmt::Write>(&self, f: &mut fmt::Formatter<W>) -> fmt::Result {
        let first = Bracketed { terms: self.first };
        write!(f, "{first}")?;
        for clause in self.others {
            let terms = Bracketed { terms: clause };
            write!(f, " or {terms}")?;
        }
        Ok(())
    }
}

/// A printer of clauses with `or` between them.
#[derive(Clone, Copy)]
pub(crate) struct Clauses<'a> {
    pub clauses: &'a [Vec<MarkerExpression>],
}

impl fmt::Display for Clauses<'_> {
    ghost output = { λ text. Some (clauses_text (clauses_shown text.clauses.now)) };

    fn fmt<W: fmt::Write>(&self, f: &mut fmt::Formatter<W>) -> fmt::Result {
        let Some((first, others)) = self.clauses.split_first() else {
            return Ok(());
        };
        if others.is_empty() {
            write!(f, "{}", Terms { terms: first })
        } else {
            write!(f, "{}", Alternatives { first, others })
        }
    }
}
