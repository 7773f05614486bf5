//! How comparisons print.

ghost use Rattle.std.specs.Prelude.{◌++◌, Some};
ghost use Rattle.std.specs.List.{flat_map};
ghost use Rattle.pep440_text.specs.Print.{version_text};
ghost use Rattle.pep508_marker.specs.Expression.{expression_of, expression_text, versions_text, behind_blank};

use crate::{MarkerExpression, MarkerOperator};
use pep440_version::Version;
use std::fmt;

/// A printer of a version, and of more with a blank before each.
#[derive(Clone, Copy)]
struct Versions<'a> {
    first: &'a Version,
    others: &'a [Version],
}

impl fmt::Display for Versions<'_> {
    ghost output = { λ text. Some (version_text text.first.now ++ flat_map behind_blank text.others.now) };

    fn fmt<W: fmt::Write>(&self, f: &mut fmt::Formatter<W>) -> fmt::Result {
        let first = self.first;
        write!(f, "{first}")?;
        for version in self.others {
            write!(f, " {version}")?;
        }
        Ok(())
    }
}

/// A printer of versions with a blank between them.
#[derive(Clone, Copy)]
struct Spaced<'a> {
    versions: &'a [Version],
}

impl fmt::Display for Spaced<'_> {
    ghost output = { λ text. Some (versions_text text.versions.now) };

    fn fmt<W: fmt::Write>(&self, f: &mut fmt::Formatter<W>) -> fmt::Result {
        match self.versions.split_first() {
            None => Ok(()),
            Some((first, others)) => write!(f, "{}", Versions { first, others }),
        }
    }
}

impl fmt::Display for MarkerExpression {
    ghost output = { λ expression. Some (expression_text (expression_of expression)) };

    fn fmt<W: fmt::Write>(&self, f: &mut fmt::Formatter<W>) -> fmt::Result {
        match self {
            MarkerExpression::Version { key, specifier } => {
                let operator = specifier.operator();
                let version = specifier.version();
                write!(f, "{key} {operator} ")?;
                if operator.is_star() {
                    write!(f, "'{version}.*'")
                } else {
                    write!(f, "'{version}'")
                }
            }
            MarkerExpression::VersionIn {
                key,
                versions,
                negated,
            } => {
                let list = Spaced { versions };
                if *negated {
                    write!(f, "{key} not in '{list}'")
                } else {
                    write!(f, "{key} in '{list}'")
                }
            }
            MarkerExpression::String {
                key,
                operator,
                value,
            } => match operator {
                MarkerOperator::Contains | MarkerOperator::NotContains => {
                    write!(f, "'{value}' {operator} {key}")
                }
                _ => write!(f, "{key} {operator} '{value}'"),
            },
            MarkerExpression::Extra { operator, name } => write!(f, "extra {operator} '{name}'"),
        }
    }
}
