//! The prints of lists.

ghost use Rattle.std.specs.Prelude.{◌≡◌, Some, ◌++◌};
ghost use Rattle.std.specs.List.{flat_map};
ghost use Rattle.pep440_specifier.specs.SpecifierPrint.{specifier_text};
ghost use Rattle.pep440_specifier_list.specs.ListText.{behind_separator, separated, list_text};
ghost use Rattle.pep440_specifier_list.specs.ListText.{list_value_text};

use crate::VersionSpecifiers;
use pep440_specifier::VersionSpecifier;
use std::fmt;
use std::marker::Model;

/// A printer of a member, and of more with a separator before each.
#[derive(Clone, Copy)]
struct Members<'a> {
    first: &'a VersionSpecifier,
    others: &'a [VersionSpecifier],
    separator: &'a str,
}

impl fmt::Display for Members<'_> {
    ghost output = { λ text. Some (specifier_text text.first.now
        ++ flat_map (behind_separator text.separator.now) text.others.now) };

    fn fmt<W: fmt::Write>(&self, f: &mut fmt::Formatter<W>) -> fmt::Result {
        let first = self.first;
        let separator = self.separator;
        write!(f, "{first}")?;
        for member in self.others {
            write!(f, "{separator}{member}")?;
        }
        Ok(())
    }
}

/// A printer of members with a separator between them.
#[derive(Clone, Copy)]
struct Separated<'a> {
    members: &'a [VersionSpecifier],
    separator: &'a str,
}

impl fmt::Display for Separated<'_> {
    ghost output = { λ text. Some (separated text.separator.now text.members.now) };

    #[tactic(auto, using(crate::proofs::Printing::members_separated))]
    fn fmt<W: fmt::Write>(&self, f: &mut fmt::Formatter<W>) -> fmt::Result {
        let separator = self.separator;
        match self.members.split_first() {
            None => Ok(()),
            Some((first, others)) => write!(
                f,
                "{}",
                Members {
                    first,
                    others,
                    separator
                }
            ),
        }
    }
}

impl fmt::Display for VersionSpecifiers {
    ghost output = { λ list. Some (list_text list) };

    fn fmt<W: fmt::Write>(&self, f: &mut fmt::Formatter<W>) -> fmt::Result {
        write!(
            f,
            "{}",
            Separated {
                members: self.as_slice(),
                separator: ", "
            }
        )
    }
}

/// A printer of a list's members with bare commas between them, as `>=1.16,<2.0`: the form in JSON and in a
/// requirement's text. It borrows the list.
#[derive(Drop)]
pub struct BareCommas<'a> {
    members: &'a [VersionSpecifier],
}

impl<'a> Model for BareCommas<'a> {
    ghost use Rattle.std.specs.Prelude.{List};
    ghost use Rattle.pep440_specifier.specs.Matching.{SpecifierRecord};

    ghost Value = { List SpecifierRecord };

    ghost view = { λ text. text.members.now };
}

impl fmt::Display for BareCommas<'_> {
    ghost output = { λ members. Some (list_value_text members) };

    #[tactic(auto, using(crate::proofs::Printing::value_separated))]
    fn fmt<W: fmt::Write>(&self, f: &mut fmt::Formatter<W>) -> fmt::Result {
        write!(
            f,
            "{}",
            Separated {
                members: self.members,
                separator: ","
            }
        )
    }
}

impl VersionSpecifiers {
    /// Returns the list as a value that prints with bare commas between its members. Takes no memory;
    /// printing it is linear in the text.
    pub fn bare_commas(&self) -> BareCommas<'_>
        ensures { result ≡ self.now }
    {
        BareCommas {
            members: self.as_slice(),
        }
    }
}

impl fmt::Debug for VersionSpecifiers {
    fn fmt<W: fmt::Write>(&self, f: &mut fmt::Formatter<W>) -> fmt::Result {
        write!(f, "\"{self}\"")
    }
}
