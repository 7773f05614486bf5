//! How the parts of a version print.

ghost use Rattle.std.specs.Prelude.{Some};
ghost use Rattle.pep440_text.specs.Record.{segment_of};
ghost use Rattle.pep440_text.specs.Print.{kind_text, prerelease_text, segment_text};

use crate::{LocalSegment, Prerelease, PrereleaseKind};
use std::fmt;

impl fmt::Display for PrereleaseKind {
    ghost output = { λ kind. Some (kind_text kind) };

    fn fmt<W: fmt::Write>(&self, f: &mut fmt::Formatter<W>) -> fmt::Result {
        match self {
            PrereleaseKind::Alpha => write!(f, "a"),
            PrereleaseKind::Beta => write!(f, "b"),
            PrereleaseKind::Rc => write!(f, "rc"),
        }
    }
}

impl fmt::Display for Prerelease {
    ghost output = { λ pre. Some (prerelease_text pre) };

    fn fmt<W: fmt::Write>(&self, f: &mut fmt::Formatter<W>) -> fmt::Result {
        let kind = self.kind;
        let number = self.number;
        write!(f, "{kind}{number}")
    }
}

impl fmt::Display for LocalSegment {
    ghost output = { λ segment. Some (segment_text (segment_of segment)) };

    fn fmt<W: fmt::Write>(&self, f: &mut fmt::Formatter<W>) -> fmt::Result {
        match self {
            LocalSegment::String(text) => write!(f, "{text}"),
            LocalSegment::Number(number) => write!(f, "{number}"),
        }
    }
}
