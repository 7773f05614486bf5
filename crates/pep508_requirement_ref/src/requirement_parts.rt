//! The parts of a requirement's text.

ghost use Rattle.std.specs.Prelude.{Some, ◌++◌, option_map};
ghost use Rattle.std.specs.List.{flat_map};
ghost use Rattle.pep508_requirement_ref.specs.RequirementPrint.{behind_comma, extras_text, marker_part};
ghost use Rattle.pep508_requirement_ref.specs.RequirementPrint.{source_text};
ghost use Rattle.pep508_requirement_ref.specs.Views.{marker_text_in, source_of};

use pep508_name::ExtraName;
use pep508_requirement::VersionOrUrl;
use pep508_tree_ref::MarkerTreeRef;
use pep508_url::Pep508Url;
use std::fmt;

/// A printer of a name, and of more with a comma before each.
#[derive(Clone, Copy)]
struct Names<'a> {
    first: &'a ExtraName,
    others: &'a [ExtraName],
}

impl fmt::Display for Names<'_> {
    ghost output = { λ names. Some (names.first.now ++ flat_map behind_comma names.others.now) };

    fn fmt<W: fmt::Write>(&self, f: &mut fmt::Formatter<W>) -> fmt::Result {
        let first = self.first;
        write!(f, "{first}")?;
        for name in self.others {
            write!(f, ",{name}")?;
        }
        Ok(())
    }
}

/// A printer of extras in brackets, where there are any.
#[derive(Clone, Copy)]
pub(crate) struct ExtrasPart<'a> {
    pub(crate) names: &'a [ExtraName],
}

impl fmt::Display for ExtrasPart<'_> {
    ghost output = { λ part. Some (extras_text part.names.now) };

    #[tactic(auto, using(crate::proofs::Printing::names_joined))]
    fn fmt<W: fmt::Write>(&self, f: &mut fmt::Formatter<W>) -> fmt::Result {
        match self.names.split_first() {
            None => Ok(()),
            Some((first, others)) => write!(f, "[{}]", Names { first, others }),
        }
    }
}

/// A printer of specifiers with bare commas between them, or of a URL, where there is one or the other.
#[derive(Clone, Copy)]
pub(crate) struct SourcePart<'a, T: Pep508Url> {
    pub(crate) asked: &'a Option<VersionOrUrl<T>>,
}

impl<T: Pep508Url> fmt::Display for SourcePart<'_, T> {
    ghost output = { λ part. option_map source_text (source_of T.output part.asked.now) };

    fn fmt<W: fmt::Write>(&self, f: &mut fmt::Formatter<W>) -> fmt::Result {
        match self.asked {
            None => Ok(()),
            Some(VersionOrUrl::VersionSpecifier(list)) => write!(f, "{}", list.bare_commas()),
            Some(VersionOrUrl::Url(url)) => write!(f, " @ {url}"),
        }
    }
}

/// A printer of a marker's text after a `;`, where there is one.
#[derive(Clone, Copy)]
pub(crate) struct MarkerPart<'a> {
    pub(crate) marker: &'a MarkerTreeRef<'a>,
}

impl fmt::Display for MarkerPart<'_> {
    ghost output = { λ part. Some (marker_part (marker_text_in part.marker.now)) };

    fn fmt<W: fmt::Write>(&self, f: &mut fmt::Formatter<W>) -> fmt::Result {
        match self.marker.try_to_string() {
            Ok(None) => Ok(()),
            Ok(Some(text)) => write!(f, " ; {text}"),
            Err(_) => Err(fmt::Error),
        }
    }
}
