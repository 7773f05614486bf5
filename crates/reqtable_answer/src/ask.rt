//! What is required of a package, borrowed from the requirement.
//!
//! An answer is to borrowed asks, and says nothing of markers: which apply is the caller's word. An `Ask`
//! borrows a name, extras and a source, so requirements kept in another form than `Requirement` are
//! answered too. Of a URL only that there is one is known.

ghost use Rattle.std.specs.Prelude.{◌≡◌};
ghost use Rattle.reqtable_answer.specs.Says.{ask_seen, marked_seen, source_seen, wanted_seen};
ghost use Rattle.reqtable_answer.specs.Says.{requirement_seen};

use pep440_specifier_list::VersionSpecifiers;
use pep508_name::{ExtraName, PackageName};
use pep508_requirement::{MarkedRequirement, Requirement, VersionOrUrl};
use pep508_url::VerbatimUrl;

/// How a requirement restricts its package.
#[derive(Clone, Copy)]
pub enum AskSource<'a> {
    /// Not at all: any version is accepted.
    Any,
    /// By specifiers, which all have to accept the version.
    Specifiers(&'a VersionSpecifiers),
    /// By a URL, which isn't kept.
    Url,
}

/// What is required of a package: its name, extras, and specifiers or a URL.
#[derive(Clone, Copy)]
pub struct Ask<'a> {
    pub name: &'a PackageName,
    pub extras: &'a [ExtraName],
    pub source: AskSource<'a>,
}

/// What a requirement requires of its package, without its marker. Allocates no memory.
pub fn ask_of(requirement: &Requirement<VerbatimUrl>) -> Ask<'_>
    ensures { ask_seen result ≡ requirement_seen requirement.now }
{
    Ask {
        name: &requirement.name,
        extras: requirement.extras.as_slice(),
        source: source_of(&requirement.version_or_url),
    }
}

/// What a requirement whose marker is a formula requires of its package, without that marker. Allocates no
/// memory.
pub fn ask_of_marked(marked: &MarkedRequirement<VerbatimUrl>) -> Ask<'_>
    ensures { ask_seen result ≡ marked_seen marked.now }
{
    Ask {
        name: &marked.name,
        extras: marked.extras.as_slice(),
        source: source_of(&marked.version_or_url),
    }
}

fn source_of(wanted: &Option<VersionOrUrl<VerbatimUrl>>) -> AskSource<'_>
    ensures { source_seen result ≡ wanted_seen wanted.now }
{
    match wanted {
        None => AskSource::Any,
        Some(VersionOrUrl::VersionSpecifier(list)) => AskSource::Specifiers(list),
        Some(VersionOrUrl::Url(_)) => AskSource::Url,
    }
}
