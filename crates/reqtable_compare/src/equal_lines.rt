//! Lines of two lists that are equal.
//!
//! Specifiers are compared part by part and not by `==`, which ignores zeros at a release's end: `~=1.0` and
//! `~=1.0.0` accept different versions.

ghost use Rattle.std.specs.Prelude.{◌≡◌, IsTrue};
ghost use Rattle.reqtable_packages.specs.Packages.{lent};
ghost use Rattle.reqtable_compare.specs.Settled.{SayTheSame, IsSaidIn, AreSaidIn};

use pep440_identity::are_identical_specifiers;
use pep508_name::ExtraName;
use pep508_requirement::VersionOrUrl;
use pep508_url::VerbatimUrl;
use reqtable_requirements::Line;

/// Whether each line equals one of the others. n and m lines need at most n * m comparisons.
pub(crate) fn are_said(lines: &[&Line], others: &[&Line]) -> bool
    ensures { IsTrue result → AreSaidIn (lent others.now) (lent lines.now) }
{
    for line in lines {
        if !is_said(line, others) {
            return false;
        }
    }
    true
}

/// Whether a line equals one of some others.
#[tactic(auto, using(crate::proofs::Meant::said_at))]
fn is_said(line: &Line, others: &[&Line]) -> bool
    ensures { IsTrue result → IsSaidIn (lent others.now) line.now }
{
    for other in others {
        if say_the_same(line, other) {
            return true;
        }
    }
    false
}

/// Whether two lines of a package are equal but for their numbers.
fn say_the_same(one: &Line, other: &Line) -> bool
    ensures { IsTrue result → SayTheSame one.now other.now }
{
    let one = &one.requirement;
    let other = &other.requirement;
    one.marker == other.marker
        && have_same_extras(&one.extras, &other.extras)
        && ask_the_same(&one.version_or_url, &other.version_or_url)
}

fn have_same_extras(ours: &[ExtraName], theirs: &[ExtraName]) -> bool
    ensures { IsTrue result → ours.now ≡ theirs.now }
{
    ours == theirs
}

/// Whether both accept any version, or have equal specifiers. `false` where one has a URL.
fn ask_the_same(
    one: &Option<VersionOrUrl<VerbatimUrl>>,
    other: &Option<VersionOrUrl<VerbatimUrl>>,
) -> bool
    ensures { IsTrue result → one.now ≡ other.now }
{
    match one {
        Some(VersionOrUrl::VersionSpecifier(ours)) => match other {
            Some(VersionOrUrl::VersionSpecifier(theirs)) => {
                are_identical_specifiers(ours.as_slice(), theirs.as_slice())
            }
            _ => false,
        },
        Some(VersionOrUrl::Url(_)) => false,
        None => other.is_none(),
    }
}
