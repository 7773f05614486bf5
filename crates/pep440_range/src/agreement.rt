//! Operators and versions by which a specifier's range decides what the specifier accepts.

ghost use Rattle.std.specs.Prelude.{◌≡◌, ◌↔◌, IsTrue};
ghost use Rattle.pep440_range.specs.Agreement.{IsFinal, agrees_beside_posts, AgreesEverywhere};

use pep440_specifier::Operator;
use pep440_version::Version;

/// Whether the range of this operator and version holds just the candidates that they accept, among those
/// that have neither a local part nor a post-release: what `laws::ranges_agree_beside_posts` asks of them.
///
/// It does not for `===`, nor for `<` and `>` with a post-release (PEP 440, "Exclusive ordered comparison").
pub fn agrees_beside_posts(operator: Operator, version: &Version) -> bool
    ensures { result ≡ agrees_beside_posts operator version.now }
{
    match operator {
        Operator::ExactEqual => false,
        Operator::LessThan | Operator::GreaterThan => version.post().is_none(),
        Operator::Equal
        | Operator::EqualStar
        | Operator::NotEqual
        | Operator::NotEqualStar
        | Operator::TildeEqual
        | Operator::LessThanEqual
        | Operator::GreaterThanEqual => true,
    }
}

/// Whether the range of this operator and version holds just the candidates that they accept, each asked
/// without its local part: what `laws::ranges_agree_everywhere` asks of them.
///
/// It does not for `===`, for `<` with a post-release, nor for `>` with anything but a final release.
pub fn agrees_everywhere(operator: Operator, version: &Version) -> bool
    ensures { IsTrue result ↔ AgreesEverywhere operator version.now }
{
    match operator {
        Operator::GreaterThan => is_final(version),
        Operator::Equal
        | Operator::EqualStar
        | Operator::ExactEqual
        | Operator::NotEqual
        | Operator::NotEqualStar
        | Operator::TildeEqual
        | Operator::LessThan
        | Operator::LessThanEqual
        | Operator::GreaterThanEqual => agrees_beside_posts(operator, version),
    }
}

/// Whether the version is neither a pre-release nor a post-release nor a developmental release.
fn is_final(version: &Version) -> bool
    ensures { IsTrue result ↔ IsFinal version.now }
{
    version.pre().is_none() && version.post().is_none() && version.dev().is_none()
}
