//! Answers on lists of specifiers.

use crate::answers::{REFUSED, Told, hash_of, shown, sign, yes_or_no};
use crate::{sets, versions};
use pep440_range::{release_specifiers_to_ranges, specifiers_to_range};
use pep440_specifier::{VersionSpecifier, VersionSpecifierParseError};
use pep440_specifier_list::{
    CountedSpecifiers, RefusedPiece, VersionSpecifiers, VersionSpecifiersParseError,
};
use pep440_version::Version;
use std::alloc::{AllocError, Global};
use std::fmt::Write;

/// The questions on a list and another text.
pub const KINDS: [&str; 11] = [
    "list",
    "list prints",
    "list fault",
    "list picture",
    "list set",
    "release list set",
    "intervals",
    "contains",
    "range",
    "counted",
    "lists",
];

/// Answers a question on a list's text, and perhaps another one.
pub fn of_text(alloc: Global, answer: &mut String, kind: &str, text: &str, other: &str) -> Told {
    match VersionSpecifiers::from_str(alloc, text) {
        Ok(list) => told(alloc, answer, kind, &list, other),
        Err(error) => unread(answer, kind, &error),
    }
}

/// Answers where a text is not a list; for a picture with the error's whole print, after the line that it
/// keeps.
pub fn unread(answer: &mut String, kind: &str, error: &VersionSpecifiersParseError) -> Told {
    match error {
        VersionSpecifiersParseError::Memory => Err(AllocError),
        VersionSpecifiersParseError::Specifier(piece) if kind == "list fault" => {
            refused_piece(answer, piece)
        }
        error => match kind {
            "list picture" => write!(answer, "`{}`: {error}", error.line()),
            "list value" => write!(answer, "refused: {error}"),
            _ => answer.push_str(REFUSED),
        },
    }
}

/// Appends the first piece between commas that is invalid, its place in bytes, and what is wrong with it.
fn refused_piece(answer: &mut String, refused: &RefusedPiece) -> Told {
    let (start, end) = (refused.start(), refused.end());
    let (piece, line, fault) = (refused.piece(), refused.line(), refused.error());
    write!(
        answer,
        "`{piece}` from {start} to {end} of `{line}`: {fault}"
    )
}

fn told(
    alloc: Global,
    answer: &mut String,
    kind: &str,
    list: &VersionSpecifiers,
    other: &str,
) -> Told {
    match kind {
        "list" => shown(answer, list),
        "list prints" => prints(alloc, answer, &list.try_clone(alloc)?, list),
        "list fault" => write!(answer, "read {list}"),
        "list picture" => answer.push_str("read"),
        "contains" | "range" | "counted" => with_text(alloc, answer, kind, list, other),
        "lists" => beside(alloc, answer, list, other),
        "release list set" => {
            let range = release_specifiers_to_ranges(alloc, list);
            sets::of_range(answer, kind, range, None)
        }
        _ => sets::of_range(answer, kind, specifiers_to_range(alloc, list), None),
    }
}

/// Appends the number of members of a list's copy, its prints (for programmers, with bare commas, and as a
/// JSON value), and whether it is equal to the list.
fn prints(
    alloc: Global,
    answer: &mut String,
    copy: &VersionSpecifiers,
    list: &VersionSpecifiers,
) -> Told {
    let (count, bare) = (copy.as_slice().len(), copy.bare_commas());
    write!(answer, "{count} members, {copy:?}, {bare}, ")?;
    shown(answer, &copy.to_value(alloc)?)?;
    let is_alike = copy == list && hash_of(copy) == hash_of(list);
    write!(answer, ", alike {is_alike}")
}

fn with_text(
    alloc: Global,
    answer: &mut String,
    kind: &str,
    list: &VersionSpecifiers,
    candidate: &str,
) -> Told {
    match Version::from_str(alloc, candidate) {
        Ok(candidate) => takes(alloc, answer, kind, list, &candidate),
        Err(error) => versions::unread(answer, kind, &error),
    }
}

/// Answers whether a list, or its set, accepts a version.
fn takes(
    alloc: Global,
    answer: &mut String,
    kind: &str,
    list: &VersionSpecifiers,
    candidate: &Version,
) -> Told {
    match kind {
        "contains" => yes_or_no(answer, list.contains(alloc, candidate)),
        "range" => {
            let range = specifiers_to_range(alloc, list);
            sets::of_range(answer, kind, range, Some(candidate))
        }
        _ => {
            let mut counting = CountedSpecifiers::new(list.try_clone(alloc)?);
            counted(alloc, answer, &mut counting, list, candidate)
        }
    }
}

/// Answers whether a counted list accepts a version, tested twice, and how many members were tested by
/// then; and whether its members are still those of the list.
fn counted(
    alloc: Global,
    answer: &mut String,
    list: &mut CountedSpecifiers,
    own: &VersionSpecifiers,
    candidate: &Version,
) -> Told {
    let before = list.tests();
    let taken = list.contains_counted(alloc, candidate)?;
    let once = list.tests();
    let again = list.contains_counted(alloc, candidate)?;
    let twice = list.tests();
    if list.specifiers() != own {
        answer.push_str("other members, ")?;
    }
    write!(answer, "{before} asked, {taken} {once}, {again} {twice}")
}

fn beside(alloc: Global, answer: &mut String, left: &VersionSpecifiers, right: &str) -> Told {
    match VersionSpecifiers::from_str(alloc, right) {
        Ok(right) => compared(answer, left, &right),
        Err(error) => unread(answer, "lists", &error),
    }
}

/// Answers with the order of two lists, both ways.
fn compared(answer: &mut String, left: &VersionSpecifiers, right: &VersionSpecifiers) -> Told {
    let order = sign(left.cmp(right));
    let turned = right.partial_cmp(left);
    write!(answer, "{order}, turned {turned:?}")
}

/// Answers with the list of three specifiers, in the order given.
pub fn of_members(alloc: Global, answer: &mut String, texts: [&str; 3]) -> Told {
    let mut members = Vec::new(alloc);
    for text in texts {
        push_member(alloc, &mut members, text)?;
    }
    listed(alloc, answer, members)
}

/// Appends a specifier to the members; an invalid text is left out.
fn push_member(alloc: Global, members: &mut Vec<VersionSpecifier>, text: &str) -> Told {
    match VersionSpecifier::from_str(alloc, text) {
        Ok(member) => Ok(members.push(member)?),
        Err(VersionSpecifierParseError::Memory) => Err(AllocError),
        Err(_) => Ok(()),
    }
}

fn listed(alloc: Global, answer: &mut String, members: Vec<VersionSpecifier>) -> Told {
    if members.len() < 3 {
        return answer.push_str(REFUSED);
    }
    shown(answer, &VersionSpecifiers::from_specifiers(alloc, members)?)
}

/// Answers with the list of one specifier, and its number of members, borrowed and owned.
pub fn of_member(answer: &mut String, list: VersionSpecifiers) -> Told {
    write!(answer, "{list}, {}, ", list.iter().count())?;
    write!(answer, "{}", list.into_iter().len())
}

/// Answers for the empty list: whether it accepts a version, and its print.
pub fn empty(
    alloc: Global,
    answer: &mut String,
    list: &VersionSpecifiers,
    candidate: &Version,
) -> Told {
    let is_empty = list.is_empty();
    let taken = list.contains(alloc, candidate)?;
    write!(answer, "`{list}`, empty {is_empty}, takes {taken}")
}
