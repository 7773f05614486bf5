//! The first line of two lists that can't be compared.
//!
//! A line that cannot be compared refuses the lists even where it never applies, and before any case is
//! made: why lists are refused is read off the lines one by one.

ghost use Rattle.std.specs.Prelude.{◌≡◌, None, IfOk};
ghost use Rattle.std.specs.Option.{option_map};
ghost use Rattle.std.specs.List.{list_any};
ghost use Rattle.reqtable_compare.specs.Refusals.{members_cause, is_exact, bounds_post};
ghost use Rattle.reqtable_compare.specs.RefusedLines.{refused_seen, line_cause_in};
ghost use Rattle.reqtable_compare.specs.RefusedLines.{lines_refusal, is_unranged};

use crate::sides::{LineCause, Side};
use pep440_specifier::{Operator, VersionSpecifier};
use pep508_requirement::VersionOrUrl;
use reqtable_range::has_range;
use reqtable_requirements::Line;
use reqtable_search::undecided::is_bound;
use std::alloc::{AllocError, Global};

/// A line that can't be compared.
#[derive(Clone, Copy)]
pub struct Refused {
    pub side: Side,
    /// The number of the line in its list.
    pub number: usize,
    pub cause: LineCause,
}

/// The first line that can't be compared, those of the left list first. Linear in the specifiers.
///
/// # Errors
///
/// `AllocError` when memory runs out.
pub fn first_refusal(
    alloc: Global,
    left: &[Line],
    right: &[Line],
) -> Result<Option<Refused>, AllocError>
    ensures { IfOk result (λ found. option_map refused_seen found
        ≡ lines_refusal Side.Left left.now (lines_refusal Side.Right right.now None)) }
{
    match refused_in(alloc, Side::Left, left)? {
        Some(refused) => Ok(Some(refused)),
        None => refused_in(alloc, Side::Right, right),
    }
}

/// The first line of one list that can't be compared.
fn refused_in(alloc: Global, side: Side, lines: &[Line]) -> Result<Option<Refused>, AllocError>
    ensures { IfOk result (λ found. option_map refused_seen found ≡ lines_refusal side lines.now None) }
{
    for line in lines {
        if let Some(cause) = cause_of(alloc, line)? {
            return Ok(Some(Refused {
                side,
                number: line.number,
                cause,
            }));
        }
    }
    Ok(None)
}

fn cause_of(alloc: Global, line: &Line) -> Result<Option<LineCause>, AllocError>
    ensures { IfOk result (λ found. found ≡ line_cause_in line.now) }
{
    match &line.requirement.version_or_url {
        Some(VersionOrUrl::Url(_)) => Ok(Some(LineCause::Url)),
        Some(VersionOrUrl::VersionSpecifier(list)) => cause_of_members(alloc, list.as_slice()),
        None => Ok(None),
    }
}

/// The cause for which specifiers can't be compared, `===` before post-releases before numbers; `None` if
/// they can.
fn cause_of_members(
    alloc: Global,
    members: &[VersionSpecifier],
) -> Result<Option<LineCause>, AllocError>
    ensures { IfOk result (λ found. found ≡ members_cause members.now) }
{
    if has_exact(members) {
        return Ok(Some(LineCause::ExactEqual));
    }
    if has_post_bound(members) {
        return Ok(Some(LineCause::PostAfterBound));
    }
    if has_unranged(alloc, members)? {
        return Ok(Some(LineCause::NumberAtEnd));
    }
    Ok(None)
}

fn has_exact(members: &[VersionSpecifier]) -> bool
    ensures { result ≡ list_any (λ s. is_exact s.operator) members.now }
{
    members.iter().any(|member| is_exact(member.operator()))
}

fn is_exact(operator: Operator) -> bool
    ensures { result ≡ is_exact operator }
{
    match operator {
        Operator::ExactEqual => true,
        _ => false,
    }
}

fn has_post_bound(members: &[VersionSpecifier]) -> bool
    ensures { result ≡ list_any bounds_post members.now }
{
    members.iter().any(|member| bounds_post(member))
}

fn bounds_post(member: &VersionSpecifier) -> bool
    ensures { result ≡ bounds_post member.now }
{
    if is_bound(member.operator()) {
        return member.version().post().is_some();
    }
    false
}

fn has_unranged(alloc: Global, members: &[VersionSpecifier]) -> Result<bool, AllocError>
    ensures { IfOk result (λ found. found ≡ list_any is_unranged members.now) }
{
    for member in members {
        let ranged = has_range(alloc, member)?;
        if !ranged {
            return Ok(true);
        }
    }
    Ok(false)
}
