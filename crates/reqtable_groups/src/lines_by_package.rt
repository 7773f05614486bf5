//! The lines of a text, grouped by package.

ghost use Rattle.std.specs.Prelude.{◌≡◌, ◌∷◌, ◌++◌, [], map, IfOk, OnOk};
ghost use Rattle.reqtable_groups.specs.Given.{AreGrouped, AreSoFar, IsAdded, IsNewGroup, named_by};

use crate::given::{Given, NamedGiven, given_of};
use pep508_name::PackageName;
use reqtable_requirements::Line;
use std::alloc::{AllocError, Global};

/// A package's name, and its lines in their order.
#[derive(Drop)]
pub struct Group {
    pub name: PackageName,
    pub lines: Vec<Given>,
}

/// The lines grouped by package, the packages in the order of their names. n lines need O(n log n)
/// comparisons of names.
///
/// # Errors
///
/// `AllocError` when memory runs out.
pub fn grouped(alloc: Global, lines: Vec<Line>) -> Result<Vec<Group>, AllocError>
    ensures { IfOk result (λ groups. AreGrouped lines.items groups.items) }
{
    let mut named = named_lines(alloc, lines)?;
    named.sort_by(|a, b| a.name.cmp(&b.name))?;
    cut(alloc, named)
}

/// The lines in their order, without their URLs, so that what is sorted is much smaller.
fn named_lines(alloc: Global, lines: Vec<Line>) -> Result<Vec<NamedGiven>, AllocError>
    ensures { IfOk result (λ named. named.items ≡ map named_by lines.items) }
{
    let mut named = Vec::with_capacity(alloc, lines.len())?;
    for line in lines {
        named.push(given_of(alloc, line))?;
    }
    Ok(named)
}

/// The groups of lines that are sorted by the names of their packages.
fn cut(alloc: Global, lines: Vec<NamedGiven>) -> Result<Vec<Group>, AllocError>
    ensures { IfOk result (λ groups. AreSoFar lines.items groups.items) }
{
    let mut groups = Vec::new(alloc);
    for line in lines {
        let NamedGiven { name, given } = line;
        add(alloc, &mut groups, name, given)?;
    }
    Ok(groups)
}

/// Adds a line to the last group, if that is of its package, or otherwise as a new group.
fn add(
    alloc: Global,
    groups: &mut Vec<Group>,
    name: PackageName,
    line: Given,
) -> Result<(), AllocError>
    ensures { OnOk result (IsAdded name line groups.old.items groups.new.items) }
{
    let Some(last) = groups.pop() else {
        return push(alloc, groups, name, line);
    };
    if last.name == name {
        let mut last = last;
        last.lines.push(line)?;
        groups.push(last)?;
        Ok(())
    } else {
        groups.push(last)?;
        push(alloc, groups, name, line)
    }
}

/// Appends a group of one line.
fn push(
    alloc: Global,
    groups: &mut Vec<Group>,
    name: PackageName,
    line: Given,
) -> Result<(), AllocError>
    ensures { OnOk result (IsNewGroup name line groups.old.items groups.new.items) }
{
    let mut lines = Vec::with_capacity(alloc, 1)?;
    lines.push(line)?;
    groups.push(Group { name, lines })?;
    Ok(())
}
