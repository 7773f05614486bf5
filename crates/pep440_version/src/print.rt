//! How versions print.

ghost use Rattle.std.specs.Prelude.{Some, ◌++◌, map, codes};
ghost use Rattle.std.specs.Fmt.{DisplaysOnOk, decimal};
ghost use Rattle.std.specs.List.{flat_map};
ghost use Rattle.pep440_text.specs.Record.{segment_of};
ghost use Rattle.pep440_text.specs.Print.{segment_text, dotted_number, dotted_segment, epoch_text};
ghost use Rattle.pep440_text.specs.Print.{release_text, pre_text, numbered_text, local_text, version_text};

use crate::{LocalSegment, Prerelease, Version};
use std::fmt;

/// Writes the epoch, unless it is 0.
fn write_epoch<W: fmt::Write>(epoch: u64, f: &mut fmt::Formatter<W>) -> fmt::Result
    ensures { DisplaysOnOk W.write_str_gives f.old result (Some (epoch_text epoch)) f.new }
{
    if epoch == 0 {
        return Ok(());
    }
    write!(f, "{epoch}!")
}

/// Writes a number, and the others with a dot before each.
fn write_numbers<W: fmt::Write>(
    first: u64,
    others: &[u64],
    f: &mut fmt::Formatter<W>,
) -> fmt::Result
    ensures { DisplaysOnOk W.write_str_gives f.old result
        (Some (decimal first ++ flat_map dotted_number others.now)) f.new }
{
    write!(f, "{first}")?;
    for number in others {
        write!(f, ".{number}")?;
    }
    Ok(())
}

/// Writes release numbers, with dots between them.
#[tactic(auto, using(crate::proofs::Joined::numbers_joined))]
fn write_release<W: fmt::Write>(numbers: &[u64], f: &mut fmt::Formatter<W>) -> fmt::Result
    ensures { DisplaysOnOk W.write_str_gives f.old result (Some (release_text numbers.now)) f.new }
{
    match numbers.split_first() {
        None => Ok(()),
        Some((first, others)) => write_numbers(*first, others, f),
    }
}

/// Writes a pre-release, if there is one.
fn write_pre<W: fmt::Write>(pre: Option<Prerelease>, f: &mut fmt::Formatter<W>) -> fmt::Result
    ensures { DisplaysOnOk W.write_str_gives f.old result (Some (pre_text pre)) f.new }
{
    match pre {
        None => Ok(()),
        Some(pre) => write!(f, "{pre}"),
    }
}

/// Writes a word followed by the number, if there is one.
fn write_numbered<W: fmt::Write>(
    word: &str,
    number: Option<u64>,
    f: &mut fmt::Formatter<W>,
) -> fmt::Result
    ensures { DisplaysOnOk W.write_str_gives f.old result (Some (numbered_text word.now number)) f.new }
{
    match number {
        None => Ok(()),
        Some(number) => write!(f, "{word}{number}"),
    }
}

/// Writes `+` and a segment, and the others with a dot before each.
fn write_segments<W: fmt::Write>(
    first: &LocalSegment,
    others: &[LocalSegment],
    f: &mut fmt::Formatter<W>,
) -> fmt::Result
    ensures { DisplaysOnOk W.write_str_gives f.old result
        (Some (codes "+" ++ (segment_text (segment_of first.now)
        ++ flat_map dotted_segment (map segment_of others.now)))) f.new }
{
    write!(f, "+{first}")?;
    for segment in others {
        write!(f, ".{segment}")?;
    }
    Ok(())
}

/// Writes the segments of a local part, if there are any: `+`, and dots between them.
#[tactic(auto, using(crate::proofs::Joined::segments_joined))]
fn write_local<W: fmt::Write>(segments: &[LocalSegment], f: &mut fmt::Formatter<W>) -> fmt::Result
    ensures { DisplaysOnOk W.write_str_gives f.old result
        (Some (local_text (map segment_of segments.now))) f.new }
{
    match segments.split_first() {
        None => Ok(()),
        Some((first, others)) => write_segments(first, others, f),
    }
}

impl fmt::Display for Version {
    ghost output = { λ version. Some (version_text version) };

    #[tactic(auto, unfolding(pep440_text::specs::Print::version_text))]
    fn fmt<W: fmt::Write>(&self, f: &mut fmt::Formatter<W>) -> fmt::Result {
        write_epoch(self.epoch(), f)?;
        write_release(self.release(), f)?;
        write_pre(self.pre(), f)?;
        write_numbered(".post", self.post(), f)?;
        write_numbered(".dev", self.dev(), f)?;
        write_local(self.local(), f)
    }
}

impl fmt::Debug for Version {
    ghost debug_output = { λ version. Some (codes "\"" ++ version_text version ++ codes "\"") };

    fn fmt<W: fmt::Write>(&self, f: &mut fmt::Formatter<W>) -> fmt::Result {
        write!(f, "\"{self}\"")
    }
}
