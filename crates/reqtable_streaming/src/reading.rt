//! The lines of candidates, read one after another.
//!
//! Most lines are a name, a space and a version in ASCII, without a comment. The normal form of such a name
//! is written into room that all lines share, and found there among the names of the packages, so that only
//! a candidate which becomes the best one of its package gets a name of its own.

ghost use Rattle.std.specs.Prelude.{◌≡◌, true, false, Err, IsTrue, IsOkAnd, IfSome, List, OnOk, Some};
ghost use Rattle.std.specs.List.{AllByRecursion, AllZip};
ghost use Rattle.std.specs.Str.{trim};
ghost use Rattle.pep440_version.specs.Packing.{packed};
ghost use Rattle.pep440_version.specs.Reading.{version_of};
ghost use Rattle.pep440_version.specs.Record.{VersionRecord};
ghost use Rattle.pep508_requirement_text.specs.FrontReading.{Front};
ghost use Rattle.reqtable_candidates.specs.TextLines.{text_lines, each_line, is_blank};
ghost use Rattle.reqtable_candidates.specs.CandidateLine.{candidate_by, has_name};
ghost use Rattle.reqtable_candidates.specs.Candidates.{at_line, candidate_at, IsNameReached};
ghost use Rattle.reqtable_answer.specs.Admission.{Admits, AnswersBy};
ghost use Rattle.reqtable_streaming.specs.LinesRead.{text_of, OffersRead};
ghost use Rattle.reqtable_streaming.specs.Packages.{AreRising, AreNamesOf, AreSound, IsNew, IsNext};
ghost use Rattle.reqtable_streaming.specs.Packages.{HasBest, names_of};
ghost use Rattle.reqtable_streaming.specs.Selection.{JudgesRead};

use crate::fronts::{Fronted, of_name, with_front};
use crate::hints::hint_of;
use crate::offering::{offer_to, passes_over};
use crate::plain_lines::{plain_line, without_return};
use crate::required::Package;
use pep440_version::Version;
use reqtable_answer::Admission;
use reqtable_candidates::pieces::read_version;
use reqtable_candidates::text_lines::{is_blank, line_text};
use reqtable_candidates::{Candidate, CandidateFault, CandidatesError, read_candidate};
use std::alloc::Global;

/// How long the normal form of a name may be that is read where its line stands.
const ROOM: usize = 256;

/// Reads the candidates of a text, and offers each to its package. `names` are those of the packages, and
/// `hints` those of where they stand.
pub(crate) fn read_candidates<F: Fn(&Version, bool) -> bool>(
    alloc: Global,
    text: &str,
    packages: &mut Vec<Package<'_>>,
    names: &[Fronted<'_>],
    hints: &[u32],
    admission: &Admission<F>,
) -> Result<(), CandidatesError>
    requires callable { F.IsAlwaysCallable admission.now }
    requires rising { AreRising packages.old.items }
    requires named { AreNamesOf packages.old.items names.now }
    requires sound { AreSound packages.old.items }
    ensures names { OnOk result (names_of packages.new.items ≡ names_of packages.old.items) }
    ensures sound { OnOk result (AreSound packages.new.items) }
    ensures answered { JudgesRead (λ candidates done. (admits : Admits) (all : List Front) →
        AnswersBy (F.post admission.now) admits → AllByRecursion (IsNew all) packages.old.items →
        AllByRecursion (HasBest admits all candidates) packages.new.items)
        result (each_line candidate_at (text_lines text.now)) }
    ensures grown { result ≡ Err CandidatesError.Memory → IsNameReached (text_lines text.now) }
{
    let mut place = 0;
    let mut normal = [0; ROOM];
    for (index, line) in text.split('\n').enumerate() {
        let number = index + 1;
        place = read_line(
            alloc,
            number,
            line,
            &mut normal,
            packages,
            names,
            hints,
            place,
            admission,
        )?;
    }
    Ok(())
}

/// Reads a line with its end and its comment, and offers its candidate to its package; a blank line has none.
/// `normal` is room for the normal form of a name, and `hints` are those of where the names stand. `before`
/// is the place of the package of the candidate before; returns that of this candidate.
fn read_line<F: Fn(&Version, bool) -> bool>(
    alloc: Global,
    number: usize,
    line: &str,
    normal: &mut [u8],
    packages: &mut Vec<Package<'_>>,
    names: &[Fronted<'_>],
    hints: &[u32],
    before: usize,
    admission: &Admission<F>,
) -> Result<usize, CandidatesError>
    requires callable { F.IsAlwaysCallable admission.now }
    requires rising { AreRising packages.old.items }
    requires named { AreNamesOf packages.old.items names.now }
    requires sound { AreSound packages.old.items }
    ensures names { OnOk result (names_of packages.new.items ≡ names_of packages.old.items) }
    ensures sound { OnOk result (AreSound packages.new.items) }
    ensures blank { is_blank (text_of line.now) ≡ true →
        IsOkAnd result (λ place. packages.new.items ≡ packages.old.items) }
    ensures answered { is_blank (text_of line.now) ≡ false → OffersRead (λ candidate. (admits : Admits) →
        AnswersBy (F.post admission.now) admits →
        AllZip (IsNext admits candidate) packages.old.items packages.new.items)
        result (candidate_at number (text_of line.now)) }
    ensures grown { result ≡ Err CandidatesError.Memory → IsTrue (has_name (trim (text_of line.now))) }
{
    if let Some(read) = plain_line(without_return(line), normal) {
        let (form, _) = normal.split_at(read.name);
        let name = with_front(form);
        let hint = hint_of(hints, names, &name, before);
        return read_plain(
            alloc,
            number,
            &name,
            read.version,
            read.word,
            packages,
            names,
            hint,
            admission,
        );
    }
    let text = line_text(line);
    if is_blank(text) {
        return Ok(before);
    }
    read_other(alloc, number, text, packages, names, before, admission)
}

/// Reads the version of a line whose name was read, and offers the candidate to its package. `word` is that
/// of the version, if it is known; a version whose word is no higher than the best one's is not read any
/// further.
fn read_plain<F: Fn(&Version, bool) -> bool>(
    alloc: Global,
    number: usize,
    name: &Fronted<'_>,
    version: &str,
    word: Option<u64>,
    packages: &mut Vec<Package<'_>>,
    names: &[Fronted<'_>],
    before: usize,
    admission: &Admission<F>,
) -> Result<usize, CandidatesError>
    requires callable { F.IsAlwaysCallable admission.now }
    requires packed { IfSome word (λ n. (read : VersionRecord) × (version_of version.now ≡ Some read)
        × (packed read ≡ Some n)) }
    requires rising { AreRising packages.old.items }
    requires named { AreNamesOf packages.old.items names.now }
    requires sound { AreSound packages.old.items }
    ensures names { OnOk result (names_of packages.new.items ≡ names_of packages.old.items) }
    ensures sound { OnOk result (AreSound packages.new.items) }
    ensures answered { OffersRead (λ candidate. (admits : Admits) →
        AnswersBy (F.post admission.now) admits →
        AllZip (IsNext admits candidate) packages.old.items packages.new.items)
        result (at_line number (candidate_by (Some name.now.name.now) (version_of version.now))) }
{
    let Some(known) = word else {
        return read_worded(
            alloc, number, name, version, None, packages, names, before, admission,
        );
    };
    let (place, is_over) = passes_over(packages, names, before, name, known);
    if is_over {
        return Ok(place);
    }
    read_worded(
        alloc, number, name, version, word, packages, names, place, admission,
    )
}

/// Reads the version of a line whose name was read, and offers the candidate to its package. `word` is that
/// of the version, if it is known.
fn read_worded<F: Fn(&Version, bool) -> bool>(
    alloc: Global,
    number: usize,
    name: &Fronted<'_>,
    version: &str,
    word: Option<u64>,
    packages: &mut Vec<Package<'_>>,
    names: &[Fronted<'_>],
    before: usize,
    admission: &Admission<F>,
) -> Result<usize, CandidatesError>
    requires callable { F.IsAlwaysCallable admission.now }
    requires packed { IfSome word (λ n. (read : VersionRecord) × (version_of version.now ≡ Some read)
        × (packed read ≡ Some n)) }
    requires rising { AreRising packages.old.items }
    requires named { AreNamesOf packages.old.items names.now }
    requires sound { AreSound packages.old.items }
    ensures names { OnOk result (names_of packages.new.items ≡ names_of packages.old.items) }
    ensures sound { OnOk result (AreSound packages.new.items) }
    ensures answered { OffersRead (λ candidate. (admits : Admits) →
        AnswersBy (F.post admission.now) admits →
        AllZip (IsNext admits candidate) packages.old.items packages.new.items)
        result (at_line number (candidate_by (Some name.now.name.now) (version_of version.now))) }
{
    let Some(version) = read_version(alloc, version)? else {
        let cause = CandidateFault::Version;
        return Err(CandidatesError::Line { number, cause });
    };
    let place = offer_to(
        alloc, packages, names, before, name, version, word, admission,
    )?;
    Ok(place)
}

/// Reads the candidate of any line that is not blank, without its end and comment, and offers it to its
/// package.
fn read_other<F: Fn(&Version, bool) -> bool>(
    alloc: Global,
    number: usize,
    text: &str,
    packages: &mut Vec<Package<'_>>,
    names: &[Fronted<'_>],
    before: usize,
    admission: &Admission<F>,
) -> Result<usize, CandidatesError>
    requires callable { F.IsAlwaysCallable admission.now }
    requires rising { AreRising packages.old.items }
    requires named { AreNamesOf packages.old.items names.now }
    requires sound { AreSound packages.old.items }
    ensures names { OnOk result (names_of packages.new.items ≡ names_of packages.old.items) }
    ensures sound { OnOk result (AreSound packages.new.items) }
    ensures answered { OffersRead (λ candidate. (admits : Admits) →
        AnswersBy (F.post admission.now) admits →
        AllZip (IsNext admits candidate) packages.old.items packages.new.items)
        result (candidate_at number text.now) }
    ensures grown { result ≡ Err CandidatesError.Memory → IsTrue (has_name (trim text.now)) }
{
    let Candidate { name, version } = read_candidate(alloc, number, text)?;
    let front = of_name(&name);
    let place = offer_to(
        alloc, packages, names, before, &front, version, None, admission,
    )?;
    Ok(place)
}
