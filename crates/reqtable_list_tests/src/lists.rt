//! Lists of requirements and of candidates as they are read, and the answer to them.

ghost use Rattle.std.specs.Prelude.{All, IfOk, length};
ghost use Rattle.reqtable_answer.specs.Rows.{IsTakenBelow};

use pep440_version::Version;
use pep508_tree::Interner;
use pep508_url::Vars;
use reqtable_answer::{Admission, Answer, answer_to, ask_of};
use reqtable_candidates::{CandidateFault, Candidates, CandidatesError};
use reqtable_requirements::{Line, Requirements, RequirementsError};
use std::alloc::{AllocError, Global};
use std::fmt::Write;
use std::test::Fail;

/// Appends a line as `2 foo[a]>=1.0`, followed by `; ..` if it has a marker that may fail.
fn push_line(text: &mut String, line: &Line) -> Result<(), AllocError> {
    let requirement = &line.requirement;
    write!(text, "{} {}", line.number, requirement.name)?;
    for extra in &requirement.extras {
        write!(text, "[{extra}]")?;
    }
    if let Some(wanted) = &requirement.version_or_url {
        write!(text, "{wanted}")?;
    }
    text.push_str(if requirement.marker.is_true() {
        "\n"
    } else {
        " ; ..\n"
    })
}

fn push_lines(text: &mut String, read: Requirements) -> Result<(), AllocError> {
    for line in read.into_lines() {
        push_line(text, &line)?;
    }
    Ok(())
}

/// Appends the lines of a list, or what is wrong with it.
fn push_read(
    text: &mut String,
    read: Result<Requirements, RequirementsError>,
) -> Result<(), AllocError> {
    match read {
        Ok(read) => push_lines(text, read),
        Err(RequirementsError::Line { number, error }) => write!(text, "{number}: {error}"),
        Err(error) => write!(text, "{error:?}"),
    }
}

fn read(alloc: Global, lines: &str) -> Result<String, AllocError> {
    let vars = Vars::new(alloc, &[], "/w")?;
    let mut interner = Interner::new(alloc);
    let mut text = String::new(alloc);
    push_read(
        &mut text,
        Requirements::parse(alloc, lines.as_bytes(), &mut interner, &vars),
    )?;
    Ok(text)
}

#[test]
fn reads_requirement_lines(rt: HostRuntime) -> Result<(), Fail> {
    let text = "# a list\r\n\
        Foo_Bar>=1.16\n\
        foo-bar [b, a] ~= 1.19 \r\n\
        \u{3000}\n\
        \n\
        \x20\x20foo  >=  1.0;python_full_version >= '3.11'  # why\n\
        a.b @ ./c ; 'x' == 'y'\n\
        last\r";
    let want = "2 foo-bar>=1.16\n\
        3 foo-bar[b][a]~=1.19\n\
        6 foo>=1.0 ; ..\n\
        7 a-bfile:///w/c\n\
        8 last\n";
    assert_eq!(rt; read(rt.alloc(), text)?.as_str(), want);
    Ok(())
}

/// The lists in two texts. An invalid text is returned as running out of memory, which no test has.
pub fn lists_of(
    alloc: Global,
    lines: &str,
    candidates: &str,
) -> Result<(Requirements, Candidates), AllocError> {
    let vars = Vars::new(alloc, &[], "/w")?;
    let mut interner = Interner::new(alloc);
    let candidates = Candidates::parse(alloc, candidates.as_bytes()).or(Err(AllocError))?;
    match Requirements::parse(alloc, lines.as_bytes(), &mut interner, &vars) {
        Ok(read) => Ok((read, candidates)),
        Err(_) => Err(AllocError),
    }
}

/// The answer to all lines of a list, with an admission of versions only if a line names a pre-release.
pub fn answer_of(
    alloc: Global,
    read: &Requirements,
    candidates: &Candidates,
) -> Result<Answer, AllocError>
    ensures { IfOk result (λ answer.
        All (λ row. IsTakenBelow (length candidates.now) row.outcome) answer.rows.items) }
{
    let admission = Admission::new(|_: &Version, names_prerelease: bool| names_prerelease);
    let mut asks = Vec::new(alloc);
    for line in read.lines() {
        asks.push(ask_of(&line.requirement))?;
    }
    answer_to(alloc, &asks, candidates, &admission)
}

fn answered(alloc: Global, lines: &str, candidates: &str) -> Result<String, AllocError> {
    let (read, candidates) = lists_of(alloc, lines, candidates)?;
    answer_of(alloc, &read, &candidates)?.text(alloc, &candidates)
}

#[test]
fn answers_all_lines_by_their_admission(rt: HostRuntime) -> Result<(), Fail> {
    let lines = "foo[b]>=1.0a1\nbar>=1\nfoo[a]<3 ; os_name == 'x'\nbaz @ ./c\n";
    let text = answered(rt.alloc(), lines, "foo 1.5\nfoo 3\nbar 2\nfoo 2\n")?;
    assert_eq!(rt; text.as_str(), "bar none\nbaz direct\nfoo[a,b] 2\n");
    Ok(())
}

#[test]
fn admits_as_its_closure_says(rt: HostRuntime) -> Result<(), Fail> {
    let admission = Admission::new(|_: &Version, names_prerelease: bool| names_prerelease);
    let version = Version::new(rt.alloc(), &[1])?;
    assert!(rt; admission.admits(&version, true));
    assert!(rt; !admission.admits(&version, false));
    Ok(())
}

fn push_candidates(text: &mut String, read: &Candidates) -> Result<(), AllocError> {
    for candidate in read.items() {
        writeln!(text, "{} {}", candidate.name, candidate.version)?;
    }
    Ok(())
}

/// The candidates of a list, each on a line.
fn candidates_read(alloc: Global, lines: &str) -> Result<String, AllocError> {
    let read = Candidates::parse(alloc, lines.as_bytes()).or(Err(AllocError))?;
    let mut text = String::new(alloc);
    push_candidates(&mut text, &read)?;
    Ok(text)
}

#[test]
fn reads_candidates(rt: HostRuntime) -> Result<(), Fail> {
    for (lines, wanted) in [
        (
            "Foo.Bar\u{3000} 1.2.0 # best\n#foo 1\n\t foo \t 2\t\r\nfoo 1\r",
            "foo-bar 1.2.0\nfoo 2\nfoo 1\n",
        ),
        (
            "foo v1.0-ALPHA\nfoo 1.0.post1\nfoo 1!2.0-1.DEV3+Ubuntu-1\n",
            "foo 1.0a0\nfoo 1.0.post1\nfoo 1!2.0.post1.dev3+ubuntu.1\n",
        ),
    ] {
        assert_eq!(rt; candidates_read(rt.alloc(), lines)?.as_str(), wanted);
    }
    Ok(())
}

#[test]
fn names_the_line_that_is_refused(rt: HostRuntime) -> Result<(), Fail> {
    let alloc = rt.alloc();
    let fault =
        "2: Missing closing bracket (expected ']', found end of dependency specification)\nb[x\n ^";
    assert_eq!(rt; read(alloc, "a==1.2\nb[x")?.as_str(), fault);
    let faulty = Candidates::parse(alloc, b"a 1.2\nb! 2").err();
    let fault = CandidatesError::Line {
        number: 2,
        cause: CandidateFault::Name,
    };
    assert!(rt; faulty == Some(fault));
    Ok(())
}
