//! The command that the words of the command line name, and the words that are understood.
//!
//! What is asked has one type, so that opening, paths and statuses are stated once for all commands.

ghost use Rattle.std.specs.Prelude.{◌≡◌, map, codes, IfOk};
ghost use Rattle.clap.specs.Words.{first_value, found_of, one_text};
ghost use Rattle.reqs_command.specs.Asked.{text_at, paths_in, LimitIs, AsksFor, NamesLimited};
ghost use Rattle.reqs_command.specs.Asked.{NamesFormat, IsToldFormat, bounds_from, AreToldBounds};
ghost use Rattle.reqs_command.specs.Asked.{IsToldCondition, IsToldStrict};

use clap::{Arg, ArgAction, ArgMatches, Command, Error};
use pep508_error::Pep508Error;
use pep508_formula::MarkerFormula;
use pep508_url::VerbatimUrl;
use reqs_assuming::assumed_condition;
use reqs_io_faults::Bounds;
use reqs_json::Format;
use std::alloc::{AllocError, Global};

/// The words for formats.
static FORMATS: [&str; 2] = ["text", "json"];

/// The version that `--version` prints after the program's name.
const VERSION: &str = "0.3.0";

/// A command, with its arguments other than inputs and extras.
#[derive(Clone, Copy)]
pub enum Asked {
    Check,
    /// No package may have more cases than `limit`, here and in the commands below.
    Matrix { limit: u64 },
    Same { limit: u64 },
    Covers { limit: u64 },
    Conflicts { limit: u64 },
    Normal,
}

impl Asked {
    /// The command of this name with its arguments, or `None` if there is no such command.
    pub fn of_words(name: &str, given: &ArgMatches<'_>) -> Option<Asked>
        ensures { AsksFor name.now (found_of given.now) result }
    {
        match name {
            "check" => Some(Asked::Check),
            "normal" => Some(Asked::Normal),
            _ => match limit_of(given) {
                Some(limit) => Asked::with_limit(name, limit),
                None => None,
            },
        }
    }

    /// The command of this name that has a limit, or `None` if there is no such command.
    fn with_limit(name: &str, limit: u64) -> Option<Asked>
        ensures { NamesLimited name.now limit result }
    {
        match name {
            "matrix" => Some(Asked::Matrix { limit }),
            "same" => Some(Asked::Same { limit }),
            "covers" => Some(Asked::Covers { limit }),
            "conflicts" => Some(Asked::Conflicts { limit }),
            _ => None,
        }
    }

    /// The paths of the inputs, in the order of the command line.
    ///
    /// # Errors
    ///
    /// `AllocError` when memory runs out.
    pub fn paths<'a>(
        self,
        alloc: Global,
        given: &ArgMatches<'a>,
    ) -> Result<Vec<&'a str>, AllocError>
        ensures { IfOk result (λ paths.
            map (λ p. p.now) paths.items ≡ paths_in self (found_of given.now)) }
    {
        let first = path_at(given, "REQS");
        match self {
            Asked::Check => {
                let environment = path_at(given, "ENV");
                Ok(vec![in alloc; first, environment, path_at(given, "CANDIDATES")]?)
            }
            Asked::Matrix { .. } => {
                let environments = path_at(given, "ENVS");
                Ok(vec![in alloc; first, environments, path_at(given, "CANDIDATES")]?)
            }
            Asked::Same { .. } => {
                Ok(vec![in alloc; path_at(given, "LEFT"), path_at(given, "RIGHT")]?)
            }
            Asked::Covers { .. } => Ok(vec![in alloc; path_at(given, "LOCK"), first]?),
            Asked::Conflicts { .. } | Asked::Normal => Ok(vec![in alloc; first]?),
        }
    }
}

/// The options of any command.
#[derive(Clone, Copy)]
pub struct Options<'a> {
    pub format: Format,
    /// Only environments and extras for which this holds count; all without it.
    pub condition: Option<&'a MarkerFormula>,
    pub strict: bool,
    pub bounds: Option<Bounds>,
}

/// The options that the words name, with the condition that they assume.
pub fn options_of<'a>(given: &ArgMatches<'_>, condition: Option<&'a MarkerFormula>) -> Options<'a>
    ensures format { IsToldFormat (found_of given.now) result.format }
    ensures condition { result.condition ≡ condition.entry }
    ensures strict { IsToldStrict (found_of given.now) result.strict }
    ensures bounds { AreToldBounds (found_of given.now) result.bounds }
{
    Options {
        format: format_of(given),
        condition,
        strict: is_strict(given),
        bounds: bounds_of(given),
    }
}

/// The value of the argument with this name, empty if there is none.
fn path_at<'a>(given: &ArgMatches<'a>, name: &str) -> &'a str
    ensures { result.now ≡ text_at (first_value (found_of given.now) name.now) }
{
    given.get_str(name).unwrap_or("")
}

/// The format that the words name, or the default.
pub fn format_of(given: &ArgMatches<'_>) -> Format
    ensures { IsToldFormat (found_of given.now) result }
{
    format_named(path_at(given, "format"))
}

/// The format of a word.
fn format_named(word: &str) -> Format
    ensures { NamesFormat word.now result }
{
    match word {
        "json" => Format::Json,
        _ => Format::Text,
    }
}

/// Whether the words have `--strict`.
fn is_strict(given: &ArgMatches<'_>) -> bool
    ensures { IsToldStrict (found_of given.now) result }
{
    given.get_flag("strict")
}

/// The bounds that the words name, of which those left out are the greatest numbers; `None` if they name
/// none.
fn bounds_of(given: &ArgMatches<'_>) -> Option<Bounds>
    ensures { AreToldBounds (found_of given.now) result }
{
    let nodes = number_of(given, "nodes");
    let clauses = number_of(given, "clauses");
    let cases = number_of(given, "cases");
    bounds_from(nodes, clauses, cases)
}

/// Bounds of three numbers, of which those left out are the greatest; `None` if all are left out.
fn bounds_from(nodes: Option<u64>, clauses: Option<u64>, cases: Option<u64>) -> Option<Bounds>
    ensures { result ≡ bounds_from nodes clauses cases }
{
    if nodes.is_none() && clauses.is_none() && cases.is_none() {
        return None;
    }
    let bounds = Bounds {
        nodes: nodes.unwrap_or(u64::MAX) as usize,
        clauses: clauses.unwrap_or(u64::MAX) as usize,
        cases: cases.unwrap_or(u64::MAX),
    };
    Some(bounds)
}

/// The condition that the words assume, or `None` if they assume none.
///
/// # Errors
///
/// That of `reqs_assuming::assumed_condition` for a text that is no marker or no list of specifiers, or when
/// memory runs out.
pub fn condition_of(
    alloc: Global,
    given: &ArgMatches<'_>,
) -> Result<Option<MarkerFormula>, Pep508Error<VerbatimUrl>>
    ensures { IsToldCondition (found_of given.now) result }
{
    let real = given.get_flag("assume-real");
    assumed_condition(
        alloc,
        given.get_str("assume"),
        given.get_str("python"),
        real,
    )
}

/// The limit that the words name, or the default.
fn limit_of(given: &ArgMatches<'_>) -> Option<u64>
    ensures { LimitIs (one_text (found_of given.now) (codes "limit")) result }
{
    number_of(given, "limit")
}

/// The number that the words give an option, if they do.
fn number_of(given: &ArgMatches<'_>, name: &str) -> Option<u64>
    ensures { LimitIs (one_text (found_of given.now) name.now) result }
{
    given.get_one(name)
}

/// The matches of the words.
///
/// # Errors
///
/// What clap reports: the words are invalid, request help or the version, or memory ran out.
pub fn matches<'a>(alloc: Global, words: &'a [String]) -> Result<ArgMatches<'a>, Error> {
    reqs_command(alloc)?.try_get_matches_from(words)
}

fn reqs_command<'a>(alloc: Global) -> Result<Command<'a>, AllocError> {
    let reqs = Command::new(alloc, "reqs")
        .version(VERSION)
        .about("Judges and compares lists of Python requirements")
        .subcommand_required(true);
    let reqs = with_command(reqs, check_command(alloc))?;
    let reqs = with_command(reqs, matrix_command(alloc))?;
    let reqs = with_command(reqs, same_command(alloc))?;
    let reqs = with_command(reqs, covers_command(alloc))?;
    let reqs = with_command(reqs, conflicts_command(alloc))?;
    with_command(reqs, normal_command(alloc))
}

/// A command with a subcommand, if that could be made. Taking the result of making it means that no caller
/// owns a command while it makes another.
fn with_command<'a>(
    command: Command<'a>,
    made: Result<Command<'a>, AllocError>,
) -> Result<Command<'a>, AllocError> {
    command.subcommand(made?)
}

fn check_command<'a>(alloc: Global) -> Result<Command<'a>, AllocError> {
    let check = Command::new(alloc, "check").about(
        "Prints the highest candidate of each package that the lines require",
    );
    let check = with_strict(alloc, check, "End with status 4 where a row is none")?;
    let check = with_format(alloc, check)?;
    with_inputs(
        alloc,
        check,
        "ENV",
        "The environment, a JSON object in a file",
    )
}

fn matrix_command<'a>(alloc: Global) -> Result<Command<'a>, AllocError> {
    let matrix = Command::new(alloc, "matrix").about(
        "Prints for each environment of a list what check prints for it",
    );
    let matrix = with_limit(alloc, matrix)?;
    let matrix = with_cases(alloc, matrix)?;
    let matrix = with_nodes(alloc, matrix)?;
    let matrix = with_strict(alloc, matrix, "End with status 4 where a row is none")?;
    let matrix = with_format(alloc, matrix)?;
    with_inputs(
        alloc,
        matrix,
        "ENVS",
        "The environments, a JSON list of objects in a file",
    )
}

fn same_command<'a>(alloc: Global) -> Result<Command<'a>, AllocError> {
    let same = Command::new(alloc, "same").about(
        "Prints yes where two lists require the same everywhere, or else where they first differ",
    );
    let same = with_limit(alloc, same)?;
    let same = with_cases(alloc, same)?;
    let same = with_nodes(alloc, same)?;
    let same = with_clauses(alloc, same)?;
    let same = with_assume(alloc, same)?;
    with_format(alloc, same)?
        .arg(input(
            alloc,
            "LEFT",
            "The one list, one requirement a line, a file; - is standard input, here or for the other",
        ))?
        .arg(input(alloc, "RIGHT", "The other list, a file"))
}

fn covers_command<'a>(alloc: Global) -> Result<Command<'a>, AllocError> {
    let covers = Command::new(alloc, "covers").about(
        "Prints yes where a lock file requires whatever the requirements do, or else where it first \
         doesn't, and by which lines",
    );
    let covers = with_limit(alloc, covers)?;
    let covers = with_cases(alloc, covers)?;
    let covers = with_nodes(alloc, covers)?;
    let covers = with_clauses(alloc, covers)?;
    let covers = with_assume(alloc, covers)?;
    with_format(alloc, covers)?
        .arg(input(
            alloc,
            "LOCK",
            "The lock file, one requirement a line, a file; - is standard input, here or for the other",
        ))?
        .arg(input(
            alloc,
            "REQS",
            "The requirements that it has to cover, a file",
        ))
}

fn conflicts_command<'a>(alloc: Global) -> Result<Command<'a>, AllocError> {
    let conflicts = Command::new(alloc, "conflicts").about(
        "Prints each package with its lines that contradict each other, and pre where one \
         names a pre-release",
    );
    let conflicts = with_limit(alloc, conflicts)?;
    let conflicts = with_cases(alloc, conflicts)?;
    let conflicts = with_nodes(alloc, conflicts)?;
    let conflicts = with_assume(alloc, conflicts)?;
    let conflicts = with_strict(
        alloc,
        conflicts,
        "End with status 4 where there is a conflict",
    )?;
    with_format(alloc, conflicts)?.arg(list_argument(alloc))
}

fn normal_command<'a>(alloc: Global) -> Result<Command<'a>, AllocError> {
    let normal = Command::new(alloc, "normal").about(
        "Prints the lines in one normal form, without those that never apply",
    );
    let normal = with_nodes(alloc, normal)?;
    let normal = with_clauses(alloc, normal)?;
    with_format(alloc, normal)?.arg(list_argument(alloc))
}

/// A command with an option for a limit.
fn with_limit<'a>(alloc: Global, command: Command<'a>) -> Result<Command<'a>, AllocError> {
    command.arg(limit_argument(alloc))
}

/// A command with an option for the most cases in all.
fn with_cases<'a>(alloc: Global, command: Command<'a>) -> Result<Command<'a>, AllocError> {
    command.arg(bound_argument(
        alloc,
        "cases",
        "The most cases that all packages of a list together may have; without this no bound",
    ))
}

/// A command with an option for the most nodes.
fn with_nodes<'a>(alloc: Global, command: Command<'a>) -> Result<Command<'a>, AllocError> {
    command.arg(bound_argument(
        alloc,
        "nodes",
        "The most nodes that the trees of all markers may have; without this no bound",
    ))
}

/// A command with an option for the most clauses.
fn with_clauses<'a>(alloc: Global, command: Command<'a>) -> Result<Command<'a>, AllocError> {
    command.arg(bound_argument(
        alloc,
        "clauses",
        "The most clauses that a printed marker may have; without this no bound",
    ))
}

/// A command with the options that say which environments and extras count.
fn with_assume<'a>(alloc: Global, command: Command<'a>) -> Result<Command<'a>, AllocError> {
    command
        .arg(
            Arg::new(alloc, "assume")
                .long("assume")
                .value_name("MARKER")
                .help("Only environments and extras count for which this marker holds"),
        )?
        .arg(
            Arg::new(alloc, "python")
                .long("python")
                .value_name("SPECIFIERS")
                .help("Only Python versions count that these accept, as >=3.9,<3.13"),
        )?
        .arg(
            Arg::new(alloc, "assume-real")
                .long("assume-real")
                .help("Only systems count whose names go together, as in each real interpreter")
                .action(ArgAction::SetTrue),
        )
}

/// A command with an option that makes it strict.
fn with_strict<'a>(
    alloc: Global,
    command: Command<'a>,
    help: &'a str,
) -> Result<Command<'a>, AllocError> {
    command.arg(
        Arg::new(alloc, "strict")
            .long("strict")
            .help(help)
            .action(ArgAction::SetTrue),
    )
}

/// A command with an option for a format.
fn with_format<'a>(alloc: Global, command: Command<'a>) -> Result<Command<'a>, AllocError> {
    command.arg(format_argument(alloc))
}

fn limit_argument<'a>(alloc: Global) -> Arg<'a> {
    Arg::new(alloc, "limit")
        .long("limit")
        .value_name("N")
        .help("The most cases that the lines of a package may have")
        .value_parser(clap::value_parser!(u64).range(0..=1000000))
        .default_value("4096")
}

/// The option of this name for a number of 64 bits.
fn bound_argument<'a>(alloc: Global, name: &'a str, help: &'a str) -> Arg<'a> {
    Arg::new(alloc, name)
        .long(name)
        .value_name("N")
        .help(help)
        .value_parser(clap::value_parser!(u64))
}

fn format_argument<'a>(alloc: Global) -> Arg<'a> {
    Arg::new(alloc, "format")
        .long("format")
        .value_name("FORMAT")
        .help("How answers and faults are printed: as text, or as one JSON object (json)")
        .value_parser(FORMATS.as_slice())
        .default_value("text")
}

/// The argument of a command on one list.
fn list_argument<'a>(alloc: Global) -> Arg<'a> {
    input(
        alloc,
        "REQS",
        "The requirements, one a line, a file; - is standard input",
    )
}

/// The required argument of an input.
fn input<'a>(alloc: Global, name: &'a str, help: &'a str) -> Arg<'a> {
    Arg::new(alloc, name).help(help).required(true)
}

/// A command with its three inputs, of which the second has this name and help, and extras. Each argument is
/// made where it is passed on, so that none has to be dropped when memory runs out.
fn with_inputs<'a>(
    alloc: Global,
    command: Command<'a>,
    name: &'a str,
    help: &'a str,
) -> Result<Command<'a>, AllocError> {
    command
        .arg(input(
            alloc,
            "REQS",
            "The requirements, one a line, a file; - is standard input, here or in place of another file",
        ))?
        .arg(input(alloc, name, help))?
        .arg(input(
            alloc,
            "CANDIDATES",
            "The candidates, a name and a version a line, a file; pre-releases count where \
             a line names one",
        ))?
        .arg(
            Arg::new(alloc, "EXTRA")
                .help("The extras that are requested")
                .num_args(0..),
        )
}
