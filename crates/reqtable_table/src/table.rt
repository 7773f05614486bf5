//! Tables: the packages of a text with the cases of their lines.
//!
//! A table consumes the requirements and keeps no second copy: the lines are moved out, sorted by name, and
//! cut into packages. What a package has to keep (`HasItsCases`) speaks of the interner's nodes as they
//! are, and lasts while nodes are added. A case has the set of its lines, by its runs, so that many cases of
//! many lines take little memory; all cases of a package share the lines' numbers. Whether a specifier of its
//! lines names a pre-release is stored with it. Its range is made when the case is asked (`range`), since
//! most cases of many lines never are. The test of `fields` takes a table apart, so that one more copy is
//! seen.

ghost use Rattle.std.specs.Prelude.{◌≡◌, ◌≤◌, ◌+◌, ◌*◌, List, length, map, IfOk, IfErr, OnOk};
ghost use Rattle.std.specs.List.{AllZip, AllByRecursion};
ghost use Rattle.std.specs.Option.{option_map};
ghost use Rattle.pep508_url.specs.Vars.{Variables};
ghost use Rattle.pep508_tree.specs.Meaning.{Extends};
ghost use Rattle.pep508_cases.specs.Last.{IsLast};
ghost use Rattle.reqtable_requirements.specs.Asks.{AreOfNodes};
ghost use Rattle.reqtable_requirements.specs.LineReading.{LineRecord};
ghost use Rattle.reqtable_requirements.specs.Requirements.{StandsFor};
ghost use Rattle.reqtable_table.specs.Building.{most_cases, AreOfTrees, IsPackageOf, IsWithin, IsRefusal};
ghost use Rattle.reqtable_table.specs.Building.{IsFirstRefusal, BuildsBy};
ghost use Rattle.reqtable_table.specs.Cases.{Builds, BuildsWithin, HasItsCases, cases_under, table_cases};
ghost use Rattle.reqtable_table.specs.Casing.{case_record};
ghost use Rattle.reqtable_table.specs.Counts.{up_to_64_bits, tests_of, all_tests, table_tests};
ghost use Rattle.reqtable_groups.specs.Given.{lines_in};
ghost use Rattle.reqtable_table.specs.Kept.{KeptPackage};
ghost use Rattle.reqtable_table.specs.KeptLines.{line_record, package_record};
ghost use Rattle.reqtable_table.specs.Standing.{IsTable};

use crate::case_limit::CaseLimit;
use crate::kept::{TableLine, kept_lines};
use crate::package_cases::{cases_of, markers};
use pep440_specifier::laws::a_read_specifier_is_built;
use pep508_cases::{CasesError, LastCases, TreeSet};
use pep508_name::PackageName;
use pep508_tree::{Interner, MarkerTree};
use reqtable_groups::{Group, grouped};
use reqtable_marker_cache::Slots;
use reqtable_requirements::Requirements;
use std::alloc::{AllocError, AllocFailed, Global};
use std::error::Error;
use std::fmt;
use std::marker::Model;
use std::rc::Rc;

/// A set of a package's lines which all apply under some valuation of markers, while the package's other
/// lines don't.
#[derive(Drop)]
pub struct Case {
    /// Which of the package's lines they are.
    pub(crate) set: TreeSet,
    /// The numbers of all lines of the package, which its cases share.
    pub(crate) numbers: Rc<Vec<usize>>,
    /// A tree of the interner that the table was built with, which holds exactly where just these lines
    /// apply.
    pub tree: MarkerTree,
    /// Whether a specifier of these lines names a pre-release or developmental release (PEP 440, "Handling of
    /// pre-releases").
    pub pre: bool,
}

impl Case {
    /// The numbers of the lines in their text, in rising order. Made anew by each call, in memory linear in
    /// them, and in time linear in them and in the runs of the case's lines.
    ///
    /// # Errors
    ///
    /// `AllocError` when memory runs out.
    pub fn lines(&self, alloc: Global) -> Result<Vec<usize>, AllocError>
        ensures { IfOk result (λ lines. lines.items ≡ (case_record self.now).numbers) }
    {
        self.set.select(alloc, self.numbers.as_ref().as_slice())
    }
}

/// A package that some line names, with its lines and their cases.
#[derive(Drop)]
pub(crate) struct Package {
    pub(crate) name: PackageName,
    pub(crate) cases: Vec<Case>,
    pub(crate) lines: Vec<TableLine>,
}

/// Why no table could be built.
#[derive(Debug, PartialEq, Eq, Drop)]
pub enum TableError {
    /// The first package, by the bytes of its name, that has more cases than the limit.
    TooManyCases { package: PackageName },
    /// All packages together have more cases than their limit.
    TooManyCasesInAll,
    /// Memory ran out.
    Memory,
}

impl From<AllocError> for TableError {
    ghost use Rattle.reqtable_table.specs.declared.table.TableError.TheVariants.{Memory};

    ghost from_gives = { λ _ error. error ≡ Memory };

    fn from(_: AllocError) -> TableError {
        TableError::Memory
    }
}

impl<T: Drop> From<AllocFailed<T>> for TableError {
    ghost use Rattle.reqtable_table.specs.declared.table.TableError.TheVariants.{Memory};

    ghost from_gives = { λ _ error. error ≡ Memory };

    fn from(_: AllocFailed<T>) -> TableError {
        TableError::Memory
    }
}

impl fmt::Display for TableError {
    ghost use Rattle.std.specs.Prelude.{Some};
    ghost use Rattle.reqtable_table.specs.Errors.{table_error_text};

    ghost output = { λ error. Some (table_error_text error) };

    fn fmt<W: fmt::Write>(&self, f: &mut fmt::Formatter<W>) -> fmt::Result {
        match self {
            TableError::TooManyCases { package } => write!(f, "{package}: too many cases"),
            TableError::TooManyCasesInAll => write!(f, "too many cases in all"),
            TableError::Memory => write!(f, "out of memory"),
        }
    }
}

impl Error for TableError {}

/// The cases of each package of a requirements text, built beforehand for all environments.
#[derive(Drop)]
pub struct Table {
    pub(crate) packages: Vec<Package>,
    /// The number of distinct markers of the lines; a marker and its negation count once.
    pub(crate) slots: usize,
}

impl Model for Table {
    ghost Value = { List KeptPackage };

    ghost view = { λ t. map package_record t.packages.items };

    ghost invariant = { λ t. IsTable (map package_record t.packages.items) };
}

impl Table {
    /// The table of a text's requirements, whose markers are trees of the interner.
    ///
    /// The cases of each package are found by one diagram of its lines' markers (`tree_cases`), or are those
    /// of the package before it by name where its lines have the same markers in the same order. n lines of a
    /// package need at most `2 * n * limit` conjunctions. In addition the lines are sorted by name. A case
    /// takes memory for the runs of its lines, parts of the package's list that are in it or not in turn, and
    /// time for these and for the runs of the lines that name a pre-release, but neither for each line. No
    /// case has a range yet: that is made when the case is asked. The table keeps what it needs of the
    /// requirements, without a second copy.
    ///
    /// # Errors
    ///
    /// `TableError::TooManyCases` for the first package by name that has more cases than `limit`.
    /// `TableError::Memory` when memory runs out.
    pub fn build(
        alloc: Global,
        requirements: Requirements,
        interner: &mut Interner,
        limit: u64,
    ) -> Result<Table, TableError>
        requires trees { AreOfNodes interner.old.nodes requirements }
        ensures built { (vars : Variables) (said : List LineRecord) →
            AllZip (StandsFor vars interner.old.nodes) requirements said →
            Builds limit interner.new.nodes said result }
        ensures cases { IfOk result (AllByRecursion (HasItsCases interner.new.nodes)) }
        ensures unasked { IfOk result (λ table. all_tests table ≡ 0) }
        ensures keeps { Extends interner.old.nodes interner.new.nodes }
        ensures counts { interner.new.conjunctions
            ≤ interner.old.conjunctions + 2 * (limit * length requirements) }
    {
        built(
            alloc,
            requirements,
            interner,
            CaseLimit { limit, left: None },
        )
    }

    /// The table of a text's requirements, as `build` makes it, with no more than `in_all` cases of all
    /// packages together.
    ///
    /// Packages are taken by name, and one is refused once it has more cases than both bounds leave, so that
    /// no more than `in_all` are ever kept, whatever `limit` is. The cost is that of `build`.
    ///
    /// # Errors
    ///
    /// The error of the first package, by the bytes of its name, that has more cases than it may have.
    /// `TableError::TooManyCases` if it has more than `limit`, and `limit` cases of it and all cases of the
    /// packages before it are at most `in_all`. `TableError::TooManyCasesInAll` otherwise: its cases and
    /// those of the packages before it are more than `in_all`. Where both bounds are passed at one package,
    /// that is so if those before it leave fewer than `limit` cases. `TableError::Memory` when memory runs
    /// out.
    pub fn build_within(
        alloc: Global,
        requirements: Requirements,
        interner: &mut Interner,
        limit: u64,
        in_all: u64,
    ) -> Result<Table, TableError>
        requires trees { AreOfNodes interner.old.nodes requirements }
        ensures built { (vars : Variables) (said : List LineRecord) →
            AllZip (StandsFor vars interner.old.nodes) requirements said →
            BuildsWithin limit in_all interner.new.nodes said result }
        ensures cases { IfOk result (AllByRecursion (HasItsCases interner.new.nodes)) }
        ensures unasked { IfOk result (λ table. all_tests table ≡ 0) }
        ensures keeps { Extends interner.old.nodes interner.new.nodes }
        ensures counts { interner.new.conjunctions
            ≤ interner.old.conjunctions + 2 * (limit * length requirements) }
    {
        let limits = CaseLimit {
            limit,
            left: Some(in_all),
        };
        built(alloc, requirements, interner, limits)
    }

    /// The cases of a package, ordered so that at the first line in which two differ the one that has it
    /// comes first; `None` if no line names the package. Needs O(log n) comparisons of names for n packages.
    pub fn cases(&self, name: &PackageName) -> Option<&[Case]>
        ensures { option_map (λ cases. map case_record cases.now) result ≡ cases_under name.now self.now }
    {
        let found = self
            .packages
            .binary_search_by(|package| package.name.cmp(name));
        match found {
            Ok(place) => Some(&self.packages[place].cases),
            Err(_) => None,
        }
    }

    /// The number of specifiers tested since the table was built, up to `u64::MAX`. Linear in the lines.
    pub fn tests(&self) -> u64
        ensures { result ≡ table_tests self.now }
    {
        packages_tests(&self.packages)
    }
}

/// The table of a text's requirements, with no more cases than there may be.
fn built(
    alloc: Global,
    requirements: Requirements,
    interner: &mut Interner,
    limits: CaseLimit,
) -> Result<Table, TableError>
    requires trees { AreOfNodes interner.old.nodes requirements }
    ensures built { (vars : Variables) (said : List LineRecord) →
        AllZip (StandsFor vars interner.old.nodes) requirements said →
        BuildsBy limits.limit limits.left interner.new.nodes said result }
    ensures cases { IfOk result (AllByRecursion (HasItsCases interner.new.nodes)) }
    ensures unasked { IfOk result (λ table. all_tests table ≡ 0) }
    ensures keeps { Extends interner.old.nodes interner.new.nodes }
    ensures counts { interner.new.conjunctions
        ≤ interner.old.conjunctions + 2 * (limits.limit * length requirements) }
{
    a_read_specifier_is_built();
    let groups = grouped(alloc, requirements.into_lines())?;
    let mut slots = Slots::new(alloc);
    match packages_of(alloc, interner, groups, limits, &mut slots) {
        Ok(packages) => Ok(Table {
            packages,
            slots: slots.len(),
        }),
        Err(error) => Err(error),
    }
}

fn packages_tests(packages: &[Package]) -> u64
    ensures { result ≡ table_tests (map package_record packages.now) }
{
    let mut tests = 0;
    for package in packages {
        tests = lines_tests(tests, &package.lines);
    }
    tests
}

/// The number of tests of some lines added to others, up to `u64::MAX`.
fn lines_tests(tests: u64, lines: &[TableLine]) -> u64
    ensures { result ≡ up_to_64_bits (tests + tests_of (map line_record lines.now)) }
{
    let mut tests = tests;
    for line in lines {
        tests = tests.saturating_add(line.specifiers.tests());
    }
    tests
}

/// The packages of the groups, up to the first that has more cases than it may have.
fn packages_of(
    alloc: Global,
    interner: &mut Interner,
    groups: Vec<Group>,
    limits: CaseLimit,
    slots: &mut Slots,
) -> Result<Vec<Package>, TableError>
    requires { AllByRecursion (AreOfTrees interner.old.nodes) groups.items }
    ensures made { IfOk result (λ made. AllZip (IsPackageOf limits.limit interner.new.nodes) groups.items
        (map package_record made.items)) }
    ensures within { IfOk result (λ made.
        IsWithin limits.left (table_cases (map package_record made.items))) }
    ensures refused { IfErr result (IsFirstRefusal limits.limit limits.left interner.new.nodes groups.items) }
    ensures keeps { Extends interner.old.nodes interner.new.nodes }
    ensures counts { interner.new.conjunctions
        ≤ interner.old.conjunctions + 2 * (length (lines_in groups.items) * limits.limit) }
{
    let mut packages = Vec::with_capacity(alloc, groups.len())?;
    let mut last = LastCases::new(alloc);
    let mut left = limits;
    for group in groups {
        match package_of(alloc, interner, group, left, slots, &mut last) {
            Ok(package) => {
                left = left.after(&package.cases);
                packages.push(package)?
            }
            Err(error) => return Err(error),
        }
    }
    Ok(packages)
}

/// The package of a group, with the cases of its lines.
fn package_of(
    alloc: Global,
    interner: &mut Interner,
    group: Group,
    limits: CaseLimit,
    slots: &mut Slots,
    last: &mut LastCases,
) -> Result<Package, TableError>
    requires trees { AreOfTrees interner.old.nodes group }
    requires last { IsLast interner.old.nodes last.old }
    ensures made { IfOk result (λ made.
        IsPackageOf (most_cases limits.limit limits.left) interner.new.nodes group (package_record made)) }
    ensures refused { IfErr result (IsRefusal limits.limit limits.left interner.old.nodes group) }
    ensures last { IsLast interner.new.nodes last.new }
    ensures keeps { Extends interner.old.nodes interner.new.nodes }
    ensures counts { interner.new.conjunctions
        ≤ interner.old.conjunctions + 2 * (length group.lines.items * limits.limit) }
{
    let Group { name, lines } = group;
    let trees = markers(alloc, &lines)?;
    match last.find(alloc, interner, trees, limits.most()) {
        Ok(()) => (),
        Err(CasesError::TooMany) => return Err(limits.refusal(name)),
        Err(CasesError::Memory) => return Err(TableError::Memory),
    }
    let cases = cases_of(alloc, &lines, last.cases())?;
    let lines = kept_lines(alloc, lines, slots)?;
    Ok(Package { name, cases, lines })
}
