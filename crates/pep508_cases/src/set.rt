//! Sets of trees, in the order of cases.
//!
//! A set is kept by its runs: sets of few trees, of almost all and of the first ones each have few runs, so
//! they take little memory and are compared in a few steps. Lines for interpreters from some version on have
//! sets of the first ones.

ghost use Rattle.std.specs.Prelude.{◌≡◌, ◌≤◌, ◌==◌, ◌<◌, ◌+◌, ◌++◌, ◌∷◌, [], ℕ, Bool, true, not, length};
ghost use Rattle.std.specs.Prelude.{replicate, min, suc, refl, IfOk, OnOk};
ghost use Rattle.std.specs.Cmp.{eq_by_cmp_equiv, partial_equiv_from_equiv, partial_order_from_agreeing_total};
ghost use Rattle.std.specs.Ordering.{eq_by_cmp, as_partial_cmp};
ghost use Rattle.pep508_cases.specs.Cases.{marks_cmp};
ghost use Rattle.pep508_cases.specs.Sets.{marks_by, mark_after, places_of, places_from, ended_cmp};
ghost use Rattle.pep508_cases.specs.Sets.{marked, marks_meet, rest_marks, rest_runs};
ghost use Rattle.pep508_cases.specs.SetOrder.{marks_total};

use std::alloc::{AllocError, Global};
use std::cmp::Ordering;
use std::marker::Model;

/// A set of some trees: whether it contains the first of them, and the lengths of its runs, which are trees
/// that it contains and trees that it doesn't in turn. Each number is one less than the run's length.
#[derive(Drop)]
pub struct TreeSet {
    first: bool,
    runs: Vec<usize>,
}

impl Model for TreeSet {
    ghost use Rattle.pep508_cases.specs.Cases.{Marks};
    ghost use Rattle.pep508_cases.specs.Sets.{marks_by};

    ghost Value = { Marks };

    ghost view = { λ set. marks_by set.first set.runs.items };
}

impl TreeSet {
    /// Returns the set of no trees.
    pub fn new(alloc: Global) -> TreeSet
        ensures { result ≡ [] }
    {
        TreeSet {
            first: false,
            runs: Vec::new(alloc),
        }
    }

    /// Returns the set of one tree, which is in it or not.
    pub(crate) fn of_one(alloc: Global, mark: bool) -> Result<TreeSet, AllocError>
        ensures { IfOk result (λ set. set ≡ mark ∷ []) }
    {
        let mut runs = Vec::new(alloc);
        runs.push(0)?;
        Ok(TreeSet { first: mark, runs })
    }

    /// Returns a copy of the set. Linear in its runs.
    ///
    /// # Errors
    /// Where memory ran out.
    pub fn try_clone(&self, alloc: Global) -> Result<TreeSet, AllocError>
        ensures { IfOk result (λ set. set ≡ self.now) }
    {
        Ok(TreeSet {
            first: self.first,
            runs: Vec::from_slice(alloc, &self.runs)?,
        })
    }

    /// Makes this the set, of as many trees as there are marks, that contains those with the mark `true`.
    /// Linear in the marks. The memory of the set's runs is used again.
    ///
    /// # Errors
    /// Where memory ran out.
    pub fn mark(&mut self, marks: &[bool]) -> Result<(), AllocError>
        ensures { OnOk result (self.new ≡ marks.now) }
    {
        self.runs.clear();
        let Some((first, later)) = marks.split_first() else {
            return Ok(());
        };
        self.first = *first;
        push_runs(&mut self.runs, *first, later)
    }

    /// Appends another set, whose trees come after those of this one.
    pub(crate) fn extend(&mut self, later: &TreeSet) -> Result<(), AllocError>
        requires { length self.old + length later.now ≤ usize.MAX }
        ensures { OnOk result (self.new ≡ self.old ++ later.now) }
    {
        if self.runs.is_empty() {
            self.first = later.first;
        }
        if next_mark(self.first, &self.runs) == later.first {
            self.runs.extend_from_slice(&later.runs)?;
            return Ok(());
        }
        lengthen(&mut self.runs, &later.runs)
    }

    /// Returns the numbers of the set's members, where `numbers` has one for each tree. Linear in the runs
    /// and in what is returned.
    ///
    /// # Errors
    /// Where memory ran out.
    pub fn select(&self, alloc: Global, numbers: &[usize]) -> Result<Vec<usize>, AllocError>
        ensures { IfOk result (λ found. found.items ≡ marked self.now numbers.now) }
    {
        let mut found = Vec::new(alloc);
        let mut mark = self.first;
        let mut left = numbers;
        for run in &self.runs {
            let (own, later) = left.split_at(run_end(*run, left.len()));
            if mark {
                found.extend_from_slice(own)?;
            }
            mark = !mark;
            left = later;
        }
        Ok(found)
    }

    /// Whether the two sets have a common member. Linear in the runs of both.
    pub fn meets(&self, other: &TreeSet) -> bool
        ensures { result ≡ marks_meet self.now other.now }
    {
        let mut left = rest_of(self.first, &self.runs);
        let mut right = rest_of(other.first, &other.runs);
        loop {
            let (Some(own), Some(others)) = (left, right) else {
                return false;
            };
            if own.mark && others.mark {
                return true;
            }
            let count = own.run.min(others.run);
            left = own.after(count);
            right = others.after(count);
        }
    }

    /// Returns the places of the set's members among the trees, in rising order.
    ///
    /// # Errors
    /// Where memory ran out.
    pub fn places(&self, alloc: Global) -> Result<Vec<usize>, AllocError>
        requires { length self.now ≤ usize.MAX }
        ensures { IfOk result (λ places. places.items ≡ places_of self.now) }
    {
        places_by(alloc, self.first, &self.runs)
    }
}

/// Returns where a run ends among so many trees, of which it is the first ones.
fn run_end(run: usize, count: usize) -> usize
    ensures { result ≡ min (suc run) count }
{
    if run < count { run + 1 } else { count }
}

/// What is left of a set's runs after some of its trees: a run with this mark, and those after it.
#[derive(Clone, Copy, Drop)]
struct Rest<'a> {
    mark: bool,
    run: usize,
    later: &'a [usize],
}

impl<'a> Rest<'a> {
    /// Returns what is left after some more trees, one more than `count`, of the same run.
    fn after(&self, count: usize) -> Option<Rest<'a>>
        requires { count ≤ self.now.run }
        ensures marks { marks_by self.now.mark (self.now.run ∷ self.now.later.now)
            ≡ replicate (suc count) self.now.mark ++ rest_marks result }
        ensures fewer { rest_runs result ≤ suc (length self.now.later.now) }
        ensures ended { count ≡ self.now.run → rest_runs result ≡ length self.now.later.now }
    {
        if count < self.run {
            return Some(Rest {
                mark: self.mark,
                run: self.run - count - 1,
                later: self.later,
            });
        }
        rest_of(!self.mark, self.later)
    }
}

/// Returns the runs, the first of which has this mark, if there are some.
fn rest_of(mark: bool, runs: &[usize]) -> Option<Rest<'_>>
    ensures marks { rest_marks result ≡ marks_by mark runs.now }
    ensures runs { rest_runs result ≡ length runs.now }
{
    match runs.split_first() {
        Some((run, later)) => Some(Rest {
            mark,
            run: *run,
            later,
        }),
        None => None,
    }
}

/// Appends the runs of trees, the first of which has this mark and the others these, to none.
fn push_runs(runs: &mut Vec<usize>, first: bool, later: &[bool]) -> Result<(), AllocError>
    requires { runs.old.items ≡ [] }
    ensures { OnOk result (marks_by first runs.new.items ≡ first ∷ later.now) }
{
    let mut mark = first;
    let mut run = 0;
    for next in later {
        if *next == mark {
            run += 1;
        } else {
            runs.push(run)?;
            mark = *next;
            run = 0;
        }
    }
    runs.push(run)?;
    Ok(())
}

/// Returns the mark of the run after these, the first of which has this mark.
fn next_mark(first: bool, runs: &[usize]) -> bool
    ensures { result ≡ mark_after first runs.now }
{
    if runs.len() % 2 == 0 { first } else { !first }
}

/// Appends runs, the first of which has the mark of the last one and so makes that one longer.
fn lengthen(runs: &mut Vec<usize>, later: &[usize]) -> Result<(), AllocError>
    requires some { 0 < length runs.old.items }
    requires long { length (marks_by true runs.old.items) + length (marks_by true later.now) ≤ usize.MAX }
    ensures { OnOk result ((mark : Bool) → marks_by mark runs.new.items
        ≡ marks_by mark runs.old.items ++ marks_by (not (mark_after mark runs.old.items)) later.now) }
{
    let Some((run, others)) = later.split_first() else {
        return Ok(());
    };
    let Some(last) = runs.pop() else {
        return Ok(());
    };
    runs.push(last + *run + 1)?;
    runs.extend_from_slice(others)?;
    Ok(())
}

/// Returns the places of the members of a set with these runs, the first of which has this mark.
fn places_by(alloc: Global, first: bool, runs: &[usize]) -> Result<Vec<usize>, AllocError>
    requires { length (marks_by first runs.now) ≤ usize.MAX }
    ensures { IfOk result (λ places. places.items ≡ places_of (marks_by first runs.now)) }
{
    let mut places = Vec::with_capacity(alloc, runs.len())?;
    let mut mark = first;
    let mut at = 0;
    for run in runs {
        let end = at + *run + 1;
        add_run(&mut places, mark, at, end)?;
        mark = !mark;
        at = end;
    }
    Ok(places)
}

/// Appends the places of a run with this mark, which begins at a place and ends before another.
fn add_run(places: &mut Vec<usize>, mark: bool, start: usize, end: usize) -> Result<(), AllocError>
    ensures { OnOk result ((n : ℕ) → start + n ≡ end →
        places.new.items ≡ places.old.items ++ places_from start (replicate n mark)) }
{
    if !mark {
        return Ok(());
    }
    for place in start..end {
        places.push(place)?;
    }
    Ok(())
}

/// Compares two sets whose runs begin with the same mark by the first tree at which they differ: the one that
/// contains it comes first.
fn cmp_runs(first: bool, runs: &[usize], others: &[usize]) -> Ordering
    ensures { result ≡ marks_cmp (marks_by first runs.now) (marks_by first others.now) }
{
    let mut mark = first;
    let mut left = runs;
    let mut right = others;
    loop {
        match (left.split_first(), right.split_first()) {
            (None, None) => return Ordering::Equal,
            (None, Some(_)) => return Ordering::Less,
            (Some(_), None) => return Ordering::Greater,
            (Some((run, later)), Some((other, others_later))) => {
                if *run < *other {
                    return order_at_end(mark, later);
                }
                if *other < *run {
                    return order_at_end(mark, others_later).reverse();
                }
                left = later;
                right = others_later;
                mark = !mark;
            }
        }
    }
}

/// Compares a set that begins with this mark with one that begins with the other mark, if they have trees.
fn cmp_first(first: bool, runs: &[usize], others: &[usize]) -> Ordering
    ensures { result ≡ marks_cmp (marks_by first runs.now) (marks_by (not first) others.now) }
{
    match (runs.split_first(), others.split_first()) {
        (None, None) => Ordering::Equal,
        (None, Some(_)) => Ordering::Less,
        (Some(_), None) => Ordering::Greater,
        (Some(_), Some(_)) if first => Ordering::Less,
        (Some(_), Some(_)) => Ordering::Greater,
    }
}

/// Compares a set that ends its run with this mark, and has these runs after it, with one whose run goes on.
fn order_at_end(mark: bool, later: &[usize]) -> Ordering
    ensures { result ≡ ended_cmp mark (not (length later.now == 0)) }
{
    if mark && !later.is_empty() {
        Ordering::Greater
    } else {
        Ordering::Less
    }
}

impl PartialEq for TreeSet {
    ghost eq = { eq_by_cmp marks_cmp };

    ghost laws = { partial_equiv_from_equiv (eq_by_cmp_equiv marks_total) };

    fn eq(&self, other: &TreeSet) -> bool {
        self.cmp(other).is_eq()
    }
}

impl Eq for TreeSet {
    ghost laws = { eq_by_cmp_equiv marks_total };
}

impl PartialOrd for TreeSet {
    ghost partial_cmp = { as_partial_cmp marks_cmp };

    ghost laws = { partial_order_from_agreeing_total marks_cmp marks_total (λ x y. refl) (λ x y. refl) };

    fn partial_cmp(&self, other: &TreeSet) -> Option<Ordering> {
        Some(self.cmp(other))
    }
}

impl Ord for TreeSet {
    ghost cmp = { marks_cmp };

    ghost total = { marks_total };

    ghost matches_partial_cmp = { λ x y. refl };

    ghost matches_eq = { λ x y. refl };

    fn cmp(&self, other: &TreeSet) -> Ordering {
        if self.first == other.first {
            return cmp_runs(self.first, &self.runs, &other.runs);
        }
        cmp_first(self.first, &self.runs, &other.runs)
    }
}
