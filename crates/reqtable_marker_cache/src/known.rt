//! A cache of which markers hold.
//!
//! A line of a table has the number of its marker next to its tree, and what the marker says in an
//! environment is kept under that number. Numbers only say where to look: an entry names its place in the
//! interner, so no proof above depends on which marker has which number, and a marker that is not there is
//! evaluated. The row of one package (`reqtable_table::lent::row_among`) keeps nothing, since a package has
//! few lines.

ghost use Rattle.std.specs.Prelude.{◌≡◌, ◌<◌, ℕ, [], length, Some, None, get_or, set, IfOk};
ghost use Rattle.version_ranges.specs.Turns.{flips};
ghost use Rattle.pep508_tree.specs.Meaning.{IsTree, holds};
ghost use Rattle.reqtable_marker_cache.specs.Known.{plain, truth_at, AreKnown};
ghost use Rattle.reqtable_marker_cache.specs.Settings.{nodes_in, valuation_in};

use crate::setting::Setting;
use pep508_tree::MarkerTree;
use std::alloc::{AllocError, Global};
use std::marker::Model;

/// A cached truth: whether the tree that isn't negated, of the trees at this place of an interner, holds.
#[derive(Clone, Copy)]
pub struct Said {
    pub place: usize,
    pub holds: bool,
}

/// A cache of which markers hold in one environment with extras, by their slots.
#[derive(Drop)]
pub struct Known {
    said: Vec<Option<Said>>,
}

impl Model for Known {
    ghost use Rattle.std.specs.Prelude.{List, Option};
    ghost use Rattle.reqtable_marker_cache.specs.declared.known.Said.{Said};

    ghost Value = { List (Option Said) };

    ghost view = { λ k. k.said.items };
}

impl Known {
    /// A cache without room: nothing is known, and nothing will be kept. Allocates no memory.
    pub fn nothing(alloc: Global) -> Known
        ensures { result ≡ [] }
    {
        Known {
            said: Vec::new(alloc),
        }
    }

    /// An empty cache with room for `slots` markers.
    ///
    /// # Errors
    ///
    /// `AllocError` when memory runs out.
    pub fn new(alloc: Global, slots: usize) -> Result<Known, AllocError>
        ensures { IfOk result (λ known. (slot : ℕ) → get_or known slot None ≡ None) }
    {
        let mut said = Vec::new(alloc);
        said.resize(slots, None)?;
        Ok(Known { said })
    }

    /// Whether a marker holds: the cached truth of its slot, or otherwise evaluated, and cached if the slot
    /// exists. A cached truth also has the marker's place, so that markers with a common slot aren't
    /// confused.
    pub fn holds(&mut self, setting: &Setting<'_>, slot: usize, marker: MarkerTree) -> bool
        requires made { IsTree (nodes_in setting.now) marker }
        requires known { AreKnown (nodes_in setting.now) (valuation_in setting.now) self.old }
        ensures answer { result ≡ holds (nodes_in setting.now) marker (valuation_in setting.now) }
        ensures known { AreKnown (nodes_in setting.now) (valuation_in setting.now) self.new }
        ensures kept { slot < length self.old → truth_at (get_or self.new slot None) marker.place
            ≡ Some (holds (nodes_in setting.now) (plain marker.place) (valuation_in setting.now)) }
        ensures long { length self.new ≡ length self.old }
    {
        if let Some(truth) = self.truth_at(slot, marker.place()) {
            return turned(marker.is_negated(), truth);
        }
        let truth = setting.holds(marker);
        self.keep(slot, marker.place(), turned(marker.is_negated(), truth));
        truth
    }

    /// The cached truth of the tree at `place` that isn't negated, if the slot has one.
    fn truth_at(&self, slot: usize, place: usize) -> Option<bool>
        ensures { result ≡ truth_at (get_or self.now slot None) place }
    {
        let said = self.said_at(slot)?;
        if said.place == place {
            Some(said.holds)
        } else {
            None
        }
    }

    fn said_at(&self, slot: usize) -> Option<Said>
        ensures { result ≡ get_or self.now slot None }
    {
        if slot < self.said.len() {
            self.said[slot]
        } else {
            None
        }
    }

    /// Caches the truth of the tree at a place, if the slot exists.
    fn keep(&mut self, slot: usize, place: usize, truth: bool)
        ensures { self.new ≡ set self.old slot (Some (record { place = place; holds = truth })) }
    {
        if slot < self.said.len() {
            self.said[slot] = Some(Said {
                place,
                holds: truth,
            });
        }
    }
}

/// A truth, negated if the flag is set.
fn turned(turns: bool, truth: bool) -> bool
    ensures { result ≡ flips turns truth }
{
    if turns { !truth } else { truth }
}
