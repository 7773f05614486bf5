//! Numbers for markers.

ghost use Rattle.std.specs.Prelude.{◌≡◌, IfOk, OnOk};
ghost use Rattle.std.specs.BTreeMap.{IsEmpty};
ghost use Rattle.reqtable_marker_cache.specs.Slots.{IsSlotOf, count};

use pep508_tree::MarkerTree;
use std::alloc::{AllocError, Global};
use std::collections::BTreeMap;

/// A number for each marker, by its place in the interner: the first has 0, the next 1, and so on. A marker
/// and its negation have the same place.
#[derive(Drop)]
pub struct Slots {
    pub places: BTreeMap<usize, usize>,
}

impl Slots {
    /// An empty numbering.
    pub fn new(alloc: Global) -> Slots
        ensures { IsEmpty result.places }
    {
        Slots {
            places: BTreeMap::new(alloc),
        }
    }

    /// The number of markers that have a number.
    pub fn len(&self) -> usize
        ensures { result ≡ count self.now }
    {
        self.places.len()
    }

    /// The number of a marker; a new marker gets the next number. Needs O(log n) steps for n numbers.
    ///
    /// # Errors
    ///
    /// `AllocError` when memory runs out.
    pub fn slot_of(&mut self, marker: MarkerTree) -> Result<usize, AllocError>
        ensures { IfOk result (IsSlotOf marker.place self.old self.new) }
    {
        let place = marker.place();
        if let Some(slot) = self.places.get(&place) {
            return Ok(*slot);
        }
        let slot = self.places.len();
        self.places.insert(place, slot)?;
        Ok(slot)
    }
}
