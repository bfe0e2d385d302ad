//! A set of places.
ghost use Rattle.std.specs.Prelude.{◌≡◌, ◌<◌, ℕ, [], ◌∷◌, true, ◌↔◌, IsTrue, slice_get, Some, length, IfOk, OnOk};
ghost use Rattle.place_sets.specs.Places.{HasPlace, IsSet, Widens};

use spl_value::NoMemory;
use std::alloc::Global;

/// Places below a bound, each at most once, in the order in which they came.
pub struct PlaceSet {
    /// For each number below the bound, whether it is in the set.
    pub marks: Vec<bool>,
    /// Those of the set, in the order in which they came.
    pub places: Vec<u32>,
}

impl Drop for PlaceSet {
    fn drop(self) {
        let PlaceSet {
            marks: _,
            places: _,
        } = self;
    }
}

impl PlaceSet {
    /// A set without places, for those below a bound.
    pub fn new(alloc: Global, bound: usize) -> Result<PlaceSet, NoMemory>
        ensures { IfOk result (λ s. IsSet s × (length s.marks.items ≡ bound) × (s.places.items ≡ [])) }
    {
        let marks = vec![in alloc; false; bound]?;
        let places = Vec::new(alloc);
        Ok(PlaceSet { marks, places })
    }

    /// Whether a place is in the set.
    pub fn has(&self, place: u32) -> bool
        ensures { IsTrue result ↔ (slice_get self.now.marks.items place ≡ Some true) }
    {
        match self.marks.get(place as usize) {
            Some(mark) => *mark,
            None => false,
        }
    }

    /// Adds a place that may be there already.
    pub fn add(&mut self, place: u32) -> Result<(), NoMemory>
        requires set { IsSet self.old }
        requires below { place < length self.old.marks.items }
        ensures { OnOk result (Widens self.old self.new (place ∷ [])) }
    {
        if self.has(place) {
            return Ok(());
        }
        self.places.push(place)?;
        self.marks[place as usize] = true;
        Ok(())
    }

    /// Adds places that may be there already.
    pub fn add_all(&mut self, places: &[u32]) -> Result<(), NoMemory>
        requires set { IsSet self.old }
        requires below { (i : ℕ) → HasPlace places.now i → i < length self.old.marks.items }
        ensures { OnOk result (Widens self.old self.new places.now) }
    {
        for place in places {
            self.add(*place)?;
        }
        Ok(())
    }
}
