//! Marked places.
ghost use Rattle.std.specs.Prelude.{◌≡◌, ◌+◌, ◌<◌, ◌^◌, true, false, length, replicate, slice_get, slice_set, Some, IfOk};
ghost use Rattle.marked_places.specs.Marked.{marked as marked_of};

use crate::counts::{find, find_mark, lower, raise};
use spl_value::{Items, NoMemory};
use std::alloc::Global;
use std::marker::Model;

/// So many places of a group are counted together, and so many groups of a block.
const GROUP: usize = 32;

/// Places from 0 on, of which some are marked. Contracts see for each place whether it is. Marks are counted by groups
/// and by blocks of groups, so that a marked place is found by its number without a look at most of the places.
#[derive(Drop)]
pub struct MarkedPlaces {
    marks: Items<bool>,
    groups: Items<u32>,
    blocks: Items<u32>,
    all: u32,
}

impl Model for MarkedPlaces {
    ghost use Rattle.std.specs.Prelude.{Bool, List};
    ghost use Rattle.marked_places.specs.Counts.{IsCounted};

    ghost Value = { List Bool };

    ghost view = { λ m. m.marks };

    ghost invariant = { λ m. IsCounted m.marks m.groups m.blocks m.all };
}

fn no_marks(alloc: Global, count: usize) -> Result<Items<bool>, NoMemory>
    ensures { IfOk result (λ marks. marks ≡ replicate count false) }
{
    let marks = vec![in alloc; false; count]?;
    Ok(Items::from_vec(marks))
}

fn zeros(alloc: Global, count: usize) -> Result<Items<u32>, NoMemory>
    ensures { IfOk result (λ counts. counts ≡ replicate count 0) }
{
    let counts = vec![in alloc; 0u32; count]?;
    Ok(Items::from_vec(counts))
}

impl MarkedPlaces {
    /// So many places, none of them marked. Later calls take no memory.
    pub fn new(alloc: Global, places: u32) -> Result<MarkedPlaces, NoMemory>
        requires few { places + 1 < 2 ^ 32 }
        ensures { IfOk result (λ m. m ≡ replicate places false) }
    {
        let count = places as usize;
        let groups = count / GROUP + 1;
        let blocks = groups / GROUP + 1;
        Ok(MarkedPlaces {
            marks: no_marks(alloc, count)?,
            groups: zeros(alloc, groups)?,
            blocks: zeros(alloc, blocks)?,
            all: 0,
        })
    }

    /// Whether a place is marked.
    #[inline(always)]
    pub fn is_marked(&self, place: u32) -> bool
        requires within { place < length self.now }
        ensures { slice_get self.now place ≡ Some result }
    {
        self.marks.as_slice()[place as usize]
    }

    /// Marks a place, or takes its mark away.
    #[inline(always)]
    #[tactic(auto, using(crate::proofs::Marking::set_same))]
    pub fn set(&mut self, place: u32, marked: bool)
        requires within { place < length self.old }
        ensures { self.new ≡ slice_set self.old place marked }
    {
        let was = self.is_marked(place);
        if marked {
            if !was {
                self.mark(place as usize);
            }
        } else if was {
            self.unmark(place as usize);
        }
    }

    fn mark(&mut self, place: usize)
        requires unmarked { slice_get self.old place ≡ Some false }
        ensures { self.new ≡ slice_set self.old place true }
    {
        let group = place / GROUP;
        self.marks.set(place, true);
        raise(&mut self.groups, group);
        raise(&mut self.blocks, group / GROUP);
        self.all += 1;
    }

    fn unmark(&mut self, place: usize)
        requires marked { slice_get self.old place ≡ Some true }
        ensures { self.new ≡ slice_set self.old place false }
    {
        let group = place / GROUP;
        self.marks.set(place, false);
        lower(&mut self.groups, group);
        lower(&mut self.blocks, group / GROUP);
        self.all -= 1;
    }

    /// How many places are marked.
    #[inline(always)]
    pub fn count(&self) -> u32
        ensures { result ≡ length (marked_of self.now) }
    {
        self.all
    }

    /// The marked place with this number, where marked places are numbered from 0 in ascending order.
    pub fn nth(&self, n: u32) -> u32
        requires few { n < length (marked_of self.now) }
        ensures { slice_get (marked_of self.now) n ≡ Some result }
    {
        let block = find(&self.blocks, 0, n);
        let group = find(&self.groups, block.at * GROUP, block.within);
        find_mark(&self.marks, group.at * GROUP, group.within) as u32
    }
}
