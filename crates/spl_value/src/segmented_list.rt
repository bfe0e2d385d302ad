//! A list in segments, so that an item is put in or taken out without a move of all that stand behind it.
ghost use Rattle.std.specs.Prelude.{◌≡◌, [], ◌∷◌, ◌++◌, length, ◌↔◌, IsTrue, IfOk, OnOk, OnErr};
ghost use Rattle.std.specs.Iterator.{YieldsFirstRef, item_count};
ghost use Rattle.spl_value.specs.Flattened.{flattened};

use crate::{Items, NoMemory};
use std::alloc::{AllocError, Global};
use std::cmp::Ordering;
use std::hash::{Hash, Hasher};
use std::marker::Model;

/// How many items a segment has at most.
pub(crate) const SEGMENT_LIMIT: usize = 128;

/// A list in segments that contracts see as the list of its items, however it is cut.
pub struct SegmentedList<T> {
    pub(crate) segments: Items<Items<T>>,
    pub(crate) len: usize,
}

impl<T: Drop> Drop for SegmentedList<T> {
    fn drop(self) {
        let SegmentedList {
            segments: _,
            len: _,
        } = self;
    }
}

impl<T> Model for SegmentedList<T> {
    ghost use Rattle.std.specs.Prelude.{◌≡◌, List, length};
    ghost use Rattle.std.specs.Coded.{coded_list};
    ghost use Rattle.spl_value.specs.Flattened.{flattened};

    ghost Value = { List T };

    ghost coded = { coded_list T.code };

    ghost view = { λ l. flattened l.segments };

    ghost invariant = { λ l. l.len ≡ length (flattened l.segments) };
}

impl<T> SegmentedList<T> {
    pub fn new(alloc: Global) -> SegmentedList<T>
        ensures { result ≡ [] }
    {
        SegmentedList {
            segments: Items::new(alloc),
            len: 0,
        }
    }

    /// An empty list with room for `capacity` items, or for one segment.
    pub fn with_capacity(alloc: Global, capacity: usize) -> Result<SegmentedList<T>, AllocError>
    where
        T: Drop,
        ensures { IfOk result (λ list. list ≡ []) }
    {
        let mut segments = Items::new(alloc);
        if capacity > 0 {
            segments.push(Items::with_capacity(alloc, capacity.min(SEGMENT_LIMIT))?)?;
        }
        Ok(SegmentedList { segments, len: 0 })
    }

    pub fn is_empty(&self) -> bool
        ensures { IsTrue result ↔ (self.now ≡ []) }
    {
        self.len == 0
    }

    pub fn len(&self) -> usize
        ensures { result ≡ length self.now }
    {
        self.len
    }

    /// The items in their order.
    pub fn iter(&self) -> SegmentedIter<'_, T>
        ensures { result ≡ self.now }
    {
        SegmentedIter {
            segment: &[],
            later: self.segments.as_slice(),
        }
    }

    /// The items in a list that isn't cut.
    #[tactic(auto, using(crate::proofs::SegmentLaws::more_items))]
    pub fn into_items(self) -> Result<Items<T>, AllocError>
    where
        T: Drop,
        ensures { IfOk result (λ items. items ≡ self) }
    {
        let SegmentedList { segments, len } = self;
        let mut items = Items::with_capacity(segments.allocator(), len)?;
        'segments: for segment in segments.into_vec() {
            items.append(segment)?;
        }
        Ok(items)
    }

    /// Adds an item after the last.
    pub fn push(&mut self, item: T) -> Result<(), NoMemory>
    where
        T: Drop,
        ensures ok { OnOk result (self.new ≡ self.old ++ item ∷ []) }
        ensures err { OnErr result (self.new ≡ self.old) }
    {
        let Some(len) = self.len.checked_add(1) else {
            return Err(NoMemory);
        };
        push_in(&mut self.segments, item)?;
        self.len = len;
        Ok(())
    }

    /// Takes every item out.
    pub fn clear(&mut self)
    where
        T: Drop,
        ensures { self.new ≡ [] }
    {
        self.segments.clear();
        self.len = 0;
    }
}

// Adds an item to the last segment, or in a new one where that is full.
fn push_in<T: Drop>(segments: &mut Items<Items<T>>, item: T) -> Result<(), AllocError>
    ensures ok { OnOk result (flattened segments.new ≡ flattened segments.old ++ item ∷ []) }
    ensures err { OnErr result (flattened segments.new ≡ flattened segments.old) }
{
    if let [.., last] = segments.as_slice()
        && last.len() < SEGMENT_LIMIT
    {
        let at = segments.len() - 1;
        return segments.item_mut(at).push(item);
    }
    let mut segment = Items::new(segments.allocator());
    segment.push(item)?;
    segments.push(segment)
}

impl<'a, T> IntoIterator for &'a SegmentedList<T> {
    type Item = &'a T;

    type IntoIter = SegmentedIter<'a, T>;

    ghost into_iter_gives = { λ list items. items ≡ list.now };

    fn into_iter(self) -> Self::IntoIter {
        self.iter()
    }
}

/// The items of a segmented list that are still to come.
pub struct SegmentedIter<'a, T> {
    segment: &'a [T],
    later: &'a [Items<T>],
}

impl<'a, T> Drop for SegmentedIter<'a, T> {
    fn drop(self) {
        let SegmentedIter {
            segment: _,
            later: _,
        } = self;
    }
}

impl<'a, T> Model for SegmentedIter<'a, T> {
    ghost use Rattle.std.specs.Prelude.{List, ◌++◌};
    ghost use Rattle.std.specs.Coded.{coded_list};
    ghost use Rattle.spl_value.specs.Flattened.{flattened};

    ghost Value = { List T };

    ghost coded = { coded_list T.code };

    ghost view = { λ it. it.segment.now ++ flattened it.later.now };
}

impl<'a, T> Iterator for SegmentedIter<'a, T> {
    type Item = &'a T;

    ghost next_gives = { YieldsFirstRef (λ items. items) };

    ghost remaining = { item_count (λ items. items) };

    fn next(&mut self) -> Option<&'a T> {
        'segments: loop {
            if let [item, others @ ..] = self.segment {
                self.segment = others;
                return Some(item);
            }
            let [segment, later @ ..] = self.later else {
                return None;
            };
            self.segment = segment.as_slice();
            self.later = later;
        }
    }
}

impl<T: PartialEq> PartialEq for SegmentedList<T> {
    ghost use Rattle.std.specs.Cmp.Lexicographic.{pointwise, lists_per};

    ghost eq = { pointwise T.eq };

    ghost laws = { lists_per T.laws };

    fn eq(&self, other: &SegmentedList<T>) -> bool {
        let (mut left, mut right) = (self.iter(), other.iter());
        'items: loop {
            match (left.next(), right.next()) {
                (Some(a), Some(b)) => {
                    if a != b {
                        return false;
                    }
                }
                (None, None) => return true,
                _ => return false,
            }
        }
    }
}

impl<T: Eq> Eq for SegmentedList<T> {
    ghost use Rattle.std.specs.Cmp.Lexicographic.{lists_equiv};

    ghost laws = { lists_equiv T.Eq.laws };
}

impl<T: PartialOrd> PartialOrd for SegmentedList<T> {
    ghost use Rattle.std.specs.Cmp.Lexicographic.{slice_partial_cmp, lists_po};

    ghost partial_cmp = { slice_partial_cmp T.partial_cmp };

    ghost laws = { lists_po T.PartialOrd.laws };

    fn partial_cmp(&self, other: &SegmentedList<T>) -> Option<Ordering> {
        let (mut left, mut right) = (self.iter(), other.iter());
        'items: loop {
            match (left.next(), right.next()) {
                (Some(a), Some(b)) => match a.partial_cmp(b) {
                    Some(Ordering::Equal) => {}
                    decided => return decided,
                },
                (None, None) => return Some(Ordering::Equal),
                (None, Some(_)) => return Some(Ordering::Less),
                (Some(_), None) => return Some(Ordering::Greater),
            }
        }
    }
}

impl<T: Ord> Ord for SegmentedList<T> {
    ghost use Rattle.std.specs.Cmp.Lexicographic.{slice_cmp, lists_total, lists_agrees, lists_ties};

    ghost cmp = { slice_cmp T.cmp };

    ghost total = { lists_total T.total };

    ghost matches_partial_cmp = { lists_agrees T.matches_partial_cmp };

    ghost matches_eq = { lists_ties T.cmp T.matches_eq };

    fn cmp(&self, other: &SegmentedList<T>) -> Ordering {
        let (mut left, mut right) = (self.iter(), other.iter());
        'items: loop {
            match (left.next(), right.next()) {
                (Some(a), Some(b)) => match a.cmp(b) {
                    Ordering::Equal => {}
                    decided => return decided,
                },
                (None, None) => return Ordering::Equal,
                (None, Some(_)) => return Ordering::Less,
                (Some(_), None) => return Ordering::Greater,
            }
        }
    }
}

impl<T: Hash> Hash for SegmentedList<T> {
    ghost use Rattle.std.specs.Hash as fed;
    ghost use Rattle.std.specs.Hash.{items_Alike};

    ghost hash_input = { fed.slice T.hash_input };

    ghost respects_eq = { (items_Alike (record { fed = T.respects_eq })).fed };

    fn hash<H: Hasher>(&self, state: &mut H) {
        self.len().hash(state);
        'items: for item in self.iter() {
            item.hash(state);
        }
    }
}
