//! The pairs of a map, by ascending key, in segments.
ghost use Rattle.std.specs.Prelude.{◌≡◌, ◌<◌, ◌≤◌, length, IsTrue, MatchOption, None, IfOk, OnOk, OnErr, not};
ghost use Rattle.std.specs.Option.{option_copied, option_copied_mut};
ghost use Rattle.spl_value.specs.Flattened.{flattened};
ghost use Rattle.spl_value.specs.Pairs.{are_pairs, pairs_get, pairs_contain, pairs_put, pairs_without};
ghost use Rattle.spl_value.specs.steps.Segments.{IsSegmentOf, IsInSegment};

use crate::segmented_list::SEGMENT_LIMIT;
use crate::{Items, NoMemory, SegmentedList, Value, order};
use std::alloc::AllocError;
use std::cmp::Ordering;

type Segment = Items<(Value, Value)>;

impl SegmentedList<(Value, Value)> {
    ghost use Rattle.std.specs.Borrow.{sem};
    ghost use Rattle.spl_value.specs.PairsLends.{LendsValue};

    /// The value at a key.
    pub fn find(&self, key: &Value) -> Option<&Value>
        requires { IsTrue (are_pairs self.now) }
        ensures { option_copied result ≡ pairs_get self.now key.now }
    {
        find_in(self.segments.as_slice(), key)
    }

    /// The value at a key, to be changed there.
    pub fn find_mut(&mut self, key: &Value) -> Option<&mut Value>
        requires { IsTrue (are_pairs self.old) }
        ensures* writes_back { sem 𝓛 (LendsValue self.entry key.now result) }
        ensures value { option_copied_mut result ≡ pairs_get self.old key.now }
    {
        match place_in(self.segments.as_slice(), key) {
            Some((at, place)) => {
                let segment = self.segments.item_mut(at);
                let pair = segment.item_mut(place);
                Some(&mut pair.1)
            }
            None => None,
        }
    }

    /// Whether some pair has the key.
    pub fn contains_key(&self, key: &Value) -> bool
        requires { IsTrue (are_pairs self.now) }
        ensures { result ≡ pairs_contain self.now key.now }
    {
        self.find(key).is_some()
    }

    /// Puts a value at a key: in place of the value that the key has, or else in a new pair.
    #[tactic(auto, using(crate::proofs::PairsLaws::pairs_laws))]
    pub fn put(&mut self, key: Value, value: Value) -> Result<(), NoMemory>
        requires { IsTrue (are_pairs self.old) }
        ensures ok { OnOk result (self.new ≡ pairs_put self.old key value) }
        ensures err { OnErr result (self.new ≡ self.old) }
        ensures sorted { IsTrue (are_pairs self.new) }
    {
        if self.len == usize::MAX {
            return Err(NoMemory);
        }
        if put_in(&mut self.segments, key, value)? {
            self.len += 1;
        }
        Ok(())
    }

    /// Takes the pair with the key out, and gives its value, where there is one.
    #[tactic(auto, using(crate::proofs::PairsLaws::pairs_laws))]
    pub fn remove_key(&mut self, key: &Value) -> Option<Value>
        requires { IsTrue (are_pairs self.old) }
        ensures value { result ≡ pairs_get self.old key.now }
        ensures others { self.new ≡ pairs_without self.old key.now }
        ensures sorted { IsTrue (are_pairs self.new) }
    {
        let value = remove_in(&mut self.segments, key);
        if value.is_some() {
            self.len -= 1;
        }
        value
    }
}

fn find_in<'a>(segments: &'a [Segment], key: &Value) -> Option<&'a Value>
    requires { IsTrue (are_pairs (flattened segments.now)) }
    ensures { option_copied result ≡ pairs_get (flattened segments.now) key.now }
{
    if segments.is_empty() {
        return None;
    }
    segments[segment_of(segments, key)].find(key)
}

// The segment in which the key stands, and the place there.
fn place_in(segments: &[Segment], key: &Value) -> Option<(usize, usize)>
    requires { IsTrue (are_pairs (flattened segments.now)) }
    ensures { MatchOption result (pairs_get (flattened segments.now) key.now ≡ None)
        (λ p. IsInSegment key.now segments.now p.0 p.1) }
{
    if segments.is_empty() {
        return None;
    }
    let at = segment_of(segments, key);
    match segments[at].place(key) {
        Ok(place) => Some((at, place)),
        Err(_) => None,
    }
}

// Puts a value at a key, and says whether that is one pair more.
fn put_in(segments: &mut Items<Segment>, key: Value, value: Value) -> Result<bool, NoMemory>
    requires { IsTrue (are_pairs (flattened segments.old)) }
    ensures ok { OnOk result (flattened segments.new ≡ pairs_put (flattened segments.old) key value) }
    ensures more { IfOk result (λ more. more ≡ not (pairs_contain (flattened segments.old) key)) }
    ensures err { OnErr result (flattened segments.new ≡ flattened segments.old) }
{
    let at = segment_with_room(segments, &key)?;
    let segment = segments.item_mut(at);
    let had = segment.len();
    segment.put(key, value)?;
    let has = segment.len();
    Ok(had != has)
}

fn remove_in(segments: &mut Items<Segment>, key: &Value) -> Option<Value>
    requires { IsTrue (are_pairs (flattened segments.old)) }
    ensures value { result ≡ pairs_get (flattened segments.old) key.now }
    ensures others { flattened segments.new ≡ pairs_without (flattened segments.old) key.now }
{
    if segments.is_empty() {
        return None;
    }
    let at = segment_of(segments.as_slice(), key);
    let value = segments.item_mut(at).remove_key(key);
    if segments.as_slice()[at].is_empty() {
        segments.remove(at);
    }
    value
}

// The segment of the key, with room for one pair more.
fn segment_with_room(segments: &mut Items<Segment>, key: &Value) -> Result<usize, NoMemory>
    requires { IsTrue (are_pairs (flattened segments.old)) }
    ensures same { flattened segments.new ≡ flattened segments.old }
    ensures at { IfOk result (IsSegmentOf key.now segments.new) }
{
    if segments.is_empty() {
        let alloc = segments.allocator();
        segments.push(Items::new(alloc))?;
    }
    let at = segment_of(segments.as_slice(), key);
    if segments.as_slice()[at].len() < SEGMENT_LIMIT {
        return Ok(at);
    }
    split_segment(segments, at)?;
    Ok(segment_of(segments.as_slice(), key))
}

// Splits a segment. Its back goes to an empty segment that is put behind it first, so that want of memory
// leaves all items where they are.
fn split_segment(segments: &mut Items<Segment>, at: usize) -> Result<(), AllocError>
    requires { at < length segments.old }
    ensures same { flattened segments.new ≡ flattened segments.old }
    ensures within { at < length segments.new }
{
    let alloc = segments.allocator();
    let count = segments.len();
    segments.insert(at + 1, Items::new(alloc))?;
    let segment = segments.item_mut(at);
    // The last one is left nearly full, since keys that rise are all put behind it.
    let kept = if at + 1 == count {
        segment.len() - segment.len() / 8
    } else {
        segment.len() / 2
    };
    let back = segment.split_off(kept)?;
    segments.set(at + 1, back);
    Ok(())
}

// The segment of the key, by binary search for the last one whose first key isn't above it.
fn segment_of(segments: &[Segment], key: &Value) -> usize
    requires sorted { IsTrue (are_pairs (flattened segments.now)) }
    requires some { 0 < length segments.now }
    ensures { IsSegmentOf key.now segments.now result }
{
    let mut low = 0;
    let mut high = segments.len();
    'halves: while high - low > 1 {
        let middle = low + (high - low) / 2;
        let Some(first) = segments[middle].as_slice().first() else {
            return segment_by_scan(segments, key);
        };
        if order(&first.0, key) == Ordering::Greater {
            high = middle;
        } else {
            low = middle;
        }
    }
    low
}

// The same by a walk from the end, for where an empty segment is among them: a put that found no memory
// leaves one.
fn segment_by_scan(segments: &[Segment], key: &Value) -> usize
    requires sorted { IsTrue (are_pairs (flattened segments.now)) }
    requires some { 0 < length segments.now }
    ensures { IsSegmentOf key.now segments.now result }
{
    let mut at = segments.len() - 1;
    'segments: while at > 0 {
        if let Some(first) = segments[at].as_slice().first() {
            if order(&first.0, key) != Ordering::Greater {
                return at;
            }
        }
        at -= 1;
    }
    at
}
