//! Lists of counts, and the entry in which a unit falls.
ghost use Rattle.std.specs.Prelude.{◌≡◌, ◌+◌, ◌-◌, ◌<◌, ◌^◌, ℕ, true, length, take, slice_get, slice_set, Some};
ghost use Rattle.marked_places.specs.Counts.{one, ones, total};

use spl_value::Items;

/// An entry of a list of counts, and a unit of it.
#[derive(Clone, Copy)]
pub(crate) struct Unit {
    pub(crate) at: usize,
    pub(crate) within: u32,
}

/// The entry in which the unit `k` of those from an entry on falls, units being numbered through the list.
#[tactic(auto, using(crate::proofs::Totals::finding))]
pub(crate) fn find(counts: &Items<u32>, from: usize, k: u32) -> Unit
    requires there { total (take from counts.now) + k < total counts.now }
    ensures unit { total (take result.at counts.now) + result.within ≡ total (take from counts.now) + k }
    ensures entry { total (take from counts.now) + k < total (take (result.at + 1) counts.now) }
{
    let entries = counts.as_slice();
    let mut within = k;
    'entries: for at in from..entries.len() {
        let count = entries[at];
        if within < count {
            return Unit { at, within };
        }
        within -= count;
    }
    unreachable!()
}

/// Counts one more in an entry.
pub(crate) fn raise(counts: &mut Items<u32>, at: usize)
    requires within { at < length counts.old }
    requires room { (n : ℕ) → slice_get counts.old at ≡ Some n → n + 1 < 2 ^ 32 }
    ensures { (n : ℕ) → slice_get counts.old at ≡ Some n → counts.new ≡ slice_set counts.old at (n + 1) }
{
    let entry = counts.as_slice()[at];
    counts.set(at, entry + 1);
}

/// Counts one less in an entry.
pub(crate) fn lower(counts: &mut Items<u32>, at: usize)
    requires within { at < length counts.old }
    requires some { (n : ℕ) → slice_get counts.old at ≡ Some n → 0 < n }
    ensures { (n : ℕ) → slice_get counts.old at ≡ Some n → counts.new ≡ slice_set counts.old at (n - 1) }
{
    let entry = counts.as_slice()[at];
    counts.set(at, entry - 1);
}

/// 1 for a mark.
#[inline(always)]
fn count_of(mark: bool) -> u32
    ensures { result ≡ one mark }
{
    if mark { 1 } else { 0 }
}

/// The place of the mark `k` of those from a place on.
#[tactic(auto, using(crate::proofs::Marking::finding_marks))]
pub(crate) fn find_mark(marks: &Items<bool>, from: usize, k: u32) -> usize
    requires there { total (take from (ones marks.now)) + k < total (ones marks.now) }
    ensures mark { total (take result (ones marks.now)) ≡ total (take from (ones marks.now)) + k }
    ensures marked { slice_get marks.now result ≡ Some true }
{
    let places = marks.as_slice();
    let mut before = k;
    'places: for at in from..places.len() {
        let here = count_of(places[at]);
        if before < here {
            return at;
        }
        before -= here;
    }
    unreachable!()
}
