//! How many connections take each stream.
ghost use Rattle.std.specs.Prelude.{◌≡◌, ◌<◌, ◌++◌, ℕ, List, IfOk, length, replicate};
ghost use Rattle.std.specs.List.{concat, Contains};
ghost use Rattle.stream_model.specs.CheckedMeaning.{graph_of};
ghost use Rattle.stream_model.specs.Meaning.{Graph};
ghost use Rattle.region_choice.specs.steps.Counting.{AreCounts, AreReadings};

use language_model::Checked;
use spl_value::{Ids, Items, NoMemory};
use std::alloc::Global;

/// `many` zeros.
fn zeros(alloc: Global, many: usize) -> Result<Items<u32>, NoMemory>
    ensures { IfOk result (λ counts. counts ≡ replicate many 0) }
{
    let mut counts = Items::with_capacity(alloc, many)?;
    'zeros: for _ in 0..many {
        counts.push(0)?;
    }
    Ok(counts)
}

/// Counts these streams too.
fn count(counts: &mut Items<u32>, streams: &[u32])
    requires within { (s : ℕ) → Contains streams.now s → s < length counts.old }
    ensures length { length counts.new ≡ length counts.old }
    ensures counts { (seen : List ℕ) → AreCounts seen counts.old → AreCounts (seen ++ streams.now) counts.new }
{
    for stream in streams {
        let at = *stream as usize;
        let more = counts.as_slice()[at].saturating_add(1);
        counts.set(at, more);
    }
}

/// Counts the streams of these ports too.
fn count_ports(counts: &mut Items<u32>, ins: &[Ids])
    requires within { (s : ℕ) → Contains (concat ins.now) s → s < length counts.old }
    ensures length { length counts.new ≡ length counts.old }
    ensures counts { (seen : List ℕ) → AreCounts seen counts.old → AreCounts (seen ++ concat ins.now) counts.new }
{
    for port in ins {
        count(counts, port.as_slice());
    }
}

/// How many connections take each stream, by its number, up to 2^32 - 1.
pub(crate) fn readings(alloc: Global, checked: &Checked) -> Result<Items<u32>, NoMemory>
    ensures counts { IfOk result (λ counts. (g : Graph) → graph_of checked.now ≡ g → AreReadings g counts) }
    ensures length { IfOk result (λ counts. length counts ≡ length checked.now.graph.streams) }
{
    let mut counts = zeros(alloc, checked.graph.streams.len())?;
    for op in checked.graph.ops.as_slice() {
        count_ports(&mut counts, op.ins.as_slice());
    }
    Ok(counts)
}
