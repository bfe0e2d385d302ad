//! The window of one key.
ghost use Rattle.std.specs.Prelude.{◌≡◌, ◌∷◌, [], IfOk};
ghost use Rattle.stream_model.specs.Windows.{held, fires_after};
ghost use Rattle.window_policy.specs.Answers.{firing_of, IsAllowed};
ghost use Rattle.window_policy.specs.Parts.{Keeps};

use crate::count::{count_tuple, fill};
use crate::delta::{slide, tumble};
use crate::fired::Fired;
use crate::ring::{push, shift};
use circular_buffer::HeapCircularBuffer;
use language_model::WindowRule;
use spl_value::{NoMemory, Values};
use std::alloc::Global;

/// What is held for a key.
#[derive(Drop)]
pub struct Part {
    /// The tuples, the oldest first.
    pub kept: HeapCircularBuffer<Values>,
    /// How many tuples came since the trigger fired.
    pub since: u64,
    /// Whether the attribute of a sliding delta is known to rise.
    pub rises: bool,
}

impl Part {
    pub fn new(alloc: Global) -> Result<Part, NoMemory>
        ensures { IfOk result (λ part. (rule : _) → IsAllowed rule → Keeps rule part []) }
    {
        let kept = HeapCircularBuffer::with_capacity(alloc, 0)?;
        Ok(Part {
            kept,
            since: 0,
            rises: true,
        })
    }

    /// Takes one more tuple. Whether the window fires.
    pub fn add(&mut self, alloc: Global, rule: WindowRule, tuple: Values) -> Result<Fired, NoMemory>
        ensures { IfOk result (λ f. (ts : _) → Keeps rule self.old ts
            → Keeps rule self.new (tuple ∷ ts) × (firing_of f (held rule (tuple ∷ ts)) ≡ fires_after rule tuple ts)) }
    {
        match rule {
            WindowRule::TumblingCount(count) => {
                let fired = fill(alloc, &mut self.kept, count, tuple)?;
                Ok(fired)
            }
            WindowRule::TumblingDelta { attr, limit } => {
                let fired = tumble(alloc, &mut self.kept, attr, limit, tuple)?;
                Ok(fired)
            }
            WindowRule::TumblingPunct => {
                push(&mut self.kept, tuple)?;
                Ok(Fired::No)
            }
            WindowRule::SlidingCount { keep, every } => {
                shift(&mut self.kept, keep, tuple)?;
                Ok(count_tuple(&mut self.since, every))
            }
            WindowRule::SlidingDelta { attr, limit, every } => {
                slide(&mut self.kept, &mut self.rises, attr, limit, tuple)?;
                Ok(count_tuple(&mut self.since, every))
            }
        }
    }
}
