//! What is kept for a key whose contents are folded.
ghost use Rattle.std.specs.Prelude.{◌≡◌, ◌∷◌, ◌++◌, ◌+◌, ◌-◌, ◌<◌, ◌≤◌, ◌-ℤ◌, [], ℕ, List, Some, None, IfOk, drop, false, int_lt, length, map, suc};
ghost use Rattle.std.specs.Option.{option_map_or};
ghost use Rattle.spl_value.specs.declared.value.Value.{Value as V};
ghost use Rattle.language_model.specs.declared.checked.Collector.{Collector as F};
ghost use Rattle.language_model.specs.declared.checked.WindowRule.TheVariants as W;
ghost use Rattle.running_folds.specs.Tallies.{made_from};
ghost use Rattle.window_policy.specs.Running.{IsSummable};
ghost use Rattle.window_policy.specs.Sums.{Holds, HoldsMoving, HoldsTallies};
ghost use Rattle.window_policy.specs.steps.Sums.{Adds};

use crate::count::is_turn;
use crate::delta::{exceeds, integer_at};
use crate::ring::append;
use crate::summed::Summed;
use circular_buffer::HeapCircularBuffer;
use language_model::WindowRule;
use running_folds::{
    Folds, Moving, Tally, add_all, leave_all, made_all, moving_of, pass_all, take_all, tallies_of,
};
use spl_value::{Items, NoMemory, Values};
use std::alloc::Global;
use std::mem;

/// What is kept for a key.
#[derive(Drop)]
pub struct Sums {
    /// Where the window tumbles, what is kept for each fold.
    pub tallies: Vec<Tally>,
    /// Where it slides, what is kept for each fold.
    pub moving: Vec<Moving>,
    /// Where it slides, the arguments of the tuples that it holds, the oldest first.
    pub rows: HeapCircularBuffer<Values>,
    /// How many tuples came since the window was flushed, or since its trigger fired.
    pub since: u64,
    /// Where the window tumbles by an attribute, that of the first tuple that it holds.
    pub start: Option<i128>,
    /// The last tuple that the window holds, where it may be flushed without the next one.
    pub last: Values,
}

impl Sums {
    /// What is kept for a key where contents leave as a whole, before a tuple came.
    fn tumbling(alloc: Global, folds: &Folds) -> Result<Sums, NoMemory>
        ensures tallies { IfOk result (λ sums. HoldsTallies folds.now sums []) }
        ensures since { IfOk result (λ sums. sums.since ≡ 0) }
        ensures start { IfOk result (λ sums. sums.start ≡ None) }
        ensures last { IfOk result (λ sums. sums.last ≡ []) }
    {
        let tallies = tallies_of(alloc, folds.as_slice())?;
        Ok(Sums {
            tallies,
            moving: Vec::new(alloc),
            rows: HeapCircularBuffer::with_capacity(alloc, 0)?,
            since: 0,
            start: None,
            last: Items::new(alloc),
        })
    }

    /// What is kept for a key where tuples leave one by one, before a tuple came.
    fn sliding(alloc: Global, folds: &Folds) -> Result<Sums, NoMemory>
        ensures moving { IfOk result (λ sums. HoldsMoving folds.now sums []) }
        ensures since { IfOk result (λ sums. sums.since ≡ 0) }
    {
        let moving = moving_of(alloc, folds.as_slice())?;
        Ok(Sums {
            tallies: Vec::new(alloc),
            moving,
            rows: HeapCircularBuffer::with_capacity(alloc, 0)?,
            since: 0,
            start: None,
            last: Items::new(alloc),
        })
    }

    /// What is kept for a key before a tuple came.
    pub fn new(alloc: Global, rule: WindowRule, folds: &Folds) -> Result<Sums, NoMemory>
        ensures { IfOk result (λ sums. IsSummable rule → Holds rule folds.now sums []) }
    {
        match rule {
            WindowRule::SlidingCount { .. } => {
                let sums = Sums::sliding(alloc, folds)?;
                Ok(sums)
            }
            _ => {
                let sums = Sums::tumbling(alloc, folds)?;
                Ok(sums)
            }
        }
    }

    /// Takes what is made of the content out, where contents leave as a whole.
    pub fn flush(&mut self, alloc: Global) -> Result<Summed, NoMemory>
        ensures answers { IfOk result (λ s. s.answers ≡ made_from self.old.tallies.items) }
        ensures last { IfOk result (λ s. s.last ≡ self.old.last) }
        ensures emptied { IfOk result (λ _. self.new.last ≡ []) }
        ensures tallies { IfOk result (λ _. (folds : List F) (us : List (List V)) → HoldsTallies folds self.old us → HoldsTallies folds self.new []) }
        ensures since { IfOk result (λ _. self.new.since ≡ self.old.since) }
        ensures start { IfOk result (λ _. self.new.start ≡ None) }
    {
        let answers = take_all(alloc, &mut self.tallies)?;
        let last = mem::replace(&mut self.last, Items::new(alloc));
        self.start = None;
        Ok(Summed { answers, last })
    }

    /// Takes one more tuple, where contents leave as a whole.
    fn keep(&mut self, tuple: Values, args: Values)
        ensures tallies { (folds : List F) (us : List (List V)) → HoldsTallies folds self.old us → length args ≡ length folds
            → HoldsTallies folds self.new (us ++ (tuple ++ args) ∷ []) }
        ensures since { self.new.since ≡ self.old.since }
        ensures start { self.new.start ≡ self.old.start }
        ensures last { self.new.last ≡ tuple }
    {
        self.last = tuple;
        add_all(&mut self.tallies, args);
    }
}

impl Sums {
    /// Takes one more tuple of a window of `count`, which the last of them flushes.
    fn fill(
        &mut self,
        alloc: Global,
        count: u64,
        tuple: Values,
        args: Values,
    ) -> Result<Option<Summed>, NoMemory>
        ensures { IfOk result (λ s. Adds (W.TumblingCount count) self.old self.new tuple args s) }
    {
        self.keep(tuple, args);
        if is_turn(&mut self.since, Some(count)) {
            let summed = self.flush(alloc)?;
            Ok(Some(summed))
        } else {
            Ok(None)
        }
    }

    /// Whether an integer exceeds the first tuple's attribute by more than the limit.
    fn is_exceeded(&self, limit: i128, new: i128) -> bool
        ensures { result ≡ option_map_or (λ start. int_lt limit (new -ℤ start)) self.now.start false }
    {
        match self.start {
            Some(start) => exceeds(limit, new, start),
            None => false,
        }
    }

    /// Notes the attribute of a tuple, where it is the first one.
    fn note_start(&mut self, new: i128)
        ensures start { self.new.start ≡ Some (option_map_or (λ start. start) self.old.start new) }
        ensures tallies { self.new.tallies ≡ self.old.tallies }
        ensures since { self.new.since ≡ self.old.since }
    {
        if self.start.is_none() {
            self.start = Some(new);
        }
    }

    /// Takes one more tuple of a window that is flushed before one that exceeds its first tuple by more than the limit.
    fn tumble(
        &mut self,
        alloc: Global,
        attr: u32,
        limit: i128,
        tuple: Values,
        args: Values,
    ) -> Result<Option<Summed>, NoMemory>
        ensures { IfOk result (λ s. Adds (W.TumblingDelta attr limit) self.old self.new tuple args s) }
    {
        let new = integer_at(attr, &tuple);
        if self.is_exceeded(limit, new) {
            let summed = self.flush(alloc)?;
            self.start = Some(new);
            self.keep(tuple, args);
            Ok(Some(summed))
        } else {
            self.note_start(new);
            self.keep(tuple, args);
            Ok(None)
        }
    }

    /// Lets the first tuple go, where there are `keep` of them.
    fn let_go(&mut self, keep: u64)
        ensures moving { (folds : List F) (us : List (List V)) → HoldsMoving folds self.old us → 0 < keep → length us ≤ keep
            → HoldsMoving folds self.new (drop (length us + 1 - keep) us) }
        ensures since { self.new.since ≡ self.old.since }
    {
        if self.rows.len() as u64 >= keep {
            if let Some(row) = self.rows.pop_front() {
                leave_all(&mut self.moving, &row);
            }
        }
    }

    /// Takes the arguments of one more tuple.
    fn take_in(&mut self, alloc: Global, keep: u64, args: Values) -> Result<(), NoMemory>
        ensures moving { IfOk result (λ _. (folds : List F) (us : List (List V)) (tuple : List V) → HoldsMoving folds self.old us → length us < keep → length args ≡ length folds
            → HoldsMoving folds self.new (us ++ (tuple ++ args) ∷ [])) }
        ensures since { IfOk result (λ _. self.new.since ≡ self.old.since) }
    {
        pass_all(alloc, &mut self.moving, &args)?;
        append(&mut self.rows, keep as usize, args)?;
        Ok(())
    }

    /// Takes the arguments of one more tuple, of which at most `keep` are kept.
    fn shift(&mut self, alloc: Global, keep: u64, args: Values) -> Result<(), NoMemory>
        ensures moving { IfOk result (λ _. (folds : List F) (us : List (List V)) (tuple : List V) → HoldsMoving folds self.old us → length us ≤ keep → length args ≡ length folds
            → HoldsMoving folds self.new (drop (length us + 1 - keep) (us ++ (tuple ++ args) ∷ []))) }
        ensures since { IfOk result (λ _. self.new.since ≡ self.old.since) }
    {
        if keep == 0 {
            return Ok(());
        }
        self.let_go(keep);
        self.take_in(alloc, keep, args)?;
        Ok(())
    }

    /// Takes one more tuple of a window that slides.
    fn slide(
        &mut self,
        alloc: Global,
        keep: u64,
        every: Option<u64>,
        tuple: Values,
        args: Values,
    ) -> Result<Option<Summed>, NoMemory>
        ensures { IfOk result (λ s. Adds (W.SlidingCount keep every) self.old self.new tuple args s) }
    {
        self.shift(alloc, keep, args)?;
        if is_turn(&mut self.since, every) {
            let rows = &self.rows;
            let answers = made_all(alloc, &self.moving, rows.front(), rows.back(), rows.len())?;
            Ok(Some(Summed {
                answers,
                last: tuple,
            }))
        } else {
            Ok(None)
        }
    }

    /// Takes one more tuple, with the values of its arguments. What is made of the content that fires, where one does.
    pub fn add(
        &mut self,
        alloc: Global,
        rule: WindowRule,
        tuple: Values,
        args: Values,
    ) -> Result<Option<Summed>, NoMemory>
        ensures { IfOk result (λ s. Adds rule self.old self.new tuple args s) }
    {
        match rule {
            WindowRule::TumblingCount(count) => {
                let summed = self.fill(alloc, count, tuple, args)?;
                Ok(summed)
            }
            WindowRule::TumblingDelta { attr, limit } => {
                let summed = self.tumble(alloc, attr, limit, tuple, args)?;
                Ok(summed)
            }
            WindowRule::TumblingPunct => {
                self.keep(tuple, args);
                Ok(None)
            }
            WindowRule::SlidingCount { keep, every } => {
                let summed = self.slide(alloc, keep, every, tuple, args)?;
                Ok(summed)
            }
            WindowRule::SlidingDelta { .. } => Ok(None),
        }
    }
}
