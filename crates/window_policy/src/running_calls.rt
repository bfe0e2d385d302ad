//! What comes into a running window.
ghost use Rattle.std.specs.Prelude.{◌≡◌, ◌∷◌, ◌++◌, [], IfOk, length, map};
ghost use Rattle.std.specs.Option.{option_to_list};
ghost use Rattle.stream_model.specs.Windows.{Insert, Mark, contents_of, flushed_after};
ghost use Rattle.stream_model.specs.parts.Windows.{tuple_fires};
ghost use Rattle.window_policy.specs.Running.{HasAttribute, IsSummable, content_summed, content_summed_of, summed, summed_of};
ghost use Rattle.window_policy.specs.RunningStanding.{Runs};
ghost use Rattle.window_policy.specs.Sums.{Holds};
ghost use Rattle.window_policy.specs.steps.Sums.{Adds, taken_sums, Begins};

use crate::running::Running;
use crate::summed::{Summed, SummedContent, SummedList};
use crate::sums::Sums;
use indexmap::IndexMap;
use key_maps::ascending;
use language_model::{Policy, WindowRule};
use running_folds::Folds;
use spl_value::{Items, NoMemory, Values, copy_values};
use std::alloc::Global;
use std::mem;

/// What is kept for a key of which nothing is kept yet, with its first tuple, and what is made of the content that fires,
/// where one does.
fn begin(
    alloc: Global,
    rule: WindowRule,
    folds: &Folds,
    tuple: Values,
    args: Values,
) -> Result<(Sums, Option<Summed>), NoMemory>
    ensures { IfOk result (λ r. Begins rule folds.now r.0 tuple args r.1) }
{
    let mut sums = Sums::new(alloc, rule, folds)?;
    let summed = sums.add(alloc, rule, tuple, args)?;
    Ok((sums, summed))
}

/// What is made of the content of a key, which leaves the window.
fn summed_content(alloc: Global, key: Values, sums: Sums) -> Result<SummedContent, NoMemory>
    ensures { IfOk result (λ s. content_summed_of s ≡ taken_sums (key, sums)) }
{
    let mut sums = sums;
    let summed = sums.flush(alloc)?;
    Ok(SummedContent { key, summed })
}

/// What is made of the content of each of the keys.
fn summed_contents(alloc: Global, pairs: Vec<(Values, Sums)>) -> Result<SummedList, NoMemory>
    ensures { IfOk result (λ list. map content_summed_of list ≡ map taken_sums pairs.items) }
{
    let mut list = Items::new(alloc);
    for (key, sums) in pairs {
        let content = summed_content(alloc, key, sums)?;
        list.push(content)?;
    }
    Ok(list)
}

impl Running {
    /// A running window of a policy, of whose contents the folds are taken, before anything came.
    pub fn new(alloc: Global, policy: &Policy, folds: &Folds) -> Result<Running, NoMemory>
        requires { IsSummable policy.now.rule }
        ensures { IfOk result (λ running. Runs policy.now.rule folds.now running []) }
    {
        Ok(Running {
            alloc,
            rule: policy.rule,
            folds: Items::from_slice(alloc, folds.as_slice())?,
            parts: IndexMap::new(alloc),
        })
    }

    /// Inserts a tuple under its key, which is empty where the window isn't partitioned, with the value of each fold's
    /// argument. Where the window fires, what is made of the content that fires is the answer. After a lack of memory
    /// nothing is said of the window.
    pub fn insert(
        &mut self,
        key: &Values,
        tuple: Values,
        args: Values,
    ) -> Result<Option<Summed>, NoMemory>
        ensures summed { IfOk result (λ s. (rule folds h : _) → Runs rule folds self.old h → length args ≡ length folds → HasAttribute rule tuple
            → map summed_of (option_to_list s) ≡ map (summed folds) (contents_of (tuple_fires rule key.now (tuple ++ args) h))) }
        ensures runs { IfOk result (λ _. (rule folds h : _) → Runs rule folds self.old h → length args ≡ length folds → HasAttribute rule tuple
            → Runs rule folds self.new (Insert key.now (tuple ++ args) ∷ h)) }
    {
        if let Some(place) = self.parts.get_index_of(key) {
            let (_, sums) = self.parts.pair_mut(place);
            let summed = sums.add(self.alloc, self.rule, tuple, args)?;
            return Ok(summed);
        }
        let (sums, summed) = begin(self.alloc, self.rule, &self.folds, tuple, args)?;
        let own = copy_values(self.alloc, key.as_slice())?;
        self.parts.insert(own, sums)?;
        Ok(summed)
    }

    /// Takes a window marker. Where markers flush, each content that isn't empty leaves the window, and what is made of
    /// them is the answer, by ascending key. After a lack of memory nothing is said of the window.
    pub fn mark(&mut self) -> Result<SummedList, NoMemory>
        ensures summed { IfOk result (λ list. (rule folds h : _) → Runs rule folds self.old h
            → map content_summed_of list ≡ map (content_summed folds) (flushed_after rule h)) }
        ensures runs { IfOk result (λ _. (rule folds h : _) → Runs rule folds self.old h → Runs rule folds self.new (Mark ∷ h)) }
    {
        match self.rule {
            WindowRule::TumblingPunct => {
                let parts = mem::replace(&mut self.parts, IndexMap::new(self.alloc));
                let pairs = ascending(self.alloc, parts)?;
                let list = summed_contents(self.alloc, pairs)?;
                Ok(list)
            }
            _ => Ok(Items::new(self.alloc)),
        }
    }
}
