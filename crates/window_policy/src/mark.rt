//! What a window marker does.
ghost use Rattle.std.specs.Prelude.{◌≡◌, ◌∷◌, IfOk, map};
ghost use Rattle.stream_model.specs.Windows.{Mark, flushed_after};
ghost use Rattle.window_policy.specs.Answers.{entry_of};
ghost use Rattle.window_policy.specs.Standing.{Stands};
ghost use Rattle.window_policy.specs.steps.Parts.{taken};

use crate::fired::{Flushed, FlushedContent};
use crate::part::Part;
use crate::ring::take_all;
use crate::window::Window;
use indexmap::IndexMap;
use key_maps::ascending;
use language_model::WindowRule;
use spl_value::{Items, NoMemory, Values};
use std::alloc::Global;
use std::mem;

/// What is held for a key, which leaves the window.
fn flushed_content(alloc: Global, key: Values, part: Part) -> Result<FlushedContent, NoMemory>
    ensures { IfOk result (λ f. entry_of f ≡ taken (key, part)) }
{
    let mut kept = part.kept;
    let tuples = take_all(alloc, &mut kept)?;
    Ok(FlushedContent { key, tuples })
}

/// What is held for each of the keys.
fn contents(alloc: Global, pairs: Vec<(Values, Part)>) -> Result<Flushed, NoMemory>
    ensures { IfOk result (λ f. map entry_of f ≡ map taken pairs.items) }
{
    let mut flushed = Items::new(alloc);
    for (key, part) in pairs {
        let content = flushed_content(alloc, key, part)?;
        flushed.push(content)?;
    }
    Ok(flushed)
}

impl Window {
    /// Takes a window marker. Where markers flush, each content that isn't empty leaves the window, and they
    /// are the answer, by ascending key. After a lack of memory nothing is said of the window.
    pub fn mark(&mut self) -> Result<Flushed, NoMemory>
        ensures flushed { IfOk result (λ f. (rule h : _) → Stands rule self.old h → map entry_of f ≡ flushed_after rule h) }
        ensures stands { IfOk result (λ _. (rule h : _) → Stands rule self.old h → Stands rule self.new (Mark ∷ h)) }
    {
        match self.policy.rule {
            WindowRule::TumblingPunct => {
                let parts = mem::replace(&mut self.parts, IndexMap::new(self.alloc));
                let pairs = ascending(self.alloc, parts)?;
                let flushed = contents(self.alloc, pairs)?;
                Ok(flushed)
            }
            _ => Ok(Items::new(self.alloc)),
        }
    }
}
