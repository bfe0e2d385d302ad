//! What comes into a window, and what it holds.
ghost use Rattle.std.specs.Prelude.{◌≡◌, ◌∷◌, [], IfOk, IfSome, IfNone, true, false};
ghost use Rattle.stream_model.specs.Windows.{Insert, held, fires_after, content as content_of, has_come, flushes_at_markers};
ghost use Rattle.stream_model.specs.parts.Windows.{tuple_fires};
ghost use Rattle.indexmap.specs.IndexSet.{contains};
ghost use Rattle.window_policy.specs.Answers.{firing_of, IsAllowed};
ghost use Rattle.window_policy.specs.Standing.{Stands};
ghost use Rattle.key_maps.specs.MapKeys.{equal_key};
ghost use Rattle.window_policy.specs.Parts.{Keeps, noted_or};
ghost use Rattle.window_policy.specs.steps.Parts.{Notes};

use crate::content::Content;
use crate::fired::Fired;
use crate::part::Part;
use crate::window::Window;
use indexmap::{IndexMap, IndexSet};
use language_model::{Policy, WindowRule};
use spl_value::{NoMemory, Values, copy_values};
use std::alloc::Global;

/// What is held for a key of which nothing is held yet, with its first tuple. Whether the window fires.
fn first(alloc: Global, rule: WindowRule, tuple: Values) -> Result<(Part, Fired), NoMemory>
    ensures { IfOk result (λ r. IsAllowed rule → Keeps rule r.0 (tuple ∷ []) × (firing_of r.1 (held rule (tuple ∷ [])) ≡ fires_after rule tuple [])) }
{
    let mut part = Part::new(alloc)?;
    let fired = part.add(alloc, rule, tuple)?;
    Ok((part, fired))
}

/// Notes a key, where window markers flush.
fn note(
    alloc: Global,
    known: &mut IndexSet<Values>,
    rule: WindowRule,
    key: &Values,
) -> Result<(), NoMemory>
    ensures { IfOk result (λ _. Notes (flushes_at_markers rule) known.old known.new key.now) }
{
    match rule {
        WindowRule::TumblingPunct => {
            if known.contains(key) {
                return Ok(());
            }
            let copy = copy_values(alloc, key.as_slice())?;
            known.insert(copy)?;
            Ok(())
        }
        _ => Ok(()),
    }
}

/// Notes a key of which nothing is held yet, and gives what is held with its first tuple. Whether the
/// window fires.
fn begin(
    alloc: Global,
    known: &mut IndexSet<Values>,
    rule: WindowRule,
    key: &Values,
    tuple: Values,
) -> Result<(Part, Fired), NoMemory>
    ensures kept { IfOk result (λ r. IsAllowed rule → Keeps rule r.0 (tuple ∷ []) × (firing_of r.1 (held rule (tuple ∷ [])) ≡ fires_after rule tuple [])) }
    ensures noted { IfOk result (λ _. Notes (flushes_at_markers rule) known.old known.new key.now) }
{
    note(alloc, known, rule, key)?;
    let begun = first(alloc, rule, tuple)?;
    Ok(begun)
}

impl Window {
    /// A window of a policy, before anything came.
    pub fn new(alloc: Global, policy: &Policy) -> Result<Window, NoMemory>
        requires { IsAllowed policy.now.rule }
        ensures { IfOk result (λ w. Stands policy.now.rule w []) }
    {
        Ok(Window {
            alloc,
            policy: *policy,
            parts: IndexMap::new(alloc),
            known: IndexSet::new(alloc),
            place: 0,
        })
    }

    /// Inserts a tuple under its key, which is empty where the window isn't partitioned. After a lack of memory
    /// nothing is said of the window.
    pub fn insert(&mut self, key: &Values, tuple: Values) -> Result<Fired, NoMemory>
        ensures fires { IfOk result (λ f. (rule h : _) → Stands rule self.old h
            → firing_of f (content_of rule key.now (Insert key.now tuple ∷ h)) ≡ tuple_fires rule key.now tuple h) }
        ensures stands { IfOk result (λ _. (rule h : _) → Stands rule self.old h → Stands rule self.new (Insert key.now tuple ∷ h)) }
    {
        if let Some(place) = self.parts.get_index_of(key) {
            self.place = place;
            let (_, part) = self.parts.pair_mut(place);
            let fired = part.add(self.alloc, self.policy.rule, tuple)?;
            return Ok(fired);
        }
        let rule = self.policy.rule;
        let (part, fired) = begin(self.alloc, &mut self.known, rule, key, tuple)?;
        let own = copy_values(self.alloc, key.as_slice())?;
        self.place = self.parts.len();
        self.parts.insert(own, part)?;
        Ok(fired)
    }

    /// What the window holds for the key of the newest tuple, where no marker came after it. The key isn't
    /// looked up again.
    pub fn newest_content(&self) -> Content<'_>
        ensures { (rule key tuple h : _) → Stands rule self.now (Insert key tuple ∷ h) → result ≡ content_of rule key (Insert key tuple ∷ h) }
    {
        match self.parts.get_index(self.place) {
            Some((_, part)) => Content::of(&part.kept),
            None => Content::empty(),
        }
    }

    /// Whether a key of which nothing is held came before.
    fn is_noted(&self, key: &Values) -> bool
        ensures { result ≡ noted_or (flushes_at_markers self.now.policy.rule) (contains equal_key self.now.known key.now) false }
    {
        match self.policy.rule {
            WindowRule::TumblingPunct => self.known.contains(key),
            _ => false,
        }
    }

    /// What the window holds for a key. None where no tuple of the key was inserted.
    pub fn content(&self, key: &Values) -> Option<Content<'_>>
        ensures none { IfNone result ((rule h : _) → Stands rule self.now h → has_come key.now h ≡ false) }
        ensures shown { IfSome result (λ c. (rule h : _) → Stands rule self.now h → (has_come key.now h ≡ true) × (c ≡ content_of rule key.now h)) }
    {
        match self.parts.get(key) {
            Some(part) => Some(Content::of(&part.kept)),
            None => {
                if self.is_noted(key) {
                    Some(Content::empty())
                } else {
                    None
                }
            }
        }
    }
}
