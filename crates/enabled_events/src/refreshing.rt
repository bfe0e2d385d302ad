//! Marks of all that an element may do.
ghost use Rattle.std.specs.Prelude.{◌≡◌, ◌<◌, ◌+◌, ◌∷◌, [], ℕ, List, MatchOption, Some, length, slice_get};
ghost use Rattle.stream_model.specs.declared.outgoing.Outgoing.{Outgoing as OutgoingSpec};
ghost use Rattle.network_model.specs.Picking.{PopAt, PushAt};
ghost use Rattle.enabled_events.specs.Marks.{AreRighted, IsFront, IsRefreshed, IsRight};
ghost use Rattle.enabled_events.specs.Moments.{Moment};
ghost use Rattle.enabled_events.specs.Standing.{ElementsAt, PartsAt};

use crate::asking::front;
use crate::marking::{mark_pop, mark_push, mark_read};
use elements::Element;
use link_queues::LinkQueues;
use marked_places::MarkedPlaces;
use spl_value::Items;
use stream_model::React;

/// Marks pops from some links.
fn mark_pops<R: React>(
    elements: &Items<Element<R>>,
    links: &LinkQueues,
    marks: &mut MarkedPlaces,
    row: &[u32],
)
    requires at { (m : Moment) × PartsAt R.spec R.stands m elements.now links.now × (length marks.old ≡ m.net.size + m.net.links + m.net.links)
        × ((j l : ℕ) → slice_get row.now j ≡ Some l → l < m.net.links) }
    ensures righted { (m : Moment) → PartsAt R.spec R.stands m elements.now links.now → length marks.old ≡ m.net.size + m.net.links + m.net.links
        → ((j l : ℕ) → slice_get row.now j ≡ Some l → l < m.net.links) → AreRighted m.net m.state marks.old marks.new }
    ensures right { (m : Moment) → PartsAt R.spec R.stands m elements.now links.now → length marks.old ≡ m.net.size + m.net.links + m.net.links
        → ((j l : ℕ) → slice_get row.now j ≡ Some l → l < m.net.links) → (j l : ℕ) → slice_get row.now j ≡ Some l → IsRight m.net m.state marks.new (PopAt l) }
{
    'row: for link in row {
        mark_pop(elements, links, marks, *link);
    }
}

/// The output for which an element owes a packet first.
fn front_of<R: React>(elements: &Items<Element<R>>, element: u32) -> Option<u32>
    requires at { (m : Moment) × ElementsAt R.spec R.stands m elements.now × (element < m.net.size) }
    ensures { (m : Moment) → ElementsAt R.spec R.stands m elements.now → element < m.net.size
        → MatchOption result ((m.state element).outbox ≡ [])
        (λ o. (s : OutgoingSpec) × (rest : List OutgoingSpec) × ((m.state element).outbox ≡ s ∷ rest) × (s.output ≡ o)) }
{
    match elements.get(element as usize) {
        Some(sender) => front(sender),
        None => None,
    }
}

/// Marks the push on the link of an output.
fn mark_lead<R: React>(
    elements: &Items<Element<R>>,
    links: &LinkQueues,
    marks: &mut MarkedPlaces,
    element: u32,
    output: u32,
)
    requires at { (m : Moment) × PartsAt R.spec R.stands m elements.now links.now × (length marks.old ≡ m.net.size + m.net.links + m.net.links) × (element < m.net.size) }
    ensures righted { (m : Moment) → PartsAt R.spec R.stands m elements.now links.now → length marks.old ≡ m.net.size + m.net.links + m.net.links → element < m.net.size
        → AreRighted m.net m.state marks.old marks.new }
    ensures right { (m : Moment) → PartsAt R.spec R.stands m elements.now links.now → length marks.old ≡ m.net.size + m.net.links + m.net.links → element < m.net.size
        → (l : ℕ) → l < m.net.links → (m.net.link l).from ≡ element → (m.net.link l).output ≡ output → IsRight m.net m.state marks.new (PushAt l) }
{
    match links.leading(element, output) {
        None => {}
        Some(link) => mark_push(elements, links, marks, link),
    }
}

/// Marks the push of what an element owes first.
fn mark_front<R: React>(
    elements: &Items<Element<R>>,
    links: &LinkQueues,
    marks: &mut MarkedPlaces,
    element: u32,
)
    requires at { (m : Moment) × PartsAt R.spec R.stands m elements.now links.now × (length marks.old ≡ m.net.size + m.net.links + m.net.links) × (element < m.net.size) }
    ensures righted { (m : Moment) → PartsAt R.spec R.stands m elements.now links.now → length marks.old ≡ m.net.size + m.net.links + m.net.links → element < m.net.size
        → AreRighted m.net m.state marks.old marks.new }
    ensures right { (m : Moment) → PartsAt R.spec R.stands m elements.now links.now → length marks.old ≡ m.net.size + m.net.links + m.net.links → element < m.net.size
        → (l : ℕ) → l < m.net.links → (m.net.link l).from ≡ element → IsFront m.state element (m.net.link l).output → IsRight m.net m.state marks.new (PushAt l) }
{
    match front_of(elements, element) {
        None => {}
        Some(output) => mark_lead(elements, links, marks, element, output),
    }
}

/// Marks all that an element may do.
pub fn refresh<R: React>(
    elements: &Items<Element<R>>,
    links: &LinkQueues,
    marks: &mut MarkedPlaces,
    element: u32,
)
    requires at { (m : Moment) × PartsAt R.spec R.stands m elements.now links.now × (length marks.old ≡ m.net.size + m.net.links + m.net.links) × (element < m.net.size) }
    ensures { (m : Moment) → PartsAt R.spec R.stands m elements.now links.now → length marks.old ≡ m.net.size + m.net.links + m.net.links → element < m.net.size
        → IsRefreshed m.net m.state element marks.old marks.new }
{
    mark_read(elements, marks, element);
    mark_pops(elements, links, marks, links.entering(element));
    mark_front(elements, links, marks, element);
}
