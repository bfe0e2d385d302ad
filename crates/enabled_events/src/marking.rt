//! Marks of the events that are enabled.
ghost use Rattle.std.specs.Prelude.{◌≡◌, ◌<◌, ◌+◌, ℕ, length};
ghost use Rattle.network_model.specs.Picking.{PopAt, PushAt, ReadAt, may_happen};
ghost use Rattle.enabled_events.specs.Marks.{AreRighted, IsRight};
ghost use Rattle.enabled_events.specs.Moments.{Moment};
ghost use Rattle.enabled_events.specs.Standing.{ElementsAt, PartsAt};

use crate::asking::{pops, pushes, reads};
use elements::Element;
use link_queues::LinkQueues;
use marked_places::MarkedPlaces;
use spl_value::Items;
use stream_model::React;

/// Whether an element reads its source.
fn may_read<R: React>(elements: &Items<Element<R>>, element: u32) -> bool
    requires at { (m : Moment) × ElementsAt R.spec R.stands m elements.now × (element < m.net.size) }
    ensures { (m : Moment) → ElementsAt R.spec R.stands m elements.now → element < m.net.size
        → result ≡ may_happen m.net m.state (ReadAt element) }
{
    match elements.get(element as usize) {
        Some(reader) => reads(reader),
        None => false,
    }
}

/// Whether a packet is popped from a link.
fn may_pop<R: React>(elements: &Items<Element<R>>, links: &LinkQueues, link: u32) -> bool
    requires at { (m : Moment) × PartsAt R.spec R.stands m elements.now links.now × (link < m.net.links) }
    ensures { (m : Moment) → PartsAt R.spec R.stands m elements.now links.now → link < m.net.links
        → result ≡ may_happen m.net m.state (PopAt link) }
{
    if !links.waits(link) {
        return false;
    }
    let at = links.ends(link);
    match elements.get(at.to as usize) {
        Some(taker) => pops(taker, at.input),
        None => false,
    }
}

/// Whether a packet is pushed on a link.
fn may_push<R: React>(elements: &Items<Element<R>>, links: &LinkQueues, link: u32) -> bool
    requires at { (m : Moment) × PartsAt R.spec R.stands m elements.now links.now × (link < m.net.links) }
    ensures { (m : Moment) → PartsAt R.spec R.stands m elements.now links.now → link < m.net.links
        → result ≡ may_happen m.net m.state (PushAt link) }
{
    if !links.has_room(link) {
        return false;
    }
    let at = links.ends(link);
    match elements.get(at.from as usize) {
        Some(sender) => pushes(sender, at.output),
        None => false,
    }
}

/// Marks a read, or takes its mark away.
pub fn mark_read<R: React>(elements: &Items<Element<R>>, marks: &mut MarkedPlaces, element: u32)
    requires at { (m : Moment) × ElementsAt R.spec R.stands m elements.now × (element < m.net.size)
        × (length marks.old ≡ m.net.size + m.net.links + m.net.links) }
    ensures righted { (m : Moment) → ElementsAt R.spec R.stands m elements.now → element < m.net.size
        → length marks.old ≡ m.net.size + m.net.links + m.net.links → AreRighted m.net m.state marks.old marks.new }
    ensures right { (m : Moment) → ElementsAt R.spec R.stands m elements.now → element < m.net.size
        → length marks.old ≡ m.net.size + m.net.links + m.net.links → IsRight m.net m.state marks.new (ReadAt element) }
{
    let enabled = may_read(elements, element);
    marks.set(element, enabled);
}

/// Marks a pop, or takes its mark away.
pub fn mark_pop<R: React>(
    elements: &Items<Element<R>>,
    links: &LinkQueues,
    marks: &mut MarkedPlaces,
    link: u32,
)
    requires at { (m : Moment) × PartsAt R.spec R.stands m elements.now links.now × (link < m.net.links)
        × (length marks.old ≡ m.net.size + m.net.links + m.net.links) }
    ensures righted { (m : Moment) → PartsAt R.spec R.stands m elements.now links.now → link < m.net.links
        → length marks.old ≡ m.net.size + m.net.links + m.net.links → AreRighted m.net m.state marks.old marks.new }
    ensures right { (m : Moment) → PartsAt R.spec R.stands m elements.now links.now → link < m.net.links
        → length marks.old ≡ m.net.size + m.net.links + m.net.links → IsRight m.net m.state marks.new (PopAt link) }
{
    let enabled = may_pop(elements, links, link);
    let place = elements.len() as u32 + link;
    marks.set(place, enabled);
}

/// Marks a push, or takes its mark away.
pub fn mark_push<R: React>(
    elements: &Items<Element<R>>,
    links: &LinkQueues,
    marks: &mut MarkedPlaces,
    link: u32,
)
    requires at { (m : Moment) × PartsAt R.spec R.stands m elements.now links.now × (link < m.net.links)
        × (length marks.old ≡ m.net.size + m.net.links + m.net.links) }
    ensures righted { (m : Moment) → PartsAt R.spec R.stands m elements.now links.now → link < m.net.links
        → length marks.old ≡ m.net.size + m.net.links + m.net.links → AreRighted m.net m.state marks.old marks.new }
    ensures right { (m : Moment) → PartsAt R.spec R.stands m elements.now links.now → link < m.net.links
        → length marks.old ≡ m.net.size + m.net.links + m.net.links → IsRight m.net m.state marks.new (PushAt link) }
{
    let enabled = may_push(elements, links, link);
    let place = elements.len() as u32 + links.len() + link;
    marks.set(place, enabled);
}
