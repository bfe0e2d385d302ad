//! What events make of one element.
ghost use Rattle.std.specs.Prelude.{◌≡◌, ◌<◌, ◌∷◌, [], ℕ, List, MatchOption, true};
ghost use Rattle.stream_model.specs.declared.outgoing.Outgoing.{Outgoing as OutgoingSpec};
ghost use Rattle.stream_model.specs.Sending.{outgoing};
ghost use Rattle.network_model.specs.Receipts.{Popped, WasRead};
ghost use Rattle.network_model.specs.States.{put, puts};
ghost use Rattle.elements.specs.Standing.{MayRead, MayTake};
ghost use Rattle.enabled_events.specs.Moments.{Moment, moved};
ghost use Rattle.enabled_events.specs.Standing.{ElementsAt};
ghost use Rattle.net_core.specs.Stepping.{taking};

use elements::Element;
use spl_value::{Item, Items, Packet};
use stream_model::React;

/// An element reads an item. Without memory for it, `false`, and the element is cut.
pub(crate) fn read_at<R: React>(elements: &mut Items<Element<R>>, element: u32, item: Item) -> bool
    requires at { (m : Moment) × ElementsAt R.spec R.stands m elements.old × (element < m.net.size) × MayRead (m.net.part element) (m.state element) item }
    ensures { (m : Moment) → ElementsAt R.spec R.stands m elements.old → element < m.net.size → MayRead (m.net.part element) (m.state element) item
        → ElementsAt R.spec R.stands (moved m (put m.state element (taking result (m.net.part element) (m.state element) (WasRead item)))) elements.new }
{
    let reader = elements.item_mut(element as usize);
    match reader.read(item) {
        Ok(_) => true,
        Err(_) => {
            reader.cut();
            false
        }
    }
}

/// An element takes a packet from an input. Without memory for it, `false`, and the element is cut.
pub(crate) fn take_at<R: React>(
    elements: &mut Items<Element<R>>,
    element: u32,
    input: u32,
    packet: Packet,
) -> bool
    requires at { (m : Moment) × ElementsAt R.spec R.stands m elements.old × (element < m.net.size)
        × MayTake (m.schemas element) (m.net.part element) (m.state element) input packet }
    ensures { (m : Moment) → ElementsAt R.spec R.stands m elements.old → element < m.net.size
        → MayTake (m.schemas element) (m.net.part element) (m.state element) input packet
        → ElementsAt R.spec R.stands (moved m (put m.state element (taking result (m.net.part element) (m.state element) (Popped input packet)))) elements.new }
{
    let taker = elements.item_mut(element as usize);
    match taker.take(input, packet) {
        Ok(_) => true,
        Err(_) => {
            taker.cut();
            false
        }
    }
}

/// An element puts what it owes first.
pub(crate) fn put_at<R: React>(
    elements: &mut Items<Element<R>>,
    element: u32,
) -> Option<(u32, Packet)>
    requires at { (m : Moment) × ElementsAt R.spec R.stands m elements.old × (element < m.net.size) }
    ensures { (m : Moment) → ElementsAt R.spec R.stands m elements.old → element < m.net.size
        → MatchOption result ((m.state element).outbox ≡ [])
        (λ p. ((rest : List OutgoingSpec) × ((m.state element).outbox ≡ outgoing p.0 p.1 ∷ rest))
        × ElementsAt R.spec R.stands (moved m (put m.state element (puts (m.state element) (outgoing p.0 p.1)))) elements.new) }
{
    elements.item_mut(element as usize).put()
}
