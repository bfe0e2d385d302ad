//! The calls of a link.
ghost use Rattle.std.specs.Prelude.{◌≡◌, ◌≤◌, ◌<◌, ◌+◌, ◌^◌, ◌∷◌, ◌++◌, [], length, IsNone, ◌↔◌, IfOk, IfErr, MatchOption, true, false, List, Bool};
ghost use Rattle.crossbeam_queue.specs.Passes.{view, IsSamePass, IsPassOf};
ghost use Rattle.crossbeam_queue.specs.Fifo.{Held, Learns};
ghost use Rattle.spl_value.specs.declared.packet.Packet.{Packet};
ghost use Rattle.spl_value.specs.Numbered.{is_last as is_last_lem};
ghost use Rattle.ordered_link.specs.Rule.{log, takes_more, Keeps, IsSentUpTo};
ghost use Rattle.ordered_link.specs.Ends.{capacity_of, wear_of, sent, taken, IsSenderOf, IsTakerOf, IsWornFor, handed_back, is_worn, is_full, ShowsWhatIsHeld, sent_in, taken_in};

use super::{Link, Put, SendPass, Settled, TakePass};
use crate::rule::{Asks, Bounds, Line, LinkPass, Looks, Roles, Sends, Total, Whole};
use spl_value::{NoMemory, Packet};
use std::alloc::Global;
use std::marker::Brand;
use std::sync::Wait;

// Splits the taker's pass from the sender's.
fn split<B: Bounds>(queue: &Line, whole: &mut LinkPass, capacity: u32, wear: u64) -> LinkPass
    requires queue { IsPassOf queue.now whole.old × (view whole.old ≡ log true true 0 0 [] []) }
    requires bounds { (capacity ≡ B.capacity) × (wear ≡ B.wear) }
    ensures queue { IsPassOf queue.now whole.new × IsPassOf queue.now result }
    ensures views { (view whole.new ≡ log true false capacity wear [] []) × (view result ≡ log false true capacity wear [] []) }
{
    let _ = (capacity, wear);
    queue.another::<Roles<B>>(whole)
}

/// A new link with its two ends. It holds at most `capacity` packets, and carries at most `wear`.
pub fn link(alloc: Global, capacity: u32, wear: u64) -> Result<(Link, SendPass, TakePass), NoMemory>
    requires capacity { 1 ≤ capacity }
    requires wear { (1 ≤ wear) × (wear ≤ 2 ^ 61) }
    ensures bounds { IfOk result (λ l. (capacity_of l.0 ≡ capacity) × (wear_of l.0 ≡ wear)) }
    ensures ends { IfOk result (λ l. IsSenderOf l.0 l.1 × IsTakerOf l.0 l.2) }
    ensures empty { IfOk result (λ l. (sent l.1 ≡ []) × (taken l.2 ≡ [])) }
{
    let (queue, mut first) = Line::ruled(alloc, capacity as usize)?;
    let second = split::<Brand>(&queue, &mut first, capacity, wear);
    let send = SendPass {
        pass: first,
        count: 0,
        capacity,
        wear,
    };
    let take = TakePass {
        pass: second,
        count: 0,
        capacity,
        wear,
    };
    let link = Link {
        queue,
        capacity,
        wear,
    };
    Ok((link, send, take))
}

// Whether nothing may follow the packet.
fn is_last(packet: &Packet) -> bool
    ensures { result ≡ is_last_lem packet.now }
{
    match packet {
        Packet::Item { .. } => false,
        Packet::Pulse(_) => false,
        Packet::Close => true,
        Packet::Cut => true,
    }
}

fn pop_seen<B: Asks, W: Wait>(queue: &Line, rt: &W, pass: &mut LinkPass) -> Option<Packet>
    requires queue { IsPassOf queue.now pass.old × ((view pass.old).takes ≡ true) }
    requires learns { Learns Keeps pass.old.id (view pass.old) (λ items. B.seen items ≡ true) }
    ensures queue { IsSamePass pass.old pass.new }
    ensures taken { MatchOption result (view pass.new ≡ view pass.old)
        (λ x. (view pass.new ≡ takes_more (view pass.old) x) × (length (takes_more (view pass.old) x).taken ≤ (view pass.old).wear)) }
    ensures empty { IsNone result → Held 0 (λ (items : List Packet). B.seen items ≡ true) }
{
    queue.pop_as::<Looks<B>, W>(rt, pass)
}

impl Link {
    /// Puts the packet at the back. `Full` comes only where at one step of this call the link held its
    /// capacity. `Worn` comes exactly where as many packets were sent as the link carries, or all
    /// but one and the packet is neither `Close` nor `Cut`.
    pub fn try_put<W: Wait>(&self, rt: &W, pass: &mut SendPass, packet: Packet) -> Result<(), Put>
        requires { IsSenderOf self.now pass.old }
        ensures ends { IsSenderOf self.now pass.new }
        ensures ok { IfOk result (λ _. sent pass.new ≡ sent pass.old ++ packet ∷ []) }
        ensures err { IfErr result (λ e. (handed_back e ≡ packet) × (sent pass.new ≡ sent pass.old)) }
        ensures worn { is_worn result ≡ true ↔ IsWornFor (wear_of self.now) (sent pass.old) packet }
        ensures full { is_full result ≡ true → Held (capacity_of self.now) (IsSentUpTo (sent pass.old)) }
    {
        if pass.count == pass.wear {
            return Err(Put::Worn(packet));
        }
        if pass.count + 1 == pass.wear && !is_last(&packet) {
            return Err(Put::Worn(packet));
        }
        match self.queue.push_as::<Sends, W>(rt, &mut pass.pass, packet) {
            Ok(()) => {
                pass.count += 1;
                Ok(())
            }
            Err(back) => Err(Put::Full(back)),
        }
    }

    /// Takes the packet at the front. None comes only where at one step of this call the link was empty:
    /// whatever test `seen` the rule of the link shows of all that it may hold passes at the empty list
    /// then. A caller that doesn't ask picks the test that always passes.
    pub fn try_take<W: Wait>(&self, rt: &W, pass: &mut TakePass) -> Option<Packet>
        ghost seen: { List Packet → Bool }
        requires ends { IsTakerOf self.now pass.old }
        requires learns { ShowsWhatIsHeld pass.old seen }
        ensures ends { IsTakerOf self.now pass.new }
        ensures taken { MatchOption result (taken pass.new ≡ taken pass.old) (λ x. taken pass.new ≡ taken pass.old ++ x ∷ []) }
        ensures empty { IsNone result → Held 0 (λ (items : List Packet). seen items ≡ true) }
    {
        let front = pop_seen::<Brand, W>(&self.queue, rt, &mut pass.pass)?;
        pass.count += 1;
        Some(front)
    }
}

/// Joins the two ends. What was sent is what was taken and then the rest, which the link held.
pub fn settle<W: Wait>(rt: &W, link: Link, send: SendPass, take: TakePass) -> Settled
    requires { IsSenderOf link send × IsTakerOf link take }
    ensures sent { sent_in result ≡ sent send }
    ensures taken { taken_in result ≡ taken take }
    ensures rest { (rest : List Packet) × (sent send ≡ taken take ++ rest) × (length rest ≤ capacity_of link) }
    ensures counts { (result.sent ≡ length (sent send)) × (result.taken ≡ length (taken take)) }
    ensures capacity { result.capacity ≡ capacity_of link }
{
    let _ = rt;
    let SendPass {
        mut pass,
        count,
        ..
    } = send;
    let TakePass {
        pass: other,
        count: taken,
        ..
    } = take;
    link.queue.absorb::<Whole>(&mut pass, other);
    link.queue.learn_as::<Total>(&mut pass);
    Settled {
        sent: count,
        taken,
        capacity: link.capacity,
        pass,
    }
}
