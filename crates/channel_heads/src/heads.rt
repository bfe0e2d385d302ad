ghost use Rattle.std.specs.Prelude.{◌≡◌, ◌≤◌, ◌<◌, ℕ, ◌↔◌, true, false, List, length, map, replicate, slice_get, slice_set, Option, None, Some, IsTrue, IfOk, MatchOption, MatchBool, ◌≢◌, ◌^◌};
ghost use Rattle.spl_value.specs.Numbered.{closes as closes_lem};
ghost use Rattle.channel_heads.specs.Held.{new_held, width_of, head_at, is_waiting, least_with as least_with_lem, least_of, wants as wants_lem, takes, gives_head};

use spl_value::{Item, NoMemory, Packet};
use std::alloc::Global;
use std::marker::Model;

/// The heads of a merger's channels, with each channel's bound, which is the number of its last item or pulse.
/// Once a final marker or a fault was given, or `Cut` was taken, there are no heads any more.
pub struct Heads {
    heads: Vec<Option<(u64, Item)>>,
    bounds: Vec<u64>,
    done: Vec<bool>,
    over: bool,
    cut: bool,
}

impl Drop for Heads {
    fn drop(self) {
        let Heads {
            heads: _,
            bounds: _,
            done: _,
            over: _,
            cut: _,
        } = self;
    }
}

impl Model for Heads {
    ghost use Rattle.std.specs.Prelude.{◌≡◌, vec_len};
    ghost use Rattle.std.specs.Coded.{codes};
    ghost use Rattle.spl_value.specs.contracts.item.Item as item_row;
    ghost use Rattle.channel_heads.specs.Held.{Held};

    ghost Value = { Held };

    ghost coded = { Prim.hlevel (codes, item_row.the_row.coded) };

    ghost view = { λ h. record { heads = h.heads.items; bounds = h.bounds.items; done = h.done.items; over = h.over; cut = h.cut } };

    ghost invariant = { λ h. (vec_len h.bounds ≡ vec_len h.heads) × (vec_len h.done ≡ vec_len h.heads) };
}

// `width` channels without a head.
fn no_heads(alloc: Global, width: usize) -> Result<Vec<Option<(u64, Item)>>, NoMemory>
    ensures { IfOk result (λ v. v.items ≡ replicate width None) }
{
    let mut heads = Vec::with_capacity(alloc, width)?;
    for _channel in 0..width {
        heads.push(None)?;
    }
    Ok(heads)
}

// Drops every head.
fn drop_heads(heads: &mut [Option<(u64, Item)>])
    ensures { heads.new ≡ map (λ _. None) heads.old }
{
    for head in heads.iter_mut() {
        *head = None;
    }
}

// Takes a channel's head out.
fn take_head(heads: &mut [Option<(u64, Item)>], channel: usize) -> Option<Item>
    requires { channel < length heads.old }
    ensures { MatchOption result ((slice_get heads.old channel ≡ Some None) × (heads.new ≡ heads.old))
        (λ x. (n : ℕ) × (slice_get heads.old channel ≡ Some (Some (n, x))) × (heads.new ≡ slice_set heads.old channel None)) }
{
    match heads[channel].take() {
        Some((_, item)) => Some(item),
        None => None,
    }
}

// The smaller of the least number so far and the head's.
fn least_with(least: Option<u64>, head: &Option<(u64, Item)>) -> Option<u64>
    ensures { result ≡ least_with_lem least head.now }
{
    match head {
        Some((number, _)) => match least {
            Some(m) => Some(m.min(*number)),
            None => Some(*number),
        },
        None => least,
    }
}

// Whether nothing follows the item in a stream.
fn closes(item: &Item) -> bool
    ensures { result ≡ closes_lem item.now }
{
    match item {
        Item::Tuple(_) => false,
        Item::Window => false,
        Item::Final => true,
        Item::Bad(_) => true,
    }
}

impl Heads {
    /// `width` channels that have taken nothing. Nothing after this call takes memory.
    pub fn new(alloc: Global, width: usize) -> Result<Heads, NoMemory>
        ensures new { IfOk result (λ h. h ≡ new_held width) }
        ensures width { IfOk result (λ h. width_of h ≡ width) }
    {
        let heads = no_heads(alloc, width)?;
        let bounds = vec![in alloc; 0; width]?;
        let done = vec![in alloc; false; width]?;
        Ok(Heads {
            heads,
            bounds,
            done,
            over: false,
            cut: false,
        })
    }

    /// Whether the channel has taken neither `Close` nor `Cut`, and holds no head.
    pub fn wants(&self, channel: usize) -> bool
        requires { channel < width_of self.now }
        ensures { result ≡ wants_lem self.now channel }
    {
        !self.done[channel] && self.heads[channel].is_none()
    }

    pub fn width(&self) -> usize
        ensures { result ≡ width_of self.now }
    {
        self.heads.len()
    }

    pub fn is_cut(&self) -> bool
        ensures { result ≡ self.now.cut }
    {
        self.cut
    }

    /// Takes the packet. An item becomes the channel's head.
    pub fn take(&mut self, channel: usize, packet: Packet)
        requires { channel < width_of self.old }
        ensures takes { self.new ≡ takes channel packet self.old }
        ensures width { width_of self.new ≡ width_of self.old }
    {
        match packet {
            Packet::Item { number, item } => {
                self.bounds[channel] = number;
                if !self.over && !self.cut {
                    self.heads[channel] = Some((number, item));
                }
            }
            Packet::Pulse(number) => self.bounds[channel] = number,
            Packet::Close => self.done[channel] = true,
            Packet::Cut => {
                self.done[channel] = true;
                drop_heads(self.heads.as_mut_slice());
                self.cut = self.cut || !self.over;
            }
        }
    }

    /// The channel's head, which is given then.
    pub fn give(&mut self, channel: usize) -> Option<Item>
        requires { channel < width_of self.old }
        ensures gives_head { MatchOption result ((head_at self.old channel ≡ None) × (self.new ≡ self.old))
            (λ x. (n : ℕ) × (head_at self.old channel ≡ Some (n, x)) × (self.new ≡ gives_head channel x self.old)) }
        ensures width { width_of self.new ≡ width_of self.old }
    {
        match take_head(self.heads.as_mut_slice(), channel) {
            Some(item) => {
                if closes(&item) {
                    self.over = true;
                    drop_heads(self.heads.as_mut_slice());
                }
                Some(item)
            }
            None => None,
        }
    }

    /// The channel whose head has this number.
    pub fn with_number(&self, number: u128) -> Option<usize>
        ensures { MatchOption result
            ((c n : ℕ) (x : Item) → head_at self.now c ≡ Some (n, x) → n ≢ number)
            (λ c. (c < width_of self.now) × (number < 2 ^ 64) × (x : Item) × (head_at self.now c ≡ Some (number, x))) }
    {
        for (channel, head) in self.heads.iter().enumerate() {
            if let Some((n, _)) = head {
                if u128::from(*n) == number {
                    return Some(channel);
                }
            }
        }
        None
    }

    /// The least number of the heads.
    pub fn least(&self) -> Option<u64>
        ensures { result ≡ least_of self.now.heads }
    {
        let mut least = None;
        for head in &self.heads {
            least = least_with(least, head);
        }
        least
    }

    /// Whether an item of a smaller number than this one may still come on a channel.
    pub fn is_awaited(&self, number: u64) -> bool
        ensures { MatchBool result ((d : ℕ) × (d < width_of self.now) × (is_waiting self.now number d ≡ true))
            ((d : ℕ) → d < width_of self.now → is_waiting self.now number d ≡ false) }
    {
        for channel in 0..self.heads.len() {
            if self.is_waiting(channel, number) {
                return true;
            }
        }
        false
    }

    // Whether the channel isn't closed, holds no head, and its bound is below the number.
    fn is_waiting(&self, channel: usize, number: u64) -> bool
        requires { channel < width_of self.now }
        ensures { result ≡ is_waiting self.now number channel }
    {
        self.wants(channel) && self.bounds[channel] < number
    }
}
