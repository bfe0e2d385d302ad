//! Calls of a merger, and what it answers, as words.
//!
//! `0:3a` is the item 3 with the letter `a` on channel 0. A final marker is `.`, a fault `!` and a window marker
//! `w` in place of the letter. `0:p3` is a pulse, `0:close` and `0:cut` end a channel. `?` asks for an item, which is
//! told by its letter, and `-` tells that there was none. `0?` tells by `+` and `-` whether the channel wants a
//! packet. `cut?` tells whether the merger was cut.
ghost use Rattle.std.specs.Prelude.{◌≡◌, ◌<◌, ◌≤◌, ℕ, Bool, true, IfOk};

use spl_value::{Fault, FaultKind, Item, Items, NoMemory, Packet, Value};
use std::alloc::{AllocError, Global};
use test_texts::text::Text;
use test_texts::words::number;

/// A merger of any kind.
pub(crate) trait Merges: Drop {
    ghost width: { Self → ℕ };

    ghost is_wanting: { Self → ℕ → Bool };

    fn does_want(&self, channel: u32) -> bool
        requires { channel < width self.now }
        ensures { result ≡ is_wanting self.now channel };

    fn take_in(&mut self, channel: u32, packet: Packet)
        requires within { channel < width self.old }
        requires wants { is_wanting self.old channel ≡ true }
        ensures { width self.new ≡ width self.old };

    fn give(&mut self) -> Option<Item>
        ensures { width self.new ≡ width self.old };

    fn was_cut(&self) -> bool;
}

fn item_of(alloc: Global, letter: &str) -> Result<Item, AllocError> {
    match letter {
        "w" => Ok(Item::Window),
        "." => Ok(Item::Final),
        "!" => Ok(Item::Bad(Fault {
            op: 0,
            kind: FaultKind::DivZero,
            line: 0,
        })),
        _ => {
            let text = Value::Text(Items::from_slice(alloc, letter.as_bytes())?);
            Ok(Item::Tuple(Items::from_vec(vec![in alloc; text]?)))
        }
    }
}

// The number and the letter of a word.
fn number_and_letter(word: &str) -> Option<(u32, &'static str)> {
    for letter in ["a", "b", "c", "d", "e", "f", "w", ".", "!"] {
        if let Some(digits) = word.strip_suffix(letter) {
            return Some((number(digits), letter));
        }
    }
    None
}

// The packet of a word after its channel.
fn packet_of(alloc: Global, word: &str) -> Result<Packet, AllocError> {
    if word == "close" {
        return Ok(Packet::Close);
    }
    if let Some(digits) = word.strip_prefix("p") {
        return Ok(Packet::Pulse(u64::from(number(digits))));
    }
    let Some((number, letter)) = number_and_letter(word) else {
        return Ok(Packet::Cut);
    };
    let number = u64::from(number);
    let item = item_of(alloc, letter)?;
    Ok(Packet::Item { number, item })
}

// The letter of an item.
fn add_letter(shown: &mut Text, item: &Item) {
    match item {
        Item::Window => shown.add("w"),
        Item::Final => shown.add("."),
        Item::Bad(_) => shown.add("!"),
        Item::Tuple(values) => match values.get(0) {
            Some(Value::Text(text)) => shown.add_bytes(text.as_slice()),
            _ => shown.add("?"),
        },
    }
}

fn add_given<M: Merges>(merger: &mut M, shown: &mut Text)
    ensures { M.width merger.new ≡ M.width merger.old }
{
    match merger.give() {
        Some(item) => add_letter(shown, &item),
        None => shown.add("-"),
    }
}

// Whether a channel is one of these and wants a packet.
fn is_wanting<M: Merges>(merger: &M, width: u32, channel: u32) -> bool
    requires { M.width merger.now ≡ width }
    ensures within { result ≡ true → channel < width }
    ensures wants { result ≡ true → M.is_wanting merger.now channel ≡ true }
{
    channel < width && merger.does_want(channel)
}

// A packet on a channel that wants one; on another one it is told.
fn add_packet<M: Merges>(alloc: Global, merger: &mut M, width: u32, word: &str, shown: &mut Text)
    requires { M.width merger.old ≡ width }
    ensures { M.width merger.new ≡ width }
{
    let Some((channel, rest)) = word.split_once(':') else {
        return shown.add("bad word");
    };
    let channel = number(channel);
    if !is_wanting(merger, width, channel) {
        return shown.add("unwanted");
    }
    match packet_of(alloc, rest) {
        Ok(packet) => merger.take_in(channel, packet),
        Err(_) => shown.add("no memory"),
    }
}

fn add_truth(shown: &mut Text, is_so: bool) {
    shown.add(if is_so { "+" } else { "-" });
}

// What one word of a script tells.
fn add_word<M: Merges>(alloc: Global, merger: &mut M, width: u32, word: &str, shown: &mut Text)
    requires { M.width merger.old ≡ width }
    ensures { M.width merger.new ≡ width }
{
    match word.strip_suffix("?") {
        Some("") => add_given(merger, shown),
        Some("cut") => add_truth(shown, merger.was_cut()),
        Some(channel) => add_truth(shown, is_wanting(merger, width, number(channel))),
        None => add_packet(alloc, merger, width, word, shown),
    }
}

/// What a merger of `width` channels tells for the words of a script.
pub(crate) fn told<M: Merges>(
    alloc: Global,
    merger: Result<M, NoMemory>,
    width: u32,
    script: &str,
) -> Result<String, AllocError>
    requires { IfOk merger (λ m. M.width m ≡ width) }
{
    let Ok(mut merger) = merger else {
        return Err(AllocError);
    };
    let mut shown = Text::new(alloc);
    for word in script.split_whitespace() {
        add_word(alloc, &mut merger, width, word, &mut shown);
    }
    shown.finish()
}
