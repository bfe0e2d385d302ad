//! Where items go, under which numbers, and when a pulse is due.
ghost use Rattle.std.specs.Prelude.{◌≡◌, ◌≤◌, ◌<◌, ◌+◌, ◌^◌, IsTrue};
ghost use Rattle.spl_value.specs.declared.routing.Routing.TheVariants.{Turns};
ghost use Rattle.spl_value.specs.Key.{are_key_places};

use hash_splitter::{Routing, Splitter};
use spl_value::{Item, Items, Packet, Value, Values};
use std::alloc::{AllocError, Global};
use test_texts::rows::{Answers, Untrue, expect};
use test_texts::text::Text;
use test_texts::words::{bytes, cut, number};

// The pulses that are due: one at most.
fn add_pulses(splitter: &mut Splitter, shown: &mut Text)
    ensures sent { splitter.new.sent ≡ splitter.old.sent }
    ensures routing { splitter.new.routing ≡ splitter.old.routing }
{
    if let Some(n) = splitter.pulse() {
        shown.add("; pulse ");
        shown.add_number(i128::from(n));
    }
    if splitter.pulse().is_some() {
        shown.add(" again");
    }
}

// Where a window marker goes, for one in fifteen.
fn add_marker(splitter: &mut Splitter, shown: &mut Text)
    requires sent { splitter.old.sent < 2 ^ 61 }
    requires routing { splitter.old.routing ≡ Turns }
    ensures sent { splitter.new.sent ≡ splitter.old.sent + 1 }
    ensures routing { splitter.new.routing ≡ Turns }
{
    let (channel, packet) = splitter.send(Item::Window);
    if let Packet::Item { number, .. } = packet
        && number % 15 == 0
    {
        shown.add("; ");
        shown.add_number(i128::from(number));
        shown.add_place(" to ", channel);
    }
}

// Window markers that a splitter for `width` channels sends in turn: their channels and numbers, and the pulses.
fn markers(alloc: Global, width: u32, pulses: bool, count: u32) -> Result<String, AllocError>
    requires { (1 ≤ width) × (width ≤ 16) }
{
    let mut shown = Text::new(alloc);
    let mut splitter = Splitter::new(width, Routing::Turns, pulses);
    for _sent in 0..count {
        add_marker(&mut splitter, &mut shown);
        add_pulses(&mut splitter, &mut shown);
    }
    shown.finish()
}

// A width, whether there are pulses, and how many markers are sent in turn.
struct InTurn;

impl Answers for InTurn {
    fn answer(&self, alloc: Global, text: &str) -> Result<String, AllocError> {
        let (width, rest) = cut(text);
        let (pulses, count) = cut(rest);
        let width = number(width).clamp(1, 16);
        markers(alloc, width, pulses == "pulses", number(count))
    }
}

const IN_TURN: &str = r#"
3 pulses 16 => ; 0 to 0; 15 to 0; pulse 16
3 pulses 15 => ; 0 to 0
1 pulses 33 => ; 0 to 0; 15 to 0; pulse 16; 30 to 0; pulse 32
16 alone 33 => ; 0 to 0; 15 to 15; 30 to 14
"#;

// The channels of a tuple that is sent first, and of the window marker after it, which goes in turn.
fn channels_of(
    alloc: Global,
    width: u32,
    tuple: Values,
    places: &[u32],
) -> Result<String, AllocError>
    requires width { (1 ≤ width) × (width ≤ 16) }
    requires key { IsTrue (are_key_places tuple places.now) }
{
    let key = Items::from_slice(alloc, places)?;
    let mut splitter = Splitter::new(width, Routing::Key(key), false);
    let mut shown = Text::new(alloc);
    shown.add_place("", splitter.send(Item::Tuple(tuple)).0);
    shown.add_place(" ", splitter.send(Item::Window).0);
    shown.finish()
}

// The same of a tuple of a text and 1, whose key has these places.
fn channels_by(alloc: Global, width: u32, places: &str, text: &str) -> Result<String, AllocError>
    requires { (1 ≤ width) × (width ≤ 16) }
{
    let text = Value::Text(bytes(alloc, text)?);
    let tuple = Items::from_vec(vec![in alloc; text, Value::Int(1)]?);
    match places {
        "0" => channels_of(alloc, width, tuple, &[0]),
        "0,1" => channels_of(alloc, width, tuple, &[0, 1]),
        "1,0" => channels_of(alloc, width, tuple, &[1, 0]),
        "0,0,1" => channels_of(alloc, width, tuple, &[0, 0, 1]),
        _ => channels_of(alloc, width, tuple, &[1, 0, 1, 0]),
    }
}

// A width, the places of the key, and the text of a tuple.
struct ByKey;

impl Answers for ByKey {
    fn answer(&self, alloc: Global, text: &str) -> Result<String, AllocError> {
        let (width, rest) = cut(text);
        let (places, text) = cut(rest);
        channels_by(alloc, number(width).clamp(1, 16), places, text)
    }
}

const BY_KEY: &str = r#"
2 0 a => 1 1
2 0 b => 0 1
4 0 IBM => 0 1
4 0 MSFT => 3 1
4 0 A,B => 3 1
1 0 a => 0 0

# The order of the places changes nothing
16 0,1 a => 14 1
16 1,0 a => 14 1
16 0,0,1 a => 14 1
16 1,0,1,0 a => 14 1
"#;

#[test]
fn items_go_to_channels_in_turn(rt: HostRuntime) -> Result<(), Untrue> {
    expect(rt.alloc(), &InTurn, &[IN_TURN])
}

#[test]
fn tuples_go_by_their_key_and_markers_in_turn(rt: HostRuntime) -> Result<(), Untrue> {
    expect(rt.alloc(), &ByKey, &[BY_KEY])
}
