//! The inputs of an element.
ghost use Rattle.std.specs.Prelude.{◌≡◌};
ghost use Rattle.elements.specs.Inputs.{IsNoted, all_ended as all_ended_as, follows, noted};

use spl_value::{Attribute, Item, Items, Packet};
use type_fits::item_fits;

/// What was taken from an input: the number of the last item or pulse, whether an item closed its stream, and whether
/// `Close` or `Cut` was.
#[derive(Clone, Copy)]
pub struct Input {
    pub(crate) low: u64,
    pub(crate) closed: bool,
    pub(crate) ended: bool,
}

impl Input {
    /// Notes a packet that is taken.
    #[inline(always)]
    pub(crate) fn note(&mut self, packet: &Packet)
        ensures { self.new ≡ noted self.old packet.now }
    {
        match packet {
            Packet::Item { number, item } => {
                self.low = *number;
                match item {
                    Item::Tuple(_) | Item::Window => {}
                    Item::Final | Item::Bad(_) => self.closed = true,
                }
            }
            Packet::Pulse(number) => self.low = *number,
            Packet::Close | Packet::Cut => self.ended = true,
        }
    }

    /// Whether a packet is proper behind those that were taken from an input with these attributes.
    pub(crate) fn is_followed_by(&self, schema: &[Attribute], packet: &Packet) -> bool
        ensures { result ≡ follows schema.now self.now packet.now }
    {
        if self.ended {
            return false;
        }
        match packet {
            Packet::Item { number, item } => {
                if self.low > *number || self.closed {
                    return false;
                }
                item_fits(schema, item)
            }
            Packet::Pulse(number) => self.low <= *number,
            Packet::Close => true,
            Packet::Cut => true,
        }
    }
}

/// Notes a packet that is taken from an input.
#[inline(always)]
pub(crate) fn note_taken(inputs: &mut Items<Input>, at: u32, packet: &Packet)
    ensures { IsNoted at packet.now inputs.old inputs.new }
{
    let Some(input) = inputs.get(at as usize) else {
        return;
    };
    let mut noted = *input;
    noted.note(packet);
    inputs.set(at as usize, noted);
}

/// Whether `Close` or `Cut` was taken from each of them.
pub(crate) fn all_ended(inputs: &Items<Input>) -> bool
    ensures { result ≡ all_ended_as inputs.now }
{
    let mut rest = inputs.as_slice();
    'inputs: while let [input, behind @ ..] = rest {
        if !input.ended {
            return false;
        }
        rest = behind;
    }
    true
}
