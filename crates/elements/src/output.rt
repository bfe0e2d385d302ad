//! The outputs of an element.
ghost use Rattle.std.specs.Prelude.{◌≡◌, ◌<◌, ◌^◌, Some, length, slice_get};
ghost use Rattle.spl_value.specs.Numbered.{is_last as is_last_as};
ghost use Rattle.elements.specs.Outputs.{IsPut, IsSet, first_open as first_open_as};
ghost use Rattle.elements.specs.declared.output.Output.{Output as OutputSpec};

use spl_value::{Items, Packet};

/// What was put on an output: whether `Close` or `Cut` was.
#[derive(Clone, Copy)]
pub struct Output {
    pub(crate) ended: bool,
}

#[inline(always)]
fn is_last(packet: &Packet) -> bool
    ensures { result ≡ is_last_as packet.now }
{
    match packet {
        Packet::Item { .. } | Packet::Pulse(_) => false,
        Packet::Close | Packet::Cut => true,
    }
}

/// Notes a packet that is put on an output. Whether `Close` or `Cut` was put there before it.
#[inline(always)]
pub(crate) fn note_put(outputs: &mut Items<Output>, at: u32, packet: &Packet) -> bool
    ensures puts { IsPut at packet.now outputs.old outputs.new }
    ensures before { (x : OutputSpec) → slice_get outputs.old at ≡ Some x → result ≡ x.ended }
{
    let Some(output) = outputs.get(at as usize) else {
        return false;
    };
    let before = output.ended;
    let ended = before || is_last(packet);
    outputs.set(at as usize, Output { ended });
    before
}

/// Notes of an output whether `Close` or `Cut` was put on it.
pub(crate) fn set_ended(outputs: &mut Items<Output>, at: u32, ended: bool)
    ensures { IsSet at ended outputs.old outputs.new }
{
    if outputs.get(at as usize).is_some() {
        outputs.set(at as usize, Output { ended });
    }
}

/// The first output on which neither `Close` nor `Cut` was put.
pub(crate) fn first_open(outputs: &Items<Output>) -> Option<u32>
    requires few { length outputs.now < 2 ^ 32 }
    ensures { result ≡ first_open_as 0 outputs.now }
{
    let mut rest = outputs.as_slice();
    let mut at = 0u32;
    'outputs: while let [output, behind @ ..] = rest {
        if !output.ended {
            return Some(at);
        }
        rest = behind;
        at += 1;
    }
    None
}
