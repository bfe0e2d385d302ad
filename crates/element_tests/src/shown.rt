//! What waits, as texts: `0:5#3` is a tuple of 5 under the number 3 for output 0, and a number 0 isn't shown.
use element_outboxes::Outbox;
use spl_value::{Item, Packet, Value, Values};
use std::alloc::{AllocError, Global};
use stream_model::Outgoing;
use test_texts::text::Text;
use test_texts::values::{add_value, fault};

fn add_values(shown: &mut Text, values: &[Value]) {
    for (at, value) in values.iter().enumerate() {
        shown.add_between(at, ",");
        add_value(shown, value);
    }
}

/// Adds an item: a tuple by its values, a window marker as `w`, a final marker as `.`, a fault as `!`, its kind and its
/// operator.
pub(crate) fn add_item(shown: &mut Text, item: &Item) {
    match item {
        Item::Tuple(values) => add_values(shown, values.as_slice()),
        Item::Window => shown.add("w"),
        Item::Final => shown.add("."),
        Item::Bad(found) => {
            shown.add("!");
            shown.add(fault(found.kind));
            shown.add_place("@", found.op);
        }
    }
}

fn add_packet(shown: &mut Text, packet: &Packet) {
    match packet {
        Packet::Item { number, item } => {
            add_item(shown, item);
            if *number > 0 {
                shown.add("#");
                shown.add_number(i128::from(*number));
            }
        }
        Packet::Pulse(number) => {
            shown.add("p");
            shown.add_number(i128::from(*number));
        }
        Packet::Close => shown.add("close"),
        Packet::Cut => shown.add("cut"),
    }
}

/// Adds a packet with its output.
pub(crate) fn add_outgoing(shown: &mut Text, sent: &Outgoing) {
    shown.add_place(" ", sent.output);
    shown.add(":");
    add_packet(shown, &sent.packet);
}

/// Takes all packets that wait, and adds them; `-` where none does.
pub(crate) fn add_waiting(shown: &mut Text, outbox: &mut Outbox) {
    if outbox.is_empty() {
        return shown.add(" -");
    }
    'packets: while let Some(sent) = outbox.take() {
        add_outgoing(shown, &sent);
    }
}

/// What was told, without the blank in front.
pub(crate) fn finished(alloc: Global, shown: Text) -> Result<String, AllocError> {
    let told = shown.finish()?;
    let rest = told.as_str().strip_prefix(" ").unwrap_or(told.as_str());
    format!(in alloc; "{rest}")
}
