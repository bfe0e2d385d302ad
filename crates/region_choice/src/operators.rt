//! The ports of operators that may stand in regions.
ghost use Rattle.std.specs.Prelude.{◌≡◌, length};
ghost use Rattle.stream_model.specs.CheckedMeaning.{first_schema};
ghost use Rattle.region_choice.specs.steps.Ports.{entry_of, first_input, sole_input, sole_stream};

use language_model::Checked;
use spl_tree::Op;
use spl_value::Ids;
use stream_model::StateKind;

fn sole_stream(ins: &[Ids]) -> Option<u32>
    ensures { result ≡ sole_stream ins.now }
{
    match ins {
        [port] => match port.as_slice() {
            [stream] => Some(*stream),
            _ => None,
        },
        _ => None,
    }
}

/// The stream that an operator reads, where it has one connection and one output port.
fn sole_input(op: &Op) -> Option<u32>
    ensures { result ≡ sole_input op.now.ins op.now.outs }
{
    match op.outs.as_slice() {
        [_] => sole_stream(op.ins.as_slice()),
        _ => None,
    }
}

/// The stream that an operator with this state reads, where it may stand in a region.
pub(crate) fn entry_of(op: &Op, state: &StateKind) -> Option<u32>
    ensures { result ≡ entry_of op.now.ins op.now.outs state.now }
{
    match state {
        StateKind::Stateless | StateKind::Keyed(_) => sole_input(op),
        StateKind::Whole => None,
    }
}

/// How many attributes the streams of a port have.
fn port_width(checked: &Checked, port: &Ids) -> usize
    ensures { result ≡ length (first_schema checked.now port.now) }
{
    match port.get(0) {
        Some(stream) => match checked.schemas.get(*stream as usize) {
            Some(schema) => schema.len(),
            None => 0,
        },
        None => 0,
    }
}

/// How many attributes the first port of an operator has.
pub(crate) fn input_width(checked: &Checked, op: &Op) -> usize
    ensures { result ≡ length (first_input checked.now op.now.ins) }
{
    match op.ins.get(0) {
        Some(port) => port_width(checked, port),
        None => 0,
    }
}
