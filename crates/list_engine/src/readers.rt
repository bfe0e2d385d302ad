//! Who reads a stream.
ghost use Rattle.std.specs.Prelude.{◌≡◌, ◌==◌};
ghost use Rattle.std.specs.List.{concat, list_any};
ghost use Rattle.stream_model.specs.CheckedMeaning.{graph_of};
ghost use Rattle.stream_model.specs.Ends.{is_read};
ghost use Rattle.stream_model.specs.Meaning.{Graph as Operators};
ghost use Rattle.list_engine.specs.steps.Reading.{op_reads, reads_at, ops_at};

use language_model::Checked;
use spl_tree::{Graph, Op};

/// Whether a number is among others.
pub(crate) fn is_among(numbers: &[u32], number: u32) -> bool
    ensures { result ≡ list_any (λ n. n == number) numbers.now }
{
    numbers.iter().any(|n| *n == number)
}

/// Whether an operator reads a stream.
fn reads(op: &Op, stream: u32) -> bool
    ensures { result ≡ op_reads op.now stream }
{
    for port in op.ins.as_slice() {
        if is_among(port.as_slice(), stream) {
            return true;
        }
    }
    false
}

/// Whether the operator with this number reads a stream.
fn reads_at(graph: &Graph, number: usize, stream: u32) -> bool
    ensures { result ≡ reads_at graph.now.ops number stream }
{
    match graph.ops.get(number) {
        Some(op) => reads(op, stream),
        None => false,
    }
}

/// Whether any operator reads a stream.
pub(crate) fn is_read(checked: &Checked, stream: u32) -> bool
    ensures { (g : Operators) → graph_of checked.now ≡ g → result ≡ is_read g.ops stream }
{
    for number in 0..checked.graph.ops.len() {
        if reads_at(&checked.graph, number, stream) {
            return true;
        }
    }
    false
}

/// Whether one of the operators with these numbers reads a stream.
pub(crate) fn is_read_later(checked: &Checked, later: &[u32], stream: u32) -> bool
    ensures { (g : Operators) → graph_of checked.now ≡ g → result ≡ is_read (ops_at g later.now) stream }
{
    for number in later {
        if reads_at(&checked.graph, *number as usize, stream) {
            return true;
        }
    }
    false
}
