//! The calls of a FileSink.
ghost use Rattle.std.specs.Prelude.{◌≡◌, ◌<◌, [], ℕ, List, Some, length, slice_get};
ghost use Rattle.language_model.specs.declared.checked.CheckedClauses.TheVariants as A;
ghost use Rattle.stream_model.specs.parts.Bodies.{sink_body};
ghost use Rattle.stream_model.specs.CheckedMeaning.{graph_of, operator_with};
ghost use Rattle.stream_model.specs.React.{answer};
ghost use Rattle.port_reacts.specs.Bodies.{RepliesToItem};

use crate::sink::Sink;
use language_model::Checked;
use port_reacts::{CheckedOperator, OnPort, fits_law, given_first, given_none};
use spl_value::Item;
use std::alloc::Global;
use stream_model::Reply;

/// What an item causes.
fn on_item(alloc: Global, at: &CheckedOperator<'_>, item: Item) -> Reply
    ensures { RepliesToItem at.now.number (length at.now.op.now.outs) (answer (sink_body item)) item result }
{
    match item {
        Item::Tuple(values) => given_first(alloc, Item::Tuple(values)),
        Item::Window => given_none(alloc),
        Item::Final => given_none(alloc),
        Item::Bad(fault) => at.ended_by(alloc, fault),
    }
}

impl<'c> OnPort for Sink<'c> {
    ghost spec = { λ s. operator_with s.at.checked.now s.at.number s.at.op.now s.at.part.now };

    ghost stands = { λ s h. (file : List ℕ) × (s.at.part.now ≡ A.FileSink file) };

    fn on_port(&mut self, port: u32, item: Item) -> Reply {
        fits_law();
        on_item(self.alloc, &self.at, item)
    }
}

impl<'c> Sink<'c> {
    /// The FileSink with this number. There is one.
    pub(crate) fn new(alloc: Global, checked: &'c Checked, op: u32) -> Sink<'c>
        requires there { op < length checked.now.graph.ops }
        requires kind { (file : List ℕ) × (slice_get checked.now.parts op ≡ Some (A.FileSink file)) }
        ensures is { slice_get (graph_of checked.now).ops op ≡ Some (⟦<Sink<'c> as OnPort>⟧.spec result) }
        ensures begins { ⟦<Sink<'c> as OnPort>⟧.stands result [] }
    {
        Sink {
            alloc,
            at: CheckedOperator::new(checked, op),
        }
    }
}
