//! The calls of an operator.
ghost use Rattle.std.specs.Prelude.{◌≡◌, ◌<◌, ◌≤◌, ◌∷◌, ◌++◌, [], IfOk, IsTrue, List, Some, length, slice_get};
ghost use Rattle.spl_value.specs.declared.item.Item.TheVariants as I;
ghost use Rattle.language_model.specs.declared.checked.CheckedClauses.{CheckedClauses};
ghost use Rattle.stream_model.specs.Bodies.{on_each};
ghost use Rattle.stream_model.specs.CheckedMeaning.{graph_of};
ghost use Rattle.stream_model.specs.parts.Operators.{port_at};
ghost use Rattle.stream_model.specs.Replies.{IsTaken, MayTake, Replies};
ghost use Rattle.stream_model.specs.Stream.{Event, came};
ghost use Rattle.op_kit.specs.Kinds.{is_held};
ghost use Rattle.op_kit.specs.Standing.{StandsFor};
ghost use Rattle.op_kit.specs.steps.Ending.{EndsAs};

use crate::kind::Kind;
use crate::operator::Operator;
use connection_counts::{Closing, Connections};
use language_model::{Checked, CheckedClauses, Output, Outs};
use port_reacts::{OnPort, fits_law, given_none};
use spl_value::{Item, NoMemory};
use std::alloc::Global;
use stream_model::{React, Reply, ports_law};

/// Adds a final marker on each of `ports` output ports.
fn add_ends(outs: &mut Outs, ports: usize) -> Result<(), NoMemory>
    requires { ports ≤ 16 }
    ensures { IfOk result (λ _. outs.new ≡ outs.old ++ on_each ports I.Final) }
{
    'ports: for port in 0..ports as u32 {
        outs.push(Output {
            port,
            item: Item::Final,
        })?;
    }
    Ok(())
}

/// The end of an operator, after what the end of its last port caused.
fn ended(ports: usize, reply: Reply) -> Reply
    requires { ports ≤ 16 }
    ensures { EndsAs ports reply result }
{
    let Reply::Out(outs) = reply else {
        return reply;
    };
    let mut outs = outs;
    match add_ends(&mut outs, ports) {
        Ok(()) => Reply::Ended(outs, None),
        Err(_) => Reply::Memory,
    }
}

/// Takes the final marker of an input of this port, which is open.
fn on_final<'c>(operator: &mut Operator<'c>, input: u32, port: u32) -> Reply
    requires stands { (h : List Event) × ⟦<Operator<'c> as React>⟧.stands operator.old h × MayTake (⟦<Operator<'c> as React>⟧.spec operator.old) h (came input I.Final) }
    requires port { port ≡ port_at operator.old.connections.ports input }
    ensures same { ⟦<Operator<'c> as React>⟧.spec operator.new ≡ ⟦<Operator<'c> as React>⟧.spec operator.old }
    ensures replies { (h : List Event) → ⟦<Operator<'c> as React>⟧.stands operator.old h → MayTake (⟦<Operator<'c> as React>⟧.spec operator.old) h (came input I.Final)
        → Replies (⟦<Operator<'c> as React>⟧.spec operator.old) h (came input I.Final) result }
    ensures stands { (h : List Event) → ⟦<Operator<'c> as React>⟧.stands operator.old h → MayTake (⟦<Operator<'c> as React>⟧.spec operator.old) h (came input I.Final)
        → IsTaken result → ⟦<Operator<'c> as React>⟧.stands operator.new (came input I.Final ∷ h) }
{
    ports_law();
    match operator.connections.close(input) {
        Closing::Waiting => given_none(operator.alloc),
        Closing::Port => operator.kind.on_port(port, Item::Final),
        Closing::Operator => {
            let reply = operator.kind.on_port(port, Item::Final);
            ended(operator.outputs, reply)
        }
    }
}

impl<'c> React for Operator<'c> {
    ghost spec = { λ s. ⟦<Kind<'c> as OnPort>⟧.spec s.kind };

    ghost stands = { λ s h. StandsFor (⟦<Kind<'c> as OnPort>⟧.spec s.kind) (⟦<Kind<'c> as OnPort>⟧.stands s.kind) h
        s.connections.ports s.connections.open s.connections.left s.outputs };

    #[inline(always)]
    fn on_item(&mut self, input: u32, item: Item) -> Reply {
        fits_law();
        ports_law();
        let port = self.connections.port(input);
        match item {
            Item::Final => on_final(self, input, port),
            _ => self.kind.on_port(port, item),
        }
    }
}

impl<'c> Operator<'c> {
    /// The operator with this number. There is one, of any kind but FileSource, which isn't
    /// here.
    pub fn new(alloc: Global, checked: &'c Checked, op: u32) -> Result<Operator<'c>, NoMemory>
        requires there { op < length checked.now.graph.ops }
        requires kind { (part : CheckedClauses) → slice_get checked.now.parts op ≡ Some part → IsTrue (is_held part) }
        ensures is { IfOk result (λ o. slice_get (graph_of checked.now).ops op ≡ Some (⟦<Operator<'c> as React>⟧.spec o)) }
        ensures begins { IfOk result (λ o. ⟦<Operator<'c> as React>⟧.stands o []) }
    {
        fits_law();
        let Some(ports) = checked.graph.ops.get(op as usize) else {
            unreachable!()
        };
        let connections = Connections::new(alloc, &ports.ins)?;
        let kind = Kind::new(alloc, checked, op)?;
        Ok(Operator {
            alloc,
            kind,
            connections,
            outputs: ports.outs.len(),
        })
    }
}
