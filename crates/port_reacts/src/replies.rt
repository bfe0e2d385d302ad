//! Items that operators of several kinds give.
ghost use Rattle.std.specs.Prelude.{◌≡◌, ◌≤◌, ◌++◌, [], IfOk};
ghost use Rattle.stream_model.specs.Bodies.{on_each, on_first};
ghost use Rattle.port_reacts.specs.Bodies.{GoesOn};

use language_model::{Output, Outs};
use spl_value::{Item, NoMemory, copy_item};
use std::alloc::Global;
use stream_model::Reply;

/// The turns that an operator may take for one event.
pub const MOST_TURNS: u32 = 1_000_000;

/// The item on each of `ports` output ports, by ascending port.
pub fn on_each_port(alloc: Global, ports: usize, item: &Item) -> Result<Outs, NoMemory>
    requires { ports ≤ 16 }
    ensures { IfOk result (λ outs. outs ≡ on_each ports item.now) }
{
    let mut outs = Outs::new(alloc);
    'ports: for port in 0..ports as u32 {
        let item = copy_item(alloc, item)?;
        outs.push(Output { port, item })?;
    }
    Ok(outs)
}

/// Gives an item on the first output port, after those that are given before.
#[inline(always)]
pub fn give_first(outs: &mut Outs, item: Item) -> Result<(), NoMemory>
    ensures { IfOk result (λ _. outs.new ≡ outs.old ++ on_first item) }
{
    outs.push(Output { port: 0, item })?;
    Ok(())
}

/// The item on the first output port, after which the operator goes on.
#[inline(always)]
pub fn given_first(alloc: Global, item: Item) -> Reply
    ensures { GoesOn (on_first item) result }
{
    let mut outs = Outs::new(alloc);
    match give_first(&mut outs, item) {
        Ok(()) => Reply::Out(outs),
        Err(_) => Reply::Memory,
    }
}

/// No item, after which the operator goes on.
#[inline(always)]
pub fn given_none(alloc: Global) -> Reply
    ensures { GoesOn [] result }
{
    Reply::Out(Outs::new(alloc))
}
