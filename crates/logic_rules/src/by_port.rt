//! Handlers by their ports.
ghost use Rattle.std.specs.Prelude.{◌≡◌, [], Some, IfOk, slice_set};
ghost use Rattle.spl_tree.specs.declared.unit.HandledEvent.{HandledEvent};
ghost use Rattle.spl_tree.specs.declared.unit.HandledEvent.TheVariants as H;
ghost use Rattle.language_model.specs.LogicTyping.{handlers_on};
ghost use Rattle.logic_rules.specs.ByPorts.{made_of};

use language_model::{Handled, Handlers, StateVariable};
use spl_tree::{Body, HandledEvent};
use spl_value::{Items, NoMemory};
use std::alloc::Global;

/// So many ports without a handler of an event.
fn without_handlers(alloc: Global, count: usize) -> Result<Items<Option<Body>>, NoMemory>
    ensures { IfOk result (λ bodies. (event : HandledEvent) → bodies ≡ handlers_on event [] 0 count) }
{
    let mut bodies = Items::new(alloc);
    for _ in 0..count {
        bodies.push(None)?;
    }
    Ok(bodies)
}

/// Puts a body to its port, where there is one.
fn put_body(bodies: &mut Items<Option<Body>>, port: u32, body: Body)
    ensures { bodies.new ≡ slice_set bodies.old port (Some body) }
{
    let port = port as usize;
    if port < bodies.len() {
        bodies.set(port, Some(body));
    }
}

/// Handlers by their ports, of which there are `count`. Of several of one event and port the first
/// counts.
pub fn by_ports(
    alloc: Global,
    count: usize,
    state: Items<StateVariable>,
    mut handled: Items<Handled>,
) -> Result<Handlers, NoMemory>
    ensures { IfOk result (λ made. made ≡ made_of count state handled) }
{
    let mut on_tuple = without_handlers(alloc, count)?;
    let mut on_punct = without_handlers(alloc, count)?;
    'handlers: while let Some(Handled { event, port, body }) = handled.pop() {
        match event {
            HandledEvent::Tuple => put_body(&mut on_tuple, port, body),
            HandledEvent::Punctuation => put_body(&mut on_punct, port, body),
        }
    }
    Ok(Handlers {
        state,
        on_tuple,
        on_punct,
    })
}
