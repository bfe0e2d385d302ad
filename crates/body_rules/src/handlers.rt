//! The handlers of a Custom.
ghost use Rattle.std.specs.Prelude.{◌≡◌, ◌<◌, ◌==◌, ◌&&◌, ◌∷◌, [], length, false, true, is_some, slice_get, Some};
ghost use Rattle.std.specs.Str.{bytes_eq};
ghost use Rattle.language_model.specs.declared.scope.Port.{Port};
ghost use Rattle.language_model.specs.BodyTyping.{body_typing};
ghost use Rattle.language_model.specs.LogicTyping.{handler_of, is_event};
ghost use Rattle.language_model.specs.Scopes.{first_from};
ghost use Rattle.body_rules.specs.Settings.{setting_meant};
ghost use Rattle.language_model.specs.Finds.{Finds};
ghost use Rattle.body_rules.specs.Handling.{handled_in, handlers_in, seen_scope};

use crate::bodies::{BodySetting, body_of};
use crate::refusals::{handled_twice, unknown};
use language_model::{Handled, Port, Scope, TypeAnswer, narrow, port_named};
use spl_tree::{Body, HandledEvent, Handler, Placed, Stmt};
use spl_value::Items;
use std::alloc::Global;
use std::mem::replace;

fn is_event(one: HandledEvent, other: HandledEvent) -> bool
    ensures { result ≡ is_event one other }
{
    match (one, other) {
        (HandledEvent::Tuple, HandledEvent::Tuple) => true,
        (HandledEvent::Punctuation, HandledEvent::Punctuation) => true,
        _ => false,
    }
}

/// Whether there is a handler of the event on the port.
fn is_handled(handled: &[Handled], event: HandledEvent, port: u32) -> bool
    ensures { result ≡ is_some (handler_of event port handled.now) }
{
    for before in handled {
        if is_event(before.event, event) && before.port == port {
            return true;
        }
    }
    false
}

/// A port without a name and without attributes.
pub fn empty_port(alloc: Global) -> Port
    ensures { result ≡ record { name = []; schema = [] } }
{
    Port {
        name: Items::new(alloc),
        schema: Items::new(alloc),
    }
}

/// The body of a handler of tuples, which sees its port alone. The port is lent to the scope.
fn tuple_body(
    alloc: Global,
    setting: &BodySetting,
    scope: &mut Scope,
    port: &mut Port,
    body: &[Stmt],
) -> Result<Body, TypeAnswer>
    requires { scope.old.ports ≡ [] }
    ensures code { Finds (body_typing (setting_meant setting.now) (record scope.old { ports = port.old ∷ [] }) body.now) result }
    ensures same_scope { scope.new ≡ scope.old }
    ensures same_port { port.new ≡ port.old }
{
    scope.ports.push(empty_port(alloc))?;
    let own = replace(port, empty_port(alloc));
    scope.ports.set(0, own);
    let found = body_of(alloc, setting, scope, body);
    let Some(own) = scope.ports.pop() else {
        unreachable!()
    };
    *port = own;
    found
}

/// The body of a handler of markers, which sees no port, and may call `currentPunct`.
fn marker_body(
    alloc: Global,
    setting: &BodySetting,
    scope: &mut Scope,
    body: &[Stmt],
) -> Result<Body, TypeAnswer>
    requires { scope.old.punct ≡ false }
    ensures code { Finds (body_typing (setting_meant setting.now) (record scope.old { punct = true }) body.now) result }
    ensures same_scope { scope.new ≡ scope.old }
{
    scope.punct = true;
    let found = body_of(alloc, setting, scope, body);
    scope.punct = false;
    found
}

/// The body of a handler of the event on the port at the place.
fn body_on(
    alloc: Global,
    setting: &BodySetting,
    scope: &mut Scope,
    ports: &mut Items<Port>,
    place: usize,
    event: HandledEvent,
    body: &[Stmt],
) -> Result<Body, TypeAnswer>
    requires within { place < length ports.old }
    requires no_ports { scope.old.ports ≡ [] }
    requires no_marker { scope.old.punct ≡ false }
    ensures code { (port : Port) → slice_get ports.old place ≡ Some port → Finds (body_typing (setting_meant setting.now) (seen_scope scope.old event port) body.now) result }
    ensures same_scope { scope.new ≡ scope.old }
    ensures same_ports { ports.new ≡ ports.old }
{
    match event {
        HandledEvent::Punctuation => marker_body(alloc, setting, scope, body),
        HandledEvent::Tuple => tuple_body(alloc, setting, scope, ports.item_mut(place), body),
    }
}

/// A handler, after those that there are.
fn handled_next(
    alloc: Global,
    setting: &BodySetting,
    scope: &mut Scope,
    ports: &mut Items<Port>,
    before: &[Handled],
    handler: &Placed<Handler>,
) -> Result<Handled, TypeAnswer>
    requires no_ports { scope.old.ports ≡ [] }
    requires no_marker { scope.old.punct ≡ false }
    ensures code { Finds (handled_in (setting_meant setting.now) scope.old before.now handler.now (first_from (λ p. bytes_eq p.name handler.now.what.port.what) 0 ports.old)) result }
    ensures same_scope { scope.new ≡ scope.old }
    ensures same_ports { ports.new ≡ ports.old }
{
    let Handler {
        event,
        port: written,
        body,
    } = &handler.what;
    let name = written.what.as_slice();
    let Some((place, _)) = port_named(ports.as_slice(), name) else {
        return unknown(alloc, written.at, name);
    };
    let port = narrow(place)?;
    if is_handled(before, *event, port) {
        return handled_twice(alloc, handler.at, *event);
    }
    let body = body_on(alloc, setting, scope, ports, place, *event, body.as_slice())?;
    Ok(Handled {
        event: *event,
        port,
        body,
    })
}

/// Handlers in the order of the text, on these ports, in a scope without ports. Whatever the answer,
/// both are as before after it.
pub fn handlers_of(
    alloc: Global,
    setting: &BodySetting,
    scope: &mut Scope,
    ports: &mut Items<Port>,
    handlers: &[Placed<Handler>],
) -> Result<Items<Handled>, TypeAnswer>
    requires no_ports { scope.old.ports ≡ [] }
    requires no_marker { scope.old.punct ≡ false }
    ensures code { Finds (handlers_in (setting_meant setting.now) scope.old ports.old [] handlers.now) result }
    ensures same_scope { scope.new ≡ scope.old }
    ensures same_ports { ports.new ≡ ports.old }
{
    let mut handled = Items::new(alloc);
    for handler in handlers {
        let next = handled_next(alloc, setting, scope, ports, handled.as_slice(), handler)?;
        handled.push(next)?;
    }
    Ok(handled)
}
