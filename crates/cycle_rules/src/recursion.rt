//! The first function or composite of a unit that reaches itself.
ghost use Rattle.std.specs.Prelude.{◌≡◌, ◌<◌, ◌^◌, ℕ, List, [], ◌∷◌, ◌++◌, map, filter_map, length, IfOk, OnOk, MatchOption};
ghost use Rattle.std.specs.HashMap as hash;
ghost use Rattle.std.specs.Str.{bytes_eq};
ghost use Rattle.language_model.specs.Mentions.{calls};
ghost use Rattle.language_model.specs.Recursion.{function_callers, composite_callers, calls_among, IsFirstIn, HasNoRecursion, IsRecursive, IsNotRecursive};
ghost use Rattle.language_model.specs.parts.Recursion.{function_caller, composite_caller};
ghost use Rattle.program_tables.specs.Mentioned.{mentions_seen};
ghost use Rattle.cycle_rules.specs.steps.Named.{name_seen, caller_seen, callers_seen, place_from, found_place};

use crate::calls;
use program_tables::{Mention, of_body};
use spl_tree::{Composite, Definition, FunctionDefinition, Placed, Unit};
use spl_value::{Items, Name, NoMemory};
use std::alloc::Global;
use std::collections::HashMap;

/// What calls: its name, and the names that it calls, in the order of the text.
#[derive(Drop)]
struct Caller<'u> {
    name: &'u Name,
    called: Vec<Placed<&'u Name>>,
}

/// The calls among mentions.
fn calls_of<'u>(
    alloc: Global,
    mentions: &[Placed<Mention<'u>>],
) -> Result<Vec<Placed<&'u Name>>, NoMemory>
    ensures { IfOk result (λ names. map name_seen names.items ≡ calls (mentions_seen mentions.now)) }
{
    let mut called = Vec::new(alloc);
    for mention in mentions {
        match mention.what {
            Mention::Called(name) => called.push(Placed {
                at: mention.at,
                what: name,
            })?,
            Mention::Dollar(_) => {}
        }
    }
    Ok(called)
}

fn function_caller<'u>(
    alloc: Global,
    function: &'u FunctionDefinition,
) -> Result<Caller<'u>, NoMemory>
    ensures { IfOk result (λ c. caller_seen c ≡ function_caller function.now) }
{
    let mentions = of_body(alloc, function.body.as_slice())?;
    let called = calls_of(alloc, mentions.as_slice())?;
    Ok(Caller {
        name: &function.name.what,
        called,
    })
}

fn composite_caller<'u>(alloc: Global, composite: &'u Composite) -> Result<Caller<'u>, NoMemory>
    ensures { IfOk result (λ c. caller_seen c ≡ composite_caller composite.now) }
{
    let mut called = Vec::new(alloc);
    for invocation in composite.graph.as_slice() {
        called.push(Placed {
            at: invocation.at,
            what: &invocation.operator.what,
        })?;
    }
    Ok(Caller {
        name: &composite.name.what,
        called,
    })
}

/// Adds a definition that is a function.
fn add_function<'u>(
    alloc: Global,
    definition: &'u Definition,
    callers: &mut Vec<Caller<'u>>,
) -> Result<(), NoMemory>
    ensures { OnOk result (callers_seen callers.new.items ≡ callers_seen callers.old.items ++ function_callers (definition.now ∷ [])) }
{
    match definition {
        Definition::Function(function) => {
            let caller = function_caller(alloc, function)?;
            callers.push(caller)?;
            Ok(())
        }
        Definition::Type(_) | Definition::Composite(_) => Ok(()),
    }
}

/// The functions of a unit, with what they call.
fn function_callers<'u>(alloc: Global, unit: &'u Unit) -> Result<Vec<Caller<'u>>, NoMemory>
    ensures { IfOk result (λ cs. callers_seen cs.items ≡ function_callers unit.now) }
{
    let mut callers = Vec::new(alloc);
    for definition in unit.as_slice() {
        add_function(alloc, definition, &mut callers)?;
    }
    Ok(callers)
}

/// Adds a definition that is a composite.
fn add_composite<'u>(
    alloc: Global,
    definition: &'u Definition,
    callers: &mut Vec<Caller<'u>>,
) -> Result<(), NoMemory>
    ensures { OnOk result (callers_seen callers.new.items ≡ callers_seen callers.old.items ++ composite_callers (definition.now ∷ [])) }
{
    match definition {
        Definition::Composite(composite) => {
            let caller = composite_caller(alloc, composite)?;
            callers.push(caller)?;
            Ok(())
        }
        Definition::Type(_) | Definition::Function(_) => Ok(()),
    }
}

/// The composites of a unit, with what they invoke.
fn composite_callers<'u>(alloc: Global, unit: &'u Unit) -> Result<Vec<Caller<'u>>, NoMemory>
    ensures { IfOk result (λ cs. callers_seen cs.items ≡ composite_callers unit.now) }
{
    let mut callers = Vec::new(alloc);
    for definition in unit.as_slice() {
        add_composite(alloc, definition, &mut callers)?;
    }
    Ok(callers)
}

/// The place of the first caller of each name.
fn places_by_name<'u>(
    alloc: Global,
    callers: &[Caller<'u>],
) -> Result<HashMap<&'u [u8], u32>, NoMemory>
    requires { length callers.now < 2 ^ 32 }
    ensures { IfOk result (λ m. (q : List ℕ) → hash.get_by (λ k. bytes_eq q k.now) m ≡ place_from 0 (callers_seen callers.now) q) }
{
    let mut places = HashMap::new(alloc);
    for place in (0..callers.len()).rev() {
        places.insert(callers[place].name.as_slice(), place as u32)?;
    }
    Ok(places)
}

/// Adds the place that a name has, if it has one.
fn add_place(
    name: &Placed<&Name>,
    places: &HashMap<&[u8], u32>,
    list: &mut Items<Placed<u32>>,
) -> Result<(), NoMemory>
    ensures { OnOk result (list.new ≡ list.old ++ filter_map (found_place (λ q. hash.get_by (λ k. bytes_eq q k.now) places.now)) (name_seen name.now ∷ [])) }
{
    match places.get(name.what.as_slice()) {
        Some(place) => {
            list.push(Placed {
                at: name.at,
                what: *place,
            })?;
            Ok(())
        }
        None => Ok(()),
    }
}

/// What a caller calls, by the places that the names have; a name without a place is left out.
fn call_places(
    alloc: Global,
    caller: &Caller<'_>,
    places: &HashMap<&[u8], u32>,
) -> Result<Items<Placed<u32>>, NoMemory>
    ensures { IfOk result (λ list. list ≡ filter_map (found_place (λ q. hash.get_by (λ k. bytes_eq q k.now) places.now)) (caller_seen caller.now).called) }
{
    let mut list = Items::new(alloc);
    for name in caller.called.as_slice() {
        add_place(name, places, &mut list)?;
    }
    Ok(list)
}

/// Adds what each caller calls to calls of which there is none.
fn add_calls(
    alloc: Global,
    callers: &[Caller<'_>],
    places: &HashMap<&[u8], u32>,
    calls: &mut Vec<Items<Placed<u32>>>,
) -> Result<(), NoMemory>
    requires { calls.old.items ≡ [] }
    ensures { OnOk result (calls.new.items ≡ map (λ c. filter_map (found_place (λ q. hash.get_by (λ k. bytes_eq q k.now) places.now)) c.called) (callers_seen callers.now)) }
{
    for caller in callers {
        calls.push(call_places(alloc, caller, places)?)?;
    }
    Ok(())
}

/// For each of these callers, what it calls among them, by their places.
fn calls_among(alloc: Global, callers: &[Caller<'_>]) -> Result<Vec<Items<Placed<u32>>>, NoMemory>
    requires { length callers.now < 2 ^ 32 }
    ensures calls { IfOk result (λ calls. calls.items ≡ calls_among (callers_seen callers.now)) }
{
    let places = places_by_name(alloc, callers)?;
    let mut calls = Vec::with_capacity(alloc, callers.len())?;
    add_calls(alloc, callers, &places, &mut calls)?;
    Ok(calls)
}

/// The first of these callers that reaches itself, by its name, at the first call in it that leads
/// back.
fn first_in(alloc: Global, callers: &[Caller<'_>]) -> Result<Option<Placed<Name>>, NoMemory>
    ensures { IfOk result (λ found. MatchOption found (HasNoRecursion (callers_seen callers.now)) (IsFirstIn (callers_seen callers.now))) }
{
    if u32::try_from(callers.len()).is_err() {
        return Err(NoMemory);
    }
    let calls = calls_among(alloc, callers)?;
    match calls::first_recursion(alloc, calls.as_slice())? {
        Some(recursion) => {
            let name = Items::from_slice(alloc, callers[recursion.caller].name.as_slice())?;
            Ok(Some(Placed {
                at: recursion.at,
                what: name,
            }))
        }
        None => Ok(None),
    }
}

fn first_in_functions(alloc: Global, unit: &Unit) -> Result<Option<Placed<Name>>, NoMemory>
    ensures { IfOk result (λ found. MatchOption found (HasNoRecursion (function_callers unit.now)) (IsFirstIn (function_callers unit.now))) }
{
    let functions = function_callers(alloc, unit)?;
    first_in(alloc, functions.as_slice())
}

fn first_in_composites(alloc: Global, unit: &Unit) -> Result<Option<Placed<Name>>, NoMemory>
    ensures { IfOk result (λ found. MatchOption found (HasNoRecursion (composite_callers unit.now)) (IsFirstIn (composite_callers unit.now))) }
{
    let composites = composite_callers(alloc, unit)?;
    first_in(alloc, composites.as_slice())
}

/// The first function of a unit that reaches itself, or, where none does, the first composite. It
/// stands at the first call or invocation in it that leads back, an invocation at its first token.
///
/// A name of several is that of the first of them. A name that no function of the unit has calls
/// nothing, and one that no composite has invokes nothing. The answer is `NoMemory` too where a list
/// of them is too long for numbers of 32 bits.
pub fn first_recursion(alloc: Global, unit: &Unit) -> Result<Option<Placed<Name>>, NoMemory>
    ensures { IfOk result (λ found. MatchOption found (IsNotRecursive unit.now) (IsRecursive unit.now)) }
{
    if let Some(found) = first_in_functions(alloc, unit)? {
        return Ok(Some(found));
    }
    first_in_composites(alloc, unit)
}
