//! The streams that the input ports of an invocation take, one by one.
ghost use Rattle.std.specs.Prelude.{◌≡◌, ◌+◌, ◌^◌, ◌<◌, ◌≤◌, ◌++◌, ◌∷◌, ℕ, [], List, length, flat_map, IfOk, OnOk, MatchOption};
ghost use Rattle.std.specs.Option.{option_map};
ghost use Rattle.composite_tables.specs.Inputs.{StandsFor, AreKept};
ghost use Rattle.composite_tables.specs.steps.Reading.{composite_at, names_in, list_followed, list_left, most_names, size_followed, size_left};
ghost use Rattle.language_model.specs.Expansion.{Inlined, sources_of};
ghost use Rattle.language_model.specs.parts.Expansion.{ports_of};

use crate::inputs::taken_by;
use crate::made::{Body, Input, Taken};
use crate::tables::{Composites, Scope};
use language_model::Source;
use spl_tree::{InputPort, Invocation, Placed, Site};
use spl_value::{Items, Name, NoMemory};
use std::alloc::Global;

/// The composite of the body of that number.
fn scope_of_body<'c, 'u>(
    composites: &'c Composites<'u>,
    bodies: &[Body],
    number: u32,
) -> Option<&'c Scope<'u>>
    ensures { option_map (λ s. s.now.composite.now) result ≡ composite_at composites.now.unit.now bodies.now number }
{
    let body = bodies.get(number as usize)?;
    composites.scope_at(body.composite)
}

/// The names of a port of the invocation at a site.
fn names_at<'u>(
    composites: &Composites<'u>,
    bodies: &[Body],
    site: Site,
    port: u32,
) -> &'u [Placed<Name>]
    ensures { result.now ≡ names_in site port (composite_at composites.now.unit.now bodies.now site.expansion) }
{
    let Some(scope) = scope_of_body(composites, bodies, site.expansion) else {
        return &[];
    };
    let Some(invocation) = scope.composite.graph.get(site.invocation as usize) else {
        return &[];
    };
    match invocation.inputs.get(port as usize) {
        Some(port) => port.streams.as_slice(),
        None => &[],
    }
}

/// What a name takes in the body of that number.
fn taken_at(
    composites: &Composites<'_>,
    bodies: &[Body],
    rows: &[Items<Input>],
    number: u32,
    name: &Name,
) -> Option<Input>
    ensures { (xs : List Inlined) → AreKept composites.now.unit.now bodies.now rows.now xs
        → MatchOption result (sources_of xs number name.now ≡ []) (λ i. StandsFor xs number i (sources_of xs number name.now)) }
{
    let scope = scope_of_body(composites, bodies, number)?;
    let row = rows.get(number as usize)?;
    taken_by(scope, number, row.as_slice(), name)
}

/// Names of a port that are still to be read, in the body of that number.
#[derive(Clone, Copy)]
struct Reading<'u> {
    number: u32,
    names: &'u [Placed<Name>],
}

/// What a name leads to.
#[derive(Drop)]
enum Next<'u> {
    Nothing,
    One(Source),
    Names(Reading<'u>),
}

/// Follows a name by one step. Each body is invoked in one of a lower number.
fn follow<'u>(
    composites: &Composites<'u>,
    bodies: &[Body],
    rows: &[Items<Input>],
    number: u32,
    name: &Name,
) -> Next<'u>
    ensures list { (xs : List Inlined) → AreKept composites.now.unit.now bodies.now rows.now xs → list_followed xs result ≡ sources_of xs number name.now }
    ensures size { let base = most_names composites.now.unit.now + 2 in size_followed base result < base ^ number }
{
    let Some(input) = taken_at(composites, bodies, rows, number, name) else {
        return Next::Nothing;
    };
    match input.taken {
        Taken::One(source) => Next::One(source),
        Taken::Port { site, port } if site.expansion < number => Next::Names(Reading {
            number: site.expansion,
            names: names_at(composites, bodies, site, port),
        }),
        Taken::Port { .. } => Next::Nothing,
    }
}

/// Reads the first name of what is read last, if it has one. What is left of it comes before what the name
/// leads to, so that this is read first.
fn read_name<'u>(
    composites: &Composites<'u>,
    bodies: &[Body],
    rows: &[Items<Input>],
    reading: Reading<'u>,
    readings: &mut Vec<Reading<'u>>,
    sources: &mut Items<Source>,
) -> Result<(), NoMemory>
    ensures list { OnOk result ((xs : List Inlined) → AreKept composites.now.unit.now bodies.now rows.now xs
        → sources.new ++ list_left xs readings.new.items ≡ sources.old ++ list_left xs (readings.old.items ++ reading.entry ∷ [])) }
    ensures size { OnOk result (let base = most_names composites.now.unit.now + 2 in size_left base readings.new.items < size_left base (readings.old.items ++ reading.entry ∷ [])) }
{
    let [name, rest @ ..] = reading.names else {
        return Ok(());
    };
    readings.push(Reading {
        number: reading.number,
        names: rest,
    })?;
    match follow(composites, bodies, rows, reading.number, &name.what) {
        Next::Nothing => Ok(()),
        Next::One(source) => {
            sources.push(source)?;
            Ok(())
        }
        Next::Names(inner) => {
            readings.push(inner)?;
            Ok(())
        }
    }
}

/// The streams that names take in the body of that number.
fn sources_at<'u>(
    alloc: Global,
    composites: &Composites<'u>,
    bodies: &[Body],
    rows: &[Items<Input>],
    number: u32,
    names: &'u [Placed<Name>],
) -> Result<Items<Source>, NoMemory>
    ensures { IfOk result (λ sources. (xs : List Inlined) → AreKept composites.now.unit.now bodies.now rows.now xs
        → sources ≡ flat_map (λ n. sources_of xs number n.what) names.now) }
{
    let mut sources = Items::new(alloc);
    let mut readings = vec![in alloc; Reading { number, names }]?;
    while let Some(reading) = readings.pop() {
        read_name(
            composites,
            bodies,
            rows,
            reading,
            &mut readings,
            &mut sources,
        )?;
    }
    Ok(sources)
}

/// Adds the streams that a port takes.
fn add_port<'u>(
    alloc: Global,
    composites: &Composites<'u>,
    bodies: &[Body],
    rows: &[Items<Input>],
    number: u32,
    port: &'u InputPort,
    ports: &mut Items<Items<Source>>,
) -> Result<(), NoMemory>
    ensures { OnOk result ((xs : List Inlined) → AreKept composites.now.unit.now bodies.now rows.now xs
        → ports.new ≡ ports.old ++ flat_map (λ n. sources_of xs number n.what) port.now.streams ∷ []) }
{
    let streams = port.streams.as_slice();
    let sources = sources_at(alloc, composites, bodies, rows, number, streams)?;
    ports.push(sources)?;
    Ok(())
}

/// The streams that each port of an invocation takes in the body of that number.
pub fn sources_by_port<'u>(
    alloc: Global,
    composites: &Composites<'u>,
    bodies: &[Body],
    rows: &[Items<Input>],
    number: u32,
    invocation: &'u Invocation,
) -> Result<Items<Items<Source>>, NoMemory>
    ensures { IfOk result (λ ports. (xs : List Inlined) → AreKept composites.now.unit.now bodies.now rows.now xs → ports ≡ ports_of xs number invocation.now) }
{
    let mut ports = Items::new(alloc);
    for port in invocation.inputs.as_slice() {
        add_port(alloc, composites, bodies, rows, number, port, &mut ports)?;
    }
    Ok(ports)
}
