//! Names of streams, aliases and ports that repeat an earlier one in a composite.
ghost use Rattle.std.specs.Prelude.{◌≡◌, [], ◌++◌, List, IfOk, OnOk, map, flat_map, not};
ghost use Rattle.std.specs.Option.{option_copied};
ghost use Rattle.language_model.specs.Declarations.{Declared, first_of, declared_name, repeated, stand_before, graph_names, InputPort, OutputPort, MadeStream};
ghost use Rattle.language_model.specs.parts.Declarations.{is_declared, head_names, invocation_names};
ghost use Rattle.duplicate_rules.specs.steps.Graphs.{Adds, AddsOther, AddsOutput, Stand, shown};

use super::names::{NamesBefore, Repeated};
use spl_tree::{Composite, HeadPort, Invocation, OutputStream, Placed};
use spl_value::{Name, NoMemory};
use std::alloc::Global;

/// A name of this set, and what has it.
#[derive(Clone, Copy)]
enum GraphName<'u> {
    Output(&'u Placed<Name>),
    Input(&'u Placed<Name>),
    Stream(&'u Placed<Name>),
    Alias(&'u Placed<Name>),
}

impl<'u> GraphName<'u> {
    fn name(self) -> &'u Placed<Name>
        ensures { result.now ≡ declared_name (shown self.entry) }
    {
        match self {
            GraphName::Output(name)
            | GraphName::Input(name)
            | GraphName::Stream(name)
            | GraphName::Alias(name) => name,
        }
    }
}

/// The names that come before a place of this set.
#[derive(Drop)]
struct GraphNamesBefore<'u> {
    outputs: NamesBefore<'u>,
    others: NamesBefore<'u>,
}

impl<'u> GraphNamesBefore<'u> {
    fn new(alloc: Global) -> GraphNamesBefore<'u>
        ensures { Stand result [] }
    {
        GraphNamesBefore {
            outputs: NamesBefore::new(alloc),
            others: NamesBefore::new(alloc),
        }
    }

    /// Adds the name that comes next, and answers whether it may stand there.
    fn add(&mut self, next: GraphName<'u>) -> Result<bool, NoMemory>
        ensures { IfOk result (λ added. (before : List Declared) → Stand self.old before → Adds before (shown next.entry) added self.new) }
    {
        match next {
            GraphName::Output(name) => self.add_output(name),
            GraphName::Stream(name) => self.others.add(name),
            GraphName::Input(name) => self.add_unshared(name),
            GraphName::Alias(name) => self.add_unshared(name),
        }
    }

    fn add_output(&mut self, name: &'u Placed<Name>) -> Result<bool, NoMemory>
        ensures { IfOk result (λ added. (before : List Declared) → Stand self.old before → AddsOutput before name.now added self.new) }
    {
        if self.others.has(name) {
            return Ok(false);
        }
        self.outputs.add(name)
    }

    /// Adds the name of an input or an alias.
    fn add_unshared(&mut self, name: &'u Placed<Name>) -> Result<bool, NoMemory>
        ensures { IfOk result (λ added. (before : List Declared) → Stand self.old before → AddsOther before name.now added self.new) }
    {
        if self.outputs.has(name) {
            return Ok(false);
        }
        self.others.add(name)
    }
}

/// The first name that may not follow those before it.
fn first_repeated_in<'u>(alloc: Global, names: &[GraphName<'u>]) -> Repeated<'u>
    ensures { IfOk result (λ found. option_copied found ≡ first_of (map declared_name (repeated is_declared (map shown names.now)))) }
{
    let mut before = GraphNamesBefore::new(alloc);
    first_behind(&mut before, names)
}

/// The same, where no name comes before these.
fn first_behind<'u>(before: &mut GraphNamesBefore<'u>, names: &[GraphName<'u>]) -> Repeated<'u>
    requires { Stand before.old [] }
    ensures { IfOk result (λ found. option_copied found ≡ first_of (map declared_name (repeated is_declared (map shown names.now)))) }
{
    for next in names {
        let added = before.add(*next)?;
        if !added {
            return Ok(Some(next.name()));
        }
    }
    Ok(None)
}

/// Whether the inputs of a head come before its outputs.
fn inputs_first(composite: &Composite) -> bool
    ensures { result ≡ stand_before composite.now.inputs composite.now.outputs }
{
    match (
        composite.inputs.as_slice().first(),
        composite.outputs.as_slice().first(),
    ) {
        (Some(input), Some(output)) => input.name.at < output.name.at,
        _ => false,
    }
}

fn add_outputs<'u>(names: &mut Vec<GraphName<'u>>, ports: &'u [HeadPort]) -> Result<(), NoMemory>
    ensures { OnOk result (map shown names.new.items ≡ map shown names.old.items ++ map (λ p. OutputPort p.name) ports.now) }
{
    for port in ports {
        names.push(GraphName::Output(&port.name))?;
    }
    Ok(())
}

fn add_inputs<'u>(names: &mut Vec<GraphName<'u>>, ports: &'u [HeadPort]) -> Result<(), NoMemory>
    ensures { OnOk result (map shown names.new.items ≡ map shown names.old.items ++ map (λ p. InputPort p.name) ports.now) }
{
    for port in ports {
        names.push(GraphName::Input(&port.name))?;
    }
    Ok(())
}

/// The ports of the head, in the order of the text.
fn add_head<'u>(names: &mut Vec<GraphName<'u>>, composite: &'u Composite) -> Result<(), NoMemory>
    ensures { OnOk result (map shown names.new.items ≡ map shown names.old.items ++ head_names composite.now) }
{
    if inputs_first(composite) {
        add_inputs(names, composite.inputs.as_slice())?;
        add_outputs(names, composite.outputs.as_slice())
    } else {
        add_outputs(names, composite.outputs.as_slice())?;
        add_inputs(names, composite.inputs.as_slice())
    }
}

fn add_streams<'u>(
    names: &mut Vec<GraphName<'u>>,
    streams: &'u [OutputStream],
) -> Result<(), NoMemory>
    ensures { OnOk result (map shown names.new.items ≡ map shown names.old.items ++ map (λ o. MadeStream o.name) streams.now) }
{
    for stream in streams {
        names.push(GraphName::Stream(&stream.name))?;
    }
    Ok(())
}

fn add_invocation<'u>(
    names: &mut Vec<GraphName<'u>>,
    invocation: &'u Invocation,
) -> Result<(), NoMemory>
    ensures { OnOk result (map shown names.new.items ≡ map shown names.old.items ++ invocation_names invocation.now) }
{
    add_streams(names, invocation.outputs.as_slice())?;
    if let Some(alias) = &invocation.alias {
        names.push(GraphName::Alias(alias))?;
    }
    Ok(())
}

fn add_invocations<'u>(
    names: &mut Vec<GraphName<'u>>,
    graph: &'u [Invocation],
) -> Result<(), NoMemory>
    ensures { OnOk result (map shown names.new.items ≡ map shown names.old.items ++ flat_map invocation_names graph.now) }
{
    for invocation in graph {
        add_invocation(names, invocation)?;
    }
    Ok(())
}

/// The first of a composite's streams, aliases and ports whose name may not follow those before it.
pub(super) fn repeated_in_graph<'u>(alloc: Global, composite: &'u Composite) -> Repeated<'u>
    ensures { IfOk result (λ found. option_copied found ≡ first_of (map declared_name (repeated is_declared (graph_names composite.now)))) }
{
    let mut names = Vec::new(alloc);
    add_head(&mut names, composite)?;
    add_invocations(&mut names, composite.graph.as_slice())?;
    first_repeated_in(alloc, names.as_slice())
}
