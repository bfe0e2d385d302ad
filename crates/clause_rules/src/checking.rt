//! From the graph of a program to a checked one.
ghost use Rattle.std.specs.Prelude.{◌≡◌, ℕ, List, Ok, length};
ghost use Rattle.language_model.specs.Checking.{checked};
ghost use Rattle.language_model.specs.parts.Checking.{each_stream, operators_checked};
ghost use Rattle.language_model.specs.Flat.{IsFlat};
ghost use Rattle.language_model.specs.Numbering.{numbers_from};
ghost use Rattle.language_model.specs.Parameters.{dollar_tables};
ghost use Rattle.stream_rules.specs.Streams.{IsTableOf};
ghost use Rattle.language_model.specs.Finds.{Finds};
ghost use Rattle.clause_rules.specs.steps.Programs.{AreInvoked, found_in};

use crate::operators::{Program, operators_checked};
use body_rules::{functions_of, scope_of_unit};
use body_sites::Sites;
use check_laws::keeps_law;
use dollar_rules::dollar_tables;
use graph_laws::flat_law;
use language_model::{Checked, CheckedClauses, TypeAnswer, narrow};
use spl_tree::{Graph, Unit};
use spl_value::{Items, Schema};
use std::alloc::Global;
use stream_rules::StreamTable;

/// Why a graph isn't checked: its first refusal by the rules of types and clauses, or a lack of memory.
pub type CheckAnswer = TypeAnswer;

/// The parts of a graph's operators, and the attributes of its streams.
#[derive(Drop)]
struct PartsAndSchemas {
    parts: Items<CheckedClauses>,
    schemas: Items<Schema>,
}

/// The attributes of each stream.
fn each_stream(
    alloc: Global,
    sites: &Sites,
    graph: &Graph,
    streams: &StreamTable,
) -> Result<Items<Schema>, TypeAnswer>
    requires { IsTableOf sites.now.unit.now graph.now streams.now }
    ensures { Finds (each_stream sites.now.unit.now graph.now (numbers_from 0 (length graph.now.streams))) result }
{
    let count = narrow(graph.streams.len())?;
    let mut schemas = Items::new(alloc);
    for stream in 0..count {
        let schema = streams.attributes(alloc, stream)?;
        schemas.push(schema)?;
    }
    Ok(schemas)
}

/// The parts of the operators, where this is what is known of bodies and streams.
fn parts_of<'a>(
    alloc: Global,
    graph: &'a Graph,
    sites: &Sites<'a>,
    streams: &StreamTable,
) -> Result<Items<CheckedClauses>, TypeAnswer>
    requires table { IsTableOf sites.now.unit.now graph.now streams.now }
    requires expansions { sites.now.expansions.now ≡ graph.now.expansions }
    requires invoked { AreInvoked sites.now.unit.now graph.now }
    ensures { Finds (operators_checked sites.now.unit.now graph.now (dollar_tables sites.now.unit.now graph.now.expansions) graph.now.ops) result }
{
    let mut scope = scope_of_unit(alloc, sites.unit)?;
    let tables = dollar_tables(alloc, sites.unit, graph.expansions.as_slice())?;
    let mut tables = tables.into_vec();
    let program = Program {
        graph,
        sites,
        streams,
    };
    operators_checked(alloc, &program, &mut scope, tables.as_mut_slice())
}

/// What is found of the operators and of the streams.
fn found_of<'a>(
    alloc: Global,
    unit: &'a Unit,
    graph: &'a Graph,
) -> Result<PartsAndSchemas, TypeAnswer>
    requires { AreInvoked unit.now graph.now }
    ensures { Finds (found_in unit.now graph.now) result }
{
    let expansions = graph.expansions.as_slice();
    let sites = Sites::new(alloc, unit, expansions)?;
    let streams = StreamTable::new(alloc, &sites, graph)?;
    let parts = parts_of(alloc, graph, &sites, &streams)?;
    let schemas = each_stream(alloc, &sites, graph, &streams)?;
    Ok(PartsAndSchemas { parts, schemas })
}

/// The checked graph of a unit whose graph this is.
///
/// `Refused` comes with the first refusal: of a function in the order of the text, or else of an
/// operator in the order of their declaration. Of an operator these are looked at in turn: how many
/// ports it has, the types of its outputs and inputs, `config`, the window, the parameters, the outputs,
/// the logic, and the rows of a file. `Memory` is as that of `type_of`, and is also the answer for types of
/// more than a million parts and for what nests more than a thousand deep.
pub fn check(alloc: Global, unit: &Unit, graph: Graph) -> Result<Checked, CheckAnswer>
    requires { (names : List (List ℕ)) × IsFlat unit.now names (Ok graph) }
    ensures { Finds (checked unit.now graph) result }
{
    keeps_law();
    flat_law();
    let functions = functions_of(alloc, unit)?;
    let PartsAndSchemas { parts, schemas } = found_of(alloc, unit, &graph)?;
    Ok(Checked {
        graph,
        schemas,
        functions,
        parts,
    })
}
