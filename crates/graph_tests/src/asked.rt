//! What is asked of the programs of rows.
use crate::analyses::add_analysis;
use crate::reading::unit_of;
use crate::records::add_run;
use crate::{analyses, clauses, graphs};
use clause_rules::{CheckAnswer, check};
use composite_expand::{ExpandAnswer, expand};
use graph_texts::checked::{add_parts, add_schemas};
use graph_texts::graphs::add_graph;
use language_model::{Checked, ExpansionRefusal};
use spl_tree::{Graph, Unit};
use spl_value::{Items, Name};
use std::alloc::{AllocError, Global};
use test_texts::refusals::{add_check_refusal, expansion_refusal};
use test_texts::rows::Answers;
use test_texts::shells::program;
use test_texts::text::Text;

/// What is asked of a program. What is refused has its first refusal instead.
#[derive(Clone, Copy)]
pub(crate) enum Asked<'t> {
    /// Its graph.
    Graph,
    /// Its graph where the command line has the files `o` and `p`.
    GraphBesideFiles,
    /// How many operators, streams and bodies its graph has: `2 operators 1 streams 3 bodies`.
    GraphCounts,
    /// How many operators and streams it has where it is accepted: `ok 3 operators 2 streams`.
    Counts,
    /// What is kept of each operator.
    Parts,
    /// The attributes of each stream.
    Types,
    /// What the analyses say of it.
    Analysis(Analysis),
    /// Its run from the files and in the order of this row.
    Run(&'t str),
}

/// What is asked of the analyses.
#[derive(Clone, Copy)]
pub(crate) enum Analysis {
    /// The class, the state and the sources of the last operator: `One; Keyed 0 2; 0 -`.
    Operator,
    /// The sources along the chain of the operators but the first: `0 -`.
    Chain,
    /// The regions: `turns -: F; pulses k: A`.
    Plan,
}

/// A program in which each character means the byte of its number.
pub(crate) struct Characters;

impl Answers for Asked<'_> {
    fn answer(&self, alloc: Global, text: &str) -> Result<String, AllocError> {
        let program = program(alloc, shells(*self), text)?;
        answered(alloc, program.as_str().as_bytes(), *self)
    }
}

impl Answers for Characters {
    fn answer(&self, alloc: Global, text: &str) -> Result<String, AllocError> {
        let mut program = Vec::new(alloc);
        for character in text.chars() {
            if let Ok(byte) = u8::try_from(u32::from(character)) {
                program.push(byte)?;
            }
        }
        answered(alloc, program.as_slice(), Asked::Counts)
    }
}

// What stands around the texts of rows.
fn shells(asked: Asked) -> &'static str {
    match asked {
        Asked::Graph | Asked::GraphBesideFiles | Asked::GraphCounts => graphs::shells::SHELLS,
        Asked::Counts | Asked::Parts | Asked::Types => clauses::shells::SHELLS,
        Asked::Analysis(_) | Asked::Run(_) => analyses::shells::SHELLS,
    }
}

fn add_count(out: &mut Text, count: usize, what: &str) {
    out.add_number(count as i128);
    out.add(what);
}

fn add_counts(out: &mut Text, graph: &Graph) {
    add_count(out, graph.ops.len(), " operators ");
    add_count(out, graph.streams.len(), " streams");
}

fn add_of_checked(alloc: Global, out: &mut Text, checked: &Checked, asked: Asked) {
    match asked {
        Asked::Parts => add_parts(out, checked),
        Asked::Types => add_schemas(out, checked),
        Asked::Analysis(analysis) => add_analysis(alloc, out, checked, analysis),
        Asked::Run(row) => add_run(alloc, out, checked, row),
        _ => {
            out.add("ok ");
            add_counts(out, &checked.graph);
        }
    }
}

// Adds what is asked of a checked graph, where there is one.
fn add_found(alloc: Global, out: &mut Text, found: Result<Checked, CheckAnswer>, asked: Asked) {
    match found {
        Ok(checked) => add_of_checked(alloc, out, &checked, asked),
        Err(CheckAnswer::Refused(refusal)) => add_check_refusal(out, &refusal),
        Err(CheckAnswer::Memory) => out.add("memory"),
    }
}

fn add_expansion_refusal(alloc: Global, out: &mut Text, refusal: &ExpansionRefusal) {
    match expansion_refusal(alloc, refusal) {
        Ok(refusal) => out.add(refusal.as_str()),
        Err(_) => out.add("memory"),
    }
}

// Adds what is asked of a unit where the command line has these files.
fn add_of_unit(alloc: Global, out: &mut Text, unit: &Unit, files: &Items<Name>, asked: Asked) {
    match expand(alloc, unit, files) {
        Ok(graph) => match asked {
            Asked::Graph | Asked::GraphBesideFiles => add_graph(out, &graph),
            Asked::GraphCounts => {
                add_counts(out, &graph);
                out.add(" ");
                add_count(out, graph.expansions.len(), " bodies");
            }
            _ => add_found(alloc, out, check(alloc, unit, graph), asked),
        },
        Err(ExpandAnswer::Refused(refusal)) => add_expansion_refusal(alloc, out, &refusal),
        Err(ExpandAnswer::Memory) => out.add("memory"),
    }
}

// The files of the command line.
fn files(alloc: Global, asked: Asked) -> Result<Items<Name>, AllocError> {
    let mut files = Items::new(alloc);
    if let Asked::GraphBesideFiles = asked {
        for file in ["o", "p"] {
            files.push(Items::from_slice(alloc, file.as_bytes())?)?;
        }
    }
    Ok(files)
}

/// The answer to a program.
pub(crate) fn answered(alloc: Global, program: &[u8], asked: Asked) -> Result<String, AllocError> {
    let files = files(alloc, asked)?;
    let mut out = Text::new(alloc);
    match unit_of(alloc, program) {
        Ok(unit) => add_of_unit(alloc, &mut out, &unit, &files, asked),
        Err(wanting) => out.add(wanting),
    }
    out.finish()
}
