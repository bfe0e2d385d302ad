//! What the analyses say of programs: of operators, of chains, and the plans.
ghost use Rattle.std.specs.Prelude.{◌≡◌, ◌<◌, length, IfOk};
ghost use Rattle.stream_model.specs.CheckedMeaning.{graph_of};
ghost use Rattle.stream_model.specs.Meaning.{Graph};
ghost use Rattle.attribute_flow.specs.Chains.{AreNumbers};
ghost use Rattle.graph_tests.specs.Below.{AreBelow};

mod chains;
mod operators;
mod plan_texts;
mod plans;
pub(crate) mod shells;

use crate::analyses::plan_texts::add_plan;
use crate::asked::{Analysis, Asked};
use attribute_flow::{source_of, trace};
use language_model::Checked;
use selectivity_rules::gives;
use spl_value::{Ids, Items};
use state_analysis::state_of;
use std::alloc::{AllocError, Global};
use stream_model::{Gives, StateKind};
use test_texts::rows::{Untrue, expect, expect_spread};
use test_texts::text::Text;

fn class_text(class: Gives) -> &'static str {
    match class {
        Gives::One => "One;",
        Gives::AtMostOne => "AtMostOne;",
        Gives::Many => "Many;",
    }
}

fn add_state(text: &mut Text, state: &StateKind) {
    match state {
        StateKind::Stateless => text.add(" Stateless;"),
        StateKind::Whole => text.add(" Whole;"),
        StateKind::Keyed(places) => {
            text.add(" Keyed");
            for place in places.as_slice() {
                text.add_place(" ", *place);
            }
            text.add(";");
        }
    }
}

fn add_source(text: &mut Text, source: Option<u32>) {
    match source {
        Some(place) => text.add_place(" ", place),
        None => text.add(" -"),
    }
}

/// How many attributes the first output of an operator has.
fn width_of(checked: &Checked, op: u32) -> u32 {
    let Some(op) = checked.graph.ops.get(op as usize) else {
        return 0;
    };
    let Some(stream) = op.outs.get(0) else {
        return 0;
    };
    match checked.schemas.get(*stream as usize) {
        Some(schema) => u32::try_from(schema.len()).unwrap_or(0),
        None => 0,
    }
}

fn add_operator(alloc: Global, text: &mut Text, checked: &Checked, op: u32)
    requires { op < length checked.now.parts }
{
    text.add(class_text(gives(checked, op)));
    match state_of(alloc, checked, op) {
        Ok(state) => add_state(text, &state),
        Err(_) => text.add(" memory;"),
    }
    for attribute in 0..width_of(checked, op) {
        add_source(text, source_of(checked, op, attribute));
    }
}

fn add_chain(text: &mut Text, checked: &Checked, chain: &Ids, width: u32)
    requires { (g : Graph) → graph_of checked.now ≡ g → AreNumbers g chain.now }
{
    text.add("chain");
    for attribute in 0..width {
        add_source(text, trace(checked, chain, attribute));
    }
}

/// The numbers from 1 to below that one.
fn numbers_below(alloc: Global, count: u32) -> Result<Ids, AllocError>
    ensures { IfOk result (λ chain. AreBelow count chain) }
{
    let mut numbers = Vec::new(alloc);
    for number in 1..count {
        numbers.push(number)?;
    }
    Ok(Items::from_vec(numbers))
}

/// Adds what the analyses say.
pub(crate) fn add_analysis(alloc: Global, text: &mut Text, checked: &Checked, asked: Analysis) {
    let Ok(count) = u32::try_from(checked.parts.len()) else {
        return text.add("many operators");
    };
    let Some(last) = count.checked_sub(1) else {
        return text.add("no operator");
    };
    match asked {
        Analysis::Operator => add_operator(alloc, text, checked, last),
        Analysis::Chain => match numbers_below(alloc, count) {
            Ok(chain) => add_chain(text, checked, &chain, width_of(checked, last)),
            Err(_) => text.add("memory"),
        },
        Analysis::Plan => add_plan(alloc, text, checked),
    }
}

#[test]
fn operators_keep_copy_and_cause_what_their_clauses_say(rt: HostRuntime) -> Result<(), Untrue> {
    let alloc = rt.alloc();
    expect(
        alloc,
        &Asked::Analysis(Analysis::Operator),
        &[operators::ROWS],
    )
    .and(expect(alloc, &Asked::Analysis(Analysis::Chain), &[chains::ROWS]))
}

#[test]
fn regions_are_those_that_the_rules_determine(rt: HostRuntime) -> Result<(), Untrue> {
    let alloc = rt.alloc();
    expect(alloc, &Asked::Analysis(Analysis::Plan), &[plans::ROWS]).and(expect_spread(
        alloc,
        &Asked::Analysis(Analysis::Plan),
        plans::LONG,
    ))
}
