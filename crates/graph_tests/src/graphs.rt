//! The graphs of programs, or their first refusals.
mod large;
mod refusals;
mod rows;
pub(crate) mod shells;

use crate::asked::Asked;
use test_texts::rows::{Untrue, expect};

#[test]
fn programs_have_their_graphs_or_first_refusals(rt: HostRuntime) -> Result<(), Untrue> {
    expect(rt.alloc(), &Asked::Graph, &[rows::ROWS, refusals::ROWS])
}

#[test]
fn sinks_have_files_beside_those_of_the_command_line(rt: HostRuntime) -> Result<(), Untrue> {
    expect(rt.alloc(), &Asked::GraphBesideFiles, &[refusals::BESIDE])
}

#[test]
fn long_programs_have_their_graphs_or_first_refusals(rt: HostRuntime) -> Result<(), Untrue> {
    expect(rt.alloc(), &Asked::GraphCounts, &[large::ROWS])
}

#[test]
fn composites_may_nest_deep(rt: HostRuntime) -> Result<(), Untrue> {
    expect(rt.alloc(), &Asked::GraphCounts, &[large::NESTED])
}

#[test]
fn composites_far_from_one_another_may_too(rt: HostRuntime) -> Result<(), Untrue> {
    expect(rt.alloc(), &Asked::GraphCounts, &[large::SCATTERED])
}

#[test]
fn long_circles_are_refused(rt: HostRuntime) -> Result<(), Untrue> {
    expect(rt.alloc(), &Asked::GraphCounts, &[large::CIRCLES])
}
