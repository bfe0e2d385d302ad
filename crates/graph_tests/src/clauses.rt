//! What the rules of types and clauses find out about programs, or their first refusals.
mod bodies;
mod bytes;
mod dollars;
mod logic;
mod operators;
mod orders;
mod outputs;
mod parameters;
mod parts;
pub(crate) mod shells;
mod types;
mod values;
mod windows;
mod worked;

use crate::asked::{Asked, Characters};
use test_texts::rows::{Untrue, expect};

#[test]
fn bodies_are_accepted_or_have_their_first_refusals(rt: HostRuntime) -> Result<(), Untrue> {
    let rows = [bodies::ROWS, logic::ROWS, dollars::ROWS];
    expect(rt.alloc(), &Asked::Counts, &rows)
}

#[test]
fn operators_are_accepted_or_have_their_first_refusals(rt: HostRuntime) -> Result<(), Untrue> {
    let rows = [
        operators::ROWS,
        outputs::ROWS,
        parameters::ROWS,
        windows::ROWS,
    ];
    expect(rt.alloc(), &Asked::Counts, &rows)
}

#[test]
fn programs_are_accepted_or_have_their_first_refusals(rt: HostRuntime) -> Result<(), Untrue> {
    let rows = [orders::ROWS, types::ROWS, values::ROWS, worked::ROWS];
    expect(rt.alloc(), &Asked::Counts, &rows)
}

#[test]
fn programs_of_all_bytes_are_accepted_or_refused(rt: HostRuntime) -> Result<(), Untrue> {
    expect(rt.alloc(), &Characters, &[bytes::ROWS])
}

#[test]
fn operators_keep_what_their_clauses_say(rt: HostRuntime) -> Result<(), Untrue> {
    expect(rt.alloc(), &Asked::Parts, &[parts::CLAUSES])
}

#[test]
fn streams_have_their_attributes(rt: HostRuntime) -> Result<(), Untrue> {
    expect(rt.alloc(), &Asked::Types, &[parts::TYPES])
}

#[test]
fn types_are_bounded_in_depth_and_parts(rt: HostRuntime) -> Result<(), Untrue> {
    expect(rt.alloc(), &Asked::Counts, &[types::BOUNDS])
}
