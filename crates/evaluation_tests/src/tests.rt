//! What is asked of the tables.
use crate::asked::Asked;
use crate::chains::chain;
use crate::{bodies, chains, values};
use test_texts::rows::{Untrue, expect_each};

const BODIES: &[(Asked, &str)] = &[
    (Asked::Body, bodies::tables::ROWS),
    (Asked::Body, bodies::tables::MAPS),
    (Asked::Body, bodies::tables::REFUSED),
    (Asked::Functions, bodies::tables::FUNCTIONS_REFUSED),
];

#[test]
fn expressions_come_to_their_values(rt: HostRuntime) -> Result<(), Untrue> {
    expect_each(rt.alloc(), values::tables::ROWS)
}

#[test]
fn bodies_leave_what_they_say_or_are_refused(rt: HostRuntime) -> Result<(), Untrue> {
    expect_each(rt.alloc(), BODIES)
}

#[test]
fn a_million_turns_are_run(rt: HostRuntime) -> Result<(), Untrue> {
    expect_each(rt.alloc(), &[(Asked::Body, bodies::tables::MILLIONS)])
}

#[test]
fn calls_nest_at_most_so_deep(rt: HostRuntime) -> Result<(), Untrue> {
    let unit = chain(rt.alloc()).finish()?;
    expect_each(
        rt.alloc(),
        &[(Asked::Value(unit.as_str(), None), chains::ROWS)],
    )
}
