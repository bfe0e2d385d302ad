//! What is asked of the tables.
use crate::asked::Asked;
use crate::statements;
use crate::types::{changes, integers, literals, names, operators, scoped};
use language_texts::Place;
use spl_tree::Marker;
use test_texts::rows::{Untrue, expect, expect_each};

const TUPLE: Place = Place {
    unit: scoped::UNIT,
    came: None,
    composite: None,
};

const HIDING: Place = Place {
    unit: scoped::HIDING,
    came: None,
    composite: None,
};

const COMPOSITE: Place = Place {
    unit: scoped::UNIT,
    came: None,
    composite: Some(scoped::COMPOSITE),
};

const MARKER: Place = Place {
    unit: scoped::UNIT,
    came: Some(Marker::Window),
    composite: None,
};

const SYS: Place = Place {
    unit: scoped::SYS,
    came: Some(Marker::Window),
    composite: None,
};

const TYPES: [&str; 5] = [
    literals::ROWS,
    integers::ROWS,
    operators::ROWS,
    names::ROWS,
    changes::ROWS,
];

const TYPES_ELSEWHERE: &[(Asked, &str)] = &[
    (Asked::Type(HIDING), scoped::HIDDEN),
    (Asked::Type(COMPOSITE), scoped::IN_COMPOSITE),
    (Asked::Type(MARKER), scoped::MARKED),
    (Asked::Type(SYS), scoped::NAMED),
];

const STATEMENTS: &[(Asked, &str)] = &[
    (Asked::Statement(TUPLE), statements::tables::ROWS),
    (Asked::Statement(HIDING), statements::tables::HIDDEN),
    (
        Asked::Statement(COMPOSITE),
        statements::tables::IN_COMPOSITE,
    ),
    (Asked::Statement(MARKER), statements::tables::MARKED),
];

#[test]
fn expressions_have_types_where_a_tuple_came(rt: HostRuntime) -> Result<(), Untrue> {
    expect(rt.alloc(), &Asked::Type(TUPLE), &TYPES)
}

#[test]
fn expressions_have_types_in_other_scopes(rt: HostRuntime) -> Result<(), Untrue> {
    expect_each(rt.alloc(), TYPES_ELSEWHERE)
}

#[test]
fn types_are_as_they_are_written(rt: HostRuntime) -> Result<(), Untrue> {
    expect(rt.alloc(), &Asked::Written, &[scoped::WRITTEN])
}

#[test]
fn types_have_defaults_and_are_the_same_as_their_copies_alone(
    rt: HostRuntime,
) -> Result<(), Untrue> {
    let asked = Asked::Default(scoped::DEFAULTS);
    expect(rt.alloc(), &asked, &[scoped::DEFAULTS])
}

#[test]
fn statements_are_what_they_say(rt: HostRuntime) -> Result<(), Untrue> {
    expect_each(rt.alloc(), STATEMENTS)
}
