//! Bodies of expansions.
ghost use Rattle.std.specs.Prelude.{◌≡◌};
ghost use Rattle.program_tables.specs.SameComposites.{same_composite};

mod naming;

use crate::names::BodyNames;
use spl_tree::{Composite, Expansion};

/// The body of an expansion, with its number.
#[derive(Clone, Copy)]
pub struct Body<'a> {
    pub number: u32,
    pub expansion: &'a Expansion,
    pub composite: &'a Composite,
    names: &'a BodyNames<'a>,
    ghost named: { names.now.composite.now ≡ composite.now } by { same_composite _ _ },
}
