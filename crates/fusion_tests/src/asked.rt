//! What is asked of the programs of rows.
use crate::reading::checked_of;
use crate::rows;
use crate::shape_texts::{Shown, add_fused};
use std::alloc::{AllocError, Global};
use test_texts::rows::{Answers, Untrue, expect, expect_spread};
use test_texts::shells::program;
use test_texts::text::Text;

/// The shape of a program at a width.
#[derive(Clone, Copy)]
struct Fused {
    width: u32,
    shown: Shown,
}

impl Answers for Fused {
    fn answer(&self, alloc: Global, text: &str) -> Result<String, AllocError> {
        let program = program(alloc, rows::SHELLS, text)?;
        let mut out = Text::new(alloc);
        match checked_of(alloc, program.as_str().as_bytes()) {
            Ok(checked) => add_fused(alloc, &mut out, &checked, self.width, self.shown),
            Err(wanting) => out.add(wanting),
        }
        out.finish()
    }
}

fn fused_at(width: u32, shown: Shown) -> Fused {
    Fused { width, shown }
}

#[test]
fn elements_and_links_are_those_that_the_rules_determine(rt: HostRuntime) -> Result<(), Untrue> {
    let alloc = rt.alloc();
    expect(alloc, &fused_at(1, Shown::All), &[rows::ONE])
        .and(expect(alloc, &fused_at(2, Shown::All), &[rows::TWO]))
        .and(expect(alloc, &fused_at(4, Shown::All), &[rows::FOUR]))
}

#[test]
fn elements_belong_to_workers_by_turns(rt: HostRuntime) -> Result<(), Untrue> {
    expect(rt.alloc(), &fused_at(4, Shown::Groups(3)), &[rows::GROUPS])
}

#[test]
fn elements_have_their_inputs_and_outputs(rt: HostRuntime) -> Result<(), Untrue> {
    let alloc = rt.alloc();
    expect(alloc, &fused_at(1, Shown::Ports), &[rows::PORTS_AT_ONE]).and(expect(
        alloc,
        &fused_at(2, Shown::Ports),
        &[rows::PORTS_AT_TWO],
    ))
}

#[test]
fn wide_programs_have_at_most_2048_elements(rt: HostRuntime) -> Result<(), Untrue> {
    let alloc = rt.alloc();
    expect_spread(alloc, &fused_at(15, Shown::Size), rows::FIFTEEN).and(expect_spread(
        alloc,
        &fused_at(16, Shown::Size),
        rows::SIXTEEN,
    ))
}
