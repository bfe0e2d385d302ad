//! The values of the parameters of a composite. They are settled one by one, each after those that
//! its default mentions.
ghost use Rattle.std.specs.Prelude.{◌≡◌, ◌<◌, [], ℕ, IfOk, OnOk, IsTrue, ◌↔◌, true, false, slice_get, take, length, ◌≤◌};
ghost use Rattle.std.specs.List.{Contains};
ghost use Rattle.spl_tree.specs.declared.unit.CompositeParameter.{CompositeParameter};
ghost use Rattle.language_model.specs.Parameters.{constant_scope, parameter_leads};
ghost use Rattle.language_model.specs.parts.Parameters.{parameters_given};
ghost use Rattle.dollar_rules.specs.steps.Given.{IsDone, IsReady, is_marked, marks_in, means};
ghost use Rattle.dollar_rules.specs.steps.Settling.{IsSettled, Settles, given_of};
ghost use Rattle.written_types.specs.TypeScopes.{types_in};

use crate::heads::Head;
use language_laws::dollars_law;
use language_model::{Dollar, Scope, Signatures};
use spl_tree::MOST_HEIGHT;
use spl_value::{Items, NoMemory};
use std::alloc::Global;
use written_types::narrow;

/// A scope in which nothing can be named.
pub(crate) fn no_names(alloc: Global) -> Scope
    ensures { result ≡ constant_scope [] }
{
    Scope {
        vars: Items::new(alloc),
        ports: Items::new(alloc),
        functions: Signatures::new(alloc),
        unresolved: Items::new(alloc),
        dollars: Items::new(alloc),
        punct: false,
    }
}

/// Some of the parameters of a composite, with their values.
#[derive(Drop)]
pub(crate) struct Settled {
    /// Where they can be named, in the order of the head.
    scope: Scope,
    /// Which they are.
    marks: Vec<bool>,
}

fn count_marks(marks: &[bool]) -> usize
    ensures { result ≡ marks_in marks.now }
{
    let mut count = 0;
    for mark in marks {
        if *mark {
            count += 1;
        }
    }
    count
}

impl Settled {
    fn new(alloc: Global, head: &Head) -> Result<Settled, NoMemory>
        ensures { IfOk result (λ settled. IsSettled (given_of head.now) settled) }
    {
        let scope = no_names(alloc);
        let marks = vec![in alloc; false; head.parameters.len()]?;
        Ok(Settled { scope, marks })
    }

    fn has(&self, place: u32) -> bool
        ensures { result ≡ is_marked self.now.marks.items place }
    {
        self.marks.get(place as usize).copied().unwrap_or(false)
    }

    /// Settles a parameter whose default mentions none that isn't settled.
    fn add(&mut self, alloc: Global, head: &Head, place: u32) -> Result<(), NoMemory>
        requires settled { IsSettled (given_of head.now) self.old }
        requires within { place < length head.now.parameters.now }
        requires meant { (p : CompositeParameter) → slice_get head.now.parameters.now place ≡ Some p → means (given_of head.now) place p ≡ true }
        requires open { is_marked self.old.marks.items place ≡ false }
        requires ready { IsReady (given_of head.now) self.old.marks.items place }
        ensures { OnOk result (Settles (given_of head.now) self.old self.new place) }
    {
        dollars_law();
        let at = place as usize;
        let parameter = &head.parameters[at];
        let found = head.found(alloc, &self.scope, parameter)?;
        let name = Items::from_slice(alloc, parameter.name.what.as_slice())?;
        let before = count_marks(&self.marks[..at]);
        self.scope.dollars.insert(before, Dollar { name, found })?;
        self.marks[at] = true;
        Ok(())
    }
}

/// Settles a parameter, after those that its default leads to. Where that row is too long, there is
/// no memory for it.
fn settle(
    alloc: Global,
    head: &Head,
    settled: &mut Settled,
    place: u32,
    left: u32,
) -> Result<(), NoMemory>
    requires { IsSettled (given_of head.now) settled.old }
    ensures { OnOk result (Settles (given_of head.now) settled.old settled.new place) }
{
    if !head.has_meaning(place) || settled.has(place) {
        return Ok(());
    }
    let Some(fewer) = left.checked_sub(1) else {
        return Err(NoMemory);
    };
    for next in head.leads(place) {
        settle(alloc, head, settled, *next, fewer)?;
    }
    if settled.has(place) {
        return Ok(());
    }
    settled.add(alloc, head, place)
}

/// Settles all parameters.
fn settle_each(alloc: Global, head: &Head, settled: &mut Settled) -> Result<(), NoMemory>
    requires { IsSettled (given_of head.now) settled.old }
    ensures settled { OnOk result (IsSettled (given_of head.now) settled.new) }
    ensures done { OnOk result ((place : ℕ) → place < length head.now.parameters.now → IsDone (given_of head.now) settled.new.marks.items place) }
{
    for at in 0..head.parameters.len() {
        settle(alloc, head, settled, narrow(at)?, MOST_HEIGHT)?;
    }
    Ok(())
}

/// The values of the parameters of a composite, in the order of its head.
pub(crate) fn settle_all(alloc: Global, head: &Head) -> Result<Scope, NoMemory>
    ensures { IfOk result (λ own. own
        ≡ constant_scope (parameters_given (types_in head.now.types) head.now.outer.now.dollars head.now.arguments.now head.now.parameters.now)) }
{
    let mut settled = Settled::new(alloc, head)?;
    settle_each(alloc, head, &mut settled)?;
    Ok(settled.scope)
}
