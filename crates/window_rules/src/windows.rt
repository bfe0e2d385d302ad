//! The windows of operators.
ghost use Rattle.std.specs.Prelude.{◌≡◌, [], ◌==◌, map, reverse};
ghost use Rattle.std.specs.List.{list_any};
ghost use Rattle.std.specs.Option.{option_copied};
ghost use Rattle.std.specs.Str.{bytes_eq};
ghost use Rattle.language_model.specs.Checking.{each_window, policy_of, windows_of_form};
ghost use Rattle.language_model.specs.parts.Checking.{is_partitioned, windows_checked};
ghost use Rattle.language_model.specs.Policies.{partitioned_last, partitioned_or_not, window_at, window_of, windows_typing};
ghost use Rattle.language_model.specs.parts.Policies.{aggregate_policy, join_policy};
ghost use Rattle.language_model.specs.Scopes.{first_from};
ghost use Rattle.language_model.specs.Finds.{Finds};
ghost use Rattle.literal_sites.specs.Sites.{numbers_at};
ghost use Rattle.window_rules.specs.steps.Windows.{ArePartitioned};

mod measures;
mod rules;

use language_model::{Policy, Port, TypeAnswer, WindowForm, narrow, port_named, unknown};
use literal_sites::{ExpressionSite, extra};
use operator_kinds::rules_of;
use rules::{aggregate_rule, bad_window, is_word, join_rule};
use spl_tree::{OpKind, Placed, PortWindow, WindowPart};
use spl_value::Items;
use std::alloc::Global;

/// A window as it is written: where its numbers stand, the port that it is of, and its clause, which
/// names the port.
#[derive(Clone, Copy)]
struct WrittenWindow<'s> {
    site: &'s ExpressionSite<'s>,
    port: &'s Port,
    clause: &'s PortWindow,
}

/// The windows of an operator's ports, in the order of these, by its window clause, where it has one. An
/// operator that has no windows has none.
///
/// `Refused` comes with the first window in the text that is refused: one of a port that isn't there or
/// that has a window already, or one with a part that doesn't stand in a window of the operator, or with a
/// number that is refused. After those it comes at the invocation, which is at `at`, where a port has no
/// window. A clause of an operator that has no windows is refused at its word. `Memory` is as that of
/// `type_of`.
pub fn windows_of(
    alloc: Global,
    site: &ExpressionSite,
    kind: OpKind,
    at: u32,
    clause: Option<&Placed<Items<PortWindow>>>,
) -> Result<Items<Policy>, TypeAnswer>
    ensures { Finds (windows_checked kind (numbers_at site.now) at site.now.scope.now.ports (option_copied clause.entry)) result }
{
    match rules_of(kind).window {
        Some(form) => windows_of_form(alloc, site, form, at, clause),
        None => match clause {
            None => Ok(Items::new(alloc)),
            Some(clause) => Err(extra(alloc, clause.at, b"window")),
        },
    }
}

/// The windows of ports that have one each.
fn windows_of_form(
    alloc: Global,
    site: &ExpressionSite,
    form: WindowForm,
    at: u32,
    clause: Option<&Placed<Items<PortWindow>>>,
) -> Result<Items<Policy>, TypeAnswer>
    ensures { Finds (windows_of_form (Some form) (numbers_at site.now) at site.now.scope.now.ports (option_copied clause.entry)) result }
{
    let ports = site.scope.ports.as_slice();
    match clause {
        None => each_window(alloc, at, &[], ports),
        Some(clause) => {
            let windows = windows_typing(alloc, site, form, ports, clause.what.as_slice())?;
            each_window(alloc, at, windows.as_slice(), ports)
        }
    }
}

/// Whether the first window of an operator is partitioned, which only an Aggregate's is.
pub fn is_partitioned(windows: &[Policy]) -> bool
    ensures { result ≡ is_partitioned windows.now }
{
    match windows.first() {
        Some(window) => window.partitioned,
        None => false,
    }
}

/// Windows of an operator's ports, by the places of these, in the order of the text.
fn windows_typing(
    alloc: Global,
    site: &ExpressionSite,
    form: WindowForm,
    ports: &[Port],
    windows: &[PortWindow],
) -> Result<Items<(u32, Policy)>, TypeAnswer>
    ensures { Finds (windows_typing (policy_of form (numbers_at site.now)) ports.now [] windows.now) result }
{
    let mut found = Items::new(alloc);
    for window in windows {
        let next = window_of(alloc, site, form, ports, found.as_slice(), window)?;
        found.push(next)?;
    }
    Ok(found)
}

/// A window after those that are found.
fn window_of(
    alloc: Global,
    site: &ExpressionSite,
    form: WindowForm,
    ports: &[Port],
    found: &[(u32, Policy)],
    window: &PortWindow,
) -> Result<(u32, Policy), TypeAnswer>
    ensures { Finds (window_of (policy_of form (numbers_at site.now)) (reverse (map (λ x. x.0) found.now)) window.now
        (first_from (λ p. bytes_eq p.name window.now.port.what) 0 ports.now)) result }
{
    let name = window.port.what.as_slice();
    let Some((place, port)) = port_named(ports, name) else {
        return Err(unknown(alloc, window.port.at, name));
    };
    let place = narrow(place)?;
    if has_window(found, place) {
        return Err(extra(alloc, window.port.at, b"window"));
    }
    let written = WrittenWindow {
        site,
        port,
        clause: window,
    };
    let policy = policy_of(alloc, form, &written)?;
    Ok((place, policy))
}

fn has_window(found: &[(u32, Policy)], place: u32) -> bool
    ensures { result ≡ list_any (λ n. n == place) (reverse (map (λ x. x.0) found.now)) }
{
    for (port, _) in found {
        if *port == place {
            return true;
        }
    }
    false
}

/// A window of the form.
fn policy_of(alloc: Global, form: WindowForm, window: &WrittenWindow) -> Result<Policy, TypeAnswer>
    ensures { Finds (policy_of form (numbers_at window.now.site.now) window.now.port.now window.now.clause.now) result }
{
    match form {
        WindowForm::Aggregate => aggregate_policy(alloc, window),
        WindowForm::Join => join_policy(alloc, window),
    }
}

fn aggregate_policy(alloc: Global, window: &WrittenWindow) -> Result<Policy, TypeAnswer>
    ensures { Finds (aggregate_policy (numbers_at window.now.site.now) window.now.port.now window.now.clause.now) result }
{
    let (partitioned, parts) = partitioned_or_not(window.clause.parts.as_slice());
    let rule = aggregate_rule(alloc, window, parts)?;
    Ok(Policy { partitioned, rule })
}

fn join_policy(alloc: Global, window: &WrittenWindow) -> Result<Policy, TypeAnswer>
    ensures { Finds (join_policy (numbers_at window.now.site.now) window.now.port.now window.now.clause.now) result }
{
    let rule = join_rule(alloc, window, window.clause.parts.as_slice())?;
    Ok(Policy {
        partitioned: false,
        rule,
    })
}

/// Whether `partitioned` stands first or last, and the parts without it.
fn partitioned_or_not(parts: &[WindowPart]) -> (bool, &[WindowPart])
    ensures { ArePartitioned (partitioned_or_not parts.now) result }
{
    let Some((first, rest)) = parts.split_first() else {
        return (false, parts);
    };
    if is_word(first, b"partitioned") {
        (true, rest)
    } else {
        partitioned_last(parts)
    }
}

fn partitioned_last(parts: &[WindowPart]) -> (bool, &[WindowPart])
    ensures { ArePartitioned (partitioned_last parts.now) result }
{
    let Some((last, rest)) = parts.split_last() else {
        return (false, parts);
    };
    if is_word(last, b"partitioned") {
        (true, rest)
    } else {
        (false, parts)
    }
}

/// The windows of all ports, in their order.
fn each_window(
    alloc: Global,
    at: u32,
    windows: &[(u32, Policy)],
    ports: &[Port],
) -> Result<Items<Policy>, TypeAnswer>
    ensures { Finds (each_window at windows.now 0 ports.now) result }
{
    let count = narrow(ports.len())?;
    let mut policies = Items::new(alloc);
    for port in 0..count {
        let policy = window_at(at, port, windows)?;
        policies.push(policy)?;
    }
    Ok(policies)
}

/// The window of the port at a place, or the refusal at the invocation where it has none.
fn window_at(at: u32, port: u32, windows: &[(u32, Policy)]) -> Result<Policy, TypeAnswer>
    ensures { Finds (window_at at port windows.now) result }
{
    for (place, policy) in windows {
        if *place == port {
            return Ok(*policy);
        }
    }
    Err(bad_window(at))
}
