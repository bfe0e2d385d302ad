//! The expansion of the main composite, invocation by invocation.
ghost use Rattle.std.specs.Prelude.{◌≡◌, ◌++◌, ◌∷◌, [], ◌<◌, ◌≤◌, ◌^◌, ℕ, List, min, sum_by, suc, true, false, codes, IfOk, OnOk, MatchResult, None, Some, take, length, reverse, slice_get, IsTrue, ◌↔◌};
ghost use Rattle.spl_tree.specs.Trees.{placed};
ghost use Rattle.spl_tree.specs.declared.unit.Composite.{Composite};
ghost use Rattle.spl_tree.specs.declared.unit.Definition.{Definition};
ghost use Rattle.spl_tree.specs.declared.unit.Invocation.{Invocation};
ghost use Rattle.language_model.specs.declared.expansion.ExpansionError.TheVariants as E;
ghost use Rattle.language_model.specs.Refusals.{named_refusal};
ghost use Rattle.composite_expand.specs.declared.answer.ExpandAnswer.TheVariants as X;
ghost use Rattle.language_model.specs.Composites.{composites as composites_of};
ghost use Rattle.language_model.specs.Declarations.{first_of};
ghost use Rattle.language_model.specs.Expansion.{invocation_name, operation as operation_at};
ghost use Rattle.language_model.specs.parts.Expansion.{label_of as label_in, ports_of as ports_in};
ghost use Rattle.language_model.specs.Invoking.{Operator, Body as BodyOf, target_of, undeclared, fits_head as fits};
ghost use Rattle.language_model.specs.Recursion.{HasNoRecursion, composite_callers};
ghost use Rattle.language_model.specs.Scopes.{At, at_place};
ghost use Rattle.composite_expand.specs.steps.Walking.{IsIdle};
ghost use Rattle.composite_expand.specs.steps.Walks.{IsFurther, IsAt, IsOver, IsOn, IsGoing, OpensWith, GoesOn, Refuses, Starts, IsExpanded};

use crate::answer::ExpandAnswer;
use crate::invoking::{Target, target_of, undeclared};
use composite_tables::{
    Body, Composites, Input, Scope, connections, fits_head, inputs_of, sources_by_port,
};
use language_model::{ExpansionError, ExpansionRefusal, Operation};
use spl_tree::{Invocation, OpKind, Site};
use spl_value::{Items, Name, NoMemory};
use std::alloc::Global;

/// The most operators that a graph has.
const MOST_OPERATORS: usize = 256;

/// A graph has fewer connections.
const TOO_MANY_CONNECTIONS: u32 = 1 << 30;

/// A body that is being expanded.
#[derive(Clone, Copy)]
pub(crate) struct Opened {
    /// The place of its composite.
    pub(crate) composite: u32,
    /// Its number among the bodies.
    pub(crate) number: u32,
    /// The number of the invocation that comes next in its graph.
    pub(crate) next: u32,
    /// How much of the names on the way stands in front of each name in it.
    pub(crate) prefix: usize,
    /// How many operators there were before it.
    pub(crate) ops: usize,
}

/// The way through bodies within bodies, and what stands of the graph.
#[derive(Drop)]
pub(crate) struct Walk {
    /// The bodies on the way, the main one first.
    pub(crate) opened: Items<Opened>,
    /// The names of the invocations on the way, a dot after each.
    pub(crate) names: Vec<u8>,
    pub(crate) ops: Items<Operation>,
    pub(crate) bodies: Items<Body>,
    /// What the inputs of the bodies take.
    pub(crate) inputs: Items<Items<Input>>,
    /// How many streams the operators take.
    pub(crate) connections: u32,
    /// For each composite, whether it was expanded and made no operator.
    pub(crate) idle: Items<bool>,
}

/// The body, one invocation further.
fn further(top: Opened) -> Result<Opened, NoMemory>
    ensures { IfOk result (λ p. IsFurther top p) }
{
    let Some(next) = top.next.checked_add(1) else {
        return Err(NoMemory);
    };
    Ok(Opened {
        composite: top.composite,
        number: top.number,
        next,
        prefix: top.prefix,
        ops: top.ops,
    })
}

/// Passes over an invocation of a composite that is known to make no operator.
fn pass_over(walk: &mut Walk, top: Opened) -> Result<(), NoMemory>
    ensures { OnOk result ((unit : List Definition) (main : At Composite) (c : Composite) (i : Invocation) (d : At Composite) → IsAt unit main walk.old top c i
        → first_of (undeclared unit c i) ≡ None → target_of unit i.operator.what ≡ BodyOf d → fits d.what i ≡ true → IsIdle unit d.what d.what.graph
        → GoesOn unit main walk.old top walk.new) }
{
    let on = further(top)?;
    walk.opened.push(on)?;
    Ok(())
}

/// Closes a body whose invocations are all done. One that made no operator isn't kept.
fn close(walk: &mut Walk, top: Opened)
    requires { top.composite < length walk.old.idle }
    ensures { (unit : List Definition) (main : At Composite) (c : Composite) → IsOver unit main walk.old top c → GoesOn unit main walk.old top walk.new }
{
    if walk.opened.is_empty() || walk.ops.len() != top.ops {
        return;
    }
    let _ = walk.bodies.pop();
    let _ = walk.inputs.pop();
    walk.idle.set(top.composite as usize, true);
}

/// The alias or else the first output stream.
fn name_of(invocation: &Invocation) -> &[u8]
    ensures { result.now ≡ invocation_name invocation.now }
{
    if let Some(alias) = &invocation.alias {
        return alias.what.as_slice();
    }
    match invocation.outputs.as_slice() {
        [output, ..] => output.name.what.as_slice(),
        [] => &[],
    }
}

/// The first output stream or else the alias.
fn label_of(invocation: &Invocation) -> &[u8]
    ensures { result.now ≡ label_in invocation.now invocation.now.outputs }
{
    match invocation.outputs.as_slice() {
        [output, ..] => output.name.what.as_slice(),
        [] => name_of(invocation),
    }
}

/// A name within a body, after its prefix.
fn within(alloc: Global, prefix: &[u8], name: &[u8]) -> Result<Name, NoMemory>
    ensures { IfOk result (λ whole. whole ≡ prefix.now ++ name.now) }
{
    let mut whole = Vec::from_slice(alloc, prefix)?;
    whole.extend_from_slice(name)?;
    Ok(Items::from_vec(whole))
}

/// Keeps the first `prefix` bytes of the names, and puts the name of an invocation and a dot after them.
fn enter(names: &mut Vec<u8>, prefix: usize, invocation: &Invocation) -> Result<(), NoMemory>
    ensures { OnOk result (names.new.items ≡ take prefix names.old.items ++ invocation_name invocation.now ++ codes ".") }
{
    names.truncate(prefix);
    names.extend_from_slice(name_of(invocation))?;
    names.push(b'.')?;
    Ok(())
}

/// The inputs of the body that an invocation in the scope's composite opens.
fn inner_inputs(
    alloc: Global,
    walk: &Walk,
    top: Opened,
    scope: &Scope<'_>,
    invocation: &Invocation,
) -> Result<Items<Input>, NoMemory>
    requires { top.number < length walk.now.inputs }
    ensures { IfOk result (λ row. (unit : List Definition) (main d : At Composite) (is : IsAt unit main walk.now top scope.now.composite.now invocation.now)
        → fits d.what invocation.now ≡ true → OpensWith is.at.made.expansions top d row) }
{
    let site = Site {
        expansion: top.number,
        invocation: top.next,
    };
    let row = &walk.inputs.as_slice()[top.number as usize];
    inputs_of(alloc, scope, row.as_slice(), site, invocation)
}

/// Opens the body of the composite at a place, which an invocation in the scope's composite invokes.
fn open(
    alloc: Global,
    walk: &mut Walk,
    top: Opened,
    scope: &Scope<'_>,
    invocation: &Invocation,
    place: u32,
) -> Result<(), NoMemory>
    requires { top.number < length walk.old.inputs }
    ensures { OnOk result ((unit : List Definition) (main d : At Composite) → HasNoRecursion (composite_callers unit)
        → IsAt unit main walk.old top scope.now.composite.now invocation.now → first_of (undeclared unit scope.now.composite.now invocation.now) ≡ None
        → target_of unit invocation.now.operator.what ≡ BodyOf d → fits d.what invocation.now ≡ true → d.place ≡ place → GoesOn unit main walk.old top walk.new) }
{
    let on = further(top)?;
    let Ok(number) = u32::try_from(walk.bodies.len()) else {
        return Err(NoMemory);
    };
    let row = inner_inputs(alloc, walk, top, scope, invocation)?;
    enter(&mut walk.names, top.prefix, invocation)?;
    let inner = Opened {
        composite: place,
        number,
        next: 0,
        prefix: walk.names.as_slice().len(),
        ops: walk.ops.len(),
    };
    let body = Body {
        composite: place,
        site: Some(Site {
            expansion: top.number,
            invocation: top.next,
        }),
    };
    walk.bodies.push(body)?;
    walk.inputs.push(row)?;
    walk.opened.push(on)?;
    walk.opened.push(inner)?;
    Ok(())
}

/// The operator of an invocation in the body.
fn operation(
    alloc: Global,
    composites: &Composites<'_>,
    walk: &Walk,
    top: Opened,
    invocation: &Invocation,
    kind: OpKind,
) -> Result<Operation, NoMemory>
    requires { top.prefix ≤ length walk.now.names.items }
    ensures { IfOk result (λ op. (main : At Composite) (c : Composite) (is : IsAt composites.now.unit.now main walk.now top c invocation.now)
        → op ≡ operation_at is.at.made.expansions is.at.f.opened is.at.f.next invocation.now kind) }
{
    let prefix = &walk.names[..top.prefix];
    let Ok(outputs) = u32::try_from(invocation.outputs.len()) else {
        return Err(NoMemory);
    };
    Ok(Operation {
        name: within(alloc, prefix, name_of(invocation))?,
        label: within(alloc, prefix, label_of(invocation))?,
        kind,
        ins: sources_by_port(
            alloc,
            composites,
            walk.bodies.as_slice(),
            walk.inputs.as_slice(),
            top.number,
            invocation,
        )?,
        outputs,
        site: Site {
            expansion: top.number,
            invocation: top.next,
        },
        at: invocation.at,
    })
}

/// How many streams an invocation in the body takes, of which no more than 2^30 are counted.
fn connections_at(walk: &Walk, top: Opened, scope: &Scope<'_>, invocation: &Invocation) -> u32
    requires { top.number < length walk.now.inputs }
    ensures { (unit : List Definition) (main : At Composite) (is : IsAt unit main walk.now top scope.now.composite.now invocation.now)
        → result ≡ min (sum_by length (ports_in is.at.made.expansions top.number invocation.now)) (2 ^ 30) }
{
    let row = &walk.inputs.as_slice()[top.number as usize];
    connections(scope, top.number, row.as_slice(), invocation)
}

/// Adds the operator of an invocation in the scope's composite, where there may be one more.
fn add(
    alloc: Global,
    composites: &Composites<'_>,
    walk: &mut Walk,
    top: Opened,
    scope: &Scope<'_>,
    invocation: &Invocation,
    kind: OpKind,
) -> Result<(), ExpandAnswer>
    requires number { top.number < length walk.old.inputs }
    requires prefix { top.prefix ≤ length walk.old.names.items }
    ensures { (main : At Composite) → IsAt composites.now.unit.now main walk.old top scope.now.composite.now invocation.now
        → first_of (undeclared composites.now.unit.now scope.now.composite.now invocation.now) ≡ None
        → target_of composites.now.unit.now invocation.now.operator.what ≡ Operator kind
        → MatchResult result (λ _. GoesOn composites.now.unit.now main walk.old top walk.new) (Refuses composites.now.unit.now main) }
{
    let on = further(top)?;
    let count = connections_at(walk, top, scope, invocation);
    let total = walk.connections.saturating_add(count);
    if walk.ops.len() >= MOST_OPERATORS || total >= TOO_MANY_CONNECTIONS {
        return Err(ExpandAnswer::Refused(ExpansionRefusal {
            error: ExpansionError::TooMany,
            at: invocation.at,
            name: None,
        }));
    }
    let made = operation(alloc, composites, walk, top, invocation, kind)?;
    walk.ops.push(made)?;
    walk.connections = total;
    walk.opened.push(on)?;
    Ok(())
}

/// The refusal of a name at a place that isn't declared.
fn unknown(alloc: Global, at: u32, name: &Name) -> Result<ExpandAnswer, NoMemory>
    ensures { IfOk result (λ answer. answer ≡ X.Refused (named_refusal E.Unknown (placed at name.now))) }
{
    let what = Items::from_slice(alloc, name.as_slice())?;
    Ok(ExpandAnswer::Refused(ExpansionRefusal {
        error: ExpansionError::Unknown,
        at,
        name: Some(what),
    }))
}

/// The refusal of an invocation that doesn't fit the head of the composite that it invokes.
fn misfit(alloc: Global, invocation: &Invocation) -> Result<ExpandAnswer, NoMemory>
    ensures { IfOk result (λ answer. answer ≡ X.Refused (named_refusal E.Ports (placed invocation.now.at invocation.now.operator.what))) }
{
    let what = Items::from_slice(alloc, invocation.operator.what.as_slice())?;
    Ok(ExpandAnswer::Refused(ExpansionRefusal {
        error: ExpansionError::Ports,
        at: invocation.at,
        name: Some(what),
    }))
}

/// Whether the composite at a place is known to make no operator.
fn is_idle(walk: &Walk, place: u32) -> bool
    ensures { IsTrue result ↔ (slice_get walk.now.idle place ≡ Some true) }
{
    match walk.idle.get(place as usize) {
        Some(mark) => *mark,
        None => false,
    }
}

/// Expands the body of the composite at a place, which an invocation in the scope's composite invokes.
fn invoke(
    alloc: Global,
    walk: &mut Walk,
    top: Opened,
    scope: &Scope<'_>,
    invocation: &Invocation,
    place: u32,
    head: &Scope<'_>,
) -> Result<(), ExpandAnswer>
    requires { top.number < length walk.old.inputs }
    ensures { (unit : List Definition) (main : At Composite) → HasNoRecursion (composite_callers unit)
        → IsAt unit main walk.old top scope.now.composite.now invocation.now → first_of (undeclared unit scope.now.composite.now invocation.now) ≡ None
        → target_of unit invocation.now.operator.what ≡ BodyOf (at_place place head.now.composite.now)
        → MatchResult result (λ _. GoesOn unit main walk.old top walk.new) (Refuses unit main) }
{
    if !fits_head(alloc, head, invocation)? {
        return Err(misfit(alloc, invocation)?);
    }
    if is_idle(walk, place) {
        pass_over(walk, top)?;
        return Ok(());
    }
    open(alloc, walk, top, scope, invocation, place)?;
    Ok(())
}

/// Does the next invocation of the innermost body, or closes the body where there is none.
fn step(
    alloc: Global,
    composites: &Composites<'_>,
    walk: &mut Walk,
    top: Opened,
) -> Result<(), ExpandAnswer>
    requires { IsGoing composites.now.unit.now walk.old (top ∷ reverse walk.old.opened) }
    ensures { (main : At Composite) → HasNoRecursion (composite_callers composites.now.unit.now) → IsOn composites.now.unit.now main walk.old (top ∷ reverse walk.old.opened)
        → MatchResult result (λ _. GoesOn composites.now.unit.now main walk.old top walk.new) (Refuses composites.now.unit.now main) }
{
    let Some(scope) = composites.scope_at(top.composite) else {
        unreachable!();
    };
    let Some(invocation) = scope.composite.graph.get(top.next as usize) else {
        close(walk, top);
        return Ok(());
    };
    if let Some(name) = undeclared(alloc, composites, scope, invocation)? {
        return Err(unknown(alloc, name.at, name.what)?);
    }
    match target_of(composites, invocation.operator.what.as_slice()) {
        Target::Operator(kind) => add(alloc, composites, walk, top, scope, invocation, kind),
        Target::Body(place, head) => invoke(alloc, walk, top, scope, invocation, place, head),
        Target::Nothing => {
            let operator = &invocation.operator;
            Err(unknown(alloc, operator.at, &operator.what)?)
        }
    }
}

/// Marks for `count` composites: none of them is known to make no operator.
fn no_marks(alloc: Global, count: u32) -> Result<Items<bool>, NoMemory>
    ensures { IfOk result (λ marks. (length marks ≡ count) × ((k : ℕ) → slice_get marks k ≡ Some true → ⊥)) }
{
    let mut marks = Items::new(alloc);
    for _ in 0..count {
        marks.push(false)?;
    }
    Ok(marks)
}

/// The body of the main composite, which is at that place, where nothing of it was expanded yet.
fn main_opened(alloc: Global, main: u32) -> Result<Items<Opened>, NoMemory>
    ensures { IfOk result (λ opened. opened ≡ record { composite = main; number = 0; next = 0; prefix = 0; ops = 0 } ∷ []) }
{
    let mut opened = Items::new(alloc);
    opened.push(Opened {
        composite: main,
        number: 0,
        next: 0,
        prefix: 0,
        ops: 0,
    })?;
    Ok(opened)
}

fn main_body(alloc: Global, main: u32) -> Result<Items<Body>, NoMemory>
    ensures { IfOk result (λ bodies. bodies ≡ record { composite = main; site = None } ∷ []) }
{
    let mut bodies = Items::new(alloc);
    bodies.push(Body {
        composite: main,
        site: None,
    })?;
    Ok(bodies)
}

/// The main composite has no inputs.
fn main_inputs(alloc: Global) -> Result<Items<Items<Input>>, NoMemory>
    ensures { IfOk result (λ inputs. inputs ≡ [] ∷ []) }
{
    let mut inputs = Items::new(alloc);
    inputs.push(Items::new(alloc))?;
    Ok(inputs)
}

/// The way with the main composite alone, which is at that place.
fn begun(alloc: Global, composites: &Composites<'_>, main: u32) -> Result<Walk, NoMemory>
    ensures { IfOk result (λ walk. (m : At Composite) → Starts composites.now.unit.now main m → IsOn composites.now.unit.now m walk (reverse walk.opened)) }
{
    let opened = main_opened(alloc, main)?;
    let bodies = main_body(alloc, main)?;
    let inputs = main_inputs(alloc)?;
    let idle = no_marks(alloc, composites.count())?;
    Ok(Walk {
        opened,
        names: Vec::new(alloc),
        ops: Items::new(alloc),
        bodies,
        inputs,
        connections: 0,
        idle,
    })
}

/// Expands the main composite, which is at that place.
pub(crate) fn expand_main(
    alloc: Global,
    composites: &Composites<'_>,
    main: u32,
) -> Result<Walk, ExpandAnswer>
    requires { (m : At Composite) × Starts composites.now.unit.now main m }
    ensures { (m : At Composite) → Starts composites.now.unit.now main m → MatchResult result (IsExpanded composites.now.unit.now m) (Refuses composites.now.unit.now m) }
{
    let mut walk = begun(alloc, composites, main)?;
    'bodies: while let Some(top) = walk.opened.pop() {
        match step(alloc, composites, &mut walk, top) {
            Ok(()) => {}
            Err(answer) => return Err(answer),
        }
    }
    Ok(walk)
}
