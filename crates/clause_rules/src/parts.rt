//! The clauses of an operator with their codes.
ghost use Rattle.std.specs.Prelude.{◌≡◌, [], false, map, codes, IfOk, Ok};
ghost use Rattle.std.specs.List.{list_all};
ghost use Rattle.std.specs.Option.{option_copied};
ghost use Rattle.spl_value.specs.declared.types.SplType.TheViews.{out-SplType};
ghost use Rattle.spl_tree.specs.declared.graph.OpKind.TheVariants as O;
ghost use Rattle.language_model.specs.declared.checked.CheckedClauses.TheVariants as A;
ghost use Rattle.language_model.specs.Checking.{has_text_form, logic_checked, part_of, plain, there};
ghost use Rattle.language_model.specs.parts.Checking.{code_given, file_sink, file_source, aggregated, functor, joined, level_text_form, output_rows, places_given, position_given, punctor, split, union};
ghost use Rattle.language_model.specs.LogicTyping.{logic_typing};
ghost use Rattle.language_model.specs.Typing.{after};
ghost use Rattle.language_model.specs.Finds.{Finds};
ghost use Rattle.clause_rules.specs.steps.Operators.{around_seen, checks_seen, groups_at, rows_of_schemas, rows_seen, tuple_at};

use crate::logic::logic_of;
use body_rules::empty_port;
use language_model::{
    CheckError, CheckedClauses, CollectedAttribute, Given, Policy, Port, Position, Scope,
    TypeAnswer, refused, refused_name,
};
use operator_kinds::rules_of;
use output_rules::{groups_of, places_of, tuple_of};
use parameter_rules::{position_given, strict_given, take_code, take_file, take_places};
use spl_tree::{Clauses, Code, Logic, OpKind, OutputAssignments, Placed, Slot};
use spl_value::{Attribute, Items, Places, SplType};
use std::alloc::Global;
use written_types::TypeScope;

/// What is around the expressions of an operator: what names of types mean, and its outputs.
#[derive(Clone, Copy)]
pub(crate) struct Around<'s, 'u> {
    pub(crate) types: TypeScope<'s, 'u>,
    pub(crate) outputs: &'s [Port],
}

/// What is known of an operator before its outputs and its logic are looked at: its place, its windows
/// and its parameters.
#[derive(Drop)]
pub(crate) struct Checks {
    pub(crate) at: u32,
    pub(crate) windows: Items<Policy>,
    pub(crate) given: Items<Given>,
}

/// The rows of the output clause. An operator that has none is refused at the clause's word.
pub(crate) fn output_rows(
    alloc: Global,
    kind: OpKind,
    clause: Option<&Placed<Items<OutputAssignments>>>,
) -> Result<&[OutputAssignments], TypeAnswer>
    ensures { Finds (output_rows kind (option_copied clause.entry)) (rows_seen result) }
{
    match clause {
        None => Ok(&[]),
        Some(clause) if rules_of(kind).output.is_some() => Ok(clause.what.as_slice()),
        Some(clause) => Err(refused_name(alloc, CheckError::ExtraParameter, clause.at, b"output")),
    }
}

/// Refuses the logic of an operator that has none.
fn logic_checked(
    alloc: Global,
    kind: OpKind,
    logic: Option<&Placed<Logic>>,
) -> Result<(), TypeAnswer>
    ensures { Finds (logic_checked kind (option_copied logic.entry)) result }
{
    match logic {
        Some(logic) if !rules_of(kind).logic => {
            Err(refused_name(alloc, CheckError::LeftOut, logic.at, b"logic"))
        }
        _ => Ok(()),
    }
}

/// What is found of an operator whose logic isn't looked at any more.
fn without_logic<T: Drop>(
    alloc: Global,
    kind: OpKind,
    clauses: &Clauses,
    found: T,
) -> Result<T, TypeAnswer>
    ensures { Finds (after (logic_checked kind clauses.now.logic) (λ _. Ok found)) result }
{
    logic_checked(alloc, kind, clauses.logic.as_ref())?;
    Ok(found)
}

/// A part of an operator whose logic isn't looked at any more.
fn plain(
    alloc: Global,
    kind: OpKind,
    clauses: &Clauses,
    part: CheckedClauses,
) -> Result<CheckedClauses, TypeAnswer>
    ensures { Finds (plain kind clauses.now part) result }
{
    without_logic(alloc, kind, clauses, part)
}

fn has_field(kind: &SplType) -> bool
    ensures { result ≡ level_text_form (out-SplType kind.now) }
{
    matches!(kind, SplType::Int(_) | SplType::Bool | SplType::Text)
}

fn has_text_form(schema: &[Attribute]) -> bool
    ensures { result ≡ has_text_form schema.now }
{
    for attribute in schema {
        if !has_field(&attribute.kind) {
            return false;
        }
    }
    true
}

/// Refuses attributes of a file that have no text in a row.
fn rows_checked(at: u32, ports: &[Port]) -> Result<(), TypeAnswer>
    ensures { Finds (rows_of_schemas at (map (λ p. p.schema) ports.now)) result }
{
    for port in ports {
        if !has_text_form(port.schema.as_slice()) {
            return Err(refused(CheckError::NoTextForm, at));
        }
    }
    Ok(())
}

fn file_source(
    alloc: Global,
    around: &Around,
    scope: &Scope,
    checks: Checks,
    clauses: &Clauses,
) -> Result<CheckedClauses, TypeAnswer>
    ensures { Finds (file_source (checks_seen around.now scope.now checks) clauses.now) result }
{
    logic_checked(alloc, OpKind::FileSource, clauses.logic.as_ref())?;
    rows_checked(checks.at, around.outputs)?;
    let mut given = checks.given;
    let strict = strict_given(given.as_slice());
    let file = take_file(alloc, &mut given);
    Ok(CheckedClauses::FileSource { file, strict })
}

fn file_sink(
    alloc: Global,
    around: &Around,
    scope: &Scope,
    checks: Checks,
    clauses: &Clauses,
) -> Result<CheckedClauses, TypeAnswer>
    ensures { Finds (file_sink (checks_seen around.now scope.now checks) clauses.now) result }
{
    logic_checked(alloc, OpKind::FileSink, clauses.logic.as_ref())?;
    rows_checked(checks.at, scope.ports.as_slice())?;
    let mut given = checks.given;
    let file = take_file(alloc, &mut given);
    Ok(CheckedClauses::FileSink { file })
}

fn filter(alloc: Global, checks: Checks, clauses: &Clauses) -> Result<CheckedClauses, TypeAnswer>
    ensures { Finds (plain O.Filter clauses.now (A.Filter (code_given checks.given (codes "filter")))) result }
{
    let mut given = checks.given;
    let condition = take_code(&mut given, b"filter");
    plain(
        alloc,
        OpKind::Filter,
        clauses,
        CheckedClauses::Filter { condition },
    )
}

/// The output of a Functor or a Join, as the code of a tuple.
fn tuple(
    alloc: Global,
    around: &Around,
    scope: &Scope,
    at: u32,
    rows: &[OutputAssignments],
) -> Result<Code<Slot>, TypeAnswer>
    ensures { Finds (tuple_at around.now scope.now at rows.now) result }
{
    match around.outputs.first() {
        Some(output) => tuple_of(alloc, scope, at, output, rows),
        None => {
            let nothing = empty_port(alloc);
            tuple_of(alloc, scope, at, &nothing, rows)
        }
    }
}

/// What is there since it was needed.
fn there<T: Drop>(at: u32, found: Option<T>) -> Result<T, TypeAnswer>
    ensures { Finds (there at found) result }
{
    match found {
        Some(found) => Ok(found),
        None => Err(refused(CheckError::Mismatch, at)),
    }
}

fn functor(
    alloc: Global,
    around: &Around,
    scope: &Scope,
    checks: Checks,
    clauses: &Clauses,
    rows: &[OutputAssignments],
) -> Result<CheckedClauses, TypeAnswer>
    ensures { Finds (functor (checks_seen around.now scope.now checks) clauses.now rows.now) result }
{
    let output = tuple(alloc, around, scope, checks.at, rows)?;
    let mut given = checks.given;
    let condition = take_code(&mut given, b"filter");
    plain(
        alloc,
        OpKind::Functor,
        clauses,
        CheckedClauses::Functor { condition, output },
    )
}

/// The condition of a Punctor, and where it puts its markers.
fn marking_of(given: Items<Given>) -> (Option<Code<Slot>>, Option<Position>)
    ensures condition { result.0 ≡ code_given given (codes "punctuation") }
    ensures position { result.1 ≡ position_given given }
{
    let position = position_given(given.as_slice());
    let mut given = given;
    (take_code(&mut given, b"punctuation"), position)
}

fn punctor(alloc: Global, checks: Checks, clauses: &Clauses) -> Result<CheckedClauses, TypeAnswer>
    ensures { (around : Around) (scope : Scope) → Finds (punctor (checks_seen around scope checks) clauses.now) result }
{
    let (condition, position) = marking_of(checks.given);
    let condition = there(checks.at, condition)?;
    let position = there(checks.at, position)?;
    plain(
        alloc,
        OpKind::Punctor,
        clauses,
        CheckedClauses::Punctor {
            condition,
            position,
        },
    )
}

fn split(alloc: Global, checks: Checks, clauses: &Clauses) -> Result<CheckedClauses, TypeAnswer>
    ensures { (around : Around) (scope : Scope) → Finds (split (checks_seen around scope checks) clauses.now) result }
{
    let mut given = checks.given;
    let index = there(checks.at, take_code(&mut given, b"index"))?;
    plain(
        alloc,
        OpKind::Split,
        clauses,
        CheckedClauses::Split { index },
    )
}

fn union(
    alloc: Global,
    around: &Around,
    scope: &Scope,
    checks: Checks,
    clauses: &Clauses,
) -> Result<CheckedClauses, TypeAnswer>
    ensures { Finds (union (checks_seen around.now scope.now checks) clauses.now) result }
{
    let schema = match around.outputs.first() {
        Some(output) => output.schema.as_slice(),
        None => &[],
    };
    let places = places_of(alloc, checks.at, schema, scope.ports.as_slice())?;
    plain(
        alloc,
        OpKind::Union,
        clauses,
        CheckedClauses::Union { places },
    )
}

/// The output of an Aggregate.
fn groups(
    alloc: Global,
    around: &Around,
    scope: &Scope,
    at: u32,
    rows: &[OutputAssignments],
) -> Result<Items<CollectedAttribute>, TypeAnswer>
    ensures { Finds (groups_at around.now scope.now at rows.now) result }
{
    match around.outputs.first() {
        Some(output) => groups_of(alloc, scope, at, output, rows),
        None => {
            let nothing = empty_port(alloc);
            groups_of(alloc, scope, at, &nothing, rows)
        }
    }
}

/// The attributes by whose values windows are told apart, and those by which groups are.
fn keys_of(alloc: Global, given: Items<Given>) -> (Places, Places)
    ensures partition { result.0 ≡ places_given given (codes "partitionBy") }
    ensures group { result.1 ≡ places_given given (codes "groupBy") }
{
    let mut given = given;
    let partition = take_places(alloc, &mut given, b"partitionBy");
    let group = take_places(alloc, &mut given, b"groupBy");
    (partition, group)
}

fn aggregate(
    alloc: Global,
    around: &Around,
    scope: &Scope,
    checks: Checks,
    clauses: &Clauses,
    rows: &[OutputAssignments],
) -> Result<CheckedClauses, TypeAnswer>
    ensures { Finds (aggregated (checks_seen around.now scope.now checks) clauses.now rows.now checks.windows) result }
{
    let [window, ..] = checks.windows.as_slice() else {
        return Err(refused(CheckError::BadWindow, checks.at));
    };
    let window = *window;
    let output = groups(alloc, around, scope, checks.at, rows)?;
    let (partition, group) = keys_of(alloc, checks.given);
    plain(
        alloc,
        OpKind::Aggregate,
        clauses,
        CheckedClauses::Aggregate {
            window,
            partition,
            group,
            output,
        },
    )
}

fn join(
    alloc: Global,
    around: &Around,
    scope: &Scope,
    checks: Checks,
    clauses: &Clauses,
    rows: &[OutputAssignments],
) -> Result<CheckedClauses, TypeAnswer>
    ensures { Finds (joined (checks_seen around.now scope.now checks) clauses.now rows.now checks.windows) result }
{
    let [left, right, ..] = checks.windows.as_slice() else {
        return Err(refused(CheckError::BadWindow, checks.at));
    };
    let (left, right) = (*left, *right);
    let output = tuple(alloc, around, scope, checks.at, rows)?;
    let mut given = checks.given;
    let condition = take_code(&mut given, b"match");
    plain(
        alloc,
        OpKind::Join,
        clauses,
        CheckedClauses::Join {
            left,
            right,
            condition,
            output,
        },
    )
}

fn custom(
    alloc: Global,
    around: &Around,
    scope: &mut Scope,
    _: Checks,
    clauses: &Clauses,
) -> Result<CheckedClauses, TypeAnswer>
    requires no_variables { scope.old.vars ≡ [] }
    requires no_marker { scope.old.punct ≡ false }
    ensures part { Finds (after (logic_typing (around_seen around.now scope.old) clauses.now.logic) (λ handlers. Ok (A.Custom handlers))) result }
    ensures same_scope { IfOk result (λ _. scope.new ≡ scope.old) }
{
    let logic = clauses.logic.as_ref();
    let handlers = logic_of(alloc, &around.types, scope, around.outputs, logic)?;
    Ok(CheckedClauses::Custom { handlers })
}

/// The clauses of an operator of a kind. The scope is changed on the way, and is as before where the
/// operator isn't refused.
pub(crate) fn part_of(
    alloc: Global,
    around: &Around,
    scope: &mut Scope,
    checks: Checks,
    clauses: &Clauses,
    rows: &[OutputAssignments],
    kind: OpKind,
) -> Result<CheckedClauses, TypeAnswer>
    requires no_variables { scope.old.vars ≡ [] }
    requires no_marker { scope.old.punct ≡ false }
    ensures part { Finds (part_of (checks_seen around.now scope.old checks) clauses.now rows.now kind) result }
    ensures same_scope { IfOk result (λ _. scope.new ≡ scope.old) }
{
    match kind {
        OpKind::FileSource => file_source(alloc, around, scope, checks, clauses),
        OpKind::FileSink => file_sink(alloc, around, scope, checks, clauses),
        OpKind::Filter => filter(alloc, checks, clauses),
        OpKind::Functor => functor(alloc, around, scope, checks, clauses, rows),
        OpKind::Punctor => punctor(alloc, checks, clauses),
        OpKind::Split => split(alloc, checks, clauses),
        OpKind::Union => union(alloc, around, scope, checks, clauses),
        OpKind::Custom => custom(alloc, around, scope, checks, clauses),
        OpKind::Aggregate => aggregate(alloc, around, scope, checks, clauses, rows),
        OpKind::Join => join(alloc, around, scope, checks, clauses, rows),
    }
}
