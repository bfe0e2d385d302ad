//! The operators of a graph, in the order of their declaration.
ghost use Rattle.std.specs.Prelude.{◌≡◌, [], false, length, slice_set, IfOk};
ghost use Rattle.language_model.specs.Checking.{clauses_checked, operator_checked, parameters_checked};
ghost use Rattle.language_model.specs.parts.Checking.{is_partitioned, operators_checked};
ghost use Rattle.language_model.specs.FlatLaws.{IsInvoked};
ghost use Rattle.language_model.specs.FunctionTyping.{unit_scope};
ghost use Rattle.language_model.specs.Parameters.{table_at};
ghost use Rattle.literal_sites.specs.Sites.{site_seen};
ghost use Rattle.body_sites.specs.Bodies.{body_seen};
ghost use Rattle.stream_rules.specs.Streams.{IsTableOf};
ghost use Rattle.language_model.specs.Finds.{Finds};
ghost use Rattle.clause_rules.specs.steps.Operators.{around_seen, site_at};
ghost use Rattle.clause_rules.specs.steps.Programs.{AreInvoked, IsBody, invocation_in, program_unit};

use crate::parts::{Around, Checks, output_rows, part_of};
use crate::ports::{config_checked, outputs_of, ports_checked, ports_of};
use body_sites::{Body, Sites};
use language_model::{
    CheckError, CheckedClauses, Dollar, Given, Policy, Scope, TypeAnswer, refused,
};
use literal_sites::{ExpressionSite, Follow};
use parameter_rules::parameters_of;
use spl_tree::{Clauses, Graph, Invocation, Op, Parameter};
use spl_value::Items;
use std::alloc::Global;
use std::mem::replace;
use stream_rules::{StreamTable, port_types};
use window_rules::{is_partitioned, windows_of};

/// A graph with what is found once for all of its operators.
#[derive(Clone, Copy)]
pub(crate) struct Program<'p, 'a> {
    pub(crate) graph: &'a Graph,
    pub(crate) sites: &'p Sites<'a>,
    pub(crate) streams: &'p StreamTable,
}

/// The parameters of an operator with these windows.
fn given_of(
    alloc: Global,
    site: &ExpressionSite,
    op: &Op,
    windows: &[Policy],
    parameters: &[Parameter],
) -> Result<Items<Given>, TypeAnswer>
    ensures { Finds (parameters_checked (site_seen site.now) op.now.kind (is_partitioned windows.now) op.now.at parameters.now) result }
{
    let partitioned = is_partitioned(windows);
    parameters_of(alloc, site, op.kind, partitioned, op.at, parameters)
}

/// The clauses of an operator, whose ports are those of the scope.
fn clauses_checked(
    alloc: Global,
    around: &Around,
    follow: &Follow,
    scope: &mut Scope,
    op: &Op,
    clauses: &Clauses,
) -> Result<CheckedClauses, TypeAnswer>
    requires no_variables { scope.old.vars ≡ [] }
    requires no_marker { scope.old.punct ≡ false }
    ensures part { Finds (clauses_checked op.now (site_at scope.old follow.now) (around_seen around.now scope.old) clauses.now) result }
    ensures same_scope { IfOk result (λ _. scope.new ≡ scope.old) }
{
    config_checked(alloc, clauses.config.as_slice())?;
    let site = ExpressionSite {
        scope: &*scope,
        follow: *follow,
    };
    let windows = windows_of(alloc, &site, op.kind, op.at, clauses.window.as_ref())?;
    let parameters = clauses.parameters.as_slice();
    let given = given_of(alloc, &site, op, windows.as_slice(), parameters)?;
    let rows = output_rows(alloc, op.kind, clauses.output.as_ref())?;
    let checks = Checks {
        at: op.at,
        windows,
        given,
    };
    part_of(alloc, around, scope, checks, clauses, rows, op.kind)
}

/// The operator of an invocation in a body. The scope has the functions of the unit and the
/// `$` parameters of the body, and gets the ports.
fn invocation_checked(
    alloc: Global,
    program: &Program,
    scope: &mut Scope,
    op: &Op,
    body: &Body,
    invocation: &Invocation,
) -> Result<CheckedClauses, TypeAnswer>
    requires table { IsTableOf (program_unit program.now) program.now.graph.now program.now.streams.now }
    requires expansions { program.now.sites.now.expansions.now ≡ program.now.graph.now.expansions }
    requires body { IsBody (program_unit program.now) program.now.graph.now (body_seen body.now) }
    requires outs { length op.now.outs ≡ length invocation.now.outputs }
    requires no_variables { scope.old.vars ≡ [] }
    requires no_marker { scope.old.punct ≡ false }
    requires no_ports { scope.old.ports ≡ [] }
    ensures part { Finds (invocation_in (program_unit program.now) program.now.graph.now scope.old op.now (body_seen body.now) invocation.now) result }
    ensures same_scope { IfOk result (λ _. scope.new ≡ scope.old) }
{
    ports_checked(op, invocation)?;
    let types = port_types(
        alloc,
        program.sites,
        program.graph,
        program.streams,
        body,
        op,
        invocation,
    )?;
    scope.ports = ports_of(alloc, &invocation.inputs, types.ins)?;
    let outputs = outputs_of(alloc, &invocation.outputs, types.outs)?;
    let around = Around {
        types: body.types(program.sites),
        outputs: outputs.as_slice(),
    };
    let follow = Follow::new(&program.sites.table, body.number);
    let part = clauses_checked(alloc, &around, &follow, scope, op, &invocation.clauses)?;
    scope.ports = Items::new(alloc);
    Ok(part)
}

/// The values of the `$` parameters of an expansion, taken out of the tables.
fn take_table(alloc: Global, tables: &mut [Items<Dollar>], number: u32) -> Items<Dollar>
    ensures table { result ≡ table_at tables.old number }
    ensures others { tables.new ≡ slice_set tables.old number [] }
{
    let at = number as usize;
    let nothing = Items::new(alloc);
    if at < tables.len() {
        replace(&mut tables[at], nothing)
    } else {
        nothing
    }
}

/// Puts it back.
fn put_table(tables: &mut [Items<Dollar>], number: u32, own: Items<Dollar>)
    ensures { tables.new ≡ slice_set tables.old number own }
{
    let at = number as usize;
    if at < tables.len() {
        tables[at] = own;
    }
}

/// An operator with the `$` parameters of the body in which it stands.
fn operator_checked(
    alloc: Global,
    program: &Program,
    scope: &mut Scope,
    tables: &mut [Items<Dollar>],
    op: &Op,
) -> Result<CheckedClauses, TypeAnswer>
    requires table { IsTableOf (program_unit program.now) program.now.graph.now program.now.streams.now }
    requires expansions { program.now.sites.now.expansions.now ≡ program.now.graph.now.expansions }
    requires invoked { IsInvoked (program_unit program.now) program.now.graph.now op.now }
    requires scope { scope.old ≡ unit_scope (program_unit program.now) }
    ensures part { Finds (operator_checked (program_unit program.now) program.now.graph.now tables.old op.now) result }
    ensures same_scope { IfOk result (λ _. scope.new ≡ scope.old) }
    ensures same_tables { IfOk result (λ _. tables.new ≡ tables.old) }
{
    let number = op.site.expansion;
    let Some(body) = program.sites.body(number) else {
        return Err(refused(CheckError::Mismatch, op.at));
    };
    let Some(invocation) = body.composite.graph.get(op.site.invocation as usize) else {
        return Err(refused(CheckError::Mismatch, op.at));
    };
    scope.dollars = take_table(alloc, tables, number);
    let part = invocation_checked(alloc, program, scope, op, &body, invocation)?;
    let own = replace(&mut scope.dollars, Items::new(alloc));
    put_table(tables, number, own);
    Ok(part)
}

/// The clauses of each operator, or the first refusal of one.
pub(crate) fn operators_checked(
    alloc: Global,
    program: &Program,
    scope: &mut Scope,
    tables: &mut [Items<Dollar>],
) -> Result<Items<CheckedClauses>, TypeAnswer>
    requires table { IsTableOf (program_unit program.now) program.now.graph.now program.now.streams.now }
    requires expansions { program.now.sites.now.expansions.now ≡ program.now.graph.now.expansions }
    requires invoked { AreInvoked (program_unit program.now) program.now.graph.now }
    requires scope { scope.old ≡ unit_scope (program_unit program.now) }
    ensures { Finds (operators_checked (program_unit program.now) program.now.graph.now tables.old program.now.graph.now.ops) result }
{
    let mut parts = Items::new(alloc);
    for op in program.graph.ops.as_slice() {
        let part = operator_checked(alloc, program, scope, tables, op)?;
        parts.push(part)?;
    }
    Ok(parts)
}
