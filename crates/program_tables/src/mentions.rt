//! The calls and the `$` parameters that stand in expressions, statements and clauses, in the order
//! of the text.
ghost use Rattle.std.specs.Prelude.{flat_map, ◌∷◌, [], ◌++◌, ◌≡◌, IfOk};
ghost use Rattle.std.specs.Option.{option_map_or};
ghost use Rattle.language_model.specs.Mentions.{expr_mentions, block_mentions, logic_mentions, clause_mentions};
ghost use Rattle.language_model.specs.parts.Mentions.{optional_mentions, declaration_mentions, statement_mentions, part_of_window_mentions, window_mentions, parameter_mentions, assignment_mentions};
ghost use Rattle.program_tables.specs.Mentioned.{mentioned, mentions_seen};
ghost use Rattle.program_tables.specs.steps.MentionParts.{Adds, entry_mentions, field_mentions, step_mentions, arm_mentions, other_mentions, handler_mentions, some_logic_mentions, some_window_mentions, some_output_mentions};

use spl_tree::{
    Clauses, Declaration, Expr, ExprKind, Field, Handler, Logic, OutputAssignments, Parameter,
    Placed, PortWindow, Step, Stmt, StmtKind, WindowPart,
};
use spl_value::{Items, Name, NoMemory};
use std::alloc::Global;

/// What is called, or the name of a `$` parameter without the `$`.
#[derive(Clone, Copy)]
pub enum Mention<'u> {
    Called(&'u Name),
    Dollar(&'u Name),
}

/// What is mentioned, in the order of the text, each where it stands.
pub type Mentions<'u> = Vec<Placed<Mention<'u>>>;

fn add<'u>(at: u32, what: Mention<'u>, out: &mut Mentions<'u>) -> Result<(), NoMemory>
    ensures { Adds out.old.items out.new.items (mentioned (record { at = at; what = what.entry }) ∷ []) result }
{
    out.push(Placed { at, what })?;
    Ok(())
}

/// Adds what an expression mentions.
#[cycle(mentions)]
#[tactic(auto, using(crate::proofs::MentionLaws::expr_laws, spl_tree::proofs::ExprWeights::weight_laws))]
fn of_expr<'u>(expr: &'u Expr, out: &mut Mentions<'u>) -> Result<(), NoMemory>
    ensures { Adds out.old.items out.new.items (expr_mentions expr.now) result }
{
    match expr.what.get() {
        ExprKind::Name(_) | ExprKind::Number(_) | ExprKind::Text(_) | ExprKind::Bool(_) => Ok(()),
        ExprKind::Dollar(name) => add(expr.at, Mention::Dollar(name), out),
        ExprKind::Call(name, arguments) => {
            add(expr.at, Mention::Called(name), out)?;
            of_exprs(arguments.as_slice(), out)
        }
        ExprKind::Group(inner) | ExprKind::Unary(_, inner) => of_expr(inner, out),
        ExprKind::List(elements) => of_exprs(elements.as_slice(), out),
        ExprKind::Map(entries) => of_entries(entries.as_slice(), out),
        ExprKind::Tuple(fields) => of_fields(fields.as_slice(), out),
        ExprKind::Select(base, steps) => {
            of_expr(base, out)?;
            of_steps(steps.as_slice(), out)
        }
        ExprKind::Binary(_, left, right) => {
            of_expr(left, out)?;
            of_expr(right, out)
        }
        ExprKind::Conditional(condition, first, second) => {
            of_expr(condition, out)?;
            of_expr(first, out)?;
            of_expr(second, out)
        }
    }
}

#[cycle(mentions)]
fn of_exprs<'u>(exprs: &'u [Expr], out: &mut Mentions<'u>) -> Result<(), NoMemory>
    ensures { Adds out.old.items out.new.items (flat_map expr_mentions exprs.now) result }
{
    for expr in exprs {
        of_expr(expr, out)?;
    }
    Ok(())
}

#[cycle(mentions)]
fn of_entries<'u>(entries: &'u [(Expr, Expr)], out: &mut Mentions<'u>) -> Result<(), NoMemory>
    ensures { Adds out.old.items out.new.items (flat_map entry_mentions entries.now) result }
{
    for (key, value) in entries {
        of_expr(key, out)?;
        of_expr(value, out)?;
    }
    Ok(())
}

#[cycle(mentions)]
fn of_fields<'u>(fields: &'u [Field<Expr>], out: &mut Mentions<'u>) -> Result<(), NoMemory>
    ensures { Adds out.old.items out.new.items (flat_map field_mentions fields.now) result }
{
    for field in fields {
        of_expr(&field.value, out)?;
    }
    Ok(())
}

#[cycle(mentions)]
fn of_steps<'u>(steps: &'u [Step<Expr>], out: &mut Mentions<'u>) -> Result<(), NoMemory>
    ensures { Adds out.old.items out.new.items (flat_map step_mentions steps.now) result }
{
    for step in steps {
        match step {
            Step::Member(_) => {}
            Step::Index(index) => of_expr(index, out)?,
        }
    }
    Ok(())
}

fn of_optional<'u>(expr: &'u Option<Expr>, out: &mut Mentions<'u>) -> Result<(), NoMemory>
    ensures { Adds out.old.items out.new.items (optional_mentions expr.now) result }
{
    match expr {
        Some(expr) => of_expr(expr, out),
        None => Ok(()),
    }
}

fn of_both<'u>(first: &'u Expr, second: &'u Expr, out: &mut Mentions<'u>) -> Result<(), NoMemory>
    ensures { Adds out.old.items out.new.items (expr_mentions first.now ++ expr_mentions second.now) result }
{
    of_expr(first, out)?;
    of_expr(second, out)
}

/// Adds what a statement mentions.
#[cycle(bodies)]
#[tactic(auto, using(crate::proofs::StatementLaws::statement_laws, spl_tree::proofs::StmtWeights::weight_laws))]
fn of_statement<'u>(statement: &'u Stmt, out: &mut Mentions<'u>) -> Result<(), NoMemory>
    ensures { Adds out.old.items out.new.items (statement_mentions statement.now.what) result }
{
    match statement.what.get() {
        StmtKind::Block(block) => of_statements(block.as_slice(), out),
        StmtKind::Declare(declaration) => of_optional(&declaration.value, out),
        StmtKind::Assign(place, _, value) => of_both(place, value, out),
        StmtKind::Call(expr) | StmtKind::Submit(expr, _) => of_expr(expr, out),
        StmtKind::If(arms, other) => of_if(arms.as_slice(), other, out),
        StmtKind::While(expr, body) | StmtKind::For(_, expr, body) => {
            of_expr(expr, out)?;
            of_statement(body, out)
        }
        StmtKind::Break | StmtKind::Continue => Ok(()),
        StmtKind::Return(value) => of_optional(value, out),
    }
}

#[cycle(bodies)]
fn of_statements<'u>(statements: &'u [Stmt], out: &mut Mentions<'u>) -> Result<(), NoMemory>
    ensures { Adds out.old.items out.new.items (block_mentions statements.now) result }
{
    for statement in statements {
        of_statement(statement, out)?;
    }
    Ok(())
}

#[cycle(bodies)]
fn of_arms<'u>(arms: &'u [(Expr, Stmt)], out: &mut Mentions<'u>) -> Result<(), NoMemory>
    ensures { Adds out.old.items out.new.items (flat_map arm_mentions arms.now) result }
{
    for (condition, statement) in arms {
        of_expr(condition, out)?;
        of_statement(statement, out)?;
    }
    Ok(())
}

#[cycle(bodies)]
fn of_if<'u>(
    arms: &'u [(Expr, Stmt)],
    other: &'u Option<Stmt>,
    out: &mut Mentions<'u>,
) -> Result<(), NoMemory>
    ensures { Adds out.old.items out.new.items (flat_map arm_mentions arms.now ++ other_mentions other.now) result }
{
    of_arms(arms, out)?;
    match other {
        Some(statement) => of_statement(statement, out),
        None => Ok(()),
    }
}

fn of_state<'u>(state: &'u [Declaration], out: &mut Mentions<'u>) -> Result<(), NoMemory>
    ensures { Adds out.old.items out.new.items (flat_map declaration_mentions state.now) result }
{
    for declaration in state {
        of_optional(&declaration.value, out)?;
    }
    Ok(())
}

fn of_handlers<'u>(handlers: &'u [Placed<Handler>], out: &mut Mentions<'u>) -> Result<(), NoMemory>
    ensures { Adds out.old.items out.new.items (flat_map handler_mentions handlers.now) result }
{
    for handler in handlers {
        of_statements(handler.what.body.as_slice(), out)?;
    }
    Ok(())
}

fn of_logic<'u>(logic: &'u Option<Placed<Logic>>, out: &mut Mentions<'u>) -> Result<(), NoMemory>
    ensures { Adds out.old.items out.new.items (some_logic_mentions logic.now) result }
{
    match logic {
        Some(logic) => {
            of_state(logic.what.state.as_slice(), out)?;
            of_handlers(logic.what.handlers.as_slice(), out)
        }
        None => Ok(()),
    }
}

fn of_window_part<'u>(part: &'u WindowPart, out: &mut Mentions<'u>) -> Result<(), NoMemory>
    ensures { Adds out.old.items out.new.items (part_of_window_mentions part.now) result }
{
    match &part.arguments {
        Some(arguments) => of_exprs(arguments.as_slice(), out),
        None => Ok(()),
    }
}

fn of_window_parts<'u>(parts: &'u [WindowPart], out: &mut Mentions<'u>) -> Result<(), NoMemory>
    ensures { Adds out.old.items out.new.items (flat_map part_of_window_mentions parts.now) result }
{
    for part in parts {
        of_window_part(part, out)?;
    }
    Ok(())
}

fn of_windows<'u>(windows: &'u [PortWindow], out: &mut Mentions<'u>) -> Result<(), NoMemory>
    ensures { Adds out.old.items out.new.items (flat_map window_mentions windows.now) result }
{
    for window in windows {
        of_window_parts(window.parts.as_slice(), out)?;
    }
    Ok(())
}

fn of_window<'u>(
    window: &'u Option<Placed<Items<PortWindow>>>,
    out: &mut Mentions<'u>,
) -> Result<(), NoMemory>
    ensures { Adds out.old.items out.new.items (some_window_mentions window.now) result }
{
    match window {
        Some(windows) => of_windows(windows.what.as_slice(), out),
        None => Ok(()),
    }
}

fn of_parameters<'u>(parameters: &'u [Parameter], out: &mut Mentions<'u>) -> Result<(), NoMemory>
    ensures { Adds out.old.items out.new.items (flat_map parameter_mentions parameters.now) result }
{
    for parameter in parameters {
        of_exprs(parameter.values.as_slice(), out)?;
    }
    Ok(())
}

fn of_outputs<'u>(outputs: &'u [OutputAssignments], out: &mut Mentions<'u>) -> Result<(), NoMemory>
    ensures { Adds out.old.items out.new.items (flat_map assignment_mentions outputs.now) result }
{
    for output in outputs {
        of_fields(output.assignments.as_slice(), out)?;
    }
    Ok(())
}

fn of_output<'u>(
    output: &'u Option<Placed<Items<OutputAssignments>>>,
    out: &mut Mentions<'u>,
) -> Result<(), NoMemory>
    ensures { Adds out.old.items out.new.items (some_output_mentions output.now) result }
{
    match output {
        Some(outputs) => of_outputs(outputs.what.as_slice(), out),
        None => Ok(()),
    }
}

fn of_clauses<'u>(clauses: &'u Clauses, out: &mut Mentions<'u>) -> Result<(), NoMemory>
    ensures { Adds out.old.items out.new.items (clause_mentions clauses.now) result }
{
    of_logic(&clauses.logic, out)?;
    of_window(&clauses.window, out)?;
    of_parameters(clauses.parameters.as_slice(), out)?;
    of_output(&clauses.output, out)?;
    of_parameters(clauses.config.as_slice(), out)
}

/// What an expression mentions, in the order of the text.
pub fn of_expression<'u>(alloc: Global, expr: &'u Expr) -> Result<Mentions<'u>, NoMemory>
    ensures { IfOk result (λ mentions. mentions_seen mentions.items ≡ expr_mentions expr.now) }
{
    let mut mentions = Vec::new(alloc);
    of_expr(expr, &mut mentions)?;
    Ok(mentions)
}

/// What statements mention.
pub fn of_body<'u>(alloc: Global, body: &'u [Stmt]) -> Result<Mentions<'u>, NoMemory>
    ensures { IfOk result (λ ms. mentions_seen ms.items ≡ block_mentions body.now) }
{
    let mut out = Vec::new(alloc);
    of_statements(body, &mut out)?;
    Ok(out)
}

/// What the clauses of an invocation mention.
pub fn of_invocation<'u>(alloc: Global, clauses: &'u Clauses) -> Result<Mentions<'u>, NoMemory>
    ensures { IfOk result (λ ms. mentions_seen ms.items ≡ clause_mentions clauses.now) }
{
    let mut out = Vec::new(alloc);
    of_clauses(clauses, &mut out)?;
    Ok(out)
}
