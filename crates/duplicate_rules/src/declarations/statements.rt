//! Names that repeat an earlier one among the variables of blocks.
ghost use Rattle.std.specs.Prelude.{◌≡◌, IfOk, flat_map};
ghost use Rattle.std.specs.Option.{option_copied};
ghost use Rattle.language_model.specs.Declarations.{block_sets};
ghost use Rattle.language_model.specs.parts.Declarations.{statement_scoped};
ghost use Rattle.duplicate_rules.specs.steps.Earliest.{earliest_in};

use super::names::{Declares, Repeated, earliest_repeated};
use super::types::earliest_in_type;
use spl_tree::{Expr, Placed, Stmt, StmtKind};
use spl_value::Name;
use std::alloc::Global;

impl Declares for Stmt {
    ghost use Rattle.duplicate_rules.specs.steps.Variables.{own_variable};

    ghost own = { λ statement. own_variable statement.what };

    fn own_name(&self) -> Option<&Placed<Name>> {
        match self.what.get() {
            StmtKind::Declare(declaration) => Some(&declaration.name),
            StmtKind::Block(_)
            | StmtKind::Assign(_, _, _)
            | StmtKind::Call(_)
            | StmtKind::If(_, _)
            | StmtKind::While(_, _)
            | StmtKind::For(_, _, _)
            | StmtKind::Break
            | StmtKind::Continue
            | StmtKind::Return(_)
            | StmtKind::Submit(_, _) => None,
        }
    }
}

/// Of a name and those that repeat an earlier one within a statement, the one that comes first in the text.
#[cycle(statements)]
#[tactic(auto, using(crate::proofs::StatementSets::statement_laws, crate::proofs::Best::best_laws))]
fn earliest_in_statement<'u>(
    alloc: Global,
    best: Option<&'u Placed<Name>>,
    statement: &'u Stmt,
) -> Repeated<'u>
    ensures { IfOk result (λ found. option_copied found ≡ earliest_in (option_copied best.entry) (statement_scoped statement.now.what).sets) }
{
    match statement.what.get() {
        StmtKind::Block(statements) => earliest_in_block(alloc, best, statements.as_slice()),
        StmtKind::Declare(declaration) => earliest_in_type(alloc, best, &declaration.kind),
        StmtKind::If(arms, other) => {
            let found = earliest_in_arms(alloc, best, arms.as_slice())?;
            match other {
                None => Ok(found),
                Some(other) => earliest_in_statement(alloc, found, other),
            }
        }
        StmtKind::While(_, body) => earliest_in_statement(alloc, best, body),
        StmtKind::For(variable, _, body) => {
            let found = earliest_in_type(alloc, best, &variable.kind)?;
            earliest_in_statement(alloc, found, body)
        }
        StmtKind::Assign(_, _, _)
        | StmtKind::Call(_)
        | StmtKind::Break
        | StmtKind::Continue
        | StmtKind::Return(_)
        | StmtKind::Submit(_, _) => Ok(best),
    }
}

/// The variables that stand directly in a block are a set, and its statements may have more.
#[cycle(statements)]
#[tactic(auto, using(crate::proofs::StatementSets::statement_laws, crate::proofs::Best::best_laws))]
pub(super) fn earliest_in_block<'u>(
    alloc: Global,
    best: Option<&'u Placed<Name>>,
    statements: &'u [Stmt],
) -> Repeated<'u>
    ensures { IfOk result (λ found. option_copied found ≡ earliest_in (option_copied best.entry) (block_sets statements.now)) }
{
    let mut found = earliest_repeated(alloc, best, statements)?;
    for statement in statements {
        found = earliest_in_statement(alloc, found, statement)?;
    }
    Ok(found)
}

/// The statements of an `if`, except for the one after `else`.
#[cycle(statements)]
#[tactic(auto, using(crate::proofs::StatementSets::statement_laws, crate::proofs::Best::best_laws))]
fn earliest_in_arms<'u>(
    alloc: Global,
    best: Option<&'u Placed<Name>>,
    arms: &'u [(Expr, Stmt)],
) -> Repeated<'u>
    ensures { IfOk result (λ found. option_copied found ≡ earliest_in (option_copied best.entry) (flat_map (λ a. (statement_scoped a.1.what).sets) arms.now)) }
{
    let mut found = best;
    for arm in arms {
        found = earliest_in_statement(alloc, found, &arm.1)?;
    }
    Ok(found)
}
