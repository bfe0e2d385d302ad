//! Statements that end with a result.
ghost use Rattle.std.specs.Prelude.{◌≡◌};
ghost use Rattle.language_model.specs.BodyTyping.{returns};
ghost use Rattle.language_model.specs.BodyTypingLaws.{all_return, kind_returns};

use spl_tree::{Expr, Stmt, StmtKind};

/// Whether statements end with a result: the last one is a `return`, a block that does, or an `if`
/// with `else` all of whose branches do.
#[cycle(results)]
pub fn ends_with_result(statements: &[Stmt]) -> bool
    ensures { result ≡ returns statements.now }
{
    match statements.split_last() {
        Some((last, _)) => is_result(last),
        None => false,
    }
}

#[cycle(results)]
#[tactic(auto, using(language_model::proofs::BodyTypingLaws::returns_laws))]
fn is_result(statement: &Stmt) -> bool
    ensures { result ≡ kind_returns statement.now.what }
{
    match statement.what.get() {
        StmtKind::Return(_) => true,
        StmtKind::Block(statements) => ends_with_result(statements.as_slice()),
        StmtKind::If(arms, other) => match other {
            Some(other) => are_results(arms.as_slice()) && is_result(other),
            None => false,
        },
        _ => false,
    }
}

#[cycle(results)]
fn are_results(arms: &[(Expr, Stmt)]) -> bool
    ensures { result ≡ all_return arms.now }
{
    for arm in arms {
        if !is_result(&arm.1) {
            return false;
        }
    }
    true
}
