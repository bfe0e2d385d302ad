//! The sources of an attribute of the tuples that statements submit.
ghost use Rattle.std.specs.Prelude.{◌≡◌};
ghost use Rattle.stream_model.specs.Copies.{submits_in, submits_of};
ghost use Rattle.stream_model.specs.parts.Copies.{custom_source};
ghost use Rattle.attribute_flow.specs.steps.Agreements.{agreement, arms_submits, statement_submits};

use crate::agreement::{Agreement, agreed_on, and_then, is_unseen, of_source};
use crate::codes::tuple_source;
use language_model::Handlers;
use spl_tree::{Body, Code, Slot, Statement};

#[cycle(submits)]
#[tactic(auto, using(crate::proofs::SubmitForms::form_laws, spl_tree::proofs::StatementWeights::weight_laws))]
fn of_statement(attribute: u32, statement: &Statement) -> Agreement
    ensures { result ≡ agreement attribute (statement_submits statement.now) }
{
    match statement {
        Statement::Block(row) | Statement::While(_, row) | Statement::For(_, row) => {
            of_row(attribute, row.as_slice())
        }
        Statement::If(arms, other) => {
            let first = of_arms(attribute, arms.as_slice());
            and_then(first, of_row(attribute, other.as_slice()))
        }
        Statement::Submit(_, code) => of_source(tuple_source(attribute, code)),
        Statement::Declare(_)
        | Statement::Change(_, _)
        | Statement::Evaluate(_)
        | Statement::Call(_, _)
        | Statement::Break
        | Statement::Continue
        | Statement::Return(_)
        | Statement::SubmitWindow(_) => Agreement::Unseen,
    }
}

#[cycle(submits)]
fn of_row(attribute: u32, row: &[Statement]) -> Agreement
    ensures { result ≡ agreement attribute (submits_of row.now) }
{
    let mut so_far = Agreement::Unseen;
    for statement in row {
        so_far = and_then(so_far, of_statement(attribute, statement));
    }
    so_far
}

#[cycle(submits)]
fn of_arms(attribute: u32, arms: &[(Code<Slot>, Body)]) -> Agreement
    ensures { result ≡ agreement attribute (arms_submits arms.now) }
{
    let mut so_far = Agreement::Unseen;
    for (_, row) in arms {
        so_far = and_then(so_far, of_row(attribute, row.as_slice()));
    }
    so_far
}

/// Of the bodies that there are.
fn of_bodies(attribute: u32, bodies: &[Option<Body>]) -> Agreement
    ensures { result ≡ agreement attribute (submits_in bodies.now) }
{
    let mut so_far = Agreement::Unseen;
    for body in bodies {
        if let Some(row) = body {
            so_far = and_then(so_far, of_row(attribute, row.as_slice()));
        }
    }
    so_far
}

/// The input attribute that an attribute of each tuple is that a Custom submits, where it submits some, all
/// of them on tuples.
pub(crate) fn custom_source(handlers: &Handlers, attribute: u32) -> Option<u32>
    ensures { result ≡ custom_source handlers.now attribute }
{
    if is_unseen(of_bodies(attribute, handlers.on_punct.as_slice())) {
        agreed_on(of_bodies(attribute, handlers.on_tuple.as_slice()))
    } else {
        None
    }
}
