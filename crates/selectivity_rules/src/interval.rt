//! How many items statements submit.
ghost use Rattle.std.specs.Prelude.{◌≡◌};
ghost use Rattle.stream_model.specs.Selectivity.{row_interval};
ghost use Rattle.stream_model.specs.parts.Selectivity.{decided};
ghost use Rattle.selectivity_rules.specs.steps.Counts.{capped, joined, none, one, returning};
ghost use Rattle.selectivity_rules.specs.steps.Intervals.{arms_interval, statement_interval};

use crate::counts::{Count, Submits, both, either, repeated};
use spl_tree::{Body, Code, Marker, Slot, Statement};

/// What the marker decides of a condition.
#[tactic(auto, using(crate::proofs::IntervalForms::decided_laws))]
fn decided(marker: Option<Marker>, code: &Code<Slot>) -> Option<bool>
    ensures { result ≡ decided marker code.now }
{
    match code {
        Code::IsMarker(Marker::Window) => match marker {
            Some(Marker::Window) => Some(true),
            Some(Marker::Final) => Some(false),
            None => None,
        },
        _ => None,
    }
}

pub(crate) fn none() -> Submits
    ensures { result ≡ none }
{
    Submits {
        least: Count::Zero,
        most: Count::Zero,
        returns: false,
    }
}

fn one() -> Submits
    ensures { result ≡ one }
{
    Submits {
        least: Count::One,
        most: Count::One,
        returns: false,
    }
}

fn returning() -> Submits
    ensures { result ≡ returning }
{
    Submits {
        least: Count::Zero,
        most: Count::Zero,
        returns: true,
    }
}

/// Those of one of the arms so far or of another, where there are arms so far.
fn joined(so_far: Option<Submits>, other: Submits) -> Submits
    ensures { result ≡ joined so_far other }
{
    match so_far {
        Some(submits) => either(submits, other),
        None => other,
    }
}

#[cycle(submits)]
#[tactic(auto, using(crate::proofs::IntervalForms::interval_laws, crate::proofs::Capping::capping_laws, spl_tree::proofs::StatementWeights::weight_laws))]
fn of_statement(marker: Option<Marker>, statement: &Statement) -> Submits
    ensures { result ≡ capped (statement_interval marker statement.now) }
{
    match statement {
        Statement::Block(row) => of_row(marker, row.as_slice()),
        Statement::If(arms, other) => of_arms(marker, arms.as_slice(), other.as_slice()),
        Statement::While(_, row) | Statement::For(_, row) => {
            repeated(of_row(marker, row.as_slice()))
        }
        Statement::Return(_) => returning(),
        Statement::Submit(_, _) | Statement::SubmitWindow(_) => one(),
        Statement::Declare(_)
        | Statement::Change(_, _)
        | Statement::Evaluate(_)
        | Statement::Call(_, _)
        | Statement::Break
        | Statement::Continue => none(),
    }
}

/// Those of statements one after another, where this marker came, or none.
#[cycle(submits)]
pub(crate) fn of_row(marker: Option<Marker>, row: &[Statement]) -> Submits
    ensures { result ≡ capped (row_interval marker row.now) }
{
    let mut submits = none();
    for statement in row {
        submits = both(submits, of_statement(marker, statement));
    }
    submits
}

#[cycle(submits)]
fn of_arms(marker: Option<Marker>, arms: &[(Code<Slot>, Body)], other: &[Statement]) -> Submits
    ensures { result ≡ capped (arms_interval marker arms.now other.now) }
{
    let mut so_far = None;
    for (condition, row) in arms {
        match decided(marker, condition) {
            Some(false) => {}
            Some(true) => return joined(so_far, of_row(marker, row.as_slice())),
            None => so_far = Some(joined(so_far, of_row(marker, row.as_slice()))),
        }
    }
    joined(so_far, of_row(marker, other))
}
