//! The classes of operators.
ghost use Rattle.std.specs.Prelude.{◌≡◌, ◌<◌, length, slice_get};
ghost use Rattle.stream_model.specs.CheckedMeaning.{graph_of};
ghost use Rattle.stream_model.specs.Customs.{handler};
ghost use Rattle.stream_model.specs.Meaning.{Graph};
ghost use Rattle.stream_model.specs.Operators.{Operator};
ghost use Rattle.stream_model.specs.Selectivity.{gives, one_unless, window_gives};
ghost use Rattle.selectivity_rules.specs.steps.Counts.{body_submits, handlers_give, trigger_gives};

use crate::counts::{Submits, class_of};
use crate::interval::{none, of_row};
use language_model::{Checked, CheckedClauses, Handlers, WindowRule};
use spl_tree::{Body, Code, Marker, Slot};
use spl_value::Places;
use stream_model::Gives;

/// How many items each event of the operator with this number causes, by the operator's clauses alone.
pub fn gives(checked: &Checked, op: u32) -> Gives
    requires number { op < length checked.now.parts }
    ensures class { (g : Graph) (o : Operator) → graph_of checked.now ≡ g → slice_get g.ops op ≡ Some o → result ≡ gives o.clauses }
{
    match checked.parts.get(op as usize) {
        Some(part) => gives_by(part),
        None => unreachable!(),
    }
}

/// The same by these clauses.
fn gives_by(part: &CheckedClauses) -> Gives
    ensures { result ≡ gives part.now }
{
    match part {
        CheckedClauses::Filter { condition } => one_unless(condition),
        CheckedClauses::Functor { condition, .. } => one_unless(condition),
        CheckedClauses::Split { .. } | CheckedClauses::Union { .. } => Gives::AtMostOne,
        CheckedClauses::Custom { handlers } => handlers_give(handlers),
        CheckedClauses::Aggregate { window, group, .. } => window_gives(window.rule, group),
        CheckedClauses::Punctor { .. }
        | CheckedClauses::FileSource { .. }
        | CheckedClauses::FileSink { .. }
        | CheckedClauses::Join { .. } => Gives::Many,
    }
}

fn one_unless(condition: &Option<Code<Slot>>) -> Gives
    ensures { result ≡ one_unless condition.now }
{
    match condition {
        None => Gives::One,
        Some(_) => Gives::AtMostOne,
    }
}

/// A window without groups that slides gives at each trigger.
#[tactic(auto, using(crate::proofs::CountedClasses::window_laws))]
fn window_gives(rule: WindowRule, group: &Places) -> Gives
    ensures { result ≡ window_gives rule group.now }
{
    if !group.is_empty() {
        return Gives::Many;
    }
    match rule {
        WindowRule::SlidingCount { every, .. } | WindowRule::SlidingDelta { every, .. } => {
            trigger_gives(every)
        }
        WindowRule::TumblingCount(_)
        | WindowRule::TumblingDelta { .. }
        | WindowRule::TumblingPunct => Gives::Many,
    }
}

fn trigger_gives(every: Option<u64>) -> Gives
    ensures { result ≡ trigger_gives every }
{
    match every {
        None => Gives::AtMostOne,
        Some(every) => {
            if every == 1 {
                Gives::One
            } else {
                Gives::AtMostOne
            }
        }
    }
}

/// A Custom with several ports isn't looked at further.
fn handlers_give(handlers: &Handlers) -> Gives
    ensures { result ≡ handlers_give handlers.now }
{
    if handlers.on_tuple.len() != 1 {
        return Gives::Many;
    }
    let tuple = body_submits(None, handlers.on_tuple.as_slice());
    let window = body_submits(Some(Marker::Window), handlers.on_punct.as_slice());
    let end = body_submits(Some(Marker::Final), handlers.on_punct.as_slice());
    class_of(tuple, window, end)
}

/// How many items the first of some bodies submits.
fn body_submits(marker: Option<Marker>, bodies: &[Option<Body>]) -> Submits
    ensures { result ≡ body_submits marker (handler bodies.now 0) }
{
    match bodies.first() {
        Some(Some(body)) => of_row(marker, body.as_slice()),
        _ => none(),
    }
}
