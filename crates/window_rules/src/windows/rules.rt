//! When a window fires, and what it holds then, as its parts say.
ghost use Rattle.std.specs.Prelude.{◌≡◌, None};
ghost use Rattle.language_model.specs.declared.answer.TypeAnswer.TheVariants.{Refused};
ghost use Rattle.language_model.specs.declared.scope.CheckError.TheVariants as E;
ghost use Rattle.language_model.specs.Policies.{aggregate_rule, are_no_arguments, bad_window, is_word, join_rule, measured, nothing_follows, punctuated, sliding_with_trigger, tumbling};
ghost use Rattle.language_model.specs.parts.Policies.{sliding_alone, trigger};
ghost use Rattle.language_model.specs.Finds.{Finds};
ghost use Rattle.literal_sites.specs.Sites.{numbers_at};
ghost use Rattle.window_rules.specs.steps.Windows.{counted, differing, slides_by, tumbles_by};

use super::WrittenWindow;
use super::measures::{Measure, is_named, measure_of, only_count};
use language_model::{CheckError, TypeAnswer, WindowRule, refused};
use spl_tree::WindowPart;
use std::alloc::Global;

/// A window, or a part of one, that the operator doesn't have.
pub(super) fn bad_window(at: u32) -> TypeAnswer
    ensures { result ≡ Refused (record { error = E.BadWindow; at = at; name = None }) }
{
    refused(CheckError::BadWindow, at)
}

/// The rule of an Aggregate's window with these parts.
pub(super) fn aggregate_rule(
    alloc: Global,
    window: &WrittenWindow,
    parts: &[WindowPart],
) -> Result<WindowRule, TypeAnswer>
    ensures { Finds (aggregate_rule (numbers_at window.now.site.now) window.now.port.now.schema window.now.clause.now.port.at parts.now) result }
{
    let Some((part, rest)) = parts.split_first() else {
        return Err(bad_window(window.clause.port.at));
    };
    if is_word(part, b"tumbling") {
        tumbling(alloc, window, rest)
    } else if is_word(part, b"sliding") {
        sliding_with_trigger(alloc, window, rest)
    } else {
        Err(bad_window(part.name.at))
    }
}

/// The rule of a Join's window with these parts.
pub(super) fn join_rule(
    alloc: Global,
    window: &WrittenWindow,
    parts: &[WindowPart],
) -> Result<WindowRule, TypeAnswer>
    ensures { Finds (join_rule (numbers_at window.now.site.now) window.now.port.now.schema window.now.clause.now.port.at parts.now) result }
{
    let Some((part, rest)) = parts.split_first() else {
        return Err(bad_window(window.clause.port.at));
    };
    if is_word(part, b"sliding") {
        sliding_alone(alloc, window, rest)
    } else {
        Err(bad_window(part.name.at))
    }
}

/// Whether a part is that word, without parentheses.
pub(super) fn is_word(part: &WindowPart, name: &[u8]) -> bool
    ensures { result ≡ is_word name.now part.now }
{
    is_named(part, name) && part.arguments.is_none()
}

/// The rule after `tumbling`.
fn tumbling(
    alloc: Global,
    window: &WrittenWindow,
    parts: &[WindowPart],
) -> Result<WindowRule, TypeAnswer>
    ensures { Finds (tumbling (numbers_at window.now.site.now) window.now.port.now.schema window.now.clause.now.port.at parts.now) result }
{
    let Some((part, rest)) = parts.split_first() else {
        return Err(bad_window(window.clause.port.at));
    };
    let rule = match measure_of(alloc, window, 1, part)? {
        Some(measure) => tumbling_by(measure),
        None => punctuated(part)?,
    };
    last(rule, rest)
}

fn tumbling_by(measure: Measure) -> WindowRule
    ensures { result ≡ tumbles_by measure }
{
    match measure {
        Measure::Count(count) => WindowRule::TumblingCount(count),
        Measure::Delta { attribute, limit } => WindowRule::TumblingDelta {
            attr: attribute,
            limit,
        },
    }
}

/// `punct()`
fn punctuated(part: &WindowPart) -> Result<WindowRule, TypeAnswer>
    ensures { Finds (punctuated part.now) result }
{
    if is_named(part, b"punct") && has_no_arguments(part) {
        Ok(WindowRule::TumblingPunct)
    } else {
        Err(bad_window(part.name.at))
    }
}

/// Whether a part has parentheses with nothing in them.
fn has_no_arguments(part: &WindowPart) -> bool
    ensures { result ≡ are_no_arguments part.now.arguments }
{
    match &part.arguments {
        Some(arguments) => arguments.as_slice().is_empty(),
        None => false,
    }
}

/// The value, where no other part comes after its own.
fn last<T: Copy>(value: T, rest: &[WindowPart]) -> Result<T, TypeAnswer>
    ensures { Finds (nothing_follows value rest.now) result }
{
    match rest.first() {
        Some(part) => Err(bad_window(part.name.at)),
        None => Ok(value),
    }
}

/// The rule after the `sliding` of an Aggregate: what it keeps, and the count that fires.
fn sliding_with_trigger(
    alloc: Global,
    window: &WrittenWindow,
    parts: &[WindowPart],
) -> Result<WindowRule, TypeAnswer>
    ensures { Finds (sliding_with_trigger (numbers_at window.now.site.now) window.now.port.now.schema window.now.clause.now.port.at parts.now) result }
{
    let Some((part, rest)) = parts.split_first() else {
        return Err(bad_window(window.clause.port.at));
    };
    let measure = sliding_measure(alloc, window, 1, part)?;
    let every = trigger(alloc, window, rest)?;
    Ok(sliding_by(measure, Some(every)))
}

/// The rule after the `sliding` of a Join, which every tuple fires.
fn sliding_alone(
    alloc: Global,
    window: &WrittenWindow,
    parts: &[WindowPart],
) -> Result<WindowRule, TypeAnswer>
    ensures { Finds (sliding_alone (numbers_at window.now.site.now) window.now.port.now.schema window.now.clause.now.port.at parts.now) result }
{
    let Some((part, rest)) = parts.split_first() else {
        return Err(bad_window(window.clause.port.at));
    };
    let measure = sliding_measure(alloc, window, 0, part)?;
    last(sliding_by(measure, None), rest)
}

/// What a window that slides keeps.
fn sliding_measure(
    alloc: Global,
    window: &WrittenWindow,
    least: u64,
    part: &WindowPart,
) -> Result<Measure, TypeAnswer>
    ensures { Finds (measured (numbers_at window.now.site.now) least window.now.port.now.schema counted differing (bad_window part.now.name.at) part.now) result }
{
    match measure_of(alloc, window, least, part)? {
        Some(measure) => Ok(measure),
        None => Err(bad_window(part.name.at)),
    }
}

fn sliding_by(measure: Measure, every: Option<u64>) -> WindowRule
    ensures { result ≡ slides_by measure every }
{
    match measure {
        Measure::Count(keep) => WindowRule::SlidingCount { keep, every },
        Measure::Delta { attribute, limit } => WindowRule::SlidingDelta {
            attr: attribute,
            limit,
            every,
        },
    }
}

/// The count of tuples that fires: the one part after what slides.
fn trigger(alloc: Global, window: &WrittenWindow, parts: &[WindowPart]) -> Result<u64, TypeAnswer>
    ensures { Finds (trigger (numbers_at window.now.site.now) window.now.clause.now.port.at parts.now) result }
{
    let Some((part, rest)) = parts.split_first() else {
        return Err(bad_window(window.clause.port.at));
    };
    if !is_named(part, b"count") {
        return Err(bad_window(part.name.at));
    }
    let every = only_count(alloc, window.site, 1, part)?;
    last(every, rest)
}
