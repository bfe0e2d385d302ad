//! Rules and values, as rows spell them.
ghost use Rattle.std.specs.Prelude.{◌<◌, IfSome};
ghost use Rattle.std.specs.Option.{ForSome};
ghost use Rattle.window_policy.specs.Answers.{IsAllowed};

use language_model::{Policy, WindowRule};
use spl_value::{Items, NoMemory, Value, Values};
use std::alloc::{AllocError, Global};
use test_texts::text::Text;
use test_texts::values::add_value;
use test_texts::words::{cut, number};
use window_policy::Window;

// A number above 0.
fn count_of(word: &str) -> Option<u64>
    ensures { ForSome result (λ n. 0 < n) }
{
    match word.parse::<u64>() {
        Ok(n) if n > 0 => Some(n),
        _ => None,
    }
}

fn integer(word: &str) -> i128 {
    word.parse::<i128>().unwrap_or(0)
}

// The rule of words: `tumbling count 2`, `tumbling delta 0 10` by the attribute's place and the limit,
// `tumbling punct`, `sliding count 3 1` or `sliding delta 0 10 1` with the number of the trigger, or without it.
pub(crate) fn rule_of(words: &str) -> Option<WindowRule>
    ensures { IfSome result (λ rule. IsAllowed rule) }
{
    let (kind, words) = cut(words);
    let (by, words) = cut(words);
    let (first, words) = cut(words);
    let (second, third) = cut(words);
    match (kind, by) {
        ("tumbling", "count") => Some(WindowRule::TumblingCount(count_of(first)?)),
        ("tumbling", "delta") => Some(WindowRule::TumblingDelta {
            attr: number(first),
            limit: integer(second),
        }),
        ("tumbling", "punct") => Some(WindowRule::TumblingPunct),
        ("sliding", "count") => Some(WindowRule::SlidingCount {
            keep: u64::from(number(first)),
            every: count_of(second),
        }),
        ("sliding", "delta") => Some(WindowRule::SlidingDelta {
            attr: number(first),
            limit: integer(second),
            every: count_of(third),
        }),
        _ => None,
    }
}

/// A new window of the rule of words, if they are one.
pub(crate) fn window_of(
    alloc: Global,
    words: &str,
    partitioned: bool,
) -> Result<Option<Window>, NoMemory> {
    let Some(rule) = rule_of(words) else {
        return Ok(None);
    };
    let window = Window::new(alloc, &Policy { partitioned, rule })?;
    Ok(Some(window))
}

/// The values of a word: integers and texts with `/` between them.
pub(crate) fn values_of(alloc: Global, word: &str) -> Result<Values, AllocError> {
    let mut values = Items::new(alloc);
    for piece in word.split('/') {
        match piece.parse::<i128>() {
            Ok(n) => values.push(Value::Int(n))?,
            Err(_) if piece.is_empty() => {}
            Err(_) => values.push(Value::Text(Items::from_slice(alloc, piece.as_bytes())?))?,
        }
    }
    Ok(values)
}

/// Adds values in the same way.
pub(crate) fn add_values(text: &mut Text, values: &Values) {
    for (at, value) in values.as_slice().iter().enumerate() {
        text.add_between(at, "/");
        match value {
            Value::Text(bytes) => text.add_bytes(bytes.as_slice()),
            value => add_value(text, value),
        }
    }
}
