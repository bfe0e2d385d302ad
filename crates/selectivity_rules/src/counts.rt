//! Numbers of items as far as they matter.
ghost use Rattle.std.specs.Prelude.{◌≡◌};
ghost use Rattle.selectivity_rules.specs.steps.Counts.{both_of, class_of, either_of, is_none, is_one, larger, plus, repeated_of, several, smaller};

use stream_model::Gives;

/// A number of items: none, one, or more.
#[derive(Clone, Copy)]
pub(crate) enum Count {
    Zero,
    One,
    More,
}

/// The least and the greatest number of submits of statements, and whether a `return` stands in them.
#[derive(Clone, Copy)]
pub(crate) struct Submits {
    pub least: Count,
    pub most: Count,
    pub returns: bool,
}

fn plus(a: Count, b: Count) -> Count
    ensures { result ≡ plus a b }
{
    match (a, b) {
        (Count::Zero, b) => b,
        (Count::One, Count::Zero) => Count::One,
        _ => Count::More,
    }
}

fn smaller(a: Count, b: Count) -> Count
    ensures { result ≡ smaller a b }
{
    match (a, b) {
        (Count::More, b) => b,
        (Count::One, Count::Zero) => Count::Zero,
        (a, _) => a,
    }
}

fn larger(a: Count, b: Count) -> Count
    ensures { result ≡ larger a b }
{
    match (a, b) {
        (Count::Zero, b) => b,
        (Count::One, Count::More) => Count::More,
        (a, _) => a,
    }
}

/// A count, taken any number of times.
fn several(a: Count) -> Count
    ensures { result ≡ several a }
{
    match a {
        Count::Zero => Count::Zero,
        _ => Count::More,
    }
}

/// Those of one after another.
pub(crate) fn both(first: Submits, second: Submits) -> Submits
    ensures { result ≡ both_of first second }
{
    Submits {
        least: plus(first.least, second.least),
        most: plus(first.most, second.most),
        returns: first.returns || second.returns,
    }
}

/// Those of one or the other.
pub(crate) fn either(first: Submits, second: Submits) -> Submits
    ensures { result ≡ either_of first second }
{
    Submits {
        least: smaller(first.least, second.least),
        most: larger(first.most, second.most),
        returns: first.returns || second.returns,
    }
}

/// Those of any number of turns.
pub(crate) fn repeated(turn: Submits) -> Submits
    ensures { result ≡ repeated_of turn }
{
    Submits {
        least: Count::Zero,
        most: several(turn.most),
        returns: turn.returns,
    }
}

/// Whether it is exactly one. A `return` makes the least number 0.
fn is_one(submits: Submits) -> bool
    ensures { result ≡ is_one submits }
{
    !submits.returns && matches!(submits.least, Count::One) && matches!(submits.most, Count::One)
}

/// Whether it is exactly none.
fn is_none(submits: Submits) -> bool
    ensures { result ≡ is_none submits }
{
    (submits.returns || matches!(submits.least, Count::Zero)) && matches!(submits.most, Count::Zero)
}

/// The class of a Custom by what it submits on a tuple, on a window marker and at the end.
pub(crate) fn class_of(tuple: Submits, window: Submits, end: Submits) -> Gives
    ensures { result ≡ class_of tuple window end }
{
    if is_one(tuple) && is_one(window) && is_none(end) {
        return Gives::One;
    }
    if !matches!(tuple.most, Count::More)
        && !matches!(window.most, Count::More)
        && matches!(end.most, Count::Zero)
    {
        Gives::AtMostOne
    } else {
        Gives::Many
    }
}
