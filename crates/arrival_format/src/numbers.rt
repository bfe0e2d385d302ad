//! The input numbers of a line.
ghost use Rattle.std.specs.Prelude.{◌≡◌, ◌<◌, ◌≤◌, ◌≢◌, ◌+◌, ◌*◌, ◌∷◌, [], ℕ, List, length, Err, IfOk, MatchOption};
ghost use Rattle.arrival_format.specs.declared.answer.ArrivalsAnswer.TheVariants as A;
ghost use Rattle.arrival_format.specs.steps.Steps.{BeginsWithNumber, IsLineEnd, NoDigitFirst};

use crate::answer::ArrivalsAnswer;
use spl_value::{Inputs, Items};
use std::alloc::Global;

// What comes after the first byte, where it is this one.
fn rest_after(bytes: &[u8], first: u8) -> Option<&[u8]>
    ensures { MatchOption result ((rest : List ℕ) → bytes.now ≢ first ∷ rest)
        (λ rest. bytes.now ≡ first ∷ rest.now) }
{
    match bytes {
        [b, rest @ ..] if *b == first => Some(rest),
        _ => None,
    }
}

// The digit that comes first, and what comes after it.
fn first_digit(bytes: &[u8]) -> Option<(u32, &[u8])>
    ensures { MatchOption result (NoDigitFirst bytes.now)
        (λ found. (found.0 < 10) × (bytes.now ≡ (48 + found.0) ∷ found.1.now)) }
{
    match bytes {
        [b, rest @ ..] if b'0' <= *b && *b <= b'9' => Some((u32::from(*b - b'0'), rest)),
        _ => None,
    }
}

// The number with one more digit, where it is no zero and the longer one is below the bound.
fn longer(number: u32, digit: u32, bound: u32) -> Option<u32>
    requires { digit < 10 }
    ensures { MatchOption result (0 < number → bound ≤ number * 10 + digit)
        (λ next. (0 < number) × (next ≡ number * 10 + digit) × (next < bound)) }
{
    let next = u64::from(number) * 10 + u64::from(digit);
    if 0 < number && next < u64::from(bound) {
        Some(next as u32)
    } else {
        None
    }
}

// The number below the bound that comes first, and what comes after its digits.
fn first_number(bytes: &[u8], bound: u32) -> Option<(u32, &[u8])>
    ensures { MatchOption result
        ((number : ℕ) (rest : List ℕ) → BeginsWithNumber bytes.now bound number rest → ⊥)
        (λ found. BeginsWithNumber bytes.now bound found.0 found.1.now) }
{
    let (mut number, mut rest) = first_digit(bytes)?;
    if bound <= number {
        return None;
    }
    'digits: while let Some((digit, behind)) = first_digit(rest) {
        number = longer(number, digit, bound)?;
        rest = behind;
    }
    Some((number, rest))
}

/// The numbers up to the end of the line, each below the bound and after a blank, and what comes after
/// the line.
pub(crate) fn read_inputs(
    alloc: Global,
    bytes: &[u8],
    bound: u32,
) -> Result<(Inputs, &[u8]), ArrivalsAnswer>
    ensures read { IfOk result (λ found. IsLineEnd bytes.now bound found.0 found.1.now) }
    ensures bad { result ≡ Err A.Bad
        → (inputs rest : List ℕ) → IsLineEnd bytes.now bound inputs rest → ⊥ }
{
    let mut inputs = Items::new(alloc);
    let mut rest = bytes;
    'inputs: while let Some(digits) = rest_after(rest, b' ') {
        let Some((input, left)) = first_number(digits, bound) else {
            return Err(ArrivalsAnswer::Bad);
        };
        inputs.push(input)?;
        rest = left;
    }
    if inputs.is_empty() {
        return Err(ArrivalsAnswer::Bad);
    }
    match rest_after(rest, b'\n') {
        Some(rest) => Ok((inputs, rest)),
        None => Err(ArrivalsAnswer::Bad),
    }
}
