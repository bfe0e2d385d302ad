//! Random calls on a map, beside a list that the test keeps.
ghost use Rattle.std.specs.Prelude.{◌<◌, ◌≤◌, length, IsTrue, MatchResult};
ghost use Rattle.spl_value.specs.Pairs.{are_pairs};

use spl_value::{Items, NoMemory, Pairs, SegmentedList, Value};
use std::alloc::{AllocError, Global};
use test_texts::rows::{Answers, Untrue, expect};
use test_texts::words::{cut, number};

/// Keys and their values, by ascending key.
type Listed = Items<(u32, u32)>;

// How many calls a sequence has.
const CALLS: u32 = 500;

/// Random numbers.
#[derive(Drop)]
struct Draws {
    state: u64,
}

impl Draws {
    // The next number below another one; below 0 it is 0.
    fn below(&mut self, limit: u32) -> u32 {
        self.state = self
            .state
            .wrapping_mul(0x5851_F42D_4C95_7F2D)
            .wrapping_add(0x1405_7B7E_F767_814F);
        let high = (self.state >> 32) as u32;
        high.checked_rem(limit).unwrap_or(0)
    }
}

// Where a key stands in a list, or else where it belongs.
fn place(list: &[(u32, u32)], key: u32) -> Result<usize, usize>
    ensures { MatchResult result (λ at. at < length list.now) (λ at. at ≤ length list.now) }
{
    for (at, pair) in list.iter().enumerate() {
        if pair.0 == key {
            return Ok(at);
        }
        if key < pair.0 {
            return Err(at);
        }
    }
    Err(list.len())
}

fn put_listed(list: &mut Listed, key: u32, value: u32) -> Result<(), AllocError> {
    match place(list.as_slice(), key) {
        Ok(at) => list.set(at, (key, value)),
        Err(at) => list.insert(at, (key, value))?,
    }
    Ok(())
}

fn take_listed(list: &mut Listed, key: u32) -> Option<u32> {
    match place(list.as_slice(), key) {
        Ok(at) => Some(list.remove(at).1),
        Err(_) => None,
    }
}

fn find_listed(list: &Listed, key: u32) -> Option<u32> {
    match place(list.as_slice(), key) {
        Ok(at) => Some(list.as_slice()[at].1),
        Err(_) => None,
    }
}

fn integer(number: u32) -> Value {
    Value::Int(i128::from(number))
}

// Whether a value is that number, or both are nothing.
fn is_number(value: Option<&Value>, number: Option<u32>) -> bool {
    match (value, number) {
        (Some(Value::Int(value)), Some(number)) => *value == i128::from(number),
        (None, None) => true,
        _ => false,
    }
}

fn is_pair(pair: &(Value, Value), listed: &(u32, u32)) -> bool {
    is_number(Some(&pair.0), Some(listed.0)) && is_number(Some(&pair.1), Some(listed.1))
}

// Whether a map has the pairs of the list, in their order.
fn are_listed(pairs: &Pairs, list: &Listed) -> bool {
    let mut left = pairs.iter();
    for listed in list.as_slice() {
        match left.next() {
            Some(pair) if is_pair(pair, listed) => {}
            _ => return false,
        }
    }
    left.next().is_none() && pairs.len() == list.len()
}

fn are_put(pairs: &mut Pairs, list: &mut Listed, key: u32, value: u32) -> Result<bool, NoMemory>
    requires { IsTrue (are_pairs pairs.old) }
    ensures { IsTrue (are_pairs pairs.new) }
{
    pairs.put(integer(key), integer(value))?;
    put_listed(list, key, value)?;
    Ok(true)
}

fn are_taken(pairs: &mut Pairs, list: &mut Listed, key: u32) -> bool
    requires { IsTrue (are_pairs pairs.old) }
    ensures { IsTrue (are_pairs pairs.new) }
{
    let taken = pairs.remove_key(&integer(key));
    is_number(taken.as_ref(), take_listed(list, key))
}

// Writes a value at a key, where it has one.
#[tactic(auto, using(spl_value::proofs::PairsLaws::pairs_laws))]
fn are_written(
    pairs: &mut Pairs,
    list: &mut Listed,
    key: u32,
    value: u32,
) -> Result<bool, AllocError>
    requires { IsTrue (are_pairs pairs.old) }
    ensures { IsTrue (are_pairs pairs.new) }
{
    let was = find_listed(list, key);
    let Some(place) = pairs.find_mut(&integer(key)) else {
        return Ok(was.is_none());
    };
    let is_old = is_number(Some(place), was);
    *place = integer(value);
    put_listed(list, key, value)?;
    Ok(is_old)
}

fn are_found(pairs: &Pairs, list: &Listed, key: u32) -> bool
    requires { IsTrue (are_pairs pairs.now) }
{
    let listed = find_listed(list, key);
    let key = integer(key);
    pairs.contains_key(&key) == listed.is_some() && is_number(pairs.find(&key), listed)
}

// Makes a random call on a map and the list: whether both answer alike.
fn is_alike(
    draws: &mut Draws,
    keys: u32,
    pairs: &mut Pairs,
    list: &mut Listed,
) -> Result<bool, NoMemory>
    requires { IsTrue (are_pairs pairs.old) }
    ensures { IsTrue (are_pairs pairs.new) }
{
    let key = draws.below(keys);
    let value = draws.below(1000);
    match draws.below(8) {
        0..4 => are_put(pairs, list, key, value),
        4 | 5 => Ok(are_taken(pairs, list, key)),
        6 => Ok(are_written(pairs, list, key, value)?),
        _ => Ok(are_found(pairs, list, key)),
    }
}

// Makes the calls of a sequence: whether all answer alike, and leave the same pairs.
fn are_alike(
    draws: &mut Draws,
    keys: u32,
    pairs: &mut Pairs,
    list: &mut Listed,
) -> Result<bool, NoMemory>
    requires { IsTrue (are_pairs pairs.old) }
    ensures { IsTrue (are_pairs pairs.new) }
{
    'calls: for _ in 0..CALLS {
        if !is_alike(draws, keys, pairs, list)? || !are_listed(pairs, list) {
            return Ok(false);
        }
    }
    Ok(true)
}

// Adds to a map of so many of the keys, chosen at random.
fn begin(
    draws: &mut Draws,
    keys: u32,
    first: u32,
    pairs: &mut Pairs,
    list: &mut Listed,
) -> Result<(), NoMemory>
    requires { IsTrue (are_pairs pairs.old) }
    ensures { IsTrue (are_pairs pairs.new) }
{
    'puts: for _ in 0..first {
        let key = draws.below(keys);
        are_put(pairs, list, key, 0)?;
    }
    Ok(())
}

// Whether each of so many sequences, which begin once so many keys are put, goes as with a list.
fn go_alike(alloc: Global, keys: u32, first: u32, count: u32) -> Result<bool, NoMemory> {
    let mut draws = Draws {
        state: u64::from(keys),
    };
    'sequences: for _ in 0..count {
        let mut pairs = SegmentedList::new(alloc);
        let mut list = Items::new(alloc);
        begin(&mut draws, keys, first, &mut pairs, &mut list)?;
        if !are_alike(&mut draws, keys, &mut pairs, &mut list)? {
            return Ok(false);
        }
    }
    Ok(true)
}

// Whether maps go as lists: in so many sequences of calls, with keys below a number, after so many puts.
struct Sequences;

impl Answers for Sequences {
    fn answer(&self, alloc: Global, text: &str) -> Result<String, AllocError> {
        let (count, rest) = cut(text);
        let (keys, rest) = cut(rest);
        let (first, _) = cut(rest);
        match go_alike(alloc, number(keys), number(first), number(count)) {
            Ok(alike) => alike.to_string(alloc),
            Err(NoMemory) => Err(AllocError),
        }
    }
}

const ROWS: &str = r#"
300 20 0 => true
300 300 0 => true
200 1000000 0 => true
200 700 1500 => true
"#;

#[test]
fn random_calls_go_as_with_a_list(rt: HostRuntime) -> Result<(), Untrue> {
    expect(rt.alloc(), &Sequences, &[ROWS])
}
