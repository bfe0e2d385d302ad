//! The built-in calls.
ghost use Rattle.std.specs.Prelude.{IsTrue, IfOk};
ghost use Rattle.spl_value.specs.Values.{fits};
ghost use Rattle.spl_value.specs.Calls.{FitsCollection, FitOrdered};

use crate::words::number;
use builtin_calls::{abs, append_m, clear_m, has, length, max, min, remove_m, size, substring};
use spl_value::{
    Evaluated, IntKind, Items, NoMemory, Pairs, SegmentedList, SplType, Value, Values, wrap,
};
use std::alloc::{AllocError, Global};
use test_texts::rows::{Answers, Untrue, expect};
use test_texts::text::Text;
use test_texts::types::integer_kind;
use test_texts::values::{add_value, fault};
use test_texts::words::cut;

// A value of each type that the calls take.

#[tactic(auto, using(spl_value::proofs::FitsLaws::fits_laws))]
fn text(alloc: Global, text: &str) -> Result<Value, NoMemory>
    ensures { IfOk result (λ v. IsTrue (fits SplType.Text v)) }
{
    Ok(Value::Text(Items::from_slice(alloc, text.as_bytes())?))
}

#[tactic(auto, using(spl_value::proofs::FitsLaws::number_laws))]
fn integer(kind: IntKind, n: i128) -> Value
    ensures { IsTrue (fits (SplType.Int kind) result) }
{
    Value::Int(wrap(kind, n))
}

// A list of int32: the numbers of these words.
fn numbers(alloc: Global, words: &str) -> Result<Values, NoMemory>
    ensures { IfOk result (λ vs. IsTrue
        (fits (SplType.List (SplType.Int IntKind.I32)) (Value.List vs))) }
{
    let mut values = Items::new(alloc);
    for word in words.split_whitespace() {
        values.push(integer(IntKind::I32, number(word)))?;
    }
    Ok(values)
}

// A map from int32 to boolean: the keys are the numbers of these words.
fn keyed(alloc: Global, words: &str) -> Result<Pairs, NoMemory>
    ensures { IfOk result (λ ps. IsTrue
        (fits (SplType.Map (SplType.Int IntKind.I32) SplType.Bool) (Value.Map ps))) }
{
    let mut pairs = SegmentedList::new(alloc);
    for word in words.split_whitespace() {
        pairs.put(integer(IntKind::I32, number(word)), Value::Bool(true))?;
    }
    Ok(pairs)
}

// A list or a map.
fn collection(alloc: Global, kind: &str, words: &str) -> Result<Value, NoMemory>
    ensures { IfOk result (λ v. FitsCollection v) }
{
    match kind {
        "list" => Ok(Value::List(numbers(alloc, words)?)),
        _ => Ok(Value::Map(keyed(alloc, words)?)),
    }
}

fn least_or_greatest(alloc: Global, call: &str, a: &Value, b: &Value) -> Evaluated
    requires { FitOrdered a.now b.now }
{
    match call {
        "min" => min(alloc, a, b),
        _ => max(alloc, a, b),
    }
}

// `min` or `max` of two integers, or of two texts.
fn of_ordered(alloc: Global, call: &str, words: &str) -> Result<Evaluated, NoMemory> {
    let (kind, words) = cut(words);
    let (a, b) = sides(words, ",");
    if kind == "integers" {
        let a = integer(IntKind::I64, number(a));
        let b = integer(IntKind::I64, number(b));
        return Ok(least_or_greatest(alloc, call, &a, &b));
    }
    let a = text(alloc, a)?;
    let b = text(alloc, b)?;
    Ok(least_or_greatest(alloc, call, &a, &b))
}

fn part(alloc: Global, whole: &Value, from: &str, count: &str) -> Evaluated
    requires { IsTrue (fits SplType.Text whole.now) }
{
    let from = integer(IntKind::I32, number(from));
    let count = integer(IntKind::I32, number(count));
    substring(alloc, whole, &from, &count)
}

// A call on a text, and on a place and a count in it.
fn of_text(alloc: Global, call: &str, words: &str) -> Result<Evaluated, NoMemory> {
    let (bytes, rest) = sides(words, ",");
    let whole = text(alloc, bytes)?;
    if call == "length" {
        return Ok(length(&whole));
    }
    let (from, count) = sides(rest, ",");
    Ok(part(alloc, &whole, from, count))
}

fn of_map(alloc: Global, call: &str, words: &str) -> Result<Evaluated, NoMemory> {
    let (key, words) = sides(words, " in ");
    let map = Value::Map(keyed(alloc, words)?);
    let key = integer(IntKind::I32, number(key));
    if call == "has" {
        return Ok(has(&map, &key));
    }
    Ok(remove_m(map, &key))
}

fn of_list(alloc: Global, words: &str) -> Result<Evaluated, NoMemory> {
    let (element, words) = sides(words, " in ");
    let list = Value::List(numbers(alloc, words)?);
    Ok(append_m(list, integer(IntKind::I32, number(element))))
}

fn of_collection(alloc: Global, call: &str, words: &str) -> Result<Evaluated, NoMemory> {
    let (kind, words) = cut(words);
    let collection = collection(alloc, kind, words)?;
    if call == "size" {
        return Ok(size(&collection));
    }
    Ok(clear_m(collection))
}

fn absolute(words: &str) -> Evaluated {
    let (kind, word) = cut(words);
    match integer_kind(kind) {
        Some(kind) => abs(&integer(kind, number(word)), kind),
        None => Evaluated::Memory,
    }
}

// What stands on both sides of a piece.
fn sides<'t>(text: &'t str, piece: &str) -> (&'t str, &'t str) {
    text.split_once(piece).unwrap_or((text, ""))
}

fn called(alloc: Global, text: &str) -> Result<Evaluated, NoMemory> {
    let (call, words) = cut(text);
    match call {
        "length" | "substring" => of_text(alloc, call, words),
        "min" | "max" => of_ordered(alloc, call, words),
        "has" | "remove" => of_map(alloc, call, words),
        "append" => of_list(alloc, words),
        "size" | "clear" => of_collection(alloc, call, words),
        _ => Ok(absolute(words)),
    }
}

// Calls with their arguments. An unknown call has no memory.
struct Calls;

impl Answers for Calls {
    fn answer(&self, alloc: Global, text: &str) -> Result<String, AllocError> {
        let mut shown = Text::new(alloc);
        match called(alloc, text) {
            Ok(Evaluated::Value(value)) => add_value(&mut shown, &value),
            Ok(Evaluated::Bad(kind)) => shown.add(fault(kind)),
            Ok(Evaluated::Memory) | Err(NoMemory) => shown.add("memory"),
        }
        shown.finish()
    }
}

const ROWS: &str = r#"
# `length` counts bytes
length  => 0
length a => 1
length abc => 3
length é => 2

# `size` counts elements and pairs
size list  => 0
size map  => 0
size list 7 => 1
size map 7 => 1
size list 3 1 2 => 3
size map 3 1 2 => 3
size list 4 4 => 2
size map 4 4 => 1

# `has` finds the keys of a map
has 0 in  => false
has 5 in 5 => true
has -5 in 5 => false
has 10 in 30 10 20 => true
has 20 in 30 10 20 => true
has 30 in 30 10 20 => true
has 9 in 30 10 20 => false
has 25 in 30 10 20 => false
has 31 in 30 10 20 => false

# `appendM` adds at the end
append 1 in  => [1]
append 1 in 2 => [2, 1]
append 3 in 3 1 => [3, 1, 3]

# `removeM` takes one key out
remove 1 in  => {}
remove 1 in 1 => {}
remove 2 in 1 => {1: true}
remove 1 in 1 2 3 => {2: true, 3: true}
remove 2 in 1 2 3 => {1: true, 3: true}
remove 3 in 1 2 3 => {1: true, 2: true}
remove 0 in 1 2 3 => {1: true, 2: true, 3: true}
remove 4 in 1 2 3 => {1: true, 2: true, 3: true}

# `clearM` leaves nothing
clear list  => []
clear map  => {}
clear list 1 => []
clear map 1 => {}
clear list 1 2 => []
clear map 1 2 => {}

# `abs` wraps at the least number
abs int8 -128 => -128
abs int8 -127 => 127
abs int8 127 => 127
abs int16 -32768 => -32768
abs int16 -32767 => 32767
abs int16 32767 => 32767
abs int32 -2147483648 => -2147483648
abs int32 -2147483647 => 2147483647
abs int32 2147483647 => 2147483647
abs int64 -9223372036854775808 => -9223372036854775808
abs int64 -9223372036854775807 => 9223372036854775807
abs int64 9223372036854775807 => 9223372036854775807
abs int8 -1 => 1
abs int16 -1 => 1
abs int32 -1 => 1
abs int64 -1 => 1
abs int8 0 => 0
abs int64 0 => 0
abs uint8 0 => 0
abs uint16 0 => 0
abs uint32 0 => 0
abs uint64 0 => 0
abs uint8 255 => 255
abs uint16 65535 => 65535
abs uint32 4294967295 => 4294967295
abs uint64 18446744073709551615 => 18446744073709551615

# `min` and `max` of integers go by number
min integers 0,0 => 0
max integers 0,0 => 0
min integers 1,2 => 1
max integers 1,2 => 2
min integers 2,1 => 1
max integers 2,1 => 2
min integers -1,1 => -1
max integers -1,1 => 1
min integers -2,-10 => -10
max integers -2,-10 => -2
min integers 9,10 => 9
max integers 9,10 => 10
min integers 9223372036854775807,-9223372036854775808 => -9223372036854775808
max integers 9223372036854775807,-9223372036854775808 => 9223372036854775807

# `min` and `max` of texts go by bytes
min texts , => ''
max texts , => ''
min texts ,a => ''
max texts ,a => 'a'
min texts b,a => 'a'
max texts b,a => 'b'
min texts b,abc => 'abc'
max texts b,abc => 'b'
min texts ab,abc => 'ab'
max texts ab,abc => 'abc'
min texts 10,9 => '10'
max texts 10,9 => '9'
min texts z,é => 'z'
max texts z,é => 'Ã©'
min texts Z,a => 'Z'
max texts Z,a => 'a'

# `substring` takes at most so many bytes
substring hello,0,5 => 'hello'
substring hello,0,2 => 'he'
substring hello,1,3 => 'ell'
substring hello,3,9 => 'lo'
substring hello,0,0 => ''
substring hello,5,0 => ''
substring hello,5,1 => ''
substring hello,2,2147483647 => 'llo'
substring hello,5,2147483647 => ''
substring hello,6,0 => Index
substring hello,6,1 => Index
substring hello,-1,0 => Index
substring hello,-1,3 => Index
substring hello,0,-1 => Index
substring hello,6,-1 => Index
substring hello,2147483647,1 => Index
substring hello,-2147483648,1 => Index
substring hello,0,-2147483648 => Index
substring ,0,0 => ''
substring ,0,1 => ''
substring ,1,0 => Index
"#;

#[test]
fn calls_have_their_values_or_faults(rt: HostRuntime) -> Result<(), Untrue> {
    expect(rt.alloc(), &Calls, &[ROWS])
}
