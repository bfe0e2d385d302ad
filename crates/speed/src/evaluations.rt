//! How long evaluations take: 10,000,000 on a tuple of a price and a size, both of 64 bits. The word is
//!
//! - `value`: `price > 500l` is evaluated to a value;
//! - `truth`: whether `price > 500l` holds;
//! - `both`: whether `price > 500l && size > 2l` holds;
//! - `tuple`: the tuple `size, price` is evaluated to a value;
//! - `reused`: it is made in the room of the one before.
//!
//! The nanoseconds of an evaluation are printed.
ghost use Rattle.std.specs.Prelude.{◌≡◌, IfOk, [], ◌∷◌};
ghost use Rattle.spl_value.specs.declared.types.SplType.TheVariants as T;
ghost use Rattle.language_model.specs.WorldFits.{Fits};
ghost use Rattle.speed.specs.Samples.{above, both_above, swapped, row, pair};

use expr_eval::{Env, Made, Truth, eval, holds, tuple_into};
use spl_tree::{BinaryCode, Code, Functions, OrderOperator, Slot};
use spl_value::{Boxed, Evaluated, Items, NoMemory, Value};
use std::alloc::Global;
use std::io;
use std::time::Instant;

const TIMES: u32 = 10_000_000;

fn attribute(attribute: u32) -> Code<Slot>
    ensures { result ≡ Rattle.speed.specs.Samples.attribute attribute }
{
    Code::Name(Slot::Attribute { port: 0, attribute })
}

// Whether an attribute is above a number.
fn above(alloc: Global, place: u32, number: i128) -> Result<Boxed<Code<Slot>>, NoMemory>
    ensures { IfOk result (λ c. c ≡ above place number) }
{
    let left = Boxed::new(alloc, attribute(place))?;
    let right = Boxed::new(alloc, Code::Literal(Value::Int(number)))?;
    let greater = BinaryCode::Order(OrderOperator::Greater);
    Ok(Boxed::new(alloc, Code::Binary(greater, left, right))?)
}

fn both_above(alloc: Global) -> Result<Boxed<Code<Slot>>, NoMemory>
    ensures { IfOk result (λ c. c ≡ both_above) }
{
    let left = above(alloc, 0, 500)?;
    let right = above(alloc, 1, 2)?;
    Ok(Boxed::new(alloc, Code::Binary(BinaryCode::And, left, right))?)
}

// The tuple of both attributes, the second one first.
fn swapped(alloc: Global) -> Result<Boxed<Code<Slot>>, NoMemory>
    ensures { IfOk result (λ c. c ≡ swapped) }
{
    let mut fields = Items::new(alloc);
    fields.push((0, attribute(1)))?;
    fields.push((1, attribute(0)))?;
    Ok(Boxed::new(alloc, Code::Tuple(fields))?)
}

fn env_of(alloc: Global) -> Result<Env, NoMemory>
    ensures { IfOk result (λ e. e ≡ row) }
{
    let mut tuple = Items::new(alloc);
    tuple.push(Value::Int(700))?;
    tuple.push(Value::Int(3))?;
    let mut inputs = Items::new(alloc);
    inputs.push(tuple)?;
    Ok(Env {
        inputs,
        vars: Items::new(alloc),
        punct: None,
    })
}

// How many evaluations give the value true.
fn values(alloc: Global, functions: &Functions, code: &Code<Slot>, env: &Env) -> u32
    requires { Fits functions.now code.now env.now T.Bool }
{
    let mut true_ones = 0u32;
    for _ in 0..TIMES {
        let mut turns = 1_000_000;
        if let Evaluated::Value(Value::Bool(true)) = &eval(
            alloc, functions, code, env, &mut turns,
        ) {
            true_ones = true_ones.wrapping_add(1);
        }
    }
    true_ones
}

// How many evaluations are true.
fn truths(alloc: Global, functions: &Functions, code: &Code<Slot>, env: &Env) -> u32
    requires { Fits functions.now code.now env.now T.Bool }
{
    let mut true_ones = 0u32;
    for _ in 0..TIMES {
        let mut turns = 1_000_000;
        if let Truth::Is(true) = holds(alloc, functions, code, env, &mut turns) {
            true_ones = true_ones.wrapping_add(1);
        }
    }
    true_ones
}

// How many evaluations give a tuple.
fn tuples(alloc: Global, functions: &Functions, code: &Code<Slot>, env: &Env) -> u32
    requires { Fits functions.now code.now env.now (T.Tuple pair) }
{
    let mut made = 0u32;
    for _ in 0..TIMES {
        let mut turns = 1_000_000;
        if let Evaluated::Value(_) = eval(alloc, functions, code, env, &mut turns) {
            made = made.wrapping_add(1);
        }
    }
    made
}

// The same, each in the room of the one before.
fn reused(alloc: Global, functions: &Functions, code: &Code<Slot>, env: &Env) -> u32
    requires { Fits functions.now code.now env.now (T.Tuple pair) }
{
    let mut made = 0u32;
    let mut room = Items::new(alloc);
    for _ in 0..TIMES {
        let mut turns = 1_000_000;
        match tuple_into(alloc, functions, code, env, &mut turns, room) {
            Made::Tuple(values) => {
                made = made.wrapping_add(1);
                room = values;
            }
            _ => room = Items::new(alloc),
        }
    }
    made
}

fn value(alloc: Global, functions: &Functions, env: &Env) -> Result<u32, NoMemory>
    requires none { functions.now ≡ [] }
    requires row { env.now ≡ row }
{
    let code = above(alloc, 0, 500)?;
    Ok(values(alloc, functions, code.get(), env))
}

fn truth(alloc: Global, functions: &Functions, env: &Env) -> Result<u32, NoMemory>
    requires none { functions.now ≡ [] }
    requires row { env.now ≡ row }
{
    let code = above(alloc, 0, 500)?;
    Ok(truths(alloc, functions, code.get(), env))
}

fn both(alloc: Global, functions: &Functions, env: &Env) -> Result<u32, NoMemory>
    requires none { functions.now ≡ [] }
    requires row { env.now ≡ row }
{
    let code = both_above(alloc)?;
    Ok(truths(alloc, functions, code.get(), env))
}

fn tuple(alloc: Global, functions: &Functions, env: &Env) -> Result<u32, NoMemory>
    requires none { functions.now ≡ [] }
    requires row { env.now ≡ row }
{
    let code = swapped(alloc)?;
    Ok(tuples(alloc, functions, code.get(), env))
}

fn tuple_reused(alloc: Global, functions: &Functions, env: &Env) -> Result<u32, NoMemory>
    requires none { functions.now ≡ [] }
    requires row { env.now ≡ row }
{
    let code = swapped(alloc)?;
    Ok(reused(alloc, functions, code.get(), env))
}

fn evaluated(alloc: Global, kind: &str) -> Result<u32, NoMemory> {
    let env = env_of(alloc)?;
    let functions = Items::new(alloc);
    match kind {
        "value" => value(alloc, &functions, &env),
        "truth" => truth(alloc, &functions, &env),
        "both" => both(alloc, &functions, &env),
        "tuple" => tuple(alloc, &functions, &env),
        "reused" => tuple_reused(alloc, &functions, &env),
        _ => Ok(0),
    }
}

fn measure(rt: &HostRuntime, kind: &str) -> io::Result<()> {
    let start = Instant::now(rt)?;
    let done = evaluated(rt.alloc(), kind);
    let nanos = start.elapsed(rt)?.as_nanos() / TIMES as u128;
    match done {
        Ok(count) => println!(rt; "{kind}: {nanos} ns, {count} times"),
        Err(_) => println!(rt; "no memory"),
    }
}

pub(crate) fn measured(rt: &HostRuntime, words: &[String]) -> io::Result<()> {
    match words {
        [kind] => measure(rt, kind.as_str()),
        _ => Ok(()),
    }
}
