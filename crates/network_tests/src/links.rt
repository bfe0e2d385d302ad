//! Links that are full, worn and empty, and two threads over one link.
ghost use Rattle.std.specs.Prelude.{◌≤◌, ◌<◌, ◌^◌};
ghost use Rattle.ordered_link.specs.Ends.{IsSenderOf, IsTakerOf};

use ordered_link::{Link, Put, SendPass, TakePass, link, settle};
use spl_value::Packet;
use std::alloc::{AllocError, Global};
use std::sync::Wait;
use std::thread;
use std::thread::Threads;
use test_texts::rows::{Untrue, compare, no_others};
use test_texts::text::Text;
use test_texts::words::number;

// The number of a pulse that is taken, or none; another packet has the largest number.
fn take_one<W: Wait>(rt: &W, link: &Link, pass: &mut TakePass) -> Option<u64>
    requires { IsTakerOf link.now pass.old }
    ensures { IsTakerOf link.now pass.new }
{
    match link.try_take(rt, pass) {
        Some(Packet::Pulse(number)) => Some(number),
        Some(_) => Some(u64::MAX),
        None => None,
    }
}

// Whether the answer hands this pulse back, and as what.
fn told(answer: Result<(), Put>) -> &'static str {
    match answer {
        Ok(()) => "ok",
        Err(Put::Full(Packet::Pulse(3))) => "full 3",
        Err(Put::Worn(Packet::Pulse(3))) => "worn 3",
        Err(Put::Full(_)) => "full",
        Err(Put::Worn(_)) => "worn",
    }
}

fn add_taken(text: &mut Text, taken: Option<u64>) {
    match taken {
        Some(number) => text.add_number(i128::from(number)),
        None => text.add("none"),
    }
}

// Adds the result of a call: `?` takes a packet, `close` puts that, and a number puts a pulse.
fn add_call<W: Wait>(
    text: &mut Text,
    rt: &W,
    link: &Link,
    send: &mut SendPass,
    take: &mut TakePass,
    word: &str,
)
    requires send { IsSenderOf link.now send.old }
    requires take { IsTakerOf link.now take.old }
    ensures send { IsSenderOf link.now send.new }
    ensures take { IsTakerOf link.now take.new }
{
    match word {
        "?" => add_taken(text, take_one(rt, link, take)),
        "close" => text.add(told(link.try_put(rt, send, Packet::Close))),
        _ => {
            let pulse = Packet::Pulse(u64::from(number(word)));
            text.add(told(link.try_put(rt, send, pulse)));
        }
    }
    text.add(", ");
}

// The results of calls on a link, and how many packets were sent and taken.
fn called<W: Wait>(
    rt: &W,
    alloc: Global,
    capacity: u32,
    wear: u64,
    words: &str,
) -> Result<String, AllocError>
    requires { (1 ≤ capacity) × (1 ≤ wear) × (wear ≤ 2 ^ 61) }
{
    let Ok((line, mut send, mut take)) = link(alloc, capacity, wear) else {
        return Err(AllocError);
    };
    let mut text = Text::new(alloc);
    for word in words.split(' ') {
        add_call(&mut text, rt, &line, &mut send, &mut take, word);
    }
    let settled = settle(rt, line, send, take);
    text.add_number(i128::from(settled.sent));
    text.add(" and ");
    text.add_number(i128::from(settled.taken));
    text.add_place(" of ", settled.capacity);
    text.finish()
}

// Whether the calls on a link have these results.
fn expect_calls<W: Wait>(
    rt: &W,
    alloc: Global,
    capacity: u32,
    wear: u64,
    words: &str,
    wanted: &str,
) -> Result<(), Untrue>
    requires { (1 ≤ capacity) × (1 ≤ wear) × (wear ≤ 2 ^ 61) }
{
    let seen = called(rt, alloc, capacity, wear, words)?;
    let mut others = String::new(alloc);
    compare(&mut others, words, seen.as_str(), wanted)?;
    no_others(others)
}

#[test]
fn a_full_link_hands_the_packet_back(rt: HostRuntime) -> Result<(), Untrue> {
    let wanted = "ok, ok, full 3, 1, 2, none, 2 and 2 of 2";
    expect_calls(&rt, rt.alloc(), 2, 100, "1 2 3 ? ? ?", wanted)
}

#[test]
fn a_worn_link_carries_the_last_packet_alone(rt: HostRuntime) -> Result<(), Untrue> {
    let wanted = "ok, ok, worn 3, ok, worn, 3 and 0 of 18";
    expect_calls(&rt, rt.alloc(), 18, 3, "1 2 3 close close", wanted)
}

// Puts a pulse as soon as there is room.
fn put_one<W: Wait>(rt: &W, link: &Link, pass: &mut SendPass, number: u64)
    requires { IsSenderOf link.now pass.old }
    ensures { IsSenderOf link.now pass.new }
{
    'tries: for _ in rt.forever() {
        if told(link.try_put(rt, pass, Packet::Pulse(number))) == "ok" {
            return;
        }
        thread::yield_now();
    }
}

fn put_all<W: Wait>(rt: &W, link: &Link, mut pass: SendPass, count: u64) -> SendPass
    requires { IsSenderOf link.now pass }
    ensures { IsSenderOf link.now result }
{
    for number in 0..count {
        put_one(rt, link, &mut pass, number);
    }
    pass
}

// The number of the next packet, as soon as there is one.
fn take_next<W: Wait>(rt: &W, link: &Link, pass: &mut TakePass) -> u64
    requires { IsTakerOf link.now pass.old }
    ensures { IsTakerOf link.now pass.new }
{
    'tries: for _ in rt.forever() {
        if let Some(number) = take_one(rt, link, pass) {
            return number;
        }
        thread::yield_now();
    }
    u64::MAX
}

// Takes `count` packets, and tells how many of them came in their order.
fn take_all<W: Wait>(rt: &W, link: &Link, mut pass: TakePass, count: u64) -> (TakePass, u64)
    requires { IsTakerOf link.now pass }
    ensures { IsTakerOf link.now result.0 }
{
    let mut ordered = 0u64;
    for number in 0..count {
        if take_next(rt, link, &mut pass) == number {
            ordered = ordered.wrapping_add(1);
        }
    }
    (pass, ordered)
}

// `count` packets from one thread to another, over a link of this capacity: how many were sent, were taken, and came
// in their order.
fn passed_on<R: Threads + Wait + Sync>(
    rt: &R,
    alloc: Global,
    capacity: u32,
    count: u64,
) -> Option<(u64, u64, u64)>
    requires { (1 ≤ capacity) × (count < 2 ^ 60) }
{
    let Ok((line, send, take)) = link(alloc, capacity, 1 << 60) else {
        return None;
    };
    let (send, (take, ordered)) = thread::join(
        rt,
        || put_all(rt, &line, send, count),
        || take_all(rt, &line, take, count),
    );
    let settled = settle(rt, line, send, take);
    Some((settled.sent, settled.taken, ordered))
}

#[test]
fn packets_come_to_another_thread_in_their_order(rt: HostRuntime) {
    for (capacity, count) in [(18, 10_000), (1, 1_000), (1_024, 1_000_000)] {
        let seen = passed_on(&rt, rt.alloc(), capacity, count);
        assert!(rt; seen == Some((count, count, count)));
    }
}
