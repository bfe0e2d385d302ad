//! Feeds and pours alone, and who starts.
//!
//! | Call | Answer |
//! |---|---|
//! | `feed 9000 2` | of a feed of so many bytes, whose reads of this number and of 90 fail: how many reads of 8,192 give |
//! | `pour 2 a b` | what each write to a pour in memory takes, of which one fails, what the pour then holds, and its faults |
//! | `plain alone` | of a feed and a pour whose calls never fail: how much a read of two bytes gives, what comes after it, and what the pour takes of that |
//! | `poured`, `refused` | what is poured on a writer that takes all, and what a pour answers on one that takes nothing |
//! | `all`, `but 1 3` | who starts of the groups 0 to 3 |
use crate::shown::fives;
use feed_pour::{
    AllStart, Failed, Feed, Gate, NotThese, OpenGate, Pour, PourAnswer, ReadAll, Starter,
    StdoutPour, read_all, write_all,
};
use memory_files::{MemoryFeed, MemoryPour, PlainFeed, PlainPour};
use spl_value::Items;
use std::alloc::{AllocError, Global};
use std::io;
use std::io::Write;
use test_texts::rows::{Answers, Untrue, expect};
use test_texts::text::Text;
use test_texts::words::{bytes, cut, number, numbers};

// The bytes that reads of 8,192 give, and whether a read failed.
fn drained(feed: &mut MemoryFeed) -> (usize, bool) {
    let mut piece = [0u8; 8192];
    let mut size = 0usize;
    for _ in 0..10 {
        match feed.read(&mut piece) {
            Ok(0) => return (size, false),
            Ok(n) => size = size.saturating_add(n),
            Err(Failed) => return (size, true),
        }
    }
    (size, false)
}

fn feed_of(alloc: Global, text: &str) -> Result<MemoryFeed, AllocError> {
    let (size, failing) = cut(text);
    let mut failing = numbers(alloc, failing)?;
    failing.push(90)?;
    Ok(MemoryFeed::new(fives(alloc, number(size))?, failing))
}

fn add_feed(text: &mut Text, feed: Result<MemoryFeed, AllocError>) {
    let Ok(mut feed) = feed else {
        return text.add("no memory");
    };
    let (given, has_failed) = drained(&mut feed);
    text.add_number(given as i128);
    text.add(if has_failed { " and failed" } else { " in all" });
}

fn add_write(text: &mut Text, pour: &mut MemoryPour, piece: &str) {
    let piece = piece.as_bytes();
    if piece.is_empty() {
        return;
    }
    match pour.write(piece) {
        Ok(taken) => text.add_number(taken as i128),
        Err(PourAnswer::Failed) => text.add("failed"),
        Err(PourAnswer::Memory) => text.add("no memory"),
    }
    text.add("; ");
}

fn add_writes(text: &mut Text, mut pour: MemoryPour, pieces: &str) {
    for piece in pieces.split_whitespace() {
        add_write(text, &mut pour, piece);
    }
    text.add_bytes(pour.bytes());
    text.add("; ");
    text.add_number(i128::from(pour.calls.faults));
    text.add("; ");
    text.add_bytes(pour.into_bytes().as_slice());
}

fn add_pour(alloc: Global, text: &mut Text, words: &str) {
    let (failing, pieces) = cut(words);
    match numbers(alloc, failing) {
        Ok(failing) => add_writes(text, MemoryPour::new(alloc, failing), pieces),
        Err(_) => text.add("no memory"),
    }
}

fn add_rest(alloc: Global, text: &mut Text, mut feed: PlainFeed, mut pour: PlainPour) {
    let mut two = [0u8; 2];
    if matches!(feed.read(&mut two), Ok(2)) {
        text.add("2; ");
    }
    if let ReadAll::Whole(rest) = read_all(alloc, &mut feed, 9) {
        text.add_bytes(rest.as_slice());
        text.add(if write_all(&mut pour, rest.as_slice()).is_ok() {
            "; "
        } else {
            "; failed"
        });
    }
    text.add_bytes(pour.bytes());
}

fn add_plain(alloc: Global, text: &mut Text, words: &str) {
    match bytes(alloc, words) {
        Ok(bytes) => add_rest(alloc, text, PlainFeed::new(bytes), PlainPour::new(alloc)),
        Err(_) => text.add("no memory"),
    }
}

#[derive(Drop)]
struct Full;

impl Write for Full {
    fn write(&mut self, _buf: &[u8]) -> io::Result<usize> {
        Ok(0)
    }

    fn flush(&mut self) -> io::Result<()> {
        Ok(())
    }
}

fn add_poured(alloc: Global, text: &mut Text) {
    let mut pour = StdoutPour::new(Vec::new(alloc));
    if write_all(&mut pour, b"row").is_ok() {
        text.add_bytes(pour.into_writer().as_slice());
    }
}

fn add_refused(text: &mut Text) {
    text.add(match StdoutPour::new(Full).write(b"row") {
        Ok(_) => "taken",
        Err(PourAnswer::Failed) => "failed",
        Err(PourAnswer::Memory) => "no memory",
    });
}

// Who starts of the groups 0 to 3.
fn add_started<S: Starter>(text: &mut Text, starter: &mut S) {
    for group in 0..4 {
        text.add(if starter.may_start(group) { "+" } else { "-" });
    }
}

fn add_all_but(alloc: Global, text: &mut Text, words: &str) {
    let (first, second) = cut(words);
    match Items::from_slice(alloc, &[number(first), number(second)]) {
        Ok(groups) => add_started(text, &mut NotThese { groups }),
        Err(_) => text.add("no memory"),
    }
}

// Calls of feeds, pours and starters.
struct Calls;

impl Answers for Calls {
    fn answer(&self, alloc: Global, text: &str) -> Result<String, AllocError> {
        OpenGate.before_put(0, 0);
        let (call, words) = cut(text);
        let mut shown = Text::new(alloc);
        match call {
            "feed" => add_feed(&mut shown, feed_of(alloc, words)),
            "pour" => add_pour(alloc, &mut shown, words),
            "plain" => add_plain(alloc, &mut shown, words),
            "poured" => add_poured(alloc, &mut shown),
            "refused" => add_refused(&mut shown),
            "but" => add_all_but(alloc, &mut shown, words),
            _ => add_started(&mut shown, &mut AllStart),
        }
        shown.finish()
    }
}

const CALLS: &str = r#"
# Reads
feed 0 1 => 0 and failed
feed 0 2 => 0 in all
feed 8192 2 => 8192 and failed
feed 8192 3 => 8192 in all
feed 20000 3 => 16384 and failed
feed 10000 3 => 10000 and failed
feed 10000 4 => 10000 in all
feed 10000 0 => 10000 in all

# Writes
pour 2 ab cd ef => 2; failed; 2; abef; 1; abef

# Calls that never fail
plain alone => 2; one; one

# Pours over writers
poured => row
refused => failed

# Who starts
but 1 3 => +-+-
all => ++++
"#;

#[test]
fn feeds_pours_and_starters_answer_as_their_rows_say(rt: HostRuntime) -> Result<(), Untrue> {
    expect(rt.alloc(), &Calls, &[CALLS])
}
