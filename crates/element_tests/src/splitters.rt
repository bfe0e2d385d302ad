//! Splitters with pulses, item by item: a width, how the items are routed, and the items in words.
ghost use Rattle.std.specs.Prelude.{◌+◌, ◌<◌, ◌≤◌, ◌^◌, IfOk, IsTrue, ℕ};
ghost use Rattle.element_tests.specs.Driving.{IsRouted, Splits};

use crate::shown::{add_waiting, finished};
use crate::spoken::item_of;
use element_outboxes::{Outbox, closes};
use element_works::run_splitter;
use hash_splitter::{Routing, Splitter};
use spl_value::{Items, NoMemory};
use std::alloc::{AllocError, Global};
use test_texts::rows::{Answers, Untrue, expect_spread};
use test_texts::text::Text;
use test_texts::words::{cut, number};

/// Lets a splitter take the item of a word. Whether more may come.
fn split(
    alloc: Global,
    splitter: &mut Splitter,
    width: u32,
    outbox: &mut Outbox,
    word: &str,
) -> Result<bool, NoMemory>
    requires { (sent : ℕ) × (sent < 2 ^ 60) × Splits width sent splitter.old }
    ensures { IfOk result (λ more. IsTrue more → (sent : ℕ) → Splits width sent splitter.old → Splits width (sent + 1) splitter.new) }
{
    let item = item_of(alloc, word)?;
    let last = closes(&item);
    run_splitter(splitter, width, outbox, item)?;
    Ok(!last)
}

/// What waits after the words of a row, up to the item that closes the stream.
fn told(
    alloc: Global,
    splitter: Splitter,
    width: u32,
    script: &str,
    shown: &mut Text,
) -> Result<(), NoMemory>
    requires { Splits width 0 splitter }
{
    let mut splitter = splitter;
    let mut outbox = Outbox::new(alloc);
    let mut sent = 0u32;
    'words: for word in script.split_whitespace() {
        if sent == 1_000_000 || !split(alloc, &mut splitter, width, &mut outbox, word)? {
            break 'words;
        }
        sent += 1;
    }
    add_waiting(shown, &mut outbox);
    Ok(())
}

fn routing_of(alloc: Global, word: &str) -> Result<Routing, NoMemory>
    ensures { IfOk result IsRouted }
{
    if word == "turns" {
        return Ok(Routing::Turns);
    }
    Ok(Routing::Key(Items::from_slice(alloc, &[0])?))
}

fn add_told(
    alloc: Global,
    width: u32,
    word: &str,
    script: &str,
    shown: &mut Text,
) -> Result<(), NoMemory>
    requires { (1 ≤ width) × (width ≤ 16) }
{
    let routing = routing_of(alloc, word)?;
    told(
        alloc,
        Splitter::new(width, routing, true),
        width,
        script,
        shown,
    )
}

/// What is told of a row.
struct Divided;

impl Answers for Divided {
    fn answer(&self, alloc: Global, text: &str) -> Result<String, AllocError> {
        let mut shown = Text::new(alloc);
        let (width, rest) = cut(text);
        let (word, script) = cut(rest);
        let width = number(width).clamp(1, 16);
        if add_told(alloc, width, word, script, &mut shown).is_err() {
            shown.add("no memory");
        }
        finished(alloc, shown)
    }
}

const ROWS: &str = r#"
# By turns the next item goes to the next channel, with its number. Close follows the last item on every channel.
1 turns 5 6 w . => 0:5 0:6#1 0:w#2 0:.#3 0:close
2 turns 5 6 7 ! => 0:5 1:6#1 0:7#2 1:!BadRow@9#3 0:close 1:close
# A pulse follows each 16 items on every channel.
1 turns «0 33 {n} » => 0:0 «1 15 0:{n}#{n} »0:p16 «16 16 0:{n}#{n} »0:p32 0:32#32
2 turns 0 1 «2 15 w » => 0:0 1:1#1 0:w#2 1:w#3 0:w#4 1:w#5 0:w#6 1:w#7 0:w#8 1:w#9 0:w#10 1:w#11 0:w#12 1:w#13 0:w#14 1:w#15 0:p16 1:p16 0:w#16
16 turns «0 17 {n} » . => 0:0 «1 15 {n}:{n}#{n} »«0 16 {n}:p16 »0:16#16 1:.#17«0 16  {n}:close»
# The last item may be a 16th one.
2 turns «0 15 w » . => 0:w 1:w#1 0:w#2 1:w#3 0:w#4 1:w#5 0:w#6 1:w#7 0:w#8 1:w#9 0:w#10 1:w#11 0:w#12 1:w#13 0:w#14 1:.#15 0:p16 1:p16 0:close 1:close
# By key tuples of one key go to one channel, and others in turn.
1 key 7 w 7 . => 0:7 0:w#1 0:7#2 0:.#3 0:close
2 key 0 1 2 3 w 5 . => 1:0 0:1#1 1:2#2 0:3#3 0:w#4 0:5#5 0:.#6 0:close 1:close
16 key 0 1 1 0 w 6 ! => 5:0 4:1#1 4:1#2 5:0#3 4:w#4 3:6#5 6:!BadRow@9#6«0 16  {n}:close»
16 key «0 16 1 »1 => 4:1 «1 15 4:1#{n} »«0 16 {n}:p16 »4:1#16
"#;

#[test]
fn items_are_split_with_pulses_and_ends(rt: HostRuntime) -> Result<(), Untrue> {
    expect_spread(rt.alloc(), &Divided, ROWS)
}
