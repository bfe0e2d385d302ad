//! Calls of an outbox, as words: `2:5` adds a tuple of 5 for output 2, `next` tells the first one's output, `take` takes it
//! and `back` gives it back, `clear` drops them all.
use crate::shown::{add_outgoing, add_waiting, finished};
use crate::spoken::item_of;
use element_outboxes::Outbox;
use spl_value::{NoMemory, Packet};
use std::alloc::{AllocError, Global};
use stream_model::Outgoing;
use test_texts::rows::{Answers, Untrue, expect};
use test_texts::text::Text;
use test_texts::words::number;

/// Adds the packet of a word.
fn add(alloc: Global, outbox: &mut Outbox, word: &str) -> Result<(), NoMemory> {
    let (output, word) = word.split_once(":").unwrap_or(("9", word));
    let item = item_of(alloc, word)?;
    outbox.add(number(output), Packet::Item { number: 0, item })
}

fn add_next(outbox: &Outbox, shown: &mut Text) {
    match outbox.next() {
        Some(output) => shown.add_place(" next ", output),
        None => shown.add(" none"),
    }
}

/// Takes the first one and tells it; where the word says so, gives it back.
fn take(outbox: &mut Outbox, gives_back: bool, shown: &mut Text) {
    match outbox.take() {
        Some(sent) => {
            add_outgoing(shown, &sent);
            if gives_back {
                let Outgoing { output, packet } = sent;
                outbox.give_back(output, packet);
            }
        }
        None => shown.add(" none"),
    }
}

fn step(alloc: Global, outbox: &mut Outbox, word: &str, shown: &mut Text) -> Result<(), NoMemory> {
    match word {
        "next" => add_next(outbox, shown),
        "take" => take(outbox, false, shown),
        "back" => take(outbox, true, shown),
        "clear" => outbox.clear(),
        "?" => add_waiting(shown, outbox),
        _ => return add(alloc, outbox, word),
    }
    Ok(())
}

/// What is told of the calls of a row.
struct Waiting;

impl Answers for Waiting {
    fn answer(&self, alloc: Global, text: &str) -> Result<String, AllocError> {
        let mut shown = Text::new(alloc);
        let mut outbox = Outbox::new(alloc);
        for word in text.split_whitespace() {
            if step(alloc, &mut outbox, word, &mut shown).is_err() {
                shown.add(" no memory");
            }
        }
        add_waiting(&mut shown, &mut outbox);
        finished(alloc, shown)
    }
}

const ROWS: &str = r#"
# Packets wait in the order in which they come, whatever their outputs.
0:1 2:2 1:w 2:. => 0:1 2:2 1:w 2:.
3:5 next take next => next 3 3:5 none -
# One that is given back is the first again.
0:1 0:2 back back take next ? take => 0:1 0:1 0:1 next 0 0:2 none -
1:1 back 2:2 next 3:3 => 1:1 next 1 1:1 2:2 3:3
# Between others that come and go.
0:1 0:2 0:3 take 0:4 back take take 0:5 => 0:1 0:2 0:2 0:3 0:4 0:5
# None waits behind a clear, and more may come.
0:1 0:2 clear next 4:3 next => none next 4 4:3
0:1 0:2 back clear ? 0:3 => 0:1 - 0:3
"#;

#[test]
fn packets_wait_in_their_order(rt: HostRuntime) -> Result<(), Untrue> {
    expect(rt.alloc(), &Waiting, &[ROWS])
}
