//! Mergers inside an element, packet by packet.
//!
//! A row has a kind of merger, its width, and packets: `0:3#7` is a tuple of 3 under the number 7 on channel 0, `0:p16` a
//! pulse, `0:close` is `Close`. What is merged goes to two connections of one port; `?` takes what waits.
ghost use Rattle.std.specs.Prelude.{◌≡◌, ◌<◌, ◌≤◌, false, IfOk};
ghost use Rattle.spl_value.specs.Numbered.{is_cut};
ghost use Rattle.channel_heads.specs.Held.{wants, width_of};
ghost use Rattle.element_tests.specs.Driving.{AreFans};

use crate::shown::{add_waiting, finished};
use crate::spoken::item_of;
use element_outboxes::{Fan, Outbox, fans_of};
use merger_works::{Merge, run_merger};
use operator_chains::How;
use order_merger::{NumberMerger, TurnMerger};
use pulse_rule::PulseMerger;
use spl_value::{Items, NoMemory, Packet};
use std::alloc::{AllocError, Global};
use test_texts::rows::{Answers, Untrue, expect};
use test_texts::text::Text;
use test_texts::words::{cut, number};

/// A merger that can be asked whether it wants a packet.
trait Asked: Merge {
    fn is_wanting(&self, channel: u32) -> bool
        requires { channel < width_of (Self.held self.now) }
        ensures { result ≡ wants (Self.held self.now) channel };
}

impl Asked for TurnMerger {
    fn is_wanting(&self, channel: u32) -> bool {
        self.wants(channel)
    }
}

impl Asked for NumberMerger {
    fn is_wanting(&self, channel: u32) -> bool {
        self.wants(channel)
    }
}

impl Asked for PulseMerger {
    fn is_wanting(&self, channel: u32) -> bool {
        self.wants(channel)
    }
}

/// The packet of a word behind its channel.
fn packet_of(alloc: Global, word: &str) -> Result<Packet, NoMemory>
    ensures { IfOk result (λ packet. is_cut packet ≡ false) }
{
    if word == "close" {
        return Ok(Packet::Close);
    }
    if let Some(digits) = word.strip_prefix("p") {
        return Ok(Packet::Pulse(u64::from(number(digits))));
    }
    let (word, digits) = word.split_once("#").unwrap_or((word, "0"));
    let item = item_of(alloc, word)?;
    let number = u64::from(number(digits));
    Ok(Packet::Item { number, item })
}

/// Lets a merger take the packet of a word, where it wants one on that channel.
fn merge<M: Asked>(
    alloc: Global,
    merger: &mut M,
    width: u32,
    fans: &Items<Fan>,
    outbox: &mut Outbox,
    word: &str,
    shown: &mut Text,
) -> Result<(), NoMemory>
    requires width { width_of (M.held merger.old) ≡ width }
    requires fans { AreFans fans.now }
    ensures { IfOk result (λ _. width_of (M.held merger.new) ≡ width) }
{
    let (channel, word) = word.split_once(":").unwrap_or(("0", word));
    let channel = number(channel);
    if channel >= width || !merger.is_wanting(channel) {
        shown.add(" unwanted");
        return Ok(());
    }
    let packet = packet_of(alloc, word)?;
    run_merger(alloc, merger, fans, outbox, channel, packet, How::Live)?;
    Ok(())
}

/// What waits after the words of a row, or where they ask for it.
fn told<M: Asked>(
    alloc: Global,
    merger: Result<M, NoMemory>,
    width: u32,
    script: &str,
    shown: &mut Text,
) -> Result<(), NoMemory>
    requires { IfOk merger (λ m. width_of (M.held m) ≡ width) }
{
    let mut merger = merger?;
    let fans = fans_of(alloc, &[2])?;
    let mut outbox = Outbox::new(alloc);
    'words: for word in script.split_whitespace() {
        if word == "?" {
            add_waiting(shown, &mut outbox);
        } else {
            merge(alloc, &mut merger, width, &fans, &mut outbox, word, shown)?;
        }
    }
    add_waiting(shown, &mut outbox);
    Ok(())
}

fn add_told(
    alloc: Global,
    kind: &str,
    width: u32,
    script: &str,
    shown: &mut Text,
) -> Result<(), NoMemory>
    requires { (1 ≤ width) × (width ≤ 16) }
{
    match kind {
        "turns" => told(alloc, TurnMerger::new(alloc, width), width, script, shown),
        "numbers" => told(alloc, NumberMerger::new(alloc, width), width, script, shown),
        _ => told(alloc, PulseMerger::new(alloc, width), width, script, shown),
    }
}

/// What is told of a row.
struct Joining;

impl Answers for Joining {
    fn answer(&self, alloc: Global, text: &str) -> Result<String, AllocError> {
        let mut shown = Text::new(alloc);
        let (kind, rest) = cut(text);
        let (width, script) = cut(rest);
        let width = number(width).clamp(1, 16);
        if add_told(alloc, kind, width, script, &mut shown).is_err() {
            shown.add("no memory");
        }
        finished(alloc, shown)
    }
}

const ROWS: &str = r#"
# By turns: an item goes on when its channel's turn comes, and then those that waited for it.
turns 1 0:5 ? 0:6#1 => 0:5 1:5 0:6 1:6
turns 2 1:6#1 ? 0:5 ? 0:7#2 => - 0:5 1:5 0:6 1:6 0:7 1:7
turns 16 15:9#15 14:8#14 13:7#13 12:6#12 11:5#11 10:4#10 9:3#9 8:2#8 7:1#7 6:6#6 5:5#5 4:4#4 3:3#3 2:2#2 1:1#1 ? 0:0 => - 0:0 1:0 0:1 1:1 0:2 1:2 0:3 1:3 0:4 1:4 0:5 1:5 0:6 1:6 0:1 1:1 0:2 1:2 0:3 1:3 0:4 1:4 0:5 1:5 0:6 1:6 0:7 1:7 0:8 1:8 0:9 1:9
# A channel that holds an item, or is closed, wants none. Behind the last item of the stream nothing goes on.
turns 2 1:6#1 1:7#3 0:. ? 1:w#3 0:close 0:close ? => unwanted 0:. 1:. 0:close 1:close unwanted - -
turns 2 1:!#1 ? 0:5 => - 0:5 1:5 0:!BadRow@9 1:!BadRow@9 0:close 1:close
# By numbers the next number goes on from whichever channel has it.
numbers 1 0:5 0:w#1 0:.#2 => 0:5 1:5 0:w 1:w 0:. 1:. 0:close 1:close
numbers 2 0:7#2 ? 1:5 ? 1:6#1 ? 0:8#3 => - 0:5 1:5 0:6 1:6 0:7 1:7 0:8 1:8
numbers 16 9:7#2 3:6#1 ? 15:5 ? 0:!#3 1:8#4 => - 0:5 1:5 0:6 1:6 0:7 1:7 0:!BadRow@9 1:!BadRow@9 0:close 1:close
# By pulses an item goes on when no channel can give one of a smaller number.
pulses 1 0:5 ? 0:6 ? 0:.#1 => 0:5 1:5 0:6 1:6 0:. 1:. 0:close 1:close
pulses 2 0:5 ? 0:6#1 ? 1:p1 ? 0:7#2 ? 1:close => 0:5 1:5 - 0:6 1:6 - 0:7 1:7
pulses 2 0:7#17 ? 1:6#2 ? 1:p16 ? 1:p32 => - 0:6 1:6 - 0:7 1:7
pulses 2 0:!#1 ? 1:5 ? 1:p16 ? 1:6#16 => - 0:5 1:5 0:!BadRow@9 1:!BadRow@9 0:close 1:close -
pulses 16 0:5#1 1:close 2:close 3:close 4:close 5:close 6:close 7:close 8:close 9:close 10:close 11:close 12:close 13:close 14:close ? 15:p16 ? 0:.#17 ? 15:close => - 0:5 1:5 - 0:. 1:. 0:close 1:close
"#;

#[test]
fn mergers_send_what_is_known_to_be_next(rt: HostRuntime) -> Result<(), Untrue> {
    expect(rt.alloc(), &Joining, &[ROWS])
}
