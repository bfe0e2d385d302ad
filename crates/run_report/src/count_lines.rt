//! The text of what a run counted.
ghost use Rattle.std.specs.Prelude.{◌≡◌, ◌++◌, flat_map, IfOk, OnOk};
ghost use Rattle.run_report.specs.CountTexts.{channel_text, sink_line, counts_text};

use crate::status::operator;
use itoa::Buffer;
use language_model::Checked;
use spl_value::{Bytes, Items, NoMemory};
use std::alloc::Global;
use stream_model::{ChannelCount, Counts, SinkCount};

// Adds the line of a channel.
fn add_channel(text: &mut Vec<u8>, count: ChannelCount) -> Result<(), NoMemory>
    ensures { OnOk result (text.new.items ≡ text.old.items ++ channel_text count) }
{
    let mut digits = Buffer::new();
    text.extend_from_slice(b"region ")?;
    text.extend_from_slice(digits.format(count.region).as_bytes())?;
    text.extend_from_slice(b" channel ")?;
    text.extend_from_slice(digits.format(count.channel).as_bytes())?;
    text.extend_from_slice(b" events ")?;
    text.extend_from_slice(digits.format(count.events).as_bytes())?;
    text.extend_from_slice(b"\n")?;
    Ok(())
}

// Adds the line of a sink.
fn add_sink(text: &mut Vec<u8>, checked: &Checked, count: SinkCount) -> Result<(), NoMemory>
    ensures { OnOk result (text.new.items ≡ text.old.items ++ sink_line checked.now count) }
{
    let mut digits = Buffer::new();
    text.extend_from_slice(b"sink ")?;
    text.extend_from_slice(operator(Some(checked), count.op))?;
    text.extend_from_slice(b" tuples ")?;
    text.extend_from_slice(digits.format(count.tuples).as_bytes())?;
    text.extend_from_slice(b"\n")?;
    Ok(())
}

// Adds the lines of channels.
fn add_channels(text: &mut Vec<u8>, counts: &[ChannelCount]) -> Result<(), NoMemory>
    ensures { OnOk result (text.new.items ≡ text.old.items ++ flat_map channel_text counts.now) }
{
    for count in counts {
        add_channel(text, *count)?;
    }
    Ok(())
}

// Adds the lines of sinks.
fn add_sinks(text: &mut Vec<u8>, checked: &Checked, counts: &[SinkCount]) -> Result<(), NoMemory>
    ensures { OnOk result
        (text.new.items ≡ text.old.items ++ flat_map (sink_line checked.now) counts.now) }
{
    for count in counts {
        add_sink(text, checked, *count)?;
    }
    Ok(())
}

/// The text of what a run counted: a line for each channel of a region, with the items that were sent to
/// it, and then one for each sink, with the tuples that it wrote. The name of a sink is empty where the
/// operator isn't there.
pub fn counts_text(alloc: Global, checked: &Checked, counts: &Counts) -> Result<Bytes, NoMemory>
    ensures { IfOk result (λ text. text ≡ counts_text checked.now counts.now) }
{
    let mut text = Vec::new(alloc);
    add_channels(&mut text, counts.channels.as_slice())?;
    add_sinks(&mut text, checked, counts.sinks.as_slice())?;
    Ok(Items::from_vec(text))
}
