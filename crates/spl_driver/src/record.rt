//! The arrival record that a replay follows.
ghost use Rattle.std.specs.Prelude.{◌≡◌, ◌<◌, ◌-◌, ◌^◌, IfSome};
ghost use Rattle.feed_pour.specs.Contents.{WhereTold, TellsSame};
ghost use Rattle.source_rows.specs.Sources.{ReadsFail};
ghost use Rattle.spl_driver.specs.steps.Steps.{IsOrderFor, RecordAt, RecordCounted, RecordFails};

use arrival_format::{ArrivalsAnswer, read_arrivals};
use feed_pour::{Fetched, Shelf, fetch};
use language_model::Checked;
use list_engine::Order;
use spl_value::Name;
use std::alloc::Global;

// The most bytes of such a file.
const MOST_BYTES: usize = 0x1_0000_0000;

/// The result of reading the file of an arrival record.
#[derive(Drop)]
pub enum RecordRead {
    /// The order that it says.
    Order(Order),
    OpenFailed,
    ReadFailed,
    /// It spells no record of the program.
    Bad,
    Memory,
}

/// Reads the arrival record in the file of this name, for the runs of a checked graph.
pub fn read_record<H: Shelf>(
    alloc: Global,
    shelf: &mut H,
    checked: &Checked,
    file: &Name,
) -> RecordRead
    ensures made { IfSome (H.told shelf.old) (λ t. RecordAt result (t.script file.now) checked.now) }
    ensures order { IsOrderFor result checked.now }
    ensures told { WhereTold (H.told shelf.old) (H.told shelf.new) TellsSame }
    ensures reads { IfSome (H.told shelf.old)
        (RecordFails file.now (H.counts shelf.old) (H.counts shelf.new)) }
    ensures cause { RecordCounted result file.now (H.counts shelf.old) (H.counts shelf.new) }
    ensures lent { H.lent shelf.old < 2 ^ 64 - 1 → H.lent shelf.new ≡ H.lent shelf.old }
{
    match fetch(alloc, shelf, file, MOST_BYTES) {
        Fetched::OpenFailed => RecordRead::OpenFailed,
        Fetched::ReadFailed => RecordRead::ReadFailed,
        Fetched::Memory => RecordRead::Memory,
        Fetched::TooLong => RecordRead::Bad,
        Fetched::Whole(bytes) => match read_arrivals(alloc, checked, bytes.as_slice()) {
            Ok(arrivals) => RecordRead::Order(Order::Recorded(arrivals)),
            Err(ArrivalsAnswer::Bad) => RecordRead::Bad,
            Err(ArrivalsAnswer::Memory) => RecordRead::Memory,
        },
    }
}
