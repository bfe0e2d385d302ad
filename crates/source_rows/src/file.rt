//! A source's file, read as its rows. The feed is given back.
ghost use Rattle.std.specs.Prelude.{◌≡◌, ◌<◌, ◌-◌, ◌^◌, true, IfSome};
ghost use Rattle.feed_pour.specs.Contents.{WhereTold, TellsSame};
ghost use Rattle.language_model.specs.Checking.{has_text_form};
ghost use Rattle.source_rows.specs.Counting.{Grows};
ghost use Rattle.source_rows.specs.steps.Steps.{FileCounted, FileRowsFit, FileRowsOf};

use feed_pour::{Opened, Shelf};
use row_reader::read_rows;
use spl_value::{Item, Items, Name, Schema};
use std::alloc::Global;

/// The most bytes of a source's file.
const MOST_BYTES: u64 = 1 << 40;

/// The result of reading the file of a source.
#[derive(Drop)]
pub(crate) enum FileRows {
    Rows(Items<Item>),
    OpenFailed,
    Memory,
}

/// Reads the rows of the file of this name, for the source with this number.
pub(crate) fn read_file<H: Shelf>(
    alloc: Global,
    shelf: &mut H,
    file: &Name,
    schema: &Schema,
    strict: bool,
    op: u32,
) -> FileRows
    requires form { has_text_form schema.now ≡ true }
    ensures fit { FileRowsFit result op schema.now }
    ensures rows { IfSome (H.told shelf.old)
        (λ t. FileRowsOf result op schema.now strict (t.script file.now)) }
    ensures told { WhereTold (H.told shelf.old) (H.told shelf.new) TellsSame }
    ensures cause { FileCounted result (H.counts shelf.old) (H.counts shelf.new) file.now }
    ensures grows { Grows (H.counts shelf.old) (H.counts shelf.new) }
    ensures lent { H.lent shelf.old < 2 ^ 64 - 1 → H.lent shelf.new ≡ H.lent shelf.old }
{
    match shelf.open_in(file) {
        Opened::Failed => FileRows::OpenFailed,
        Opened::Memory => FileRows::Memory,
        Opened::Ok(mut feed) => {
            let rows = read_rows(alloc, &mut feed, schema, strict, op, MOST_BYTES);
            shelf.close_in(file, feed);
            match rows {
                Ok(items) => FileRows::Rows(items),
                Err(_) => FileRows::Memory,
            }
        }
    }
}
