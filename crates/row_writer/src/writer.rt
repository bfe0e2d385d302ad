//! Rows poured into a sink.
ghost use Rattle.std.specs.Prelude.{◌≡◌, ◌<◌, ◌^◌, IfOk};
ghost use Rattle.std.specs.List.{count_by};
ghost use Rattle.feed_pour.specs.Contents.{AllPoured, failed_write};
ghost use Rattle.feed_pour.specs.Counts.{Counted};
ghost use Rattle.stream_model.specs.Rows.{item_text, text_of};
ghost use Rattle.stream_model.specs.Stream.{is_tuple};
ghost use Rattle.spl_value.specs.declared.item.Item.TheVariants as I;
ghost use Rattle.row_writer.specs.Writing.{RowsPoured};

use crate::row::add_row;
use feed_pour::{Pour, PourAnswer, write_all};
use spl_value::{Item, NoMemory, Values};
use std::alloc::Global;

/// A writer of rows. It keeps one row's text.
pub struct RowWriter {
    row: Vec<u8>,
}

impl Drop for RowWriter {
    fn drop(self) {
        let RowWriter { row: _ } = self;
    }
}

impl RowWriter {
    /// A writer with room for a short row.
    pub fn new(alloc: Global) -> Result<RowWriter, NoMemory> {
        Ok(RowWriter {
            row: Vec::with_capacity(alloc, 256)?,
        })
    }

    /// Pours a tuple's row, and repeats the call until the row is poured. After an `Err` a front of
    /// the row is poured, which may be empty. A list, a map or a tuple is an empty field.
    pub fn put<P: Pour>(&mut self, pour: &mut P, tuple: &Values) -> Result<(), PourAnswer>
        ensures poured { AllPoured (P.poured pour.old) (P.poured pour.new) result
            (item_text (I.Tuple tuple.now)) }
        ensures cause { Counted (failed_write result) (P.faults pour.old) (P.faults pour.new) }
    {
        self.row.clear();
        if add_row(&mut self.row, tuple.as_slice()).is_err() {
            return Err(PourAnswer::Memory);
        }
        write_all(pour, self.row.as_slice())
    }

    /// Pours the rows of a list's tuples, one after another, and counts them. After an `Err` a front
    /// of their text is poured, which may be empty.
    pub fn put_all<P: Pour>(&mut self, pour: &mut P, items: &[Item]) -> Result<u64, PourAnswer>
        ensures poured { RowsPoured (P.poured pour.old) (P.poured pour.new) result
            (text_of items.now) }
        ensures count { IfOk result (λ n. n ≡ count_by is_tuple items.now) }
        ensures small { IfOk result (λ n. n < 2 ^ 64) }
        ensures cause { Counted (failed_write result) (P.faults pour.old) (P.faults pour.new) }
    {
        let mut tuples = 0u64;
        for item in items {
            if let Item::Tuple(values) = item {
                match self.put(pour, values) {
                    Ok(()) => tuples += 1,
                    Err(e) => return Err(e),
                }
            }
        }
        Ok(tuples)
    }
}
