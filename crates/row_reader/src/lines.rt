//! The lines of a file, one at a time.
ghost use Rattle.std.specs.Prelude.{◌≡◌, ◌<◌, true, length, IfOk};
ghost use Rattle.stream_model.specs.Rows.{Row, line_gives};
ghost use Rattle.row_reader.specs.Columns.{attributes};
ghost use Rattle.row_reader.specs.steps.Marked.{given_of};

use crate::columns::Column;
use crate::marked::{LineGives, read_marked};
use crate::unmarked::read_plain;
use spl_value::{NoMemory, Values};
use std::alloc::Global;

/// The columns of a file, and room for a field in quotes.
pub struct Lines {
    pub alloc: Global,
    pub columns: Vec<Column>,
    pub field: Vec<u8>,
}

impl Drop for Lines {
    fn drop(self) {
        let Lines {
            alloc: _,
            columns: _,
            field: _,
        } = self;
    }
}

/// Puts the values of a line's fields, where it is split at its commas where it stands.
#[inline(always)]
fn try_plain(
    alloc: Global,
    tuple: &mut Values,
    columns: &[Column],
    line: &[u8],
) -> Result<bool, NoMemory>
    requires some { 0 < length line.now }
    ensures row { IfOk result (λ plain. plain ≡ true
        → line_gives (attributes columns.now) line.now ≡ Row tuple.new) }
{
    if line[0] == 0xEF {
        return Ok(false);
    }
    read_plain(alloc, tuple, columns, line)
}

/// Reads a line. The values of a row stand in the tuple then.
#[inline(always)]
fn read_line(
    alloc: Global,
    tuple: &mut Values,
    field: &mut Vec<u8>,
    columns: &[Column],
    line: &[u8],
) -> Result<LineGives, NoMemory>
    ensures { IfOk result (λ given. line_gives (attributes columns.now) line.now
        ≡ given_of given tuple.new) }
{
    if line.is_empty() {
        return Ok(LineGives::Nothing);
    }
    if try_plain(alloc, tuple, columns, line)? {
        return Ok(LineGives::Row);
    }
    read_marked(alloc, tuple, field, columns, line)
}

impl Lines {
    /// What a line gives. The values of a row are written over those of a tuple.
    #[inline(always)]
    pub(crate) fn read(&mut self, tuple: &mut Values, line: &[u8]) -> Result<LineGives, NoMemory>
        ensures given { IfOk result (λ given. given_of given tuple.new
            ≡ line_gives (attributes self.old.columns.items) line.now) }
        ensures columns { self.new.columns.items ≡ self.old.columns.items }
    {
        read_line(
            self.alloc,
            tuple,
            &mut self.field,
            self.columns.as_slice(),
            line,
        )
    }
}
