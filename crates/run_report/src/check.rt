//! The line that tells what was checked.
ghost use Rattle.std.specs.Prelude.{◌≡◌, IfOk};
ghost use Rattle.run_report.specs.Texts.{check_text};

use itoa::Buffer;
use language_model::Checked;
use spl_value::{Bytes, Items, NoMemory};
use std::alloc::Global;

/// The line that tells what was checked: how many operators there are, and how many streams.
pub fn check_text(alloc: Global, checked: &Checked) -> Result<Bytes, NoMemory>
    ensures { IfOk result (λ text. text ≡ check_text checked.now) }
{
    let mut line = Vec::new(alloc);
    let mut digits = Buffer::new();
    line.extend_from_slice(b"ok ")?;
    line.extend_from_slice(digits.format(checked.graph.ops.len()).as_bytes())?;
    line.extend_from_slice(b" operators ")?;
    line.extend_from_slice(digits.format(checked.graph.streams.len()).as_bytes())?;
    line.extend_from_slice(b" streams\n")?;
    Ok(Items::from_vec(line))
}
