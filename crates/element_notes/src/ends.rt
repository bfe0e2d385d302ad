//! The ends of an operator.
ghost use Rattle.std.specs.Prelude.{◌≡◌, ◌<◌, ◌^◌, ◌++◌, IfOk, length, map};
ghost use Rattle.element_notes.specs.Noting.{end_at, ends_at, with_how};

use crate::ending::{End, Ends};
use operator_chains::How;
use spl_value::{Items, NoMemory};
use std::alloc::Global;

/// Adds the end at a port, where nothing is connected there.
fn add_end(ends: &mut Ends, op: u32, port: u32, count: u32) -> Result<(), NoMemory>
    ensures { IfOk result (λ _. ends.new ≡ ends.old ++ end_at op port count) }
{
    if count == 0 {
        let how = How::Live;
        ends.push(End { op, port, how })?;
    }
    Ok(())
}

/// The ends of an operator, by the number of connections of each of its output ports.
pub(crate) fn ends_of(alloc: Global, op: u32, fans: &[u32]) -> Result<Ends, NoMemory>
    requires few { length fans.now < 2 ^ 32 }
    ensures { IfOk result (λ ends. ends ≡ ends_at op fans.now) }
{
    let mut ends = Items::new(alloc);
    if fans.is_empty() {
        add_end(&mut ends, op, 0, 0)?;
        return Ok(ends);
    }
    let mut port = 0u32;
    for count in fans {
        add_end(&mut ends, op, port, *count)?;
        port += 1;
    }
    Ok(ends)
}

/// Says of each of some ends that it stands so.
pub(crate) fn set_hows(ends: &mut [End], how: How)
    ensures { ends.new ≡ map (with_how how) ends.old }
{
    for end in ends.iter_mut() {
        end.how = how;
    }
}
