//! How the program ended.
ghost use Rattle.std.specs.Prelude.{◌≡◌};
ghost use Rattle.spl_driver.specs.Answer.{IsOr, status_of, uncounted};
ghost use Rattle.spl_driver.specs.Shown.{NothingRan};

use run_report::Cause;
use spl_value::Items;
use std::alloc::Global;
use stream_model::{Arrivals, Counts};

/// How the program ended: its exit status and the cause, the arrival record, and what the run
/// counted. The counts are stated after a run that was carried out alone.
#[derive(Drop)]
pub struct Ended {
    pub status: u8,
    pub cause: Cause,
    pub arrivals: Arrivals,
    pub counts: Counts,
}

/// The exit status of a cause.
pub(crate) fn status(cause: &Cause) -> u8
    ensures { result ≡ status_of cause.now }
{
    match cause {
        Cause::Done => 0,
        Cause::BadWords => 1,
        Cause::Refused(_) => 2,
        Cause::Stopped(_) => 3,
        Cause::OpenFailed(_) => 4,
        Cause::ReadFailed(_) => 5,
        Cause::WriteFailed(_) => 6,
        Cause::BadArrivals(_) => 7,
        Cause::NoMemory => 9,
        Cause::NotBuilt => 13,
    }
}

/// How it ends where the file of this name couldn't be opened or created.
pub(crate) fn open_failed(alloc: Global, name: &[u8]) -> Cause
    ensures { IsOr (Cause.OpenFailed name.now) result }
{
    match Items::from_slice(alloc, name) {
        Ok(name) => Cause::OpenFailed(name),
        Err(_) => Cause::NoMemory,
    }
}

/// How it ends where the file of this name couldn't be read.
pub(crate) fn read_failed(alloc: Global, name: &[u8]) -> Cause
    ensures { IsOr (Cause.ReadFailed name.now) result }
{
    match Items::from_slice(alloc, name) {
        Ok(name) => Cause::ReadFailed(name),
        Err(_) => Cause::NoMemory,
    }
}

/// How it ends where the file of this name, or the text of `-`, couldn't be written.
pub(crate) fn write_failed(alloc: Global, name: &[u8]) -> Cause
    ensures { IsOr (Cause.WriteFailed name.now) result }
{
    match Items::from_slice(alloc, name) {
        Ok(name) => Cause::WriteFailed(name),
        Err(_) => Cause::NoMemory,
    }
}

/// The end of a request with this record that counted nothing. It takes no memory.
pub(crate) fn uncounted_after(alloc: Global, cause: Cause, arrivals: Arrivals) -> Ended
    ensures cause { result.cause ≡ cause }
    ensures recorded { result.arrivals ≡ arrivals }
    ensures counts { result.counts ≡ uncounted }
{
    Ended {
        status: status(&cause),
        cause,
        arrivals,
        counts: Counts {
            channels: Items::new(alloc),
            sinks: Items::new(alloc),
        },
    }
}

/// The end of a request before a run of it began. It takes no memory.
pub(crate) fn uncounted_end(alloc: Global, cause: Cause) -> Ended
    ensures cause { result.cause ≡ cause }
    ensures ran { NothingRan result }
{
    let arrivals = Arrivals {
        lists: Items::new(alloc),
    };
    uncounted_after(alloc, cause, arrivals)
}
