//! The text that tells the answer.
ghost use Rattle.std.specs.Prelude.{◌≡◌};
ghost use Rattle.feed_pour.specs.Counts.{Rose};
ghost use Rattle.spl_driver.specs.Answer.{IsRun};
ghost use Rattle.spl_driver.specs.steps.Telling.{is_run, ToldAs, Pours};

use crate::ended::write_failed;
use feed_pour::{Pour, PourAnswer, write_all};
use run_report::Cause;
use std::alloc::Global;

// Whether a request was carried out.
fn is_run(cause: &Cause) -> bool
    ensures { result ≡ is_run cause.now }
{
    match cause {
        Cause::Done | Cause::Stopped(_) => true,
        Cause::BadWords
        | Cause::Refused(_)
        | Cause::OpenFailed(_)
        | Cause::ReadFailed(_)
        | Cause::WriteFailed(_)
        | Cause::BadArrivals(_)
        | Cause::NotBuilt
        | Cause::NoMemory => false,
    }
}

/// Pours the text of a cause. Where the pour fails, the cause stays; but where a request was carried out
/// it is then `WriteFailed` with the name `-`.
pub fn say<P: Pour>(alloc: Global, cause: Cause, text: &[u8], out: &mut P) -> Cause
    ensures cause { ToldAs cause result (Rose (P.faults out.old) (P.faults out.new)) }
    ensures poured { Pours cause result text.now (P.poured out.old) (P.poured out.new)
        (Rose (P.faults out.old) (P.faults out.new)) }
    ensures quiet { IsRun result → P.faults out.new ≡ P.faults out.old }
{
    match write_all(out, text) {
        Ok(()) => cause,
        Err(PourAnswer::Memory) => Cause::NoMemory,
        Err(PourAnswer::Failed) => {
            if is_run(&cause) {
                write_failed(alloc, b"-")
            } else {
                cause
            }
        }
    }
}
