//! The top call: from the words of the command line to the exit status.
ghost use Rattle.std.specs.Prelude.{ℕ, List, ◌≡◌, ◌<◌, ◌-◌, ◌^◌, IfSome, Some};
ghost use Rattle.feed_pour.specs.Counts.{Rose};
ghost use Rattle.feed_pour.specs.Contents.{WhereTold};
ghost use Rattle.command_line.specs.Request.{request_of};
ghost use Rattle.source_rows.specs.Counting.{OnlyRead};
ghost use Rattle.spl_driver.specs.Answer.{Answered, ByWords, IsComplete, IsRun, rows_of};
ghost use Rattle.spl_driver.specs.Shown.{RanShown, Shown};
ghost use Rattle.spl_driver.specs.Texts.{IsToldOutcome, Said};
ghost use Rattle.spl_driver.specs.steps.Telling.{ToldAs, PoursText};
ghost use Rattle.spl_driver.specs.steps.Steps.{AnswersRequest};

use crate::answer::{Answer, answer_program, plain_answer};
use crate::built::is_plain;
use crate::ended::{Ended, status};
use crate::laws::outcome_law;
use crate::tell::say;
use command_line::{Request, read_request};
use feed_pour::{Gate, Pour, Shelf, Starter};
use run_report::Cause;
use spl_value::{Bytes, NoMemory};
use std::alloc::Global;
use std::sync::Wait;
use std::thread::Threads;

// Answers a request.
fn answer_request<H: Shelf>(alloc: Global, shelf: &mut H, request: &Request) -> Answer
    ensures { AnswersRequest (Some request.now) result (H.told shelf.old) (H.told shelf.new)
        (H.counts shelf.old) (H.counts shelf.new) (H.lent shelf.old) (H.lent shelf.new) }
{
    match request {
        Request::Check(program) | Request::Plan(program) | Request::Replay { program, .. } =>
            answer_program(alloc, shelf, request, program),
        Request::Run { program, options } => {
            if is_plain(options) {
                answer_program(alloc, shelf, request, program)
            } else {
                plain_answer(alloc, Cause::NotBuilt)
            }
        }
        Request::Simulate { .. } | Request::Make { .. } => plain_answer(alloc, Cause::NotBuilt),
    }
}

// Answers what the words ask.
fn answer_words<H: Shelf>(alloc: Global, words: &[String], shelf: &mut H) -> Answer
    ensures { AnswersRequest (request_of words.now) result (H.told shelf.old) (H.told shelf.new)
        (H.counts shelf.old) (H.counts shelf.new) (H.lent shelf.old) (H.lent shelf.new) }
{
    match read_request(alloc, words) {
        Err(_) => plain_answer(alloc, Cause::NoMemory),
        Ok(None) => plain_answer(alloc, Cause::BadWords),
        Ok(Some(request)) => answer_request(alloc, shelf, &request),
    }
}

// Pours the text of a cause, where there was memory for it, and returns the cause that the program ends with.
fn pour_text<P: Pour>(
    alloc: Global,
    cause: Cause,
    text: Result<Bytes, NoMemory>,
    out: &mut P,
) -> Cause
    ensures cause { ToldAs cause result (Rose (P.faults out.old) (P.faults out.new)) }
    ensures poured { PoursText cause result text (P.poured out.old) (P.poured out.new)
        (Rose (P.faults out.old) (P.faults out.new)) }
    ensures quiet { IsRun result → P.faults out.new ≡ P.faults out.old }
{
    match text {
        Ok(text) => say(alloc, cause, text.as_slice(), out),
        Err(_) => say(alloc, Cause::NoMemory, b"no memory\n", out),
    }
}

/// The program: it carries out what the words after the program's name ask over the shelf, and
/// tells on `out` why it ended, or what it was asked to tell of a program. It asks neither the starter nor the
/// gate, and starts no thread.
pub fn spl<W: Threads + Wait + Sync, H: Shelf, S: Starter, G: Gate, P: Pour>(
    _rt: &W,
    alloc: Global,
    words: &[String],
    shelf: &mut H,
    _starter: &mut S,
    _gate: &G,
    out: &mut P,
) -> Ended
    ensures status { result.status ≡ (rows_of result.cause).status }

    // What each answer means, what the files hold after it, and which device failed, where the shelf tells its files.
    ensures answered { WhereTold (H.told shelf.old) (H.told shelf.new)
        (Answered (request_of words.now) result (H.counts shelf.old) (H.counts shelf.new)
        (Rose (P.faults out.old) (P.faults out.new))) }

    // What the counts alone show, also where the shelf tells nothing.
    ensures shown { Shown result.cause (request_of words.now) (H.counts shelf.old)
        (H.counts shelf.new) (Rose (P.faults out.old) (P.faults out.new)) }
    ensures run { IsRun result.cause
        → ((n : List ℕ) → OnlyRead (H.counts shelf.old n) (H.counts shelf.new n))
        × (P.faults out.new ≡ P.faults out.old) }

    // What was poured.
    ensures said { Said result.cause (request_of words.now)
        (IsToldOutcome (request_of words.now) (H.told shelf.old) result.arrivals (H.counts shelf.old)
        (H.counts shelf.new)) (H.counts shelf.old) (H.counts shelf.new) (P.poured out.old) (P.poured out.new)
        (Rose (P.faults out.old) (P.faults out.new)) }

    // Every feed and every pour is given back.
    ensures lent { H.lent shelf.old < 2 ^ 64 - 257 → H.lent shelf.new ≡ H.lent shelf.old }

    // Why a program is refused, or not run.
    ensures reason { (rows_of result.cause).reason (request_of words.now) }

    // What ran: some meaning of the program, whose fault and counts are told, under the record that is returned.
    ensures ran { RanShown result.cause (request_of words.now) result (H.counts shelf.old)
        (H.counts shelf.new) }

    // The words alone decide that there is no request, or that it isn't built.
    ensures words { ByWords (request_of words.now) result.cause (H.counts shelf.old)
        (H.counts shelf.new) }

    // A request for what is told of a program that is not run ends with no fault, and is built.
    ensures kinds { (rows_of result.cause).may_be (request_of words.now) }

    // Where no device fails, the outcome of the request is the answer, unless memory runs out.
    ensures complete { IfSome (H.told shelf.old)
        (IsComplete (request_of words.now) result (H.counts shelf.old) (H.counts shelf.new)
        (Rose (P.faults out.old) (P.faults out.new))) }
{
    outcome_law();
    let Answer { ended, text } = answer_words(alloc, words, shelf);
    let Ended {
        status: _,
        cause,
        arrivals,
        counts,
    } = ended;
    let cause = pour_text(alloc, cause, text, out);
    Ended {
        status: status(&cause),
        cause,
        arrivals,
        counts,
    }
}
