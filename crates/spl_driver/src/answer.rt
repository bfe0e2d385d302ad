//! The answer to a request, and its text.
ghost use Rattle.std.specs.Prelude.{◌≡◌, ◌<◌, ◌-◌, ◌^◌, ℕ, List, true, IfOk, IfSome, Some, None};
ghost use Rattle.feed_pour.specs.Contents.{WhereTold};
ghost use Rattle.run_report.specs.Texts.{status_text};
ghost use Rattle.command_line.specs.Request.{file_names};
ghost use Rattle.language_model.specs.Files.{OwnFiles};
ghost use Rattle.spl_driver.specs.Answer.{MayBe, NeedsRecord};
ghost use Rattle.spl_driver.specs.Shown.{NothingRan};
ghost use Rattle.spl_driver.specs.Built.{is_built};
ghost use Rattle.spl_driver.specs.Files.{files_of, program_of};
ghost use Rattle.spl_driver.specs.Outcome.{OfPlan, OfSize};
ghost use Rattle.spl_driver.specs.Texts.{IsReportText, wants_counts};
ghost use Rattle.spl_driver.specs.steps.Telling.{IsText};
ghost use Rattle.spl_driver.specs.steps.Steps.{AnswersRequest, CountsShow, FilesShow, FollowsFile, IsAcceptedOutcome, IsToldAcceptedOutcome, RanAccepted, ReadInOrder, ReasonOf, RecordFor, Replays};

use crate::compiled::{Compiled, compile_file};
use crate::ended::{Ended, open_failed, read_failed, uncounted_end};
use crate::laws::{accepted_law, outcome_law};
use crate::prepare::kept;
use crate::record::{RecordRead, read_record};
use crate::run::run;
use arrival_format::format_law;
use command_line::{Request, file_names};
use feed_pour::Shelf;
use language_model::Checked;
use list_engine::Order;
use region_choice::choose;
use run_report::{Cause, check_text, plan_text, status_text};
use spl_value::{Bytes, Items, Name, NoMemory};
use std::alloc::Global;

/// How a request ends, and the text that tells it.
#[derive(Drop)]
pub struct Answer {
    pub ended: Ended,
    pub text: Result<Bytes, NoMemory>,
}

/// The answer of a cause that names no operator, where nothing was counted.
pub fn plain_answer(alloc: Global, cause: Cause) -> Answer
    ensures cause { result.ended.cause ≡ cause }
    ensures text { IfOk result.text (λ text. text ≡ status_text None cause) }
    ensures ran { NothingRan result.ended }
{
    let text = status_text(alloc, None, &cause);
    Answer {
        ended: uncounted_end(alloc, cause),
        text,
    }
}

/// The answer where a record isn't one of the program, or isn't whole for this operator of it.
pub fn bad_arrivals(alloc: Global, checked: &Checked, op: Option<u32>) -> Answer
    ensures cause { result.ended.cause ≡ Cause.BadArrivals op }
    ensures text { IfOk result.text
        (λ text. text ≡ status_text (Some checked.now) (Cause.BadArrivals op)) }
    ensures ran { NothingRan result.ended }
{
    let cause = Cause::BadArrivals(op);
    let text = status_text(alloc, Some(checked), &cause);
    Answer {
        ended: uncounted_end(alloc, cause),
        text,
    }
}

// The answer to a request for this text of an accepted program.
fn reported(alloc: Global, text: Result<Bytes, NoMemory>) -> Answer
    ensures cause { result.ended.cause ≡ Cause.Done }
    ensures text { result.text ≡ text }
    ensures ran { NothingRan result.ended }
{
    Answer {
        ended: uncounted_end(alloc, Cause::Done),
        text,
    }
}

// The size of an accepted program.
fn size(alloc: Global, checked: &Checked) -> Result<Bytes, NoMemory>
    ensures { IfOk result (IsReportText OfSize checked.now) }
{
    check_text(alloc, checked)
}

// The regions of an accepted program.
fn regions(alloc: Global, checked: &Checked) -> Result<Bytes, NoMemory>
    ensures { IfOk result (IsReportText OfPlan checked.now) }
{
    let plan = choose(alloc, checked)?;
    plan_text(alloc, checked, &plan)
}

// Runs an accepted program under the record in the file of this name.
fn replay<H: Shelf>(alloc: Global, shelf: &mut H, accepted: &Checked, file: &Name) -> Answer
    requires own { (names : List (List ℕ)) × OwnFiles names accepted.now.parts }
    ensures { Replays file.now accepted.now result (H.told shelf.old) (H.told shelf.new)
        (H.counts shelf.old) (H.counts shelf.new) (H.lent shelf.old) (H.lent shelf.new) }
{
    format_law();
    kept(accepted);
    match read_record(alloc, shelf, accepted, file) {
        RecordRead::OpenFailed => plain_answer(alloc, open_failed(alloc, file.as_slice())),
        RecordRead::ReadFailed => plain_answer(alloc, read_failed(alloc, file.as_slice())),
        RecordRead::Bad => bad_arrivals(alloc, accepted, None),
        RecordRead::Memory => plain_answer(alloc, Cause::NoMemory),
        RecordRead::Order(order) => run(alloc, shelf, accepted, &order, &None, false),
    }
}

// What is done with an accepted program.
fn answer_accepted<H: Shelf>(
    alloc: Global,
    shelf: &mut H,
    request: &Request,
    accepted: &Checked,
) -> Answer
    requires built { is_built request.now ≡ true }
    requires own { OwnFiles (file_names request.now) accepted.now.parts }
    ensures files { WhereTold (H.told shelf.old) (H.told shelf.new)
        (λ old new. FilesShow (IsAcceptedOutcome request.now accepted.now result.ended.arrivals old)
        (files_of (Some request.now) accepted.now.parts)
        result.ended (H.counts shelf.old) (H.counts shelf.new) old new) }
    ensures counts { CountsShow result.ended.cause accepted.now.parts
        (files_of (Some request.now) accepted.now.parts)
        (H.counts shelf.old) (H.counts shelf.new) }
    ensures text { IfOk result.text (IsText (wants_counts (Some request.now)) result.ended.cause
        (IsToldAcceptedOutcome request.now accepted.now result.ended.arrivals (H.told shelf.old)
        (H.counts shelf.old) (H.counts shelf.new))) }
    ensures kinds { MayBe (Some request.now) result.ended.cause }
    ensures needed { IfSome (H.told shelf.old) (NeedsRecord (Some request.now) result.ended) }
    ensures followed { WhereTold (H.told shelf.old) (H.told shelf.new)
        (FollowsFile request.now accepted.now result.ended) }
    ensures in_order { IfSome (H.told shelf.old) (ReadInOrder request.now accepted.now result.ended) }
    ensures recorded { WhereTold (H.told shelf.old) (H.told shelf.new)
        (RecordFor request.now accepted.now result.ended (H.counts shelf.old) (H.counts shelf.new)) }
    ensures reason { ReasonOf result.ended.cause accepted.now }
    ensures ran { RanAccepted result.ended.cause request.now accepted.now result.ended (H.counts shelf.old) (H.counts shelf.new) }
    ensures lent { H.lent shelf.old < 2 ^ 64 - 257 → H.lent shelf.new ≡ H.lent shelf.old }
{
    match request {
        Request::Check(_) => reported(alloc, size(alloc, accepted)),
        Request::Plan(_) => reported(alloc, regions(alloc, accepted)),
        Request::Run { options, .. } => {
            let written = &options.arrivals;
            run(
                alloc,
                shelf,
                accepted,
                &Order::InTurn,
                written,
                options.counts,
            )
        }
        Request::Replay { arrivals, .. } => replay(alloc, shelf, accepted, arrivals),
        _ => plain_answer(alloc, Cause::NotBuilt),
    }
}

// The same where its sinks may not have the files of these names.
fn answer_file<H: Shelf>(
    alloc: Global,
    shelf: &mut H,
    request: &Request,
    program: &Name,
    names: &Items<Name>,
) -> Answer
    requires built { is_built request.now ≡ true }
    requires names { names.now ≡ file_names request.now }
    requires program { program_of request.now ≡ Some program.now }
    ensures { AnswersRequest (Some request.now) result (H.told shelf.old) (H.told shelf.new)
        (H.counts shelf.old) (H.counts shelf.new) (H.lent shelf.old) (H.lent shelf.new) }
{
    accepted_law();
    outcome_law();
    match compile_file(alloc, shelf, program, names) {
        Compiled::Refused(refusal) => plain_answer(alloc, Cause::Refused(refusal)),
        Compiled::OpenFailed => plain_answer(alloc, open_failed(alloc, program.as_slice())),
        Compiled::ReadFailed => plain_answer(alloc, read_failed(alloc, program.as_slice())),
        Compiled::Memory => plain_answer(alloc, Cause::NoMemory),
        Compiled::Checked(accepted) => answer_accepted(alloc, shelf, request, &accepted),
    }
}

/// Compiles the program of a request that is built, and does what the request asks with it.
pub fn answer_program<H: Shelf>(
    alloc: Global,
    shelf: &mut H,
    request: &Request,
    program: &Name,
) -> Answer
    requires built { is_built request.now ≡ true }
    requires program { program_of request.now ≡ Some program.now }
    ensures { AnswersRequest (Some request.now) result (H.told shelf.old) (H.told shelf.new)
        (H.counts shelf.old) (H.counts shelf.new) (H.lent shelf.old) (H.lent shelf.new) }
{
    match file_names(alloc, request) {
        Ok(names) => answer_file(alloc, shelf, request, program, &names),
        Err(_) => plain_answer(alloc, Cause::NoMemory),
    }
}
