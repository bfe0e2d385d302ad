//! The program of a request, read and compiled.
ghost use Rattle.std.specs.Prelude.{◌≡◌, ◌<◌, ◌-◌, ◌^◌, IfSome};
ghost use Rattle.language_model.specs.Refusals.{refusal_by};
ghost use Rattle.spl_tree.specs.declared.token.LexicalError.TheVariants.{TooLong};
ghost use Rattle.feed_pour.specs.Contents.{WhereTold, TellsSame};
ghost use Rattle.spl_driver.specs.steps.Steps.{CompileCounted, CompiledAt, HasOwnFiles, IsCompiledFrom, WholeFails};

use crate::compile_answer::CompileAnswer;
use crate::compiling::compile;
use crate::laws::accepted_law;
use check_laws::own_files_law;
use feed_pour::{Fetched, Shelf, fetch};
use language_model::Checked;
use run_report::{Code, Refusal};
use spl_tree::{LexicalError, MOST_BYTES};
use spl_value::{Items, Name};
use std::alloc::Global;

/// The result of compiling the file of a program.
#[derive(Drop)]
pub enum Compiled {
    Checked(Checked),
    Refused(Refusal),
    OpenFailed,
    ReadFailed,
    Memory,
}

// The refusal of a program that is longer than programs may be.
fn too_long() -> Refusal
    ensures { result ≡ refusal_by (Code.Lexical TooLong) 1048576 }
{
    Refusal {
        code: Code::Lexical(LexicalError::TooLong),
        at: MOST_BYTES,
        name: None,
    }
}

/// Reads the program in the file of this name, and compiles it. Its sinks may not have the files of
/// these names.
pub fn compile_file<H: Shelf>(
    alloc: Global,
    shelf: &mut H,
    program: &Name,
    names: &Items<Name>,
) -> Compiled
    ensures made { IfSome (H.told shelf.old)
        (λ t. CompiledAt result (t.script program.now) names.now) }
    ensures from { IsCompiledFrom result names.now }
    ensures own { HasOwnFiles result names.now }
    ensures told { WhereTold (H.told shelf.old) (H.told shelf.new) TellsSame }
    ensures reads { IfSome (H.told shelf.old)
        (WholeFails (H.counts shelf.old) (H.counts shelf.new)) }
    ensures cause { CompileCounted result program.now (H.counts shelf.old) (H.counts shelf.new) }
    ensures lent { H.lent shelf.old < 2 ^ 64 - 1 → H.lent shelf.new ≡ H.lent shelf.old }
{
    accepted_law();
    own_files_law();
    match fetch(alloc, shelf, program, MOST_BYTES as usize) {
        Fetched::OpenFailed => Compiled::OpenFailed,
        Fetched::ReadFailed => Compiled::ReadFailed,
        Fetched::Memory => Compiled::Memory,
        Fetched::TooLong => Compiled::Refused(too_long()),
        Fetched::Whole(bytes) => match compile(alloc, bytes.as_slice(), names) {
            Err(CompileAnswer::Memory) => Compiled::Memory,
            Err(CompileAnswer::Refused(refusal)) => Compiled::Refused(refusal),
            Ok(checked) => Compiled::Checked(checked),
        },
    }
}
