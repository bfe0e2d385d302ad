//! Why a program isn't accepted, and the code of each reason.
ghost use Rattle.std.specs.Prelude.{◌≡◌};
ghost use Rattle.language_model.specs.Refusals.{told_code};

use crate::expansion::ExpansionError;
use crate::scope::CheckError;
use spl_tree::LexicalError;
use spl_value::Name;

/// Why a program is refused. Each reason has a code of its own, which is told.
#[derive(Clone, Copy)]
pub enum Code {
    /// `L1` to `L5`: the program's bytes are no tokens, or too many.
    Lexical(LexicalError),
    /// `S1`: a token, or the program's end, at which no program goes on.
    Unexpected,
    /// `S2`: a token that weighs more than 200.
    TooDeep,
    /// `E1` to `E8`: the unit has no graph.
    Expansion(ExpansionError),
    /// `Y1` to `Y6` and `C1` to `C6`: a refusal by the rules of types and clauses.
    Check(CheckError),
}

/// Why a program is refused: the first reason, and its place in bytes from 0. The program's length is the place
/// of its end. The name is that of what is refused, where the reason has one.
#[derive(Drop)]
pub struct Refusal {
    pub code: Code,
    pub at: u32,
    pub name: Option<Name>,
}

fn lexical_text(error: LexicalError) -> &'static [u8]
    ensures { result.now ≡ (told_code (Code.Lexical error)).0 }
{
    match error {
        LexicalError::BadByte => b"L1",
        LexicalError::OpenText => b"L2",
        LexicalError::OpenComment => b"L3",
        LexicalError::BadNumber => b"L4",
        LexicalError::TooLong => b"L5",
    }
}

fn expansion_text(error: ExpansionError) -> &'static [u8]
    ensures { result.now ≡ (told_code (Code.Expansion error)).0 }
{
    match error {
        ExpansionError::NoMain => b"E1",
        ExpansionError::Recursive => b"E2",
        ExpansionError::Twice => b"E3",
        ExpansionError::Loop => b"E4",
        ExpansionError::SameFile => b"E5",
        ExpansionError::TooMany => b"E6",
        ExpansionError::Unknown => b"E7",
        ExpansionError::Ports => b"E8",
    }
}

fn check_text(error: CheckError) -> &'static [u8]
    ensures { result.now ≡ (told_code (Code.Check error)).0 }
{
    match error {
        CheckError::Unknown => b"Y1",
        CheckError::Mismatch => b"Y2",
        CheckError::NotMutable => b"Y3",
        CheckError::WrongCall => b"Y4",
        CheckError::LeftOut => b"Y5",
        CheckError::NoReturn => b"Y6",
        CheckError::MissingParameter => b"C1",
        CheckError::ExtraParameter => b"C2",
        CheckError::BadWindow => b"C3",
        CheckError::BadOutput => b"C4",
        CheckError::PortCount => b"C5",
        CheckError::NoTextForm => b"C6",
    }
}

/// The letter and the digit of a code.
pub fn code_text(code: Code) -> &'static [u8]
    ensures { result.now ≡ (told_code code).0 }
{
    match code {
        Code::Lexical(error) => lexical_text(error),
        Code::Unexpected => b"S1",
        Code::TooDeep => b"S2",
        Code::Expansion(error) => expansion_text(error),
        Code::Check(error) => check_text(error),
    }
}

fn names_expansion(error: ExpansionError) -> bool
    ensures { result ≡ (told_code (Code.Expansion error)).1 }
{
    match error {
        ExpansionError::NoMain | ExpansionError::TooMany => false,
        ExpansionError::Recursive
        | ExpansionError::Twice
        | ExpansionError::Loop
        | ExpansionError::SameFile
        | ExpansionError::Unknown
        | ExpansionError::Ports => true,
    }
}

fn names_check(error: CheckError) -> bool
    ensures { result ≡ (told_code (Code.Check error)).1 }
{
    match error {
        CheckError::Unknown
        | CheckError::LeftOut
        | CheckError::NoReturn
        | CheckError::MissingParameter
        | CheckError::ExtraParameter => true,
        CheckError::Mismatch
        | CheckError::NotMutable
        | CheckError::WrongCall
        | CheckError::BadWindow
        | CheckError::BadOutput
        | CheckError::PortCount
        | CheckError::NoTextForm => false,
    }
}

fn names_lexical(error: LexicalError) -> bool
    ensures { result ≡ (told_code (Code.Lexical error)).1 }
{
    match error {
        LexicalError::BadByte
        | LexicalError::OpenText
        | LexicalError::OpenComment
        | LexicalError::BadNumber
        | LexicalError::TooLong => false,
    }
}

/// Whether a refusal with that code is told with its name.
pub fn has_name(code: Code) -> bool
    ensures { result ≡ (told_code code).1 }
{
    match code {
        Code::Lexical(error) => names_lexical(error),
        Code::Unexpected | Code::TooDeep => false,
        Code::Expansion(error) => names_expansion(error),
        Code::Check(error) => names_check(error),
    }
}
