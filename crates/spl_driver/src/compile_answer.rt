//! What is answered where a program isn't compiled.
ghost use Rattle.std.specs.Prelude.{◌≡◌};
ghost use Rattle.language_model.specs.Refusals.{refusal_by};
ghost use Rattle.spl_driver.specs.declared.compile_answer.CompileAnswer.TheVariants.{Refused};
ghost use Rattle.spl_driver.specs.CompileAnswers.{checking_answer, expanding_answer, lexing_answer, parsing_answer};

use clause_rules::CheckAnswer;
use composite_expand::ExpandAnswer;
use expr_parser::SyntaxAnswer;
use language_model::{CheckRefusal, ExpansionRefusal};
use run_report::{Code, Refusal};
use spl_lexer::LexAnswer;

/// Why a program isn't compiled.
#[derive(Drop)]
pub enum CompileAnswer {
    /// The program's first refusal.
    Refused(Refusal),
    /// There was no memory, or the program goes past a bound on depth or size.
    Memory,
}

// A refusal that is about no name.
fn refused(code: Code, at: u32) -> CompileAnswer
    ensures { result ≡ Refused (refusal_by code at) }
{
    CompileAnswer::Refused(Refusal {
        code,
        at,
        name: None,
    })
}

impl From<LexAnswer> for CompileAnswer {
    ghost from_gives = { λ answer compiled. compiled ≡ lexing_answer answer };

    fn from(answer: LexAnswer) -> CompileAnswer {
        match answer {
            LexAnswer::Refused(error, at) => refused(Code::Lexical(error), at),
            LexAnswer::Memory => CompileAnswer::Memory,
        }
    }
}

impl From<SyntaxAnswer> for CompileAnswer {
    ghost from_gives = { λ answer compiled. compiled ≡ parsing_answer answer };

    fn from(answer: SyntaxAnswer) -> CompileAnswer {
        match answer {
            SyntaxAnswer::Unexpected(at) => refused(Code::Unexpected, at),
            SyntaxAnswer::TooDeep(at) => refused(Code::TooDeep, at),
            SyntaxAnswer::Memory => CompileAnswer::Memory,
        }
    }
}

impl From<ExpandAnswer> for CompileAnswer {
    ghost from_gives = { λ answer compiled. compiled ≡ expanding_answer answer };

    fn from(answer: ExpandAnswer) -> CompileAnswer {
        match answer {
            ExpandAnswer::Refused(ExpansionRefusal { error, at, name }) => {
                CompileAnswer::Refused(Refusal {
                    code: Code::Expansion(error),
                    at,
                    name,
                })
            }
            ExpandAnswer::Memory => CompileAnswer::Memory,
        }
    }
}

impl From<CheckAnswer> for CompileAnswer {
    ghost from_gives = { λ answer compiled. compiled ≡ checking_answer answer };

    fn from(answer: CheckAnswer) -> CompileAnswer {
        match answer {
            CheckAnswer::Refused(CheckRefusal { error, at, name }) => {
                CompileAnswer::Refused(Refusal {
                    code: Code::Check(error),
                    at,
                    name,
                })
            }
            CheckAnswer::Memory => CompileAnswer::Memory,
        }
    }
}
