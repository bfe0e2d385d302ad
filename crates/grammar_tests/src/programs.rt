//! Programs against their trees or their first refusals.
ghost use Rattle.std.specs.Prelude.{◌≤◌, length};

mod deep;
mod definitions;
mod invocations;
mod places;
mod statements;

use expr_parser::SyntaxAnswer;
use spl_lexer::lex;
use spl_tree::{Tokens, Unit};
use std::alloc::{AllocError, Global};
use std::test::Fail;
use test_texts::rows::{Answers, expect, expect_spread};
use test_texts::signs::without_signs;
use test_texts::text::Text;
use tree_texts::units::add_unit;
use unit_parser::parse_unit;

/// The most tokens that are read.
pub(crate) const MOST_TOKENS: usize = 1_048_576;

/// The refusal with its byte, as `unexpected 9` or `too deep 201`.
pub(crate) fn refused(alloc: Global, answer: SyntaxAnswer) -> Result<String, AllocError> {
    match answer {
        SyntaxAnswer::Unexpected(at) => format!(in alloc; "unexpected {at}"),
        SyntaxAnswer::TooDeep(at) => format!(in alloc; "too deep {at}"),
        SyntaxAnswer::Memory => "memory".to_string(alloc),
    }
}

// The trees of programs, with their places or without them.
struct Programs {
    places: bool,
}

impl Programs {
    fn shown(&self, alloc: Global, unit: &Unit) -> Result<String, AllocError> {
        let mut text = if self.places {
            Text::with_places(alloc)
        } else {
            Text::new(alloc)
        };
        add_unit(&mut text, unit);
        text.finish()
    }
}

fn parsed(alloc: Global, programs: &Programs, tokens: &Tokens) -> Result<String, AllocError>
    requires { length tokens.now.list ≤ 1048576 }
{
    match parse_unit(alloc, tokens) {
        Ok(unit) => programs.shown(alloc, &unit),
        Err(answer) => refused(alloc, answer),
    }
}

impl Answers for Programs {
    fn answer(&self, alloc: Global, text: &str) -> Result<String, AllocError> {
        let program = without_signs(alloc, text)?;
        let Ok(tokens) = lex(alloc, program.as_bytes()) else {
            return "no tokens".to_string(alloc);
        };
        if tokens.list.len() > MOST_TOKENS {
            return "too many tokens".to_string(alloc);
        }
        parsed(alloc, self, &tokens)
    }
}

const TABLES: [&str; 3] = [definitions::ROWS, invocations::ROWS, statements::ROWS];

#[test]
fn programs_have_their_trees_or_first_refusals(rt: HostRuntime) -> Result<(), Fail> {
    let alloc = rt.alloc();
    expect(alloc, &Programs { places: false }, &TABLES)?;
    expect_spread(alloc, &Programs { places: false }, deep::ROWS)?;
    expect(alloc, &Programs { places: true }, &[places::ROWS])?;
    Ok(())
}
