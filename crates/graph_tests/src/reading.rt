//! Texts of programs, as units. Without one, a word or two say what is wanting.
use spl_lexer::lex;
use spl_tree::Unit;
use std::alloc::Global;
use unit_parser::parse_unit;

/// The unit of a program.
pub(crate) fn unit_of(alloc: Global, program: &[u8]) -> Result<Unit, &'static str> {
    let Ok(tokens) = lex(alloc, program) else {
        return Err("no tokens");
    };
    if tokens.list.len() > 1_048_576 {
        return Err("too many tokens");
    }
    match parse_unit(alloc, &tokens) {
        Ok(unit) => Ok(unit),
        Err(_) => Err("no tree"),
    }
}
