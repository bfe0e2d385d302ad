//! Texts of programs, checked. Without a checked graph, a word or two say what is wanting.
use clause_rules::check;
use composite_expand::expand;
use language_model::Checked;
use spl_lexer::lex;
use spl_tree::Unit;
use spl_value::Items;
use std::alloc::Global;
use unit_parser::parse_unit;

fn unit_of(alloc: Global, program: &[u8]) -> Result<Unit, &'static str> {
    let Ok(tokens) = lex(alloc, program) else {
        return Err("no tokens");
    };
    if tokens.list.len() > 1_048_576 {
        return Err("too many tokens");
    }
    match parse_unit(alloc, &tokens) {
        Ok(unit) => Ok(unit),
        Err(_) => Err("no tree"),
    }
}

/// The checked graph of a program.
pub(crate) fn checked_of(alloc: Global, program: &[u8]) -> Result<Checked, &'static str> {
    let unit = unit_of(alloc, program)?;
    match expand(alloc, &unit, &Items::new(alloc)) {
        Ok(graph) => match check(alloc, &unit, graph) {
            Ok(checked) => Ok(checked),
            Err(_) => Err("not checked"),
        },
        Err(_) => Err("no graph"),
    }
}
