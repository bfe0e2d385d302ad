//! From the bytes of a program to its checked graph.
ghost use Rattle.spl_driver.specs.Compiled.{IsCompiled};

use crate::compile_answer::CompileAnswer;
use clause_rules::check;
use composite_expand::expand;
use language_model::Checked;
use spl_lexer::lex;
use spl_tree::tokens_law;
use spl_value::{Items, Name};
use std::alloc::Global;
use unit_parser::parse_unit;

/// The checked graph of a program's bytes, whose sinks may not have the files of these names; or the
/// program's first refusal. Its tokens are looked at first, then what they spell, then the graph that
/// its composites expand to, and then the types and clauses of this.
///
/// `Memory` is also the answer for what nests too deep for the stack, and for types of more than a million
/// parts.
pub fn compile(alloc: Global, bytes: &[u8], names: &Items<Name>) -> Result<Checked, CompileAnswer>
    ensures { IsCompiled bytes.now names.now result }
{
    tokens_law();
    let tokens = lex(alloc, bytes)?;
    let unit = parse_unit(alloc, &tokens)?;
    let graph = expand(alloc, &unit, names)?;
    let checked = check(alloc, &unit, graph)?;
    Ok(checked)
}
