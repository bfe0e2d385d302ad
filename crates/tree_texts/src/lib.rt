//! Tokens and trees of programs as texts, in one form, for the crates of tests.
//!
//! Statements stand in braces, the statement of a branch or a loop in brackets of its own, and what
//! follows the word of a clause in brackets. The arms of an `if` follow one another. A clause or a
//! part that isn't there isn't shown.
//!
//! | Text | Tree |
//! |---|---|
//! | `type A = int8; type B = (int8 a, A b)` | definitions; attributes as a shape |
//! | `void f(int8 a) {x = 1; g(x);}` | a function |
//! | `if (a) [x = 1;] else if (b) [{return;}] else [break;]` | an `if`, with a block as its second branch |
//! | `composite C(output A; input B) param [<int8> $x: 1] type [A = int8]` | a composite |
//! | `graph [(stream<A> X) as Y = F(A, B as P; C)]` | an invocation |
//! | `logic [state [int8 a] onTuple X {}] window [X: t, count()] param [p: 1, 2]` | clauses |
//! | `(a + b)`, `<a>`, `(a.b[1])`, `(- ! a)`, `(a ? b : c)` | expressions: operators in parentheses, those of the program as `<>` |
//!
//! In a text with places each of them stands in front of what is there, as `5:T`.
#![tactic(auto)]

pub mod expressions;
pub mod invocations;
pub mod operators;
pub mod statements;
pub mod tokens;
pub mod types;
pub mod units;

use spl_tree::Placed;
use spl_value::Name;
use test_texts::text::Text;

/// Adds a name.
pub fn add_name(text: &mut Text, name: &Placed<Name>) {
    text.add_at(name.at);
    text.add_bytes(name.what.as_slice());
}

/// How deep types, expressions and statements may nest to be shown.
const ROOM: u32 = 1500;
