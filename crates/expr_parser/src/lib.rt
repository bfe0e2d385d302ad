//! Expressions, read from tokens.
#![tactic(auto)]

mod answer;
mod first;
mod laws;
mod making;
mod parse;
mod parts;
mod prefixes;
mod reading;
mod stop;

pub use answer::{ParsedExpr, SyntaxAnswer};
pub use first::{name_first, pass, pass_name, symbol_first};
pub use laws::expressions_law;
pub use parse::{parse_expr, place_of};
pub use parts::{Taken, read_elements, read_expression, read_items, read_steps};
pub use stop::Stop;
pub use token_weights::too_deep;
