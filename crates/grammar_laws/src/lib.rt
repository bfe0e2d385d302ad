//! How the phrases of the grammar begin, which pieces they are made of, and where tokens are too deep.
#![tactic(auto)]

mod laws;

pub use laws::{
    expression_lines_law, forms_law, lines_law, ranges_law, relations_law, unit_lines_law,
    units_on_literals, weighing_law,
};
