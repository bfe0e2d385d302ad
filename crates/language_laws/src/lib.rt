//! What holds of the definitions of the language: of types and codes, of names, and of the checks of types and
//! kinds.
#![tactic(auto)]

mod checks;
mod examples;
mod names;
mod typing;

pub use checks::{bodies_law, kind_rules_law, types_law};
pub use examples::{checks_on_literals, dollars_on_literals, names_on_literals, types_on_literals};
pub use names::{names_law, renaming_law};
pub use typing::{changes_law, dollars_law, place_law, places_law, typing_law, unwanted_law};
