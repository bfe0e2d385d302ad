//! What the program reports: why it ended, and the line that tells it; plans, and what runs counted.
#![tactic(auto)]

mod cause;
mod check;
mod count_lines;
mod examples;
mod laws;
mod plan_lines;
mod status;

pub use cause::Cause;
pub use check::check_text;
pub use count_lines::counts_text;
pub use examples::{count_texts_on_literals, plan_texts_on_literals};
pub use language_model::{Code, Refusal};
pub use laws::key_names_law;
pub use plan_lines::plan_text;
pub use status::status_text;
