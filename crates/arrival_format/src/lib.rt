//! Arrival records as text.
#![tactic(auto)]

mod answer;
mod laws;
mod numbers;
mod reading;
mod writing;

pub use answer::ArrivalsAnswer;
pub use laws::{format_law, texts_on_literals};
pub use reading::read_arrivals;
pub use writing::arrivals_text;
