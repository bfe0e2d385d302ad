//! Programs, compiled from their bytes, and the top call of the program.
#![tactic(auto)]

mod answer;
mod built;
mod compile_answer;
mod compiled;
mod compiling;
mod ended;
mod laws;
mod prepare;
mod record;
mod run;
mod sinks;
mod tell;
mod top;

pub use compile_answer::CompileAnswer;
pub use compiling::compile;
pub use ended::Ended;
pub use laws::{accepted_law, outcome_law, replay_law};
pub use top::spl;
