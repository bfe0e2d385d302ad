//! Windows of input ports: what they hold for each key, and when they fire.
#![tactic(auto)]

mod content;
mod count;
mod delta;
mod fired;
mod insert;
mod mark;
mod part;
mod ring;
mod running;
mod running_calls;
mod summed;
mod sums;
mod window;

pub use content::Content;
pub use fired::{Fired, Flushed, FlushedContent};
pub use running::Running;
pub use running_folds::{Fold, Folds};
pub use summed::{Summed, SummedContent, SummedList};
pub use window::Window;
