//! An element of a network: what it takes and what it puts.
#![tactic(auto)]

mod calls;
mod element;
mod input;
mod laws;
mod new;
mod next;
mod output;
mod part;
mod work;

pub use element::Element;
pub use input::Input;
pub use laws::{poured_law, work_law};
pub use next::Next;
pub use output::Output;
pub use part::ElementPart;
pub use work::Work;
