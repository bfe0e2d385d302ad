//! What a program may have only once: a name in the place where it is declared, and a file that a sink
//! writes.
#![tactic(auto)]

mod declarations;
mod files;

pub use declarations::declared_twice;
pub use files::same_file;
