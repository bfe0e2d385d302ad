//! Operators by their ports: what an operator answers where the connections of its ports are counted
//! apart from it.
#![tactic(auto)]

mod checked_operator;
mod environment;
mod fit_laws;
mod on_port;
mod replies;

pub use checked_operator::CheckedOperator;
pub use environment::idle_env;
pub use fit_laws::fits_law;
pub use on_port::OnPort;
pub use replies::{MOST_TURNS, give_first, given_first, given_none, on_each_port};
