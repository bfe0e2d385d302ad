//! Where the faults of a run come from.
#![tactic(auto)]

mod laws;

pub use laws::run_faults_law;
