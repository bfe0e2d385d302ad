//! Checked graphs may go to other threads, and threads may share them.
#![tactic(auto)]

ghost use Rattle.std.specs.Prelude.{◌≡◌};

use language_model::Checked;

/// The value that it is given, at a type whose values may go to other threads and that threads may
/// share. What such a type owns and lends says the same to every thread.
pub fn across_threads<T: Send + Sync>(value: T) -> T
    ensures { result ≡ value }
{
    value
}

/// A checked graph may go to another thread, which then owns it.
pub fn sent_graph(graph: Checked) -> Checked
    ensures { result ≡ graph }
{
    across_threads(graph)
}

/// Threads may share a checked graph: each may have a reference to it and read it, while none changes it.
pub fn shared_graph(graph: &Checked) -> &Checked
    ensures { result.now ≡ graph.now }
{
    across_threads(graph)
}
