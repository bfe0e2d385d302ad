//! What the kinds of state say of what operators give.
ghost use Rattle.state_analysis.specs.StateLaws.{StateLaw};

/// What an event of an operator causes depends on the event alone where its clauses keep no state, and on the
/// tuples with its key alone where they keep one for each key. So it is after every history.
pub fn state_law()
    ensures { StateLaw }
{}
