use language_model::Refusal;
use spl_value::{Fault, Name};

/// Why the program ended.
#[derive(Drop)]
pub enum Cause {
    /// The request was carried out.
    Done,
    /// The words are no request.
    BadWords,
    /// The program is refused.
    Refused(Refusal),
    /// The run ended with a fault.
    Stopped(Fault),
    /// The file of this name couldn't be opened or created.
    OpenFailed(Name),
    /// The file of this name, which has the program or an arrival record, couldn't be read to its end.
    ReadFailed(Name),
    /// The file of this name couldn't be written or finished; or the line or the text of a request that was
    /// carried out couldn't be written, and the name is `-`.
    WriteFailed(Name),
    /// The file of the arrival record doesn't spell one of the program; or the record isn't whole for the
    /// operator with this number, which is the first such in topological order.
    BadArrivals(Option<u32>),
    /// The request asks for what isn't built.
    NotBuilt,
    /// There was no memory, or the program goes past a bound on depth or size.
    NoMemory,
}
