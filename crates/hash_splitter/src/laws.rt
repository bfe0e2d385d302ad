//! Keys that the channels don't tell apart.
ghost use Rattle.hash_splitter.specs.KeyPremises.{OneFittingSuffices};

/// The bytes of keys tell them apart only where the values of both are of the same types: it isn't enough that those of one
/// are. -1 of a signed type and 2^64 - 1 of `uint64` have the same bytes, and are two values.
pub fn premises_law()
    ensures of_both { OneFittingSuffices → ⊥ }
{}
