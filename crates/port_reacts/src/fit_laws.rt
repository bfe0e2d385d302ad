//! What becomes of items that fit, at operators whose clauses fit.
ghost use Rattle.std.specs.Prelude.{true};
ghost use Rattle.stream_model.specs.Fitting.{CheckedFits, FitsAt, ReactsFit};

/// The clauses of the operators of a checked graph fit. Nothing that an operator evaluates lacks a value, where its clauses
/// fit, what came before fits and gave no fault, and the item fits. Each tuple that an event causes has the attributes of its
/// stream.
pub fn fits_law()
    ensures makes { FitsAt (λ part. true) }
    ensures reacts { ReactsFit }
    ensures checked { CheckedFits }
{}
