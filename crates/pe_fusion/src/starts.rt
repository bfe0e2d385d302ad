//! How many elements pieces have, and where each piece begins.
ghost use Rattle.std.specs.Prelude.{◌≡◌, ◌<◌, ◌+◌, ◌^◌, ℕ, Some, IfOk, length, replicate, slice_get};
ghost use Rattle.pe_fusion.specs.declared.pieces.NumberedPiece.{NumberedPiece};
ghost use Rattle.pe_fusion.specs.steps.Starting.{set_first, size_of, sizes, start_all};

use crate::pieces::NumberedPiece;
use spl_value::{Ids, Items, NoMemory};
use std::alloc::Global;

/// The number of a piece's elements: a chain is one, and a region has a splitter, its replicas and a merger.
pub(crate) fn size_of(piece: &NumberedPiece) -> u32
    requires { size_of piece.now < 2 ^ 32 }
    ensures { result ≡ size_of piece.now }
{
    match &piece.region {
        None => 1,
        Some(region) => region.width + 2,
    }
}

/// The number of elements of all pieces.
pub(crate) fn total_size(pieces: &[NumberedPiece]) -> u32
    requires { sizes pieces.now < 2 ^ 32 }
    ensures { result ≡ sizes pieces.now }
{
    let mut total = 0;
    for piece in pieces {
        total += size_of(piece);
    }
    total
}

/// So many zeros.
fn zeros(alloc: Global, many: usize) -> Result<Ids, NoMemory>
    ensures { IfOk result (λ zeros. zeros ≡ replicate many 0) }
{
    let mut zeros = Items::with_capacity(alloc, many)?;
    'zeros: for _ in 0..many {
        zeros.push(0)?;
    }
    Ok(zeros)
}

/// Sets the first element of a piece, at its first operator.
fn set_first(starts: &mut Ids, ids: &Ids, start: u32)
    requires { (n : ℕ) → slice_get ids.now 0 ≡ Some n → n < length starts.old }
    ensures { starts.new ≡ set_first ids.now start starts.old }
{
    match ids.get(0) {
        Some(first) => starts.set(*first as usize, start),
        None => {}
    }
}

/// The first element of each piece, at the number of its first operator.
pub(crate) fn starts(
    alloc: Global,
    operators: usize,
    pieces: &[NumberedPiece],
) -> Result<Ids, NoMemory>
    requires few { sizes pieces.now < 2 ^ 32 }
    requires within { (i n : ℕ) (p : NumberedPiece) → slice_get pieces.now i ≡ Some p → slice_get p.ids 0 ≡ Some n → n < operators }
    ensures { IfOk result (λ starts. starts ≡ start_all (replicate operators 0) 0 pieces.now) }
{
    let mut starts = zeros(alloc, operators)?;
    let mut start = 0;
    for piece in pieces {
        set_first(&mut starts, &piece.ids, start);
        start += size_of(piece);
    }
    Ok(starts)
}
