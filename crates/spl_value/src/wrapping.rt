//! Integers modulo 2^bits, by the bits of their type.
ghost use Rattle.std.specs.Prelude.{◌≡◌, IsTrue, pos};
ghost use Rattle.spl_value.specs.Values.{kind_holds, modulus};
ghost use Rattle.spl_value.specs.Wrap.{wrapped};
ghost use Rattle.spl_value.specs.WrapLaws.{BelongsLaw, CongruentLaw, OneWrappedLaw, KeptLaw};

use crate::{IntKind, is_of_kind};

// How many numbers the kind has.
fn modulus(kind: IntKind) -> i128
    ensures { result ≡ pos (modulus kind) }
{
    match kind {
        IntKind::I8 | IntKind::U8 => 0x100,
        IntKind::I16 | IntKind::U16 => 0x1_0000,
        IntKind::I32 | IntKind::U32 => 0x1_0000_0000,
        IntKind::I64 | IntKind::U64 => 0x1_0000_0000_0000_0000,
    }
}

/// The number of the kind that equals `n` modulo 2^bits of the kind, as results of arithmetic
/// and of casts do in the language. A number of the kind is left as it is.
pub fn wrap(kind: IntKind, n: i128) -> i128
    ensures value { result ≡ wrapped kind n }
    ensures belongs { IsTrue (kind_holds kind result) }
{
    if is_of_kind(kind, n) {
        return n;
    }
    let modulus = modulus(kind);
    let low = n.rem_euclid(modulus);
    if is_of_kind(kind, low) {
        low
    } else {
        low - modulus
    }
}

/// What wraps to a number of a kind is of the kind and equal to it modulo 2^bits of the kind. No
/// other number of the kind is, and a number of the kind is left as it is.
pub fn wrap_law()
    ensures belongs { BelongsLaw }
    ensures congruent { CongruentLaw }
    ensures one { OneWrappedLaw }
    ensures kept { KeptLaw }
{}
