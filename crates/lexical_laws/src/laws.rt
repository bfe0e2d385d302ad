//! How tokens are written, and where bytes are none.
ghost use Rattle.lexical_laws.specs.Refusals.{BeforeLaw, RefusalLaw, RefusedLaw};
ghost use Rattle.lexical_laws.specs.Written.{TokenLaw, WrittenLaw};

/// Bytes are refused exactly where, after gaps and tokens, what stands there is no token and no gap, and for the reason
/// that the bytes there show.
pub fn refusals_law()
    ensures shown { RefusedLaw }
    ensures refused { RefusalLaw }
    ensures before { BeforeLaw }
{}

/// Each token of a program is written as a token of its kind is: a word, a reserved word, a parameter, a number with its
/// value and type, a text with the bytes that it stands for, or a symbol. And bytes that are written so are that token.
pub fn written_law()
    ensures own { WrittenLaw }
    ensures token { TokenLaw }
{}
