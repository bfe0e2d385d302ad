//! Refusals of types.
ghost use Rattle.std.specs.Prelude.{Some};
ghost use Rattle.spl_tree.specs.declared.keyword.Keyword.TheVariants as W;
ghost use Rattle.spl_tree.specs.Words.{keyword_word};
ghost use Rattle.language_model.specs.declared.scope.CheckError.TheVariants as E;
ghost use Rattle.language_model.specs.Typing.{refused, unknown};
ghost use Rattle.language_model.specs.Finds.{Finds};

use language_model::{CheckError, TypeAnswer, refuse};
use spl_tree::{Keyword, LeftOut};
use spl_value::{Boxed, SplType};
use std::alloc::Global;

/// A name that means nothing.
pub(crate) fn unknown(alloc: Global, at: u32, name: &[u8]) -> Result<Boxed<SplType>, TypeAnswer>
    ensures { Finds (unknown at name.now) result }
{
    refuse(alloc, CheckError::Unknown, at, name)
}

/// The word of a type that is left out.
pub(crate) fn left_out(alloc: Global, at: u32, word: LeftOut) -> Result<Boxed<SplType>, TypeAnswer>
    ensures { Finds (refused E.LeftOut at (Some (keyword_word (W.LeftOut word)))) result }
{
    let word = Keyword::LeftOut(word);
    refuse(alloc, CheckError::LeftOut, at, word.word())
}
