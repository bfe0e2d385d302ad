//! Laws of the definitions.
ghost use Rattle.std.specs.Prelude.{◌≡◌, [], ◌∷◌, Ok, Err, IsOkAnd, codes};
ghost use Rattle.spl_value.specs.declared.types.IntKind.TheVariants as N;
ghost use Rattle.spl_tree.specs.declared.keyword.Keyword.TheVariants as K;
ghost use Rattle.spl_tree.specs.declared.symbol.Symbol.TheVariants as S;
ghost use Rattle.spl_tree.specs.declared.token.LexicalError.TheVariants as E;
ghost use Rattle.spl_tree.specs.declared.token.TokenKind.TheVariants as T;
ghost use Rattle.spl_tree.specs.Laws.{LexedLaw, CutLaw, OneCutLaw, RiseLaw, OwnBytesLaw, SymbolsLaw, KeywordsLaw, WeightsLaw, ShallowLaw};
ghost use Rattle.spl_tree.specs.Tokens.{tokens};
ghost use Rattle.spl_tree.specs.Weights.{weights};

/// A program has the tokens or the refusal that are computed of it, and no others. Its tokens cut its bytes, with
/// blanks and comments between them. Each is the longest that could stand there, and no other tokens cut the bytes
/// so. They stand one after another within the program, and the bytes of a token alone are that token.
pub fn tokens_law()
    ensures lexed { LexedLaw }
    ensures cut { CutLaw }
    ensures one { OneCutLaw }
    ensures rise { RiseLaw }
    ensures own { OwnBytesLaw }
{}

/// The text of each symbol is that symbol's alone, and the word of each reserved word that one's.
pub fn texts_law()
    ensures symbols { SymbolsLaw }
    ensures keywords { KeywordsLaw }
{}

/// Each token has a weight. A program with no more tokens than one of them may weigh is never too
/// deep.
pub fn weights_law()
    ensures each { WeightsLaw }
    ensures shallow { ShallowLaw }
{}

/// Tokens of some bytes.
pub fn tokens_on_literals()
    ensures nothing { tokens [] ≡ Ok (record { list = []; length = 0 }) }
    ensures symbol { tokens (codes "a<=1l") ≡ Ok (record {
      list =
          record { kind = T.Word (codes "a"); start = 0; end = 1 }
          ∷ record { kind = T.Symbol S.LessOrEqual; start = 1; end = 3 }
          ∷ record { kind = T.Number (record { kind = N.I64; value = 1 }); start = 3; end = 5 } ∷ [];
      length = 5;
    }) }
    ensures gaps { tokens (codes "in//x\n/*/ */$in") ≡ Ok (record {
      list =
          record { kind = T.Keyword K.In; start = 0; end = 2 }
          ∷ record { kind = T.Dollar (codes "in"); start = 12; end = 15 } ∷ [];
      length = 15;
    }) }
    ensures text { tokens (codes "'a\\n\"'") ≡ Ok (record {
      list =
          record { kind = T.Text (97 ∷ 10 ∷ 34 ∷ []); start = 0; end = 6 } ∷ [];
      length = 6;
    }) }
    ensures largest { tokens (codes "127b") ≡ Ok (record {
      list =
          record { kind = T.Number (record { kind = N.I8; value = 127 }); start = 0; end = 4 } ∷ [];
      length = 4;
    }) }
    ensures too_large { tokens (codes "300b") ≡ Err (E.BadNumber, 0) }
    ensures run_on { tokens (codes "a 1x") ≡ Err (E.BadNumber, 2) }
    ensures bad_byte { tokens (codes "#") ≡ Err (E.BadByte, 0) }
    ensures bad_escape { tokens (codes "'a\\q'") ≡ Err (E.BadByte, 2) }
    ensures open_text { tokens (codes "'a\n'") ≡ Err (E.OpenText, 0) }
    ensures open_comment { tokens (codes "/*") ≡ Err (E.OpenComment, 0) }
{}

/// Weights of the tokens of some bytes.
pub fn weights_on_literals()
    ensures levels { IsOkAnd (tokens (codes "f(a, [b]) + {c} - d ; e in x")) (λ ts. weights ts.list
        ≡ 0 ∷ 1 ∷ 1 ∷ 1 ∷ 2 ∷ 2 ∷ 1 ∷ 0 ∷ 1 ∷ 2 ∷ 2 ∷ 1 ∷ 2 ∷ 2 ∷ 0 ∷ 0 ∷ 1 ∷ 1 ∷ []) }
    ensures block_ends { IsOkAnd (tokens (codes "{a = b + {c} d}")) (λ ts. weights ts.list
        ≡ 1 ∷ 1 ∷ 2 ∷ 2 ∷ 3 ∷ 4 ∷ 4 ∷ 3 ∷ 1 ∷ 0 ∷ []) }
    ensures symbols { IsOkAnd (tokens (codes ": . = == != < <= > >= + - * / % ! ~ & && ^ | || ? += -= *= /= %= in a 1 'b' $c if , ( [ { } ] ) ;"))
        (λ ts. weights ts.list
        ≡ 1 ∷ 2 ∷ 3 ∷ 4 ∷ 5 ∷ 6 ∷ 7 ∷ 8 ∷ 9 ∷ 10 ∷ 11 ∷ 12 ∷ 13 ∷ 14 ∷ 15 ∷ 16 ∷ 17 ∷ 18 ∷ 19 ∷ 20 ∷ 21 ∷ 22 ∷
        23 ∷ 24 ∷ 25 ∷ 26 ∷ 27 ∷ 28 ∷ 28 ∷ 28 ∷ 28 ∷ 28 ∷ 28 ∷ 0 ∷ 1 ∷ 2 ∷ 3 ∷ 2 ∷ 1 ∷ 0 ∷ 0 ∷ []) }
{}
