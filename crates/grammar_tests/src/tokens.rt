//! Tokens.
use spl_lexer::{LexAnswer, lex};
use spl_tree::{LexicalError, Token, TokenKind};
use std::alloc::{AllocError, Global};
use std::test::Fail;
use test_texts::rows::{Answers, expect};
use test_texts::signs::{without_signs, words};
use test_texts::text::Text;
use tree_texts::tokens::add_token;

fn name_of(error: LexicalError) -> &'static str {
    match error {
        LexicalError::BadByte => "BadByte",
        LexicalError::OpenText => "OpenText",
        LexicalError::OpenComment => "OpenComment",
        LexicalError::BadNumber => "BadNumber",
        LexicalError::TooLong => "TooLong",
    }
}

fn refused(alloc: Global, answer: LexAnswer) -> Result<String, AllocError> {
    match answer {
        LexAnswer::Refused(error, at) => format!(in alloc; "{} {}", name_of(error), at),
        LexAnswer::Memory => "memory".to_string(alloc),
    }
}

fn shown(alloc: Global, tokens: &[Token]) -> Result<String, AllocError> {
    let mut text = Text::new(alloc);
    if tokens.is_empty() {
        text.add("nothing");
    }
    for token in tokens {
        add_token(&mut text, alloc, token)?;
    }
    text.finish()
}

// The tokens of programs with their places, or the refusal with its byte.
struct Lexed;

impl Answers for Lexed {
    fn answer(&self, alloc: Global, text: &str) -> Result<String, AllocError> {
        let program = without_signs(alloc, text)?;
        match lex(alloc, program.as_bytes()) {
            Ok(tokens) => shown(alloc, tokens.list.as_slice()),
            Err(answer) => refused(alloc, answer),
        }
    }
}

const ROWS: &str = r#"
# The longest token is taken
 => nothing
 ␉␍␊ => nothing
a<=b => word of 1 0..1;LessOrEqual 1..3;word of 1 3..4;
a< =b => word of 1 0..1;Less 1..2;Assign 3..4;word of 1 4..5;
=== => Equal 0..2;Assign 2..3;
&&& => DoubleAmpersand 0..2;Ampersand 2..3;
||| => DoublePipe 0..2;Pipe 2..3;
+=+ -=- *=* /=/ %=% => PlusAssign 0..2;Plus 2..3;MinusAssign 4..6;Minus 6..7;StarAssign 8..10;Star 10..11;SlashAssign 12..14;Slash 14..15;PercentAssign 16..18;Percent 18..19;
!=!~^?>>= => NotEqual 0..2;Exclamation 2..3;Tilde 3..4;Caret 4..5;Question 5..6;Greater 6..7;GreaterOrEqual 7..9;
()[]{},;:. => LeftParen 0..1;RightParen 1..2;LeftBracket 2..3;RightBracket 3..4;LeftBrace 4..5;RightBrace 5..6;Comma 6..7;Semicolon 7..8;Colon 8..9;Dot 9..10;
1l => I64 1 0..2;
1 l => I32 1 0..1;word of 1 2..3;
a.b => word of 1 0..1;Dot 1..2;word of 1 2..3;
1.a => I32 1 0..1;Dot 1..2;word of 1 2..3;
-128b => BadNumber 1
-127b => Minus 0..1;I8 127 1..5;
if iffy _if If => if 0..2;word of 4 3..7;word of 3 8..11;word of 2 12..14;
int8x int8 => word of 5 0..5;int8 6..10;
$a1 $if a$b => dollar of 2 0..3;dollar of 2 4..7;word of 1 8..9;dollar of 1 9..11;
ustring set onTuple => ustring 0..7;set 8..11;onTuple 12..19;
"a"'b"' => text of 1 0..3;text of 2 3..7;
"//" => text of 2 0..4;

# Comments separate tokens
a//b => word of 1 0..1;
a//b␊ => word of 1 0..1;
//␊b => word of 1 3..4;
a/**/b => word of 1 0..1;word of 1 5..6;
a/* * / **/b => word of 1 0..1;word of 1 11..12;
/*/*/b => word of 1 5..6;
/*␊//␊*/b => word of 1 8..9;
// /*␊b => word of 1 6..7;
a/ /b => word of 1 0..1;Slash 1..2;Slash 3..4;word of 1 4..5;
/*/ => OpenComment 0
a /* * => OpenComment 2

# Each refusal has its place
# => BadByte 0
a # b => BadByte 2
a␊␊@ => BadByte 3
$ => BadByte 0
a $1 => BadByte 2
"\q" => BadByte 1
a 'b\"\x' # => BadByte 6
"ab => OpenText 0
a 'b" c => OpenText 2
a "b␊" => OpenText 2
a " => OpenText 2
"a\q => OpenText 0
"a\" => OpenText 0
"a\␊" => OpenText 0
/* => OpenComment 0
a /* b => OpenComment 2
a b /* => OpenComment 4
300b => BadNumber 0
a 1x b => BadNumber 2
a b 1_ => BadNumber 4
1ll => BadNumber 0
1us => BadNumber 0
1bs => BadNumber 0
2147483648_ => BadNumber 0
300b # => BadNumber 0
# 300b => BadByte 0

# Each kind has its range
127b => I8 127 0..4;
128b => BadNumber 0
0000000000000000000000000127b => I8 127 0..29;
0000000000000000000000000128b => BadNumber 0
127sb => I8 127 0..5;
128sb => BadNumber 0
0000000000000000000000000127sb => I8 127 0..30;
0000000000000000000000000128sb => BadNumber 0
32767h => I16 32767 0..6;
32768h => BadNumber 0
000000000000000000000000032767h => I16 32767 0..31;
000000000000000000000000032768h => BadNumber 0
32767sh => I16 32767 0..7;
32768sh => BadNumber 0
000000000000000000000000032767sh => I16 32767 0..32;
000000000000000000000000032768sh => BadNumber 0
2147483647 => I32 2147483647 0..10;
2147483648 => BadNumber 0
00000000000000000000000002147483647 => I32 2147483647 0..35;
00000000000000000000000002147483648 => BadNumber 0
2147483647s => I32 2147483647 0..11;
2147483648s => BadNumber 0
00000000000000000000000002147483647s => I32 2147483647 0..36;
00000000000000000000000002147483648s => BadNumber 0
2147483647w => I32 2147483647 0..11;
2147483648w => BadNumber 0
00000000000000000000000002147483647w => I32 2147483647 0..36;
00000000000000000000000002147483648w => BadNumber 0
2147483647sw => I32 2147483647 0..12;
2147483648sw => BadNumber 0
00000000000000000000000002147483647sw => I32 2147483647 0..37;
00000000000000000000000002147483648sw => BadNumber 0
9223372036854775807l => I64 9223372036854775807 0..20;
9223372036854775808l => BadNumber 0
00000000000000000000000009223372036854775807l => I64 9223372036854775807 0..45;
00000000000000000000000009223372036854775808l => BadNumber 0
9223372036854775807sl => I64 9223372036854775807 0..21;
9223372036854775808sl => BadNumber 0
00000000000000000000000009223372036854775807sl => I64 9223372036854775807 0..46;
00000000000000000000000009223372036854775808sl => BadNumber 0
255ub => U8 255 0..5;
256ub => BadNumber 0
0000000000000000000000000255ub => U8 255 0..30;
0000000000000000000000000256ub => BadNumber 0
65535uh => U16 65535 0..7;
65536uh => BadNumber 0
000000000000000000000000065535uh => U16 65535 0..32;
000000000000000000000000065536uh => BadNumber 0
4294967295u => U32 4294967295 0..11;
4294967296u => BadNumber 0
00000000000000000000000004294967295u => U32 4294967295 0..36;
00000000000000000000000004294967296u => BadNumber 0
4294967295uw => U32 4294967295 0..12;
4294967296uw => BadNumber 0
00000000000000000000000004294967295uw => U32 4294967295 0..37;
00000000000000000000000004294967296uw => BadNumber 0
18446744073709551615ul => U64 18446744073709551615 0..22;
18446744073709551616ul => BadNumber 0
000000000000000000000000018446744073709551615ul => U64 18446744073709551615 0..47;
000000000000000000000000018446744073709551616ul => BadNumber 0
"#;

// How many tokens there are, or the refusal with its byte.
fn counted(alloc: Global, program: &[u8]) -> Result<String, AllocError> {
    match lex(alloc, program) {
        Ok(tokens) => format!(in alloc; "{}", tokens.list.len()),
        Err(answer) => refused(alloc, answer),
    }
}

// A program of a mebibyte.
fn program_of(alloc: Global, front: &str, fill: u8, back: &str) -> Result<Vec<u8>, AllocError> {
    let mut program = front.as_bytes().to_vec(alloc)?;
    program.resize(1_048_576usize.saturating_sub(back.len()), fill)?;
    program.extend_from_slice(back.as_bytes())?;
    Ok(program)
}

// How many tokens there are in a program, and in it with a byte more.
fn counted_twice(alloc: Global, program: Vec<u8>) -> Result<String, AllocError> {
    let mut program = program;
    let mut text = counted(alloc, program.as_slice())?;
    program.push(b'#')?;
    text.push_str("; ")?;
    text.push_str(counted(alloc, program.as_slice())?.as_str())?;
    Ok(text)
}

// Programs of a mebibyte: what stands in front, what fills them up, and what stands at their ends.
struct Filled;

impl Answers for Filled {
    fn answer(&self, alloc: Global, text: &str) -> Result<String, AllocError> {
        let words = words(alloc, text)?;
        let [front, fill, back] = words.as_slice() else {
            return "no three words".to_string(alloc);
        };
        let [fill] = fill.as_str().as_bytes() else {
            return "no byte".to_string(alloc);
        };
        counted_twice(
            alloc,
            program_of(alloc, front.as_str(), *fill, back.as_str())?,
        )
    }
}

const MEBIBYTE: &str = r#"
∅ ␣ ∅ => 0; TooLong 1048576
/* * */ => 0; TooLong 1048576
// / / => 0; TooLong 1048576
' x ' => 1; TooLong 1048576
∅ 0 l => 1; TooLong 1048576
∅ a ∅ => 1; TooLong 1048576
∅ ( ∅ => 1048576; TooLong 1048576
∅ 9 ∅ => BadNumber 0; TooLong 1048576
∅ ␣ # => BadByte 1048575; TooLong 1048576
"#;

#[test]
fn programs_have_their_tokens_or_first_refusals(rt: HostRuntime) -> Result<(), Fail> {
    let alloc = rt.alloc();
    expect(alloc, &Lexed, &[ROWS])?;
    expect(alloc, &Filled, &[MEBIBYTE])?;
    assert_eq!(rt; counted(alloc, TRADES.as_bytes())?.as_str(), "303");
    Ok(())
}

// The program of trades: sources, composites, windows and sinks.
const TRADES: &str = r#"namespace demo.trades;
type Trade = int64 ts, rstring sym, int64 price, int64 qty;
composite Clean(output Good; input Raw) {
  param expression<int64> $least : 1l;
  graph
    stream<Trade> Good = Filter(Raw) {
      param filter: qty >= $least && price > 0l; // both must hold
    }
}
composite Main {
  graph
    stream<Trade> In = FileSource() { param file: "trades.csv"; format: csv; }
    stream<Trade> C1 = Clean(In) { param least: 10l; }
    stream<Trade> C2 = Clean(In) { param least: 100l; }
    stream<rstring sym, int64 value> V = Functor(C1) { output V: value = price * qty; }
    stream<rstring sym, int64 total, int32 n> A = Aggregate(V) {
      window V: sliding, count(2), count(1), partitioned;
      param partitionBy: sym;
      output A: sym = Any(sym), total = Sum(value), n = Count();
    }
    (stream<A> Lo; stream<A> Hi) = Split(A) { param index: total >= 10000l ? 1 : 0; }
    () as LoOut = FileSink(Lo) { param file: "lo.csv"; format: csv; }
    () as HiOut = FileSink(Hi) { param file: "hi.csv"; format: csv; }
    () as BigOut = FileSink(C2) { param file: "big.csv"; format: csv; }
}
"#;

#[test]
fn a_text_has_its_bytes(rt: HostRuntime) {
    let program = b"'\\\"\\'\\\\\\n\\t\\r \xc3\xa9\xff\0'";
    let want = b"\"'\\\n\t\r \xc3\xa9\xff\0";
    let same = match lex(rt.alloc(), program) {
        Ok(tokens) => match tokens.list.as_slice() {
            [
                Token {
                    kind: TokenKind::Text(bytes),
                    ..
                },
            ] => bytes.as_slice() == want.as_slice(),
            _ => false,
        },
        Err(_) => false,
    };
    assert!(rt; same);
}
