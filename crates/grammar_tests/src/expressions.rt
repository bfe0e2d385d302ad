//! Expressions, and what of them other parts of a program have.
use crate::programs::{MOST_TOKENS, refused};
use expr_parser::{
    ParsedExpr, Stop, Taken, name_first, parse_expr, pass, pass_name, read_elements,
    read_expression, read_items, read_steps, symbol_first, too_deep,
};
use spl_lexer::lex;
use spl_tree::{Expr, ExprKind, Exprs, Placed, Symbol, Token, TokenKind};
use spl_value::Items;
use std::alloc::{AllocError, Global};
use std::test::Fail;
use test_texts::rows::{Answers, expect, expect_spread};
use test_texts::text::Text;
use tree_texts::expressions::add_expression;

// The tree, and a number after it.
fn tree(alloc: Global, expr: &Expr, number: usize) -> Result<String, AllocError> {
    let mut text = Text::new(alloc);
    add_expression(&mut text, expr);
    text.add(" ");
    text.add_number(number as i128);
    text.finish()
}

// What the parser answers to a program from that token on: the tree and the place in the list of the
// token after it, or the refusal.
fn parsed(alloc: Global, program: &str, from: u32) -> Result<String, AllocError> {
    let Ok(tokens) = lex(alloc, program.as_bytes()) else {
        return "no tokens".to_string(alloc);
    };
    if tokens.list.len() > MOST_TOKENS || from as usize > tokens.list.len() {
        return "no such token".to_string(alloc);
    }
    match parse_expr(alloc, &tokens, from) {
        Ok(ParsedExpr { expr, next }) => tree(alloc, &expr, next as usize),
        Err(answer) => refused(alloc, answer),
    }
}

// Expressions of programs, from the first token or from that after the `@`.
struct Expressions;

impl Answers for Expressions {
    fn answer(&self, alloc: Global, text: &str) -> Result<String, AllocError> {
        let Some((program, from)) = text.split_once(" @ ") else {
            return parsed(alloc, text, 0);
        };
        match from.parse::<u32>() {
            Ok(from) => parsed(alloc, program, from),
            Err(_) => "no number".to_string(alloc),
        }
    }
}

const ROWS: &str = r#"
# An expression has its tree
a - b - c => ((a - b) - c) 5
a ? b : c ? d : e => (a ? b : (c ? d : e)) 9
a ? b ? c : d : e => (a ? (b ? c : d) : e) 9
a || b ? c : d && e => ((a || b) ? c : (d && e)) 9
- a . b [ 1 ] => (- (a.b[1])) 7
- - a => (- - a) 3
~ - ! a => (~ - ! a) 4
! a . b => (! (a.b)) 4
- a - b => ((- a) - b) 4
a - - b => (a - (- b)) 4
( int8 ) a + b => (((int8) a) + b) 6
- ( uint64 ) ~ a => (- (uint64) ~ a) 6
( a ) => <a> 3
( a ) . b => (<a>.b) 5
( rstring ) ( a ) => ((rstring) <a>) 6
( ( a ) ) => <<a>> 5
{ } => {} 2
{ a = 1 } => {a = 1} 5
{ a = 1 , b = c + 2 } => {a = 1, b = (c + 2)} 11
{ a : 1 } => {a : 1} 5
{ a . b : 1 , c + d : 2 } => {(a.b) : 1, (c + d) : 2} 13
{ a ? b : c : d } => {(a ? b : c) : d} 9
[ ] => [] 2
[ 1 , [ 2 ] ] => [1, [2]] 7
f ( ) => f() 3
f ( a , g ( b ) ) => f(a, g(b)) 9
f ( a ) . b [ c ] => (f(a).b[c]) 9
'a' [ 0 ] => ('a'[0]) 4
1 . a => (1.a) 3
$a == true => ($a == true) 3
a in b == c => ((a in b) == c) 5
a == b in c => (a == (b in c)) 5
false => false 1
# What follows the expression isn't looked at
a b => a 1
a ) => a 1
a : b => a 1
a = b => a 1
( foo ) a => <foo> 3
a . b ( 1 ) => (a.b) 3
f ( a ) ( b ) => f(a) 4
( a ) ( b ) => <a> 3
# An expression is read from a token on
x = a + b ; c @ 2 => (a + b) 5

# Operators of a level group to the left
a * b * c => ((a * b) * c) 5
a * b / c => ((a * b) / c) 5
a * b % c => ((a * b) % c) 5
a / b * c => ((a / b) * c) 5
a / b / c => ((a / b) / c) 5
a / b % c => ((a / b) % c) 5
a % b * c => ((a % b) * c) 5
a % b / c => ((a % b) / c) 5
a % b % c => ((a % b) % c) 5
a + b + c => ((a + b) + c) 5
a + b - c => ((a + b) - c) 5
a - b + c => ((a - b) + c) 5
a - b - c => ((a - b) - c) 5
a < b < c => ((a < b) < c) 5
a < b <= c => ((a < b) <= c) 5
a < b > c => ((a < b) > c) 5
a < b >= c => ((a < b) >= c) 5
a < b in c => ((a < b) in c) 5
a <= b < c => ((a <= b) < c) 5
a <= b <= c => ((a <= b) <= c) 5
a <= b > c => ((a <= b) > c) 5
a <= b >= c => ((a <= b) >= c) 5
a <= b in c => ((a <= b) in c) 5
a > b < c => ((a > b) < c) 5
a > b <= c => ((a > b) <= c) 5
a > b > c => ((a > b) > c) 5
a > b >= c => ((a > b) >= c) 5
a > b in c => ((a > b) in c) 5
a >= b < c => ((a >= b) < c) 5
a >= b <= c => ((a >= b) <= c) 5
a >= b > c => ((a >= b) > c) 5
a >= b >= c => ((a >= b) >= c) 5
a >= b in c => ((a >= b) in c) 5
a in b < c => ((a in b) < c) 5
a in b <= c => ((a in b) <= c) 5
a in b > c => ((a in b) > c) 5
a in b >= c => ((a in b) >= c) 5
a in b in c => ((a in b) in c) 5
a == b == c => ((a == b) == c) 5
a == b != c => ((a == b) != c) 5
a != b == c => ((a != b) == c) 5
a != b != c => ((a != b) != c) 5
a & b & c => ((a & b) & c) 5
a ^ b ^ c => ((a ^ b) ^ c) 5
a | b | c => ((a | b) | c) 5
a && b && c => ((a && b) && c) 5
a || b || c => ((a || b) || c) 5

# Operators bind by their levels
a * b + c => ((a * b) + c) 5
a + b * c => (a + (b * c)) 5
a * b - c => ((a * b) - c) 5
a - b * c => (a - (b * c)) 5
a / b + c => ((a / b) + c) 5
a + b / c => (a + (b / c)) 5
a / b - c => ((a / b) - c) 5
a - b / c => (a - (b / c)) 5
a % b + c => ((a % b) + c) 5
a + b % c => (a + (b % c)) 5
a % b - c => ((a % b) - c) 5
a - b % c => (a - (b % c)) 5
a + b < c => ((a + b) < c) 5
a < b + c => (a < (b + c)) 5
a + b <= c => ((a + b) <= c) 5
a <= b + c => (a <= (b + c)) 5
a + b > c => ((a + b) > c) 5
a > b + c => (a > (b + c)) 5
a + b >= c => ((a + b) >= c) 5
a >= b + c => (a >= (b + c)) 5
a + b in c => ((a + b) in c) 5
a in b + c => (a in (b + c)) 5
a - b < c => ((a - b) < c) 5
a < b - c => (a < (b - c)) 5
a - b <= c => ((a - b) <= c) 5
a <= b - c => (a <= (b - c)) 5
a - b > c => ((a - b) > c) 5
a > b - c => (a > (b - c)) 5
a - b >= c => ((a - b) >= c) 5
a >= b - c => (a >= (b - c)) 5
a - b in c => ((a - b) in c) 5
a in b - c => (a in (b - c)) 5
a < b == c => ((a < b) == c) 5
a == b < c => (a == (b < c)) 5
a < b != c => ((a < b) != c) 5
a != b < c => (a != (b < c)) 5
a <= b == c => ((a <= b) == c) 5
a == b <= c => (a == (b <= c)) 5
a <= b != c => ((a <= b) != c) 5
a != b <= c => (a != (b <= c)) 5
a > b == c => ((a > b) == c) 5
a == b > c => (a == (b > c)) 5
a > b != c => ((a > b) != c) 5
a != b > c => (a != (b > c)) 5
a >= b == c => ((a >= b) == c) 5
a == b >= c => (a == (b >= c)) 5
a >= b != c => ((a >= b) != c) 5
a != b >= c => (a != (b >= c)) 5
a in b == c => ((a in b) == c) 5
a == b in c => (a == (b in c)) 5
a in b != c => ((a in b) != c) 5
a != b in c => (a != (b in c)) 5
a == b & c => ((a == b) & c) 5
a & b == c => (a & (b == c)) 5
a != b & c => ((a != b) & c) 5
a & b != c => (a & (b != c)) 5
a & b ^ c => ((a & b) ^ c) 5
a ^ b & c => (a ^ (b & c)) 5
a ^ b | c => ((a ^ b) | c) 5
a | b ^ c => (a | (b ^ c)) 5
a | b && c => ((a | b) && c) 5
a && b | c => (a && (b | c)) 5
a && b || c => ((a && b) || c) 5
a || b && c => (a || (b && c)) 5

# The first token that goes on nowhere is refused
 => unexpected 0
else => unexpected 0
) a => unexpected 0
* a => unexpected 0
a + => unexpected 3
a + * b => unexpected 4
- => unexpected 1
( a => unexpected 3
( ) => unexpected 2
( int8 ) => unexpected 8
( int8 a ) => unexpected 7
( boolean ) a => unexpected 2
f ( => unexpected 3
f ( a , => unexpected 7
f ( a , ) => unexpected 8
[ 1 2 ] => unexpected 4
[ 1 , ] => unexpected 6
{ a } => unexpected 4
{ a = } => unexpected 6
{ 1 = 2 } => unexpected 4
{ a + b = 1 } => unexpected 8
{ a = 1 , b : 2 } => unexpected 12
{ a : 1 , b = 2 } => unexpected 12
{ a = 1 , 2 = 3 } => unexpected 10
{ a = 1 , } => unexpected 10
a ? b => unexpected 5
a ? b c => unexpected 6
a . 1 => unexpected 4
a [ ] => unexpected 4
a + @ 2 => unexpected 3
"#;

const DEEP: &str = r#"
# Parentheses nest up to their limit
( a )  => <a> 3
«0 195 ( »a «0 195 ) » => «0 195 <»a«0 195 >» 391
«0 200 ( »a «0 200 ) » => «0 200 <»a«0 200 >» 401
# A long sum
«0 190 a + »a => «0 190 (»a«0 190  + a)» 381
# Weights are looked at before the rest, of all tokens from there on
«0 201 ( » => too deep 400
«0 1000 ( » => too deep 400
) «0 201 ( » => too deep 402
a ; «0 201 ( » => too deep 404
a ; «0 201 ( »a @ 203 => too deep 406
«0 201 ( »; a @ 202 => too deep 404
# What stands before may be too deep
«0 201 ( »«0 201 ) »; a @ 201 => unexpected 402
«0 201 ( »«0 201 ) »; a @ 403 => a 404
«0 201 ( »«0 201 ) »; a @ 404 => unexpected 807
# A closing brace weighs what stood before its opening one, and what follows it starts the level anew
«0 200 + »{ } ; a @ 201 => unexpected 402
«0 201 + »{ } ; a @ 202 => too deep 404
«0 201 + »{ } ; a @ 203 => unexpected 406
«0 201 + »{ } ; a @ 204 => a 205
# Nesting without weight is bounded by memory
«0 3000 { } [ 0 ] + »a => memory
«0 300 { } [ 0 ] ? b : »a => memory
# A hundred thousand tokens
[ «0 49999 a , »a ] => [«0 49999 a, »a] 100001
"#;

fn stopped(alloc: Global, stop: Stop<'_>) -> Result<String, AllocError> {
    match stop {
        Stop::At(rest) => format!(in alloc; "stops {}", rest.len()),
        Stop::Memory => "memory".to_string(alloc),
    }
}

// The tree, and the number of tokens after it.
fn one(alloc: Global, taken: Taken<'_, Expr>) -> Result<String, AllocError> {
    match taken {
        Ok((expr, rest)) => tree(alloc, &expr, rest.len()),
        Err(stop) => stopped(alloc, stop),
    }
}

// The trees, and the number of tokens after them.
fn several(alloc: Global, taken: Taken<'_, Exprs>) -> Result<String, AllocError> {
    match taken {
        Ok((exprs, rest)) => {
            let mut text = Text::new(alloc);
            text.add("of");
            for expr in exprs.as_slice() {
                text.add(" ");
                add_expression(&mut text, expr);
            }
            text.add(" ");
            text.add_number(rest.len() as i128);
            text.finish()
        }
        Err(stop) => stopped(alloc, stop),
    }
}

// The name `m`, and what is taken of it.
fn steps(alloc: Global, ts: &[Token]) -> Result<String, AllocError> {
    let name = ExprKind::Name(Items::from_slice(alloc, b"m")?);
    one(alloc, read_steps(alloc, Placed::boxed(alloc, 0, name)?, ts))
}

fn weighed(alloc: Global, ts: &[Token]) -> Result<String, AllocError> {
    match too_deep(alloc, ts, 0) {
        Ok(Some(at)) => format!(in alloc; "{at}"),
        Ok(None) => "none".to_string(alloc),
        Err(_) => "memory".to_string(alloc),
    }
}

fn symbol_behind(alloc: Global, symbol: Symbol, ts: &[Token]) -> Result<String, AllocError> {
    match symbol_first(ts, symbol) {
        Some((token, rest)) => format!(in alloc; "{}, {} behind", token.start, rest.len()),
        None => "none".to_string(alloc),
    }
}

fn passed(alloc: Global, symbol: Symbol, ts: &[Token]) -> Result<String, AllocError> {
    match pass(ts, symbol) {
        Ok(rest) => format!(in alloc; "{} behind", rest.len()),
        Err(stop) => stopped(alloc, stop),
    }
}

// The name of a token with its place, and the number of tokens after it.
fn name(alloc: Global, bytes: &[u8], at: u32, behind: usize) -> Result<String, AllocError> {
    let mut text = Text::new(alloc);
    text.add_bytes(bytes);
    text.add_place(" ", at);
    text.add(", ");
    text.add_number(behind as i128);
    text.add(" behind");
    text.finish()
}

fn first_name(alloc: Global, ts: &[Token]) -> Result<String, AllocError> {
    match name_first(ts) {
        Some((token, bytes, rest)) => name(alloc, bytes.as_slice(), token.start, rest.len()),
        None => "none".to_string(alloc),
    }
}

fn passed_name(alloc: Global, ts: &[Token]) -> Result<String, AllocError> {
    match pass_name(alloc, ts) {
        Ok((passed, rest)) => name(alloc, passed.what.as_slice(), passed.at, rest.len()),
        Err(stop) => stopped(alloc, stop),
    }
}

// What is answered to a symbol and the tokens after it.
fn of_symbol(alloc: Global, part: &str, ts: &[Token]) -> Result<String, AllocError> {
    let Some(
        (
            Token {
                kind: TokenKind::Symbol(symbol),
                ..
            },
            rest,
        ),
    ) = ts.split_first()
    else {
        return "no symbol".to_string(alloc);
    };
    match part {
        "after" => symbol_behind(alloc, *symbol, rest),
        "pass" => passed(alloc, *symbol, rest),
        _ => "no part".to_string(alloc),
    }
}

// Parts of programs: after the word of one call the tokens that it is given. Arguments end at a
// closing parenthesis, and items at a `;`.
struct Parts;

impl Answers for Parts {
    fn answer(&self, alloc: Global, text: &str) -> Result<String, AllocError> {
        let Some((part, program)) = text.split_once(": ") else {
            return "no part".to_string(alloc);
        };
        let Ok(tokens) = lex(alloc, program.as_bytes()) else {
            return "no tokens".to_string(alloc);
        };
        let ts = tokens.list.as_slice();
        match part {
            "expression" => one(alloc, read_expression(alloc, ts)),
            "elements" => several(alloc, read_elements(alloc, Symbol::RightParen, ts)),
            "items" => several(alloc, read_items(alloc, Symbol::Semicolon, ts)),
            "steps" => steps(alloc, ts),
            "too deep" => weighed(alloc, ts),
            "name" => first_name(alloc, ts),
            "pass name" => passed_name(alloc, ts),
            part => of_symbol(alloc, part, ts),
        }
    }
}

const PARTS: &str = r#"
# Expressions in other parts, and how many tokens stand behind them
expression: a + b ; c => (a + b) 2
expression: a => a 0
expression: a + ; b => stops 2
expression: a + => stops 0
elements: ) ; => of 1
elements: a , b + c ) ; => of a (b + c) 1
elements: a , ) ; => stops 2
elements: a ; b ) => stops 3
items: a , b ; c => of a b 1
items: ; a => stops 2
items: a b ; => stops 2
steps: . n [ 1 ] = 2 => (m.n[1]) 2
steps: = 2 => m 2
steps: [ ] = 2 => stops 3

# The first token is a symbol, the first one of the row, or a name
after: , ( a ; => none
after: ( ( a ; => 2, 2 behind
pass: , ( a ; => stops 3
pass: ; ; => 0 behind
name: ( a ; => none
name: a ; => a 0, 1 behind
pass name: ( a ; => stops 3
pass name: a ; => a 0, 1 behind

# The first token that weighs too much
too deep: «0 200 ( » => none
too deep: «0 201 ( » => 200
too deep: «0 300 ( » => 200
"#;

#[test]
fn expressions_have_their_trees_or_first_refusals(rt: HostRuntime) -> Result<(), Fail> {
    let alloc = rt.alloc();
    expect(alloc, &Expressions, &[ROWS])?;
    expect_spread(alloc, &Expressions, DEEP)?;
    expect_spread(alloc, &Parts, PARTS)?;
    Ok(())
}
