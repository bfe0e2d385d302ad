//! The unit in which expressions have values, and their results.

mod comparisons;
mod integers;
mod parts;

use crate::asked::Asked;
use spl_tree::Marker;

/// Of the two variables `x` the last counts. The least number of a signed type has no literal. Both ports
/// have an attribute `key`, and variables have the names `qty` and `s` too.
const UNIT: &str = r#"
int32 inc(int32 n) { return n + 1; }
int32 twice(int32 n) { return inc(inc(n)); }
int32 thrice(int32 n) { return inc(twice(n)); }
int32 early(int32 n) { return later(n) * 2; }
int32 later(int32 n) { return n - 1; }
int64 per(int64 n) { return 100l / n; }
int64 now() { return 7l; }
int32 pick(boolean b, int32 n) { return b ? inc(n) : n; }
int32 at(list<int32> xs, int32 i) { return xs[i]; }
int32 less(int32 a, int32 b) { return a - b; }
int32 turned(int32 x, int32 y) { return less(y, x); }
tuple<rstring b, boolean c> inner(tuple<int64 a, tuple<rstring b, boolean c> d> t) { return t.d; }
tuple<rstring b, boolean c> made(rstring b, boolean c) { return {c = !c, b = b + b}; }
list<int32> same(list<int32> xs) { return xs; }
void variables() {
    mutable int32 x = 1;
    mutable int32 zero = 0;
    mutable int8 least8 = -127b - 1b;
    mutable int16 least16 = -32767h - 1h;
    mutable int32 least32 = -2147483647 - 1;
    mutable int64 least64 = -9223372036854775807l - 1l;
    mutable uint8 most8 = 255ub;
    mutable uint16 most16 = 65535uh;
    mutable uint32 most32 = 4294967295u;
    mutable uint64 most64 = 18446744073709551615ul;
    mutable boolean yes = true;
    mutable boolean no = false;
    mutable rstring s = 'spl';
    mutable rstring blank = '';
    mutable list<int32> xs = [10, 20, 30];
    mutable list<int32> none = [];
    mutable list<list<int32>> g = [[1, 2], [], [3]];
    mutable map<rstring, int64> m = {'b' : 2l, 'a' : 1l};
    mutable map<rstring, int64> bare = {};
    mutable map<int32, list<rstring>> k = {1 : ['p', 'q'], 2 : []};
    mutable list<map<rstring, int64>> ms = [{'a' : 1l}, {}];
    mutable tuple<int64 a, tuple<rstring b, boolean c> d> t = {a = 5l, d = {b = 'in', c = true}};
    mutable rstring x = 'local';
    mutable int32 qty = 7;
    mutable int8 now = 3b;
    mutable int16 size = 4h;
}
void ports() {
    tuple<rstring key, int64 price, int64 qty, list<int32> ls, rstring s> L = {key = 'IBM', price = 20l, qty = 300l, ls = [1, 2], s = 'left'};
    tuple<rstring key, uint8 rank, tuple<rstring b, boolean c> d> R = {key = 'rank', rank = 9ub, d = {b = 'deep', c = false}};
}
"#;

const WINDOW: &str = r#"
# the marker is a window marker
currentPunct() == Sys.WindowMarker => true
currentPunct() == Sys.FinalMarker => false
currentPunct() != Sys.WindowMarker => false
currentPunct() != Sys.FinalMarker => true
(currentPunct()) == (Sys.WindowMarker) => true
!(currentPunct() == Sys.WindowMarker) => false
currentPunct() == Sys.WindowMarker ? 1 : 1 / zero => 1
currentPunct() == Sys.FinalMarker ? 1 : 1 / zero => DivZero
currentPunct() == Sys.WindowMarker == no => false
no || currentPunct() == Sys.WindowMarker => true
# Variables and functions are there too.
x => 'local'
xs[1] => 20
inc(1) => 2
qty => 7
"#;

const FINAL: &str = r#"
# the marker is the final marker
currentPunct() == Sys.WindowMarker => false
currentPunct() == Sys.FinalMarker => true
currentPunct() != Sys.WindowMarker => true
currentPunct() != Sys.FinalMarker => false
currentPunct() == Sys.FinalMarker && yes => true
currentPunct() == Sys.WindowMarker ? 1 / zero : 2 => 2
[currentPunct() != Sys.WindowMarker] => [true]
"#;

/// Expressions where a tuple came and where a marker did, and conditions on the tuples that came.
pub(crate) const ROWS: &[(Asked, &str)] = &[
    (Asked::Value(UNIT, None), integers::ROWS),
    (Asked::Value(UNIT, None), comparisons::ROWS),
    (Asked::Value(UNIT, None), parts::ROWS),
    (Asked::Value(UNIT, Some(Marker::Window)), WINDOW),
    (Asked::Value(UNIT, Some(Marker::Final)), FINAL),
    (Asked::Condition("100l / price > 1l"), QUOTIENTS),
    (Asked::Condition("(int8)price < (int8)0"), CASTS),
    (Asked::Condition("price > 10l"), ABOVE_TEN),
];

const QUOTIENTS: &str = r#"
# a condition may divide by an attribute
{price = 20l} => true
{price = 0l} => DivZero
{price = 5l} => true
{price = 50l} => true
{price = 51l} => false
{price = 100l} => false
{price = 101l} => false
{price = -1l} => false
"#;

const CASTS: &str = r#"
# a condition may cast an attribute
{price = 127l} => false
{price = 128l} => true
{price = 0l} => false
{price = -1l} => true
{price = 255l} => true
{price = 256l} => false
{price = -129l} => false
"#;

const ABOVE_TEN: &str = r#"
# a price above 10
{price = -11l} => false
{price = 9l} => false
{price = 10l} => false
{price = 11l} => true
"#;
