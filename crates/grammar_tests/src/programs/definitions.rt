//! Programs, types, functions and composites.

pub(crate) const ROWS: &str = r#"
# A namespace stands in front, alone
namespace a; => nothing
namespace a.b.c; type T = int8; => type T = int8
namespace a; composite A {} => composite A
namespace => unexpected 9
namespace ; => unexpected 10
namespace a => unexpected 11
namespace a.; => unexpected 12
namespace a b; => unexpected 12
namespace a, b; => unexpected 11
namespace int8; => unexpected 10
namespace a.type; => unexpected 12
namespace a; namespace b; => unexpected 13
type T = int8; namespace a; => unexpected 15
composite A {} namespace a; => unexpected 15
namespace a type T = int8; => unexpected 12
public namespace a; => unexpected 7

# A program is a row of definitions
 => nothing
 // nothing␊ /* at all */  => nothing
type T = int8; void f() {} composite A {} int8 g() {} => type T = int8; void f() {}; composite A; int8 g() {}
; => unexpected 0
type T = int8; ; => unexpected 15
} => unexpected 0
5 => unexpected 0
graph => unexpected 0
stream<int8> X = F(); => unexpected 0
() as S = F(); => unexpected 0
if (a) return; => unexpected 0
return; => unexpected 0
x = 1; => unexpected 2
int8 => unexpected 4
int8 x => unexpected 6
int8 x; => unexpected 6
int8 x = 1; => unexpected 7
T => unexpected 1
$a => unexpected 0
'a' => unexpected 0
{} => unexpected 0
use a; => unexpected 5
composite A {} {} => unexpected 15
void f() {} () => unexpected 12
true => unexpected 0
// a␊type T =␊; => unexpected 14
/* a */ ; // b => unexpected 8
type T = int8 // ;␊ => unexpected 19

# Programs with operators
composite A { graph () as X = A(); } => composite A graph [() as X = A()]
type T = int32; type T = int32; => type T = int32; type T = int32
composite M { graph stream<int32 a> A = Filter(B) { } stream<int32 a> B = Filter(A) { } } => composite M graph [(stream<(int32 a)> A) = Filter(B); (stream<(int32 a)> B) = Filter(A)]
composite M { graph stream<foo p> T = FileSource(); } => composite M graph [(stream<(foo p)> T) = FileSource()]
composite M { graph stream<float64 p> T = FileSource(); } => composite M graph [(stream<(left out float64 p)> T) = FileSource()]
composite M { graph stream<int64 p> T = FileSource() { param file: 5; format: csv; } } => composite M graph [(stream<(int64 p)> T) = FileSource() param [file: 5; format: csv]]
composite A { ; } => unexpected 14
composite A { graph stream<int64 p> T = Filter(B) { param filter: a + ; } } => unexpected 70
composite M { graph stream<int64 n> C = Custom(T) { logic onTuple T: { submit({n = price}, C); submit({n = price}, C); } } } => composite M graph [(stream<(int64 n)> C) = Custom(T) logic [onTuple T {submit({n = price}, C); submit({n = price}, C);}]]
composite M { graph stream<int32 n> C = Custom(T) { logic onTuple T: { mutable int32 i = 0; while (i < 1000000) { i += 1; } submit({n = i}, C); } } } => composite M graph [(stream<(int32 n)> C) = Custom(T) logic [onTuple T {mutable int32 i = 0; while ((i < 1000000)) [{i += 1;}] submit({n = i}, C);}]]
composite M { graph stream<rstring k, int64 v> J = Join(L; R) { window L: sliding, count(0); R: sliding, count(2); param match: L.k == R.k; output J: k = L.k; } } => composite M graph [(stream<(rstring k, int64 v)> J) = Join(L; R) window [L: sliding, count(0); R: sliding, count(2)] param [match: ((L.k) == (R.k))] output [J: k = (L.k)]]
composite M { graph stream<int32 b> F = Functor(T) { output F: b = a < 5 ? [1, 2][a] : 100 / (a - 9); } } => composite M graph [(stream<(int32 b)> F) = Functor(T) output [F: b = ((a < 5) ? ([1, 2][a]) : (100 / <(a - 9)>))]]

# A program with most kinds of clauses
namespace demo.trades;␊type Trade = int64 ts, rstring sym, int64 price, int64 qty;␊composite Clean(output Good; input Raw) {␊  param expression<int64> $least : 1l;␊  graph␊    stream<Trade> Good = Filter(Raw) {␊      param filter: qty >= $least && price > 0l; // both must hold␊    }␊}␊composite Main {␊  graph␊    stream<Trade> In = FileSource() { param file: "trades.csv"; format: csv; }␊    stream<Trade> C1 = Clean(In) { param least: 10l; }␊    stream<Trade> C2 = Clean(In) { param least: 100l; }␊    stream<rstring sym, int64 value> V = Functor(C1) { output V: value = price * qty; }␊    stream<rstring sym, int64 total, int32 n> A = Aggregate(V) {␊      window V: sliding, count(2), count(1), partitioned;␊      param partitionBy: sym;␊      output A: sym = Any(sym), total = Sum(value), n = Count();␊    }␊    (stream<A> Lo; stream<A> Hi) = Split(A) { param index: total >= 10000l ? 1 : 0; }␊    () as LoOut = FileSink(Lo) { param file: "lo.csv"; format: csv; }␊    () as HiOut = FileSink(Hi) { param file: "hi.csv"; format: csv; }␊    () as BigOut = FileSink(C2) { param file: "big.csv"; format: csv; }␊}␊ => type Trade = (int64 ts, rstring sym, int64 price, int64 qty); composite Clean(output Good; input Raw) param [<int64> $least: 1l] graph [(stream<Trade> Good) = Filter(Raw) param [filter: ((qty >= $least) && (price > 0l))]]; composite Main graph [(stream<Trade> In) = FileSource() param [file: 'trades.csv'; format: csv]; (stream<Trade> C1) = Clean(In) param [least: 10l]; (stream<Trade> C2) = Clean(In) param [least: 100l]; (stream<(rstring sym, int64 value)> V) = Functor(C1) output [V: value = (price * qty)]; (stream<(rstring sym, int64 total, int32 n)> A) = Aggregate(V) window [V: sliding, count(2), count(1), partitioned] param [partitionBy: sym] output [A: sym = Any(sym), total = Sum(value), n = Count()]; (stream<A> Lo; stream<A> Hi) = Split(A) param [index: ((total >= 10000l) ? 1 : 0)]; () as LoOut = FileSink(Lo) param [file: 'lo.csv'; format: csv]; () as HiOut = FileSink(Hi) param [file: 'hi.csv'; format: csv]; () as BigOut = FileSink(C2) param [file: 'big.csv'; format: csv]]

# A type nests, or is refused where it goes on nowhere
type T = int8; => type T = int8
type T = tuple<boolean a, rstring b, int8 c, int16 d, int32 e, int64 f, uint8 g, uint16 h, uint32 i, uint64 j>; => type T = tuple<boolean a, rstring b, int8 c, int16 d, int32 e, int64 f, uint8 g, uint16 h, uint32 i, uint64 j>
type T = U; => type T = U
type T = list<int8>; => type T = list<int8>
type T = map<rstring, list<U>>; => type T = map<rstring, list<U>>
type T = list<map<int8, tuple<list<int8> a, U b>>>; => type T = list<map<int8, tuple<list<int8> a, U b>>>
type T = list<float64>; => type T = list<left out float64>
type T = tuple<float32 a, float64 b, decimal32 c, decimal64 d, decimal128 e, complex32 f, complex64 g, timestamp h, ustring i, blob j, xml k, enum l, optional m, set n>; => type T = tuple<left out float32 a, left out float64 b, left out decimal32 c, left out decimal64 d, left out decimal128 e, left out complex32 f, left out complex64 g, left out timestamp h, left out ustring i, left out blob j, left out xml k, left out enum l, left out optional m, left out set n>
type T = ; => unexpected 9
type T = void; => unexpected 9
type T = 5; => unexpected 9
type T = list; => unexpected 13
type T = list<>; => unexpected 14
type T = list<int8 a>; => unexpected 19
type T = list<int8, int8>; => unexpected 18
type T = list[int8]; => unexpected 13
type T = list<int8 => unexpected 18
type T = list<list<int8>; => unexpected 24
type T = map<int8>; => unexpected 17
type T = map<int8, >; => unexpected 19
type T = map<int8, int8, int8>; => unexpected 23
type T = map<int8 a, int8>; => unexpected 18
type T = tuple<>; => unexpected 15
type T = tuple<int8>; => unexpected 19
type T = tuple<int8 a,>; => unexpected 22
type T = tuple<int8 a int8 b>; => unexpected 22
type T = tuple<int8 set>; => unexpected 20
type T = float64<5>; => unexpected 16
type T = U.V; => unexpected 10
type T = U<int8>; => unexpected 10
type T = list<stream<int8>>; => unexpected 14

# A shape is a type or attributes
type T = int8 a; => type T = (int8 a)
type T = int8 a, U b, list<int8> c; => type T = (int8 a, U b, list<int8> c)
type T = tuple<int8 a> b; => type T = (tuple<int8 a> b)
type T = U V; => type T = (U V)
type T = float64 a, enum b; => type T = (left out float64 a, left out enum b)
type T = int8 a,; => unexpected 16
type T = int8 a, U; => unexpected 18
type T = int8, int8 b; => unexpected 13
type T = int8 a b; => unexpected 16
type T = mutable int8 a; => unexpected 9
type T = int8 a = 1; => unexpected 16
type T = int8 int8; => unexpected 14

# A type definition is a name and a shape
type T = U; type V = W a; => type T = U; type V = (W a)
type = int8; => unexpected 5
type int8 = int8; => unexpected 5
type set = int8; => unexpected 5
type T int8; => unexpected 7
type T; => unexpected 6
type T == int8; => unexpected 7
type T.U = int8; => unexpected 6
type T = int8 => unexpected 13
type T = int8;; => unexpected 14
T = int8; => unexpected 2
type type T = int8; => unexpected 5

# A function has a type or `void`, parameters and a block
void f() {} => void f() {}
int8 f(int8 a) {return a;} => int8 f(int8 a) {return a;}
list<T> f(map<int8, T> m, T b) {} => list<T> f(map<int8, T> m, T b) {}
T f(tuple<int8 a, U b> c) {} => T f(tuple<int8 a, U b> c) {}
float64 f(set a) {} => left out float64 f(left out set a) {}
boolean f() {} rstring f() {} => boolean f() {}; rstring f() {}
f() {} => unexpected 1
void () {} => unexpected 5
void int8() {} => unexpected 5
void f {} => unexpected 7
void f.g() {} => unexpected 6
void f(int8) {} => unexpected 11
void f(a) {} => unexpected 8
void f(int8 a,) {} => unexpected 14
void f(int8 a int8 b) {} => unexpected 14
void f(int8 a; int8 b) {} => unexpected 13
void f(mutable int8 a) {} => unexpected 7
void f(void) {} => unexpected 7
void f(int8 a = 1) {} => unexpected 14
void f(); => unexpected 8
void f() return; => unexpected 9
void f() => unexpected 8
void f() {}; => unexpected 11
void f() { => unexpected 10
void => unexpected 4
T.U f() {} => unexpected 1
mutable int8 f() {} => unexpected 0
int8 f; => unexpected 6
int8 f = 1; => unexpected 7
list<void> f() {} => unexpected 5
int8 void f() {} => unexpected 5

# The head of a composite has outputs and inputs in either order
composite A { } => composite A
public composite A {} composite B {} => composite A; composite B
composite A(output B) {} => composite A(output B)
composite A(input B, C) {} => composite A(input B, C)
composite A(output B; input C) {} => composite A(output B; input C)
composite A(input C; output B) {} => composite A(output B; input C)
composite A(output stream<int8> B, C; input stream<int8 a, T b> D, stream<T> E) {} => composite A(output stream<int8> B, C; input stream<(int8 a, T b)> D, stream<T> E)
composite A(input stream<list<T>> B) {} => composite A(input stream<list<T>> B)
composite => unexpected 9
composite {} => unexpected 10
composite graph {} => unexpected 10
composite A => unexpected 11
composite A; => unexpected 11
composite A { => unexpected 13
composite A { ; } => unexpected 14
composite A() {} => unexpected 12
composite A(B) {} => unexpected 12
composite A(output) {} => unexpected 18
composite A(output B,) {} => unexpected 21
composite A(output B C) {} => unexpected 21
composite A(output B;) {} => unexpected 21
composite A(output B; output C) {} => unexpected 22
composite A(input B; input C) {} => unexpected 21
composite A(output B, input C) {} => unexpected 22
composite A(output B; input C; output D) {} => unexpected 29
composite A(output B; C) {} => unexpected 22
composite A(output stream B) {} => unexpected 26
composite A(output stream<int8>) {} => unexpected 31
composite A(output stream<> B) {} => unexpected 26
composite A(output int8 B) {} => unexpected 19
composite A(output B as C) {} => unexpected 21
composite A(output B) (input C) {} => unexpected 22
composite A(output B => unexpected 20
composite A {}; => unexpected 14
composite A = B {} => unexpected 12
composite A {} } => unexpected 15
public type T = int8; => unexpected 7
public void f() {} => unexpected 7
public public composite A {} => unexpected 7
public => unexpected 6
composite public A {} => unexpected 10
composite A(public output B) {} => unexpected 12

# A parameter of a composite has a type and perhaps a default
composite A {param expression<int8> $x; expression<list<T>> $y : [1, $x];} => composite A param [<int8> $x; <list<T>> $y: [1, $x]]
composite A {param} => composite A
composite A {param x: 1;} => unexpected 19
composite A {param expression $x;} => unexpected 30
composite A {param expression<> $x;} => unexpected 30
composite A {param expression<int8 a> $x;} => unexpected 35
composite A {param expression<int8> x;} => unexpected 36
composite A {param expression<int8> $x = 1;} => unexpected 39
composite A {param expression<int8> $x : ;} => unexpected 41
composite A {param expression<int8> $x : 1, 2;} => unexpected 42
composite A {param expression<int8> $x} => unexpected 38
composite A {param expression<int8> $x, $y;} => unexpected 38
composite A {param expression<int8> : 1;} => unexpected 36
composite A {param $x;} => unexpected 19
composite A {expression<int8> $x;} => unexpected 13
composite A {param int8 x;} => unexpected 19

# The clauses of a composite stand in their order
composite A {type B = int8; C = int8 a, B b;} => composite A type [B = int8; C = (int8 a, B b)]
composite A {graph () as B = C();} => composite A graph [() as B = C()]
composite A {config placement: p(1), q; x: 2;} => composite A config [placement: p(1), q; x: 2]
composite A {param type graph config} => composite A
composite A(output B) {param expression<int8> $x; type T = int8; graph stream<T> B = F(); config c: 1;} => composite A(output B) param [<int8> $x] type [T = int8] graph [(stream<T> B) = F()] config [c: 1]
composite A {type B;} => unexpected 19
composite A {type B = ;} => unexpected 22
composite A {type B = int8; type C = int8;} => unexpected 28
composite A {type B = int8} => unexpected 26
composite A {type B = int8; int8 c;} => unexpected 28
composite A {type int8 = B;} => unexpected 18
# Clauses in another order, and clauses twice
composite A {type param} => unexpected 18
composite A {graph type B = int8;} => unexpected 19
composite A {graph param} => unexpected 19
composite A {config graph} => unexpected 20
composite A {config c: 1; type B = int8;} => unexpected 26
composite A {param param} => unexpected 19
composite A {graph graph} => unexpected 19
composite A {config c: 1; config} => unexpected 26
# What has no clause of its own there
composite A {() as B = C();} => unexpected 13
composite A {logic} => unexpected 13
composite A {output B} => unexpected 13
composite A {x: 1;} => unexpected 13
composite A {void f() {}} => unexpected 13
composite A {config x;} => unexpected 21
composite A {config x: ;} => unexpected 23
composite A {config x: 1,;} => unexpected 25
composite A {config x: 1 2;} => unexpected 25
composite A {config 1: x;} => unexpected 20
composite A {config x: 1} => unexpected 24
"#;
