//! The plans of programs: regions with their merges, keys and operators.

pub(crate) const ROWS: &str = r#"
# A filter; a key that is made anew; keys that share an attribute, and keys that share none.
graph: stream<int64 price> T = FileSource() {param file: 't';} stream<int64 price> B = Filter(T) {param filter: price > 10l;} () as Out = FileSink(B) {param file: 'o';} => pulses -: B
graph: stream<rstring k, int64 v> T = FileSource() {param file: 't';} stream<rstring k, int64 s> A = Aggregate(T) {window T: sliding, count(3), count(1), partitioned; param partitionBy: k; output A: k = Any(k), s = Sum(v);} () as Out = FileSink(A) {param file: 'o';} => numbers k: A
graph: stream<int64 k> T = FileSource() {param file: 't';} stream<int64 k> F = Functor(T) {output F: k = k + 1l;} stream<int64 k, int32 n> A = Aggregate(F) {window F: tumbling, count(2), partitioned; param partitionBy: k; output A: k = Any(k), n = Count();} () as Out = FileSink(A) {param file: 'o';} => turns -: F; pulses k: A
graph: stream<rstring a, rstring b, int64 v> T = FileSource() {param file: 't';} stream<rstring a, rstring b, int64 s> A = Aggregate(T) {window T: tumbling, count(2), partitioned; param partitionBy: a, b; output A: a = Any(a), b = Any(b), s = Sum(v);} stream<rstring b, int64 s> Z = Aggregate(A) {window A: tumbling, count(2), partitioned; param partitionBy: b; output Z: b = Any(b), s = Sum(s);} => pulses b: A Z
graph: stream<rstring a, rstring b, int64 v> T = FileSource() {param file: 't';} stream<rstring a, rstring b, int64 s> A = Aggregate(T) {window T: tumbling, count(2), partitioned; param partitionBy: a; output A: a = Any(a), b = Any(b), s = Sum(v);} stream<rstring b, int64 s> Z = Aggregate(A) {window A: tumbling, count(2), partitioned; param partitionBy: b; output Z: b = Any(b), s = Sum(s);} => pulses a: A; pulses b: Z

# Trades: a composite that is invoked twice, and a Split.
namespace demo.trades; type Trade = int64 ts, rstring sym, int64 price, int64 qty; composite Clean(output Good; input Raw) { param expression<int64> $least : 1l; graph stream<Trade> Good = Filter(Raw) { param filter: qty >= $least && price > 0l; } } composite Main { graph stream<Trade> In = FileSource() { param file: 'trades.csv'; format: csv; } stream<Trade> C1 = Clean(In) { param least: 10l; } stream<Trade> C2 = Clean(In) { param least: 100l; } stream<rstring sym, int64 value> V = Functor(C1) { output V: value = price * qty; } stream<rstring sym, int64 total, int32 n> A = Aggregate(V) { window V: sliding, count(2), count(1), partitioned; param partitionBy: sym; output A: sym = Any(sym), total = Sum(value), n = Count(); } (stream<A> Lo; stream<A> Hi) = Split(A) { param index: total >= 10000l ? 1 : 0; } () as LoOut = FileSink(Lo) { param file: 'lo.csv'; format: csv; } () as HiOut = FileSink(Hi) { param file: 'hi.csv'; format: csv; } () as BigOut = FileSink(C2) { param file: 'big.csv'; format: csv; } } => pulses sym: C1.Good V A; pulses -: C2.Good

# No region, one of one operator, and chains.
one: () as O = FileSink(S) {param file: 'o';} => none
one: stream<S> F = Filter(S); => turns -: F
one: stream<S> F = Filter(S); stream<S> G = Functor(F); stream<S> U = Union(G); () as O = FileSink(U) {param file: 'o';} => pulses -: F G U
# declared from behind
one: stream<S> H = Filter(G); stream<S> G = Filter(F); stream<S> F = Filter(S); => turns -: F G H
one: stream<S> G = Filter(F) {param filter: c;} stream<S> D = Filter(S); stream<S> F = Filter(S); => turns -: D; pulses -: F G

# A region ends where its stream is taken twice.
one: stream<S> F = Filter(S); stream<S> G = Filter(F); stream<S> H = Filter(F); => turns -: F; turns -: G; turns -: H
one: stream<S> F = Filter(S); stream<S> G = Filter(F); () as O = FileSink(F) {param file: 'o';} => turns -: F; turns -: G
one: stream<S> F = Filter(S); stream<S> U = Union(F; F); stream<S> G = Filter(U); => turns -: F; turns -: G
one: stream<S> F = Filter(S); stream<S> U = Union(F, F); => turns -: F

# It ends at an operator that may not stand in one: with two inputs or two outputs,
two: stream<L> F = Filter(L); stream<int32 a> J = Join(F; R) {window F: sliding, count(1); R: sliding, count(1); output J: a = F.a;} stream<J> G = Filter(J); => turns -: F; turns -: G
one: stream<S> F = Filter(S); (stream<S> P; stream<S> Q) = Split(F) {param index: a;} stream<S> G = Filter(Q); stream<S> H = Filter(P); => turns -: F; turns -: G; turns -: H
one: stream<S> F = Filter(S); stream<S> P = Split(F) {param index: a;} stream<S> G = Filter(P); => pulses -: F P G
# or with a state that isn't kept by keys.
one: stream<S> F = Filter(S); stream<int64 t> A = Aggregate(F) {window F: tumbling, count(2); output A: t = Sum(b);} stream<A> G = Filter(A); => turns -: F; turns -: G
one: stream<S> F = Filter(S); stream<rstring s> A = Aggregate(F) {window F: tumbling, punct(), partitioned; param partitionBy: s; output A: s = Any(s);} stream<A> G = Filter(A); => turns -: F; turns -: G
one: stream<S> F = Filter(S); stream<int32 n> C = Custom(F) {logic state: mutable int32 n = 0; onTuple F: {n += 1; submit({n = n}, C);}} stream<C> G = Filter(C); => turns -: F; turns -: G
one: stream<S> F = Filter(S); stream<int32 n> C = Custom(F) {logic state: int32 n = 7; onTuple F: {submit({n = n}, C);}} stream<C> G = Filter(C); => pulses -: F C G

# A key stands in the order of the stream that the region reads.
one: stream<int32 a, rstring s> A = Aggregate(S) {window S: tumbling, count(2), partitioned; param partitionBy: s, a; output A: a = Any(a), s = Any(s);} => pulses a,s: A
one: stream<rstring s, int64 b, int32 a> F = Functor(S); stream<F> A = Aggregate(F) {window F: tumbling, count(2), partitioned; param partitionBy: s, b, a; output A: a = Any(a), b = Any(b), s = Any(s);} stream<F> Z = Aggregate(A) {window A: tumbling, count(2), partitioned; param partitionBy: s, a; output Z: a = Any(a), b = Any(b), s = Any(s);} => pulses a,s: F A Z
# It may be renamed,
one: stream<rstring x, int64 b> F = Functor(S) {output F: x = s;} stream<rstring y, int64 t> A = Aggregate(F) {window F: tumbling, count(2), partitioned; param partitionBy: x; output A: y = First(x), t = Sum(b);} stream<rstring z> Z = Aggregate(A) {window A: tumbling, count(2), partitioned; param partitionBy: y; output Z: z = Last(y);} => pulses s: F A Z
one: stream<int64 a, int32 b> F = Functor(S) {output F: a = S.b, b = S.a;} stream<F> A = Aggregate(F) {window F: tumbling, count(2), partitioned; param partitionBy: a; output A: a = Any(a), b = Max(b);} => pulses b: F A
# dropped in part or whole,
one: stream<rstring s, int32 a> A = Aggregate(S) {window S: tumbling, count(2), partitioned; param partitionBy: a, s; output A: a = Any(a), s = Any(s);} stream<rstring s> G = Functor(A); stream<rstring s> Z = Aggregate(G) {window G: tumbling, count(2), partitioned; param partitionBy: s; output Z: s = Any(s);} => pulses s: A G Z
one: stream<rstring s, int32 n> A = Aggregate(S) {window S: tumbling, count(2), partitioned; param partitionBy: s; output A: s = Any(s), n = Count();} stream<int32 n> G = Functor(A); stream<int32 n> Z = Aggregate(G) {window G: tumbling, count(2), partitioned; param partitionBy: n; output Z: n = Any(n);} => pulses s: A G; pulses n: Z
# or doubled.
one: stream<rstring x, rstring y> F = Functor(S) {output F: x = s, y = s;} stream<F> A = Aggregate(F) {window F: tumbling, count(2), partitioned; param partitionBy: y, x; output A: x = Any(x), y = Any(y);} stream<rstring y> Z = Aggregate(A) {window A: tumbling, count(2), partitioned; param partitionBy: y; output Z: y = Any(y);} => pulses s: F A Z
one: stream<rstring x, rstring y> F = Functor(S) {output F: x = s, y = s;} stream<F> A = Aggregate(F) {window F: tumbling, count(2), partitioned; param partitionBy: x; output A: x = Any(x), y = Any(y);} stream<rstring y> Z = Aggregate(A) {window A: tumbling, count(2), partitioned; param partitionBy: y; output Z: y = Any(y);} => pulses s: F A; pulses y: Z

# Merges: by turns, by numbers, by pulses.
one: stream<S> F = Filter(S) {param filter: c;} stream<S> G = Filter(F); => pulses -: F G
one: stream<S> F = Filter(S); stream<S> P = Punctor(F) {param punctuation: c; position: before;} => pulses -: F P
one: stream<S> F = Functor(S); stream<rstring s, int64 t> A = Aggregate(F) {window F: sliding, count(3), count(1), partitioned; param partitionBy: s; output A: s = Any(s), t = Sum(b);} stream<A> G = Filter(A); => numbers s: F A G
one: stream<rstring s, int64 t> A = Aggregate(S) {window S: sliding, count(3), count(1), partitioned; param partitionBy: s; output A: s = Any(s), t = Sum(b);} stream<A> G = Filter(A) {param filter: t > 5l;} => pulses s: A G
one: stream<rstring s, int64 t> A = Aggregate(S) {window S: sliding, count(3), count(2), partitioned; param partitionBy: s; output A: s = Any(s), t = Sum(b);} => pulses s: A
one: stream<rstring s, int64 t> A = Aggregate(S) {window S: sliding, count(3), count(1), partitioned; param partitionBy: s; groupBy: a; output A: s = Any(s), t = Sum(b);} => pulses s: A
"#;

/// With pieces that stand there many times: 254 operators in one region, and 127 regions of two.
pub(crate) const LONG: &str = r#"
one: stream<S> F0 = Filter(S); «0 253 stream<S> F{n+1} = Filter(F{n}); » => turns -: «0 253 F{n} »F253
graph: stream<int64 k> F0 = FileSource() {param file: 's';} «0 127 stream<int64 k> A{n+1} = Aggregate(F{n}) {window F{n}: sliding, count(2), count(1), partitioned; param partitionBy: k; output A{n+1}: k = Any(k);} stream<int64 k> F{n+1} = Functor(A{n+1}) {output F{n+1}: k = k + 1l;} » => «1 126 numbers k: A{n} F{n}; »numbers k: A127 F127
"#;
