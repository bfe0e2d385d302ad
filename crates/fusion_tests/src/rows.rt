//! The elements into which programs are fused, and the links between them.

/// What comes before the texts of rows, in place of `…`, and what comes after.
pub(crate) const SHELLS: &str = r#"
graph: composite Main {graph …}
one: composite Main {graph stream<int32 a, int64 b, rstring s, boolean c> S = FileSource() {param file: 's';} …}
two: composite Main {graph stream<int32 a, int64 b> L = FileSource() {param file: 'l';} stream<boolean c, int64 b, int32 a> R = FileSource() {param file: 'r';} …}
"#;

/// At width 1.
pub(crate) const ONE: &str = r#"
# One connection, which alone takes the stream, and one output port: one chain.
graph: stream<int64 price> T = FileSource() {param file: 't';} stream<int64 price> B = Filter(T) {param filter: price > 10l;} () as Out = FileSink(B) {param file: 'o';} => chain T B Out
one: stream<S> H = Filter(G); stream<S> G = Filter(F); stream<S> F = Filter(S); => chain S F G H
# A stream with two connections,
one: stream<S> F = Filter(S); stream<S> G = Filter(S); => chain S; chain F; chain G; 0.0 1.0; 0.1 2.0
one: stream<S> U = Union(S, S); stream<S> F = Filter(U); => chain S; chain U F; 0.0 1.0; 0.1 1.1
one: stream<S> F = Filter(S); stream<S> G = Filter(F); stream<S> H = Filter(F); => chain S F; chain G; chain H; 0.0 1.0; 0.1 2.0
# an operator with two connections,
two: stream<int32 a, int64 b> F = Functor(L); stream<int32 a, int64 b> G = Functor(R); stream<int32 a, int64 b> U = Union(F; G); => chain L F; chain R G; chain U; 0.0 2.0; 1.0 2.1
# and a producer with two output ports. A stream that nobody reads has no output.
one: (stream<S> P; stream<S> Q) = Split(S) {param index: a;} stream<S> F = Filter(P); stream<S> G = Filter(Q); => chain S P; chain F; chain G; 0.0 1.0; 0.1 2.0
one: (stream<S> P; stream<S> Q) = Split(S) {param index: a;} stream<S> G = Filter(Q); => chain S P; chain G; 0.0 1.0
one: stream<S> F = Filter(S); (stream<S> P; stream<S> Q) = Split(F) {param index: a;} => chain S F P
"#;

/// At width 2.
pub(crate) const TWO: &str = r#"
# The elements of a region stand at the place of its first operator, and nothing is fused with them.
graph: stream<int64 price> T = FileSource() {param file: 't';} stream<int64 price> B = Filter(T) {param filter: price > 10l;} () as Out = FileSink(B) {param file: 'o';} => chain T; splitter 0 B; replica 0.0 B; replica 0.1 B; merger 0 B; chain Out; 0.0 1.0; 1.0 2.0; 1.1 3.0; 2.0 4.0; 3.0 4.1; 4.0 5.0
one: stream<S> F = Filter(S); stream<S> D = Filter(S); stream<S> G = Filter(F); => chain S; splitter 0 F G; replica 0.0 F G; replica 0.1 F G; merger 0 F G; splitter 1 D; replica 1.0 D; replica 1.1 D; merger 1 D; 0.0 1.0; 0.1 5.0; 1.0 2.0; 1.1 3.0; 2.0 4.0; 3.0 4.1; 5.0 6.0; 5.1 7.0; 6.0 8.0; 7.0 8.1
# Two regions one behind the other.
graph: stream<int64 k> T = FileSource() {param file: 't';} stream<int64 k> F = Functor(T) {output F: k = k + 1l;} stream<int64 k, int32 n> A = Aggregate(F) {window F: tumbling, count(2), partitioned; param partitionBy: k; output A: k = Any(k), n = Count();} () as Out = FileSink(A) {param file: 'o';} => chain T; splitter 0 F; replica 0.0 F; replica 0.1 F; merger 0 F; splitter 1 A; replica 1.0 A; replica 1.1 A; merger 1 A; chain Out; 0.0 1.0; 1.0 2.0; 1.1 3.0; 2.0 4.0; 3.0 4.1; 4.0 5.0; 5.0 6.0; 5.1 7.0; 6.0 8.0; 7.0 8.1; 8.0 9.0
# A region whose stream is taken twice.
one: stream<S> F = Filter(S); () as O = FileSink(F) {param file: 'o';} () as P = FileSink(F) {param file: 'p';} => chain S; splitter 0 F; replica 0.0 F; replica 0.1 F; merger 0 F; chain O; chain P; 0.0 1.0; 1.0 2.0; 1.1 3.0; 2.0 4.0; 3.0 4.1; 4.0 5.0; 4.1 6.0
"#;

/// At width 4: trades, with a composite that is invoked twice, and a Split.
pub(crate) const FOUR: &str = r#"
namespace demo.trades; type Trade = int64 ts, rstring sym, int64 price, int64 qty; composite Clean(output Good; input Raw) { param expression<int64> $least : 1l; graph stream<Trade> Good = Filter(Raw) { param filter: qty >= $least && price > 0l; } } composite Main { graph stream<Trade> In = FileSource() { param file: 'trades.csv'; format: csv; } stream<Trade> C1 = Clean(In) { param least: 10l; } stream<Trade> C2 = Clean(In) { param least: 100l; } stream<rstring sym, int64 value> V = Functor(C1) { output V: value = price * qty; } stream<rstring sym, int64 total, int32 n> A = Aggregate(V) { window V: sliding, count(2), count(1), partitioned; param partitionBy: sym; output A: sym = Any(sym), total = Sum(value), n = Count(); } (stream<A> Lo; stream<A> Hi) = Split(A) { param index: total >= 10000l ? 1 : 0; } () as LoOut = FileSink(Lo) { param file: 'lo.csv'; format: csv; } () as HiOut = FileSink(Hi) { param file: 'hi.csv'; format: csv; } () as BigOut = FileSink(C2) { param file: 'big.csv'; format: csv; } } => chain In; splitter 0 C1.Good V A; replica 0.0 C1.Good V A; replica 0.1 C1.Good V A; replica 0.2 C1.Good V A; replica 0.3 C1.Good V A; merger 0 C1.Good V A; splitter 1 C2.Good; replica 1.0 C2.Good; replica 1.1 C2.Good; replica 1.2 C2.Good; replica 1.3 C2.Good; merger 1 C2.Good; chain Lo; chain LoOut; chain HiOut; chain BigOut; 0.0 1.0; 0.1 7.0; 1.0 2.0; 1.1 3.0; 1.2 4.0; 1.3 5.0; 2.0 6.0; 3.0 6.1; 4.0 6.2; 5.0 6.3; 6.0 13.0; 7.0 8.0; 7.1 9.0; 7.2 10.0; 7.3 11.0; 8.0 12.0; 9.0 12.1; 10.0 12.2; 11.0 12.3; 12.0 16.0; 13.0 14.0; 13.1 15.0
"#;

/// The elements of three workers, at width 4.
pub(crate) const GROUPS: &str = r#"
namespace demo.trades; type Trade = int64 ts, rstring sym, int64 price, int64 qty; composite Clean(output Good; input Raw) { param expression<int64> $least : 1l; graph stream<Trade> Good = Filter(Raw) { param filter: qty >= $least && price > 0l; } } composite Main { graph stream<Trade> In = FileSource() { param file: 'trades.csv'; format: csv; } stream<Trade> C1 = Clean(In) { param least: 10l; } stream<Trade> C2 = Clean(In) { param least: 100l; } stream<rstring sym, int64 value> V = Functor(C1) { output V: value = price * qty; } stream<rstring sym, int64 total, int32 n> A = Aggregate(V) { window V: sliding, count(2), count(1), partitioned; param partitionBy: sym; output A: sym = Any(sym), total = Sum(value), n = Count(); } (stream<A> Lo; stream<A> Hi) = Split(A) { param index: total >= 10000l ? 1 : 0; } () as LoOut = FileSink(Lo) { param file: 'lo.csv'; format: csv; } () as HiOut = FileSink(Hi) { param file: 'hi.csv'; format: csv; } () as BigOut = FileSink(C2) { param file: 'big.csv'; format: csv; } } =>  0 3 6 9 12 15; 1 4 7 10 13 16; 2 5 8 11 14
"#;

/// How many elements and links there are, at width 15.
pub(crate) const FIFTEEN: &str = r#"
graph: stream<int64 price> T = FileSource() {param file: 't';} «0 120 stream<int64 price> F{n} = Filter(T); » => 2041 elements 3720 links
"#;

/// At width 16.
pub(crate) const SIXTEEN: &str = r#"
graph: stream<int64 price> T = FileSource() {param file: 't';} «0 120 stream<int64 price> F{n} = Filter(T); » => too wide 2161
"#;

/// The inputs and outputs of elements: the attributes of their sources and inputs, and the connections of each output
/// port. At width 1,
pub(crate) const PORTS_AT_ONE: &str = r#"
two: stream<int32 a, int64 b> F = Functor(R); stream<int32 a, int64 b> U = Union(L; F, L); => source a,b out 2;source c,b,a out 1; in a,b in a,b in a,b out 0
one: (stream<S> P; stream<S> Q; stream<S> O) = Split(S) {param index: a;} stream<S> F = Filter(Q); stream<S> G = Filter(Q); stream<S> H = Filter(P); => source a,b,s,c out 1 out 2 out 0; in a,b,s,c out 0; in a,b,s,c out 0; in a,b,s,c out 0
"#;

/// and at width 2.
pub(crate) const PORTS_AT_TWO: &str = r#"
one: stream<int32 a, int64 b> F = Functor(S); () as X = FileSink(F) {param file: 'x';} () as Y = FileSink(F) {param file: 'y';} => source a,b,s,c out 1; in a,b,s,c out 1 out 1; in a,b,s,c out 1; in a,b,s,c out 1; in a,b in a,b out 2; in a,b; in a,b
"#;
