//! Programs with their answers.

pub(crate) const ROWS: &str = r#"
# Small programs are answered.
composite A { } => ok 0 operators 0 streams
composite M { graph stream<foo p> T = FileSource(); } => Y1 at 27 foo
composite M { graph stream<float64 p> T = FileSource(); } => Y5 at 27 float64
composite M { graph stream<int64 p> T = FileSource() { param file: 5; format: csv; } } => Y2 at 67
composite M { graph stream<int64 p> T = FileSource(); } => C1 at 20 file

# Larger programs are accepted.
# a source, a filter and a sink
composite Main {␊  graph␊    stream<int64 price> T = FileSource() { param file: "t.csv"; format: csv; }␊    stream<int64 price> B = Filter(T) { param filter: price > 10l; }␊    () as Out = FileSink(B) { param file: "o.csv"; format: csv; }␊}␊ => ok 3 operators 2 streams
# trades by symbol
namespace demo.trades;␊type Trade = int64 ts, rstring sym, int64 price, int64 qty;␊composite Clean(output Good; input Raw) {␊  param expression<int64> $least : 1l;␊  graph␊    stream<Trade> Good = Filter(Raw) {␊      param filter: qty >= $least && price > 0l; // both must hold␊    }␊}␊composite Main {␊  graph␊    stream<Trade> In = FileSource() { param file: "trades.csv"; format: csv; }␊    stream<Trade> C1 = Clean(In) { param least: 10l; }␊    stream<Trade> C2 = Clean(In) { param least: 100l; }␊    stream<rstring sym, int64 value> V = Functor(C1) { output V: value = price * qty; }␊    stream<rstring sym, int64 total, int32 n> A = Aggregate(V) {␊      window V: sliding, count(2), count(1), partitioned;␊      param partitionBy: sym;␊      output A: sym = Any(sym), total = Sum(value), n = Count();␊    }␊    (stream<A> Lo; stream<A> Hi) = Split(A) { param index: total >= 10000l ? 1 : 0; }␊    () as LoOut = FileSink(Lo) { param file: "lo.csv"; format: csv; }␊    () as HiOut = FileSink(Hi) { param file: "hi.csv"; format: csv; }␊    () as BigOut = FileSink(C2) { param file: "big.csv"; format: csv; }␊}␊ => ok 9 operators 7 streams

# Programs with one operator of each kind are accepted.
# a division
composite Main {graph stream<int32 a> T = FileSource() {param file: "t.csv"; format: csv;} stream<int32 b> F = Functor(T) { output F: b = 100 / a; } () as Out = FileSink(F) {param file: "o.csv"; format: csv;}} => ok 3 operators 2 streams
# an element of a list literal
composite Main {graph stream<int32 a> T = FileSource() {param file: "t.csv"; format: csv;} stream<int32 b> F = Functor(T) { output F: b = a < 5 ? [1, 2][a] : 100 / (a - 9); } () as Out = FileSink(F) {param file: "o.csv"; format: csv;}} => ok 3 operators 2 streams
# sums by key
composite Main {graph stream<rstring k, int64 v> T = FileSource() {param file: "t.csv"; format: csv;} stream<rstring k, int64 s> A = Aggregate(T) { window T: tumbling, count(2), partitioned; param partitionBy: k; output A: k = Any(k), s = Sum(v); } () as Out = FileSink(A) {param file: "o.csv"; format: csv;}} => ok 3 operators 2 streams
# a window by difference
composite Main {graph stream<int64 t, int64 v> T = FileSource() {param file: "t.csv"; format: csv;} stream<int64 s> A = Aggregate(T) { window T: tumbling, delta(t, 10l); output A: s = Sum(v); } () as Out = FileSink(A) {param file: "o.csv"; format: csv;}} => ok 3 operators 2 streams
# one Aggregate behind another
composite Main {graph stream<int32 a, rstring b, int64 v> T = FileSource() {param file: "t.csv"; format: csv;} stream<int32 a, rstring b, int64 s> A = Aggregate(T) {window T: tumbling, count(2), partitioned; param partitionBy: a, b; output A: a = Any(a), b = Any(b), s = Sum(v);} stream<rstring b, int64 s> Z = Aggregate(A) {window A: tumbling, count(2), partitioned; param partitionBy: b; output Z: b = Any(b), s = Sum(s);} () as Out = FileSink(Z) {param file: "o.csv"; format: csv;}} => ok 4 operators 3 streams
# three submits
composite Main {graph stream<int64 price> T = FileSource() {param file: "t.csv"; format: csv;} stream<int64 n> C = Custom(T) { logic onTuple T: { submit({n = price}, C); submit({n = price}, C); submit({n = price}, C); } } () as Out = FileSink(C) {param file: "o.csv"; format: csv;}} => ok 3 operators 2 streams
# a loop in a handler
composite Main {graph stream<int64 price> T = FileSource() {param file: "t.csv"; format: csv;} stream<int32 n> C = Custom(T) { logic onTuple T: { mutable int32 i = 0; while (i < 1000000) { i += 1; } submit({n = i}, C); } } () as Out = FileSink(C) {param file: "o.csv"; format: csv;}} => ok 3 operators 2 streams
# two sources together
composite Main {graph stream<int64 n> A = FileSource() {param file: "a.csv"; format: csv;} stream<int64 n> B = FileSource() {param file: "b.csv"; format: csv;} stream<int64 n> U = Union(A; B); () as Out = FileSink(U) {param file: "o.csv"; format: csv;}} => ok 4 operators 3 streams
# pairs with one key
composite Main {graph stream<rstring k> L = FileSource() {param file: "l.csv"; format: csv;} stream<rstring k, int64 v> R = FileSource() {param file: "r.csv"; format: csv;} stream<rstring k, int64 v> J = Join(L; R) { window L: sliding, count(0); R: sliding, count(2); param match: L.k == R.k; output J: k = L.k; } () as Out = FileSink(J) {param file: "o.csv"; format: csv;}} => ok 4 operators 3 streams

# A name in 194 pairs of parentheses is accepted.
composite Main {␊  graph␊    stream<int64 price> T = FileSource() { param file: "t.csv"; format: csv; }␊    stream<int64 price> B = Filter(T) { param filter: «0 194 (»price«0 194 )» > 10l; }␊    () as Out = FileSink(B) { param file: "o.csv"; format: csv; }␊}␊ => ok 3 operators 2 streams
"#;
