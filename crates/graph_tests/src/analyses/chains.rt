//! Chains of all operators after the first one: for each attribute of the last output the place of the attribute
//! of the stream that the chain reads that it is a copy of.

pub(crate) const ROWS: &str = r#"
# Keys that are passed on or made anew.
graph: stream<int64 k> T = FileSource() {param file: 't';} stream<int64 k> F = Functor(T) {output F: k = k + 1l;} stream<int64 k, int32 n> A = Aggregate(F) {window F: tumbling, count(2), partitioned; param partitionBy: k; output A: k = Any(k), n = Count();} => chain - -
graph: stream<int64 k> T = FileSource() {param file: 't';} stream<int64 k> F = Filter(T) {param filter: k > 1l;} stream<int64 k, int32 n> A = Aggregate(F) {window F: tumbling, count(2), partitioned; param partitionBy: k; output A: k = Any(k), n = Count();} => chain 0 -
graph: stream<rstring a, rstring b, int64 v> T = FileSource() {param file: 't';} stream<rstring a, rstring b, int64 s> A = Aggregate(T) {window T: tumbling, count(2), partitioned; param partitionBy: a, b; output A: a = Any(a), b = Any(b), s = Sum(v);} stream<rstring b, int64 s> Z = Aggregate(A) {window A: tumbling, count(2), partitioned; param partitionBy: b; output Z: b = Any(b), s = Sum(s);} => chain 1 -
graph: stream<rstring a, rstring b, int64 v> T = FileSource() {param file: 't';} stream<rstring a, rstring b, int64 s> A = Aggregate(T) {window T: tumbling, count(2), partitioned; param partitionBy: a; output A: a = Any(a), b = Any(b), s = Sum(v);} stream<rstring b, int64 s> Z = Aggregate(A) {window A: tumbling, count(2), partitioned; param partitionBy: b; output Z: b = Any(b), s = Sum(s);} => chain - -

# Places change along a chain.
one: stream<rstring s, int32 a> F = Functor(S); stream<int32 x, rstring y> G = Functor(F) {output G: x = a, y = s;} stream<rstring y, int32 x> U = Union(G); => chain 2 0
one: stream<S> F = Filter(S); => chain 0 1 2 3
"#;
