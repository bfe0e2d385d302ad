//! What the checked graph of a program holds.

pub(crate) const CLAUSES: &str = r#"
# Clauses are kept.
# a source and a sink
one: () as O = FileSink(S) {param format: csv; file: 'o.csv';} => FileSource s strict; FileSink o.csv
# Filters
one: stream<S> F = Filter(S); stream<S> G = Filter(F) {param filter: c;} => FileSource s strict; Filter; Filter if
# a Functor with its attributes in the order of their values
one: stream<int32 a, rstring s, int32 z> F = Functor(S) {output F: z = 1, s = 'x'; F: a = 2;} => FileSource s strict; Functor 2 1 0
# a Functor with a condition
one: stream<rstring s> F = Functor(S) {param filter: c; output F: s = s + s;} => FileSource s strict; Functor if 0
# Punctors
one: stream<S> P = Punctor(S) {param punctuation: c; position: before;} stream<S> Q = Punctor(P) {param position: after; punctuation: c;} => FileSource s strict; Punctor before; Punctor after
# a Split
one: (stream<S> A; stream<S> B) = Split(S) {param index: a;} => FileSource s strict; Split
# keys and groups in the order of the text
one: stream<int32 n, int64 t, rstring s> A = Aggregate(S) {window S: tumbling, count(2), partitioned; param groupBy: b; partitionBy: s, a; output A: s = Any(s), n = Count(), t = Sum(b);} => FileSource s strict; Aggregate partitioned tumbling count 2 by 2 0 group 1 gives 2 First, 0 Count, 1 Sum int64
# sliding differences
one: stream<rstring s, int64 b> A = Aggregate(S) {window S: sliding, delta(b, 5l), count(3); output A: b = Last(b), s = Max(s);} => FileSource s strict; Aggregate sliding delta 1 5 every 3 by group gives 1 Last, 0 Max
# markers
one: stream<int32 a> A = Aggregate(S) {window S: partitioned, tumbling, punct(); param partitionBy: c; output A: a = Min(a);} => FileSource s strict; Aggregate partitioned tumbling punct by 3 group gives 0 Min
# tumbling differences
one: stream<int8 x> A = Aggregate(S) {window S: tumbling, delta(a, 2147483647); param groupBy: c, a, s; output A: x = Sum((int8) a);} => FileSource s strict; Aggregate tumbling delta 0 2147483647 by group 3 0 2 gives 0 Sum int8
# the last tuples
one: stream<int32 n> A = Aggregate(S) {window S: sliding, count(1000000), count(1ub); output A: n = First(a);} => FileSource s strict; Aggregate sliding count 1000000 every 1 by group gives 0 First
# a Custom
one: (stream<S> C; stream<int32 n> D) = Custom(S; S as T) {logic state: {int32 k; mutable boolean m = true;} onPunct T: {} onTuple S: {} onPunct S: {}} => FileSource s strict; Custom k, mutable m (tuple punct) (punct)
# a Custom without logic
one: () as X = Custom(S); => FileSource s strict; Custom ()

# Clauses of two ports are kept.
# a Join with its windows by its ports
two: stream<int32 a, int64 d> J = Join(L; R) {window R: sliding, delta(d, 0l); L: sliding, count(0); param match: c; output J: d = b, a = L.a;} => FileSource l strict; FileSource r strict; Join (sliding count 0) (sliding delta 1 0) if 1 0
# a Join without a match
two: stream<int64 d> J = Join(L; R) {window L: sliding, delta(a, 7); R: sliding, count(3); output J: d = b;} => FileSource l strict; FileSource r strict; Join (sliding delta 0 7) (sliding count 3) 0
# a Union
two: stream<rstring s, int32 a> P = Functor(L) {output P: a = 1, s = 'x';} stream<int32 a, rstring s> U = Union(L; P); => FileSource l strict; FileSource r strict; Functor 1 0; Union (0 2) (1 0)

# Parameters of composites are kept as what they stand for.
# files
composite C(input I) {param expression<rstring> $f: 'x.csv'; graph () as X = FileSink(I) {param file: $f;}} composite Main {graph stream<int32 a> S = FileSource() {param file: 's'; parsing: permissive;} () as A = C(S) {param f: 'y.csv';} () as B = C(S);} => FileSource s permissive; FileSink y.csv; FileSink x.csv
# counts
composite C(output O; input I) {param expression<int32> $n; graph stream<I> O = Aggregate(I) {window I: sliding, count($n), count($n); output O: a = Max(a);}} composite Main {graph stream<int32 a> S = FileSource() {param file: 's';} stream<S> A = C(S) {param n: 3;} stream<S> B = C(S) {param n: 4;}} => FileSource s strict; Aggregate sliding count 3 every 3 by group gives 0 Max; Aggregate sliding count 4 every 4 by group gives 0 Max
"#;

pub(crate) const TYPES: &str = r#"
# Each stream has its attributes.
# names of types
type T = int32 a, U b; type U = list<tuple<rstring x, map<boolean, uint8> y>>; composite Main {type U = int64; graph stream<T> S = Functor(R) {output S: b = []; } stream<U b, int32 a> R = FileSource() {param file: 's';}} => int32 a, list<tuple<rstring x, map<boolean, uint8> y>> b; int64 b, int32 a
# names of streams
composite C(output O; input I) {graph stream<I> O = Filter(I);} composite Main {graph stream<S> A = C(S); stream<uint16 a> S = FileSource() {param file: 's';} stream<A> B = Filter(A); stream<int16 b> D = Functor(B) {output D: b = (int16) a;}} => uint16 a; uint16 a; uint16 a; int16 b
"#;
