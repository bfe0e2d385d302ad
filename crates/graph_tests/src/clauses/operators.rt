//! Each operator with and without its clauses, and with other ports than it has.

pub(crate) const ROWS: &str = r#"
# A source needs its file alone.
graph: stream<int32 a> T = FileSource() {param file: 't';} => ok 1 operators 1 streams
graph: stream<int32 a> T as U = FileSource() {param parsing: permissive; format: csv; file: "t"; config placement: 1;} => ok 1 operators 1 streams
graph: stream<int32 a> T = FileSource() {param file: 't'; parsing: strict;} => ok 1 operators 1 streams

# An operator has the clauses that it needs and others where they are wanted.
# a sink
one: () as O = FileSink(S) {param file: 'o';} => ok 2 operators 1 streams
# a sink with every clause
one: () as O = FileSink(S) {param format: csv; file: "o"; config placement: 1;} => ok 2 operators 1 streams
# a Filter
one: stream<S> F = Filter(S); => ok 2 operators 2 streams
# a Filter with every clause
one: stream<S> F = Filter(S) {param filter: c && a > 0 && S.b != 1l; config placement: 1;} => ok 2 operators 2 streams
# a Functor
one: stream<S> F = Functor(S); => ok 2 operators 2 streams
# a Functor of some attributes
one: stream<rstring s, int32 a> F = Functor(S); => ok 2 operators 2 streams
# a Functor with every clause
one: stream<int64 b, rstring t> F = Functor(S) {param filter: c; output F: t = s + 'x'; config placement: 1;} => ok 2 operators 2 streams
# a Punctor
one: stream<S> P = Punctor(S) {param punctuation: c; position: before;} => ok 2 operators 2 streams
# a Punctor with every clause
one: stream<S> P = Punctor(S) {param position: after; punctuation: a == 1; config placement: 1;} => ok 2 operators 2 streams
# a Split
one: stream<S> A = Split(S) {param index: a;} => ok 2 operators 2 streams
# a Split with every clause
one: (stream<S> A; stream<S> B) as P = Split(S) {param index: b % 2l; config placement: 1;} => ok 2 operators 3 streams
# an index of an unsigned type
one: (stream<S> A; stream<S> B) = Split(S) {param index: (uint8) a;} => ok 2 operators 3 streams
# a Union
one: stream<S> U = Union(S); => ok 2 operators 2 streams
# a Union of several ports and streams
one: stream<int32 a, rstring s> U = Union(S; S, S; S) {config placement: 1;} => ok 2 operators 2 streams
# a Custom
one: () as X = Custom(S); => ok 2 operators 1 streams
# a Custom with an empty logic
one: stream<int32 n> C = Custom(S) {logic} => ok 2 operators 2 streams
# a Custom with every clause
one: (stream<int32 n> C; stream<S> D) as X = Custom(S; S as T) {logic state: {mutable int32 k = 0; rstring w = 'x';} onTuple S: {k += a; submit({n = k}, C);} onPunct T: {if (currentPunct() == Sys.WindowMarker) submit(Sys.WindowMarker, D);} onTuple T: {submit(T, D);} onPunct S: {submit({n = k}, C);} config placement: 1;} => ok 2 operators 3 streams
# an Aggregate
one: stream<int32 a> A = Aggregate(S) {window S: tumbling, count(2);} => ok 2 operators 2 streams
# an Aggregate with every clause
one: stream<rstring s, int64 t, int32 n> A = Aggregate(S) {window S: sliding, delta(b, 5l), count(2), partitioned; param partitionBy: s; groupBy: c, a; output A: t = Sum(b), n = Count(); config placement: 1;} => ok 2 operators 2 streams

# A join needs its windows alone.
two: stream<int64 b, int64 d> J = Join(L; R) {window L: sliding, count(0); R: sliding, delta(d, 5l);} => ok 3 operators 3 streams
two: stream<int64 b, int32 l, rstring s> J = Join(L; R) {window R: sliding, count(3); L: sliding, count(1); param match: L.a == R.a && c; output J: l = R.a + L.a; config placement: 1;} => ok 3 operators 3 streams

# As many ports as there may be are accepted.
one: () as O = FileSink(S, S) {param file: 'o';} => ok 2 operators 1 streams
one: (stream<S> A1; stream<S> A2; stream<S> A3; stream<S> A4; stream<S> A5; stream<S> A6; stream<S> A7; stream<S> A8; stream<S> A9; stream<S> A10; stream<S> A11; stream<S> A12; stream<S> A13; stream<S> A14; stream<S> A15; stream<S> A16) = Split(S) {param index: a;} => ok 2 operators 17 streams
one: stream<S> U = Union(S; S; S; S; S; S; S; S; S; S; S; S; S; S; S; S); => ok 2 operators 2 streams
one: () as X = Custom(S; S; S; S; S; S; S; S; S; S; S; S; S; S; S; S); => ok 2 operators 1 streams
one: (stream<S> A1; stream<S> A2; stream<S> A3; stream<S> A4; stream<S> A5; stream<S> A6; stream<S> A7; stream<S> A8; stream<S> A9; stream<S> A10; stream<S> A11; stream<S> A12; stream<S> A13; stream<S> A14; stream<S> A15; stream<S> A16) = Custom(S); => ok 2 operators 17 streams

# Other numbers of ports are refused.
one: stream<int32 a> T = FileSource(S) {param file: 't';} => C5 at 105
one: () as T = FileSource() {param file: 't';} => C5 at 105
one: (stream<int32 a> T; stream<int32 a> U) = FileSource() {param file: 't';} => C5 at 105
one: () as O = FileSink() {param file: 'o';} => C5 at 105
one: () as O = FileSink(S; S) {param file: 'o';} => C5 at 105
one: stream<S> O = FileSink(S) {param file: 'o';} => C5 at 105
one: stream<S> F = Filter(); => C5 at 105
one: stream<S> F = Filter(S; S); => C5 at 105
one: () as F = Filter(S); => C5 at 105
one: (stream<S> F; stream<S> G) = Filter(S); => C5 at 105
one: stream<S> F = Functor(); => C5 at 105
one: stream<S> F = Functor(S; S); => C5 at 105
one: () as F = Functor(S); => C5 at 105
one: (stream<S> F; stream<S> G) = Functor(S); => C5 at 105
one: stream<S> F = Punctor(); => C5 at 105
one: stream<S> F = Punctor(S; S); => C5 at 105
one: () as F = Punctor(S); => C5 at 105
one: (stream<S> F; stream<S> G) = Punctor(S); => C5 at 105
one: stream<S> F = Split() {param index: 0;} => C5 at 105
one: stream<S> F = Split(S; S) {param index: 0;} => C5 at 105
one: () as F = Split(S) {param index: 0;} => C5 at 105
one: (stream<S> A1; stream<S> A2; stream<S> A3; stream<S> A4; stream<S> A5; stream<S> A6; stream<S> A7; stream<S> A8; stream<S> A9; stream<S> A10; stream<S> A11; stream<S> A12; stream<S> A13; stream<S> A14; stream<S> A15; stream<S> A16; stream<S> A17) = Split(S) {param index: a;} => C5 at 105
one: stream<S> F = Union(); => C5 at 105
one: stream<S> F = Union(S; S; S; S; S; S; S; S; S; S; S; S; S; S; S; S; S); => C5 at 105
one: () as F = Union(S; S); => C5 at 105
one: (stream<S> F; stream<S> G) = Union(S; S); => C5 at 105
one: stream<S> F = Custom(); => C5 at 105
one: () as F = Custom(); => C5 at 105
one: () as F = Custom(S; S; S; S; S; S; S; S; S; S; S; S; S; S; S; S; S); => C5 at 105
one: (stream<S> A1; stream<S> A2; stream<S> A3; stream<S> A4; stream<S> A5; stream<S> A6; stream<S> A7; stream<S> A8; stream<S> A9; stream<S> A10; stream<S> A11; stream<S> A12; stream<S> A13; stream<S> A14; stream<S> A15; stream<S> A16; stream<S> A17) = Custom(S); => C5 at 105
one: stream<S> F = Aggregate(); => C5 at 105
one: stream<S> F = Aggregate(S; S); => C5 at 105
one: () as F = Aggregate(S); => C5 at 105
one: (stream<S> F; stream<S> G) = Aggregate(S); => C5 at 105
one: stream<int32 x> J = Join(); => C5 at 105
one: stream<S> J = Join(S) {window S: sliding, count(1);} => C5 at 105
one: stream<S> J = Join(S, S) {window S: sliding, count(1);} => C5 at 105
one: stream<S> J = Join(S; S as T; S as U) {window S: sliding, count(1); T: sliding, count(1); U: sliding, count(1);} => C5 at 105
one: () as J = Join(S; S as T) {window S: sliding, count(1); T: sliding, count(1);} => C5 at 105
one: (stream<S> J; stream<S> K) = Join(S; S as T) {window S: sliding, count(1); T: sliding, count(1);} => C5 at 105
"#;
