//! The last operators of programs: how many items an event causes, what is kept, and for each attribute of the
//! first output the place of the input's attribute that it is a copy of.

pub(crate) const ROWS: &str = r#"
# Sources, sinks and joins
graph: stream<int32 a, rstring s> S = FileSource() {param file: 's';} => Many; Whole; - -
one: () as O = FileSink(S) {param file: 'o';} => Many; Whole;
two: stream<int32 x> J = Join(L; R) {window L: sliding, count(1); R: sliding, count(1); output J: x = L.a;} => Many; Whole; -
two: stream<int32 x> J = Join(L; R) {window L: sliding, count(0); R: sliding, delta(b, 5l); param match: L.a == R.a; output J: x = L.a;} => Many; Whole; -

# A Filter passes its tuples.
one: stream<S> F = Filter(S); => One; Stateless; 0 1 2 3
one: stream<S> F = Filter(S) {} => One; Stateless; 0 1 2 3
one: stream<S> F = Filter(S) {param filter: c;} => AtMostOne; Stateless; 0 1 2 3
one: stream<S> F = Filter(S) {param filter: true;} => AtMostOne; Stateless; 0 1 2 3

# A Functor copies attributes that aren't assigned, or that are given alone.
one: stream<S> F = Functor(S); => One; Stateless; 0 1 2 3
one: stream<S> F = Functor(S) {param filter: c;} => AtMostOne; Stateless; 0 1 2 3
# in another order
one: stream<rstring s, int32 a> F = Functor(S); => One; Stateless; 2 0
# under other names
one: stream<int32 x, int32 y> F = Functor(S) {output F: x = a, y = a;} => One; Stateless; 0 0
# under the name of another
one: stream<int64 b, int64 x> F = Functor(S) {output F: x = b, b = 5l;} => One; Stateless; - 1
# with its port
one: stream<int32 x> F = Functor(S) {output F: x = S.a;} => One; Stateless; 0
# with the alias of its port
one: stream<int32 x> F = Functor(S as P) {output F: x = P.a;} => One; Stateless; 0
# in parentheses
one: stream<int32 x> F = Functor(S) {output F: x = (a);} => One; Stateless; 0
one: stream<int32 x> F = Functor(S) {output F: x = ((S.a));} => One; Stateless; 0
# with a sum
one: stream<int32 x> F = Functor(S) {output F: x = a + 0;} => One; Stateless; -
# with a sign
one: stream<int32 x> F = Functor(S) {output F: x = - -a;} => One; Stateless; -
# with a cast to its own type
one: stream<int32 x> F = Functor(S) {output F: x = (int32) a;} => One; Stateless; -
# under a condition
one: stream<int32 x> F = Functor(S) {output F: x = c ? a : a;} => One; Stateless; -
# through a call
one: stream<int32 x> F = Functor(S) {output F: x = max(a, a);} => One; Stateless; -
called: stream<int32 x> F = Functor(S) {output F: x = f(a);} => One; Stateless; -
# through a list
one: stream<int32 x> F = Functor(S) {output F: x = [a][0];} => One; Stateless; -
# a constant
one: stream<int32 a, rstring s> F = Functor(S) {param filter: c; output F: a = 1;} => AtMostOne; Stateless; - 2
# a member of an attribute
wide: stream<int32 a, int32 x> F = Functor(W) {output F: x = t.x;} => One; Stateless; 0 -
# an attribute within a tuple
wide: stream<tuple<int32 x> t> F = Functor(W) {output F: t = {x = a};} => One; Stateless; -
# lists, maps and tuples
wide: stream<tuple<int32 x> u, map<rstring, int32> m, list<int32> l> F = Functor(W) {output F: u = t;} => One; Stateless; 4 3 2
# a key that is made anew
graph: stream<int64 k> T = FileSource() {param file: 't';} stream<int64 k> F = Functor(T) {output F: k = k + 1l;} => One; Stateless; -

# A Punctor passes its tuples, and adds markers.
one: stream<S> P = Punctor(S) {param punctuation: c; position: before;} => Many; Stateless; 0 1 2 3
one: stream<S> P = Punctor(S) {param punctuation: false; position: after;} => Many; Stateless; 0 1 2 3

# A Split gives a tuple on one port or none.
one: stream<S> A = Split(S) {param index: 0;} => AtMostOne; Stateless; 0 1 2 3
one: (stream<S> A; stream<S> B) = Split(S) {param index: a;} => AtMostOne; Stateless; 0 1 2 3

# A Union takes attributes by name, and those of its first port count.
one: stream<S> U = Union(S); => AtMostOne; Stateless; 0 1 2 3
one: stream<rstring s, int32 a> U = Union(S); => AtMostOne; Stateless; 2 0
one: stream<S> F = Filter(S); stream<int64 b> U = Union(S, F); => AtMostOne; Stateless; 1
two: stream<int64 b, int32 a> U = Union(L; R); => AtMostOne; Stateless; 1 0
two: stream<int64 b, int32 a> U = Union(R; L); => AtMostOne; Stateless; 1 2

# A window that tumbles gives tuples and a marker.
aggregate: S: tumbling, count(2); => Many; Whole; -
aggregate: S: tumbling, delta(b, 5l); => Many; Whole; -
aggregate: S: tumbling, punct(); => Many; Whole; -
aggregate: S: tumbling, count(1); param groupBy: a; => Many; Whole; -
aggregate: S: tumbling, count(2), partitioned; param partitionBy: a; => Many; Keyed 0; 0
aggregate: S: tumbling, delta(b, 5l), partitioned; param partitionBy: a; => Many; Keyed 0; 0
aggregate: S: tumbling, count(2), partitioned; param partitionBy: a; groupBy: s; => Many; Keyed 0; 0
# markers flush all partitions
aggregate: S: tumbling, punct(), partitioned; param partitionBy: a; => Many; Whole; 0

# A window that slides gives at each trigger.
aggregate: S: sliding, count(3), count(1); => One; Whole; -
aggregate: S: sliding, count(1), count(1ub); => One; Whole; -
aggregate: S: sliding, delta(b, 0l), count(1); => One; Whole; -
aggregate: S: sliding, count(3), count(2); => AtMostOne; Whole; -
aggregate: S: sliding, delta(b, 5l), count(10); => AtMostOne; Whole; -
# for each partition
aggregate: S: sliding, count(3), count(1), partitioned; param partitionBy: a; => One; Keyed 0; 0
aggregate: S: sliding, delta(b, 5l), count(2), partitioned; param partitionBy: a; => AtMostOne; Keyed 0; 0
# with groups
aggregate: S: sliding, count(3), count(1); param groupBy: c; => Many; Whole; -
aggregate: S: sliding, count(3), count(2); param groupBy: c; => Many; Whole; -
aggregate: S: sliding, delta(b, 5l), count(1), partitioned; param groupBy: c; partitionBy: s; => Many; Keyed 2; -

# An Aggregate copies attributes of its partitions.
# in the order of the text
one: stream<rstring s, int32 a> A = Aggregate(S) {window S: tumbling, count(2), partitioned; param partitionBy: s, a;} => Many; Keyed 2 0; 2 0
one: stream<rstring s, int32 a> A = Aggregate(S) {window S: tumbling, count(2), partitioned; param partitionBy: a, c, s;} => Many; Keyed 0 3 2; 2 0
# one that isn't of the partition
one: stream<int32 a, int64 b> A = Aggregate(S) {window S: tumbling, count(2), partitioned; param partitionBy: a;} => Many; Keyed 0; 0 -
# one of the groups
one: stream<int32 a, rstring s> A = Aggregate(S) {window S: tumbling, count(2), partitioned; param partitionBy: a; groupBy: s;} => Many; Keyed 0; 0 -
keyed: x = Any(a); => Many; Keyed 0; 0
keyed: x = First(a); => Many; Keyed 0; 0
keyed: x = Last(a); => Many; Keyed 0; 0
keyed: x = Any(S.a); => Many; Keyed 0; 0
keyed: x = Any((a)); => Many; Keyed 0; 0
keyed: x = Min(a); => Many; Keyed 0; -
keyed: x = Max(a); => Many; Keyed 0; -
keyed: x = Sum(a); => Many; Keyed 0; -
keyed: x = Count(); => Many; Keyed 0; -
keyed: x = Any(a + 0); => Many; Keyed 0; -
keyed: x = Last(-a); => Many; Keyed 0; -
keyed: x = First(5); => Many; Keyed 0; -
called: stream<int32 x> A = Aggregate(S) {window S: tumbling, count(2), partitioned; param partitionBy: a; output A: x = Any(f(a));} => Many; Keyed 0; -
one: stream<int64 x, int64 y> A = Aggregate(S) {window S: tumbling, count(2), partitioned; param partitionBy: a; output A: x = Any(b), y = Sum(b);} => Many; Keyed 0; - -
one: stream<int32 a, int64 b> A = Aggregate(S) {window S: tumbling, count(2), partitioned; param partitionBy: a, b; output A: b = Any(b), a = Min(a);} => Many; Keyed 0 1; - 1
graph: stream<int64 k> T = FileSource() {param file: 't';} stream<int64 k> F = Functor(T) {output F: k = k + 1l;} stream<int64 k, int32 n> A = Aggregate(F) {window F: tumbling, count(2), partitioned; param partitionBy: k; output A: k = Any(k), n = Count();} => Many; Keyed 0; 0 -

# A Custom keeps what may change.
custom: onTuple S: {submit({x = a}, C);} => AtMostOne; Stateless; 0
custom: state: int32 k = 1; onTuple S: {submit({x = a}, C);} => AtMostOne; Stateless; 0
custom: state: mutable int32 v = 1; onTuple S: {submit({x = a}, C);} => AtMostOne; Whole; 0
custom: state: {int32 k = 1; mutable int32 v = 0; rstring t = 'x';} onTuple S: {submit({x = a}, C);} => AtMostOne; Whole; 0
custom: state: {mutable int32 v = 0;} onTuple S: {v += 1; submit({x = v}, C);} => AtMostOne; Whole; -
custom: onTuple S: {mutable int32 y = a; y += 1; submit({x = y}, C);} => AtMostOne; Stateless; -
one: () as C = Custom(S); => AtMostOne; Stateless;
two: stream<int32 x> C = Custom(L; R) {logic onTuple L: {submit({x = 1}, C);}} => Many; Stateless; -
one: (stream<int32 x> C; stream<int32 y> D) = Custom(S) {logic onTuple S: {submit({x = a}, C); submit({y = 1}, D);}} => Many; Stateless; -

# How much a Custom submits on a tuple.
custom: onPunct S: {} => AtMostOne; Stateless; -
tuple: submit({x = a}, C); => One; Stateless; 0
tuple: if (c) {} => AtMostOne; Stateless; -
tuple: {submit({x = a}, C);} => One; Stateless; 0
tuple: submit({x = a}, C); submit({x = a}, C); => Many; Stateless; 0
tuple: if (c) submit({x = a}, C); => AtMostOne; Stateless; 0
tuple: if (c) submit({x = a}, C); else {} => AtMostOne; Stateless; 0
tuple: if (c) submit({x = a}, C); else submit({x = a}, C); => One; Stateless; 0
tuple: if (c) submit({x = a}, C); else if (a > 0) submit({x = a}, C); => AtMostOne; Stateless; 0
tuple: if (c) submit({x = a}, C); else if (a > 0) submit({x = a}, C); else submit({x = 0}, C); => One; Stateless; -
tuple: if (c) submit({x = a}, C); submit({x = a}, C); => Many; Stateless; 0
tuple: if (c) {submit({x = a}, C); submit({x = a}, C);} else submit({x = a}, C); => Many; Stateless; 0
tuple: if (true) submit({x = a}, C); => AtMostOne; Stateless; 0
tuple: while (c) submit({x = a}, C); => Many; Stateless; 0
tuple: while (c) break; submit({x = a}, C); => One; Stateless; 0
tuple: for (int32 i in [1]) submit({x = a}, C); => Many; Stateless; 0
tuple: for (int32 i in [1, 2]) submit({x = i}, C); => Many; Stateless; -
tuple: for (int32 i in [1]) {continue;} submit({x = a}, C); => One; Stateless; 0
tuple: if (c) return; submit({x = a}, C); => AtMostOne; Stateless; 0
tuple: submit({x = a}, C); return; => AtMostOne; Stateless; 0
tuple: submit(Sys.WindowMarker, C); => One; Stateless; -

# What a Custom's submits copy.
tuple: submit({x = (a)}, C); => One; Stateless; 0
tuple: submit({x = S.a}, C); => One; Stateless; 0
tuple: submit({x = a + 0}, C); => One; Stateless; -
tuple: submit({x = f(a)}, C); => One; Stateless; -
tuple: submit({x = k}, C); => One; Stateless; -
tuple: int32 y = a; submit({x = y}, C); => One; Stateless; -
tuple: if (c) submit({x = a}, C); else submit({x = 1}, C); => One; Stateless; -
whole: submit(S, C); => AtMostOne; Stateless; 0 1 2 3
whole: submit((S), C); => AtMostOne; Stateless; 0 1 2 3
whole: submit({c = c, s = s, b = b, a = a}, C); => AtMostOne; Stateless; 0 1 2 3
whole: submit({a = 1, b = b, s = s, c = c}, C); => AtMostOne; Stateless; - 1 2 3
whole: if (c) submit(S, C); else submit({a = a, b = 0l, s = s, c = true}, C); => AtMostOne; Stateless; 0 - 2 -
graph: stream<int64 p, int64 q> S = FileSource() {param file: 's';} stream<int64 x> C = Custom(S) {logic onTuple S: {if (p > q) submit({x = p}, C); else submit({x = q}, C);}} => AtMostOne; Stateless; -

# How much a Custom submits on a marker.
marker: if (currentPunct() == Sys.WindowMarker) submit(Sys.WindowMarker, C); => One; Stateless; 0
marker: if ((currentPunct() == Sys.WindowMarker)) submit(Sys.WindowMarker, C); => One; Stateless; 0
marker: if (currentPunct() == Sys.WindowMarker) submit(Sys.WindowMarker, C); else if (k > 0) {} => One; Stateless; 0
marker: if (k > 0) {} else if (currentPunct() == Sys.WindowMarker) submit(Sys.WindowMarker, C); => AtMostOne; Stateless; 0
marker: if (currentPunct() == Sys.WindowMarker) {if (currentPunct() == Sys.FinalMarker) {} submit(Sys.WindowMarker, C);} => One; Stateless; 0
marker: submit(Sys.WindowMarker, C); => Many; Stateless; 0
marker: if (currentPunct() == Sys.WindowMarker) {submit(Sys.WindowMarker, C); submit(Sys.WindowMarker, C);} => Many; Stateless; 0
marker: if (currentPunct() == Sys.WindowMarker) {} else submit(Sys.WindowMarker, C); => Many; Stateless; 0
marker: if (currentPunct() == Sys.WindowMarker && true) submit(Sys.WindowMarker, C); => Many; Stateless; 0
marker: if (currentPunct() != Sys.WindowMarker) {} else submit(Sys.WindowMarker, C); => Many; Stateless; 0
marker: if (currentPunct() == Sys.FinalMarker) {} else submit(Sys.WindowMarker, C); => Many; Stateless; 0
marker: if (currentPunct() == Sys.WindowMarker) if (k > 0) submit(Sys.WindowMarker, C); => AtMostOne; Stateless; 0
# a return that the marker rules out, and one that it doesn't
marker: if (currentPunct() == Sys.WindowMarker) submit(Sys.WindowMarker, C); else return; => One; Stateless; 0
marker: if (currentPunct() == Sys.WindowMarker) {submit(Sys.WindowMarker, C); return;} => AtMostOne; Stateless; 0
# a tuple on a marker
marker: if (currentPunct() == Sys.WindowMarker) submit({x = 1}, C); => One; Stateless; -
custom: onPunct S: {if (currentPunct() == Sys.WindowMarker) submit({x = 1}, C);} => AtMostOne; Stateless; -

# Prices
price: onTuple T: {if (price > 0l) submit({n = price}, C);} => AtMostOne; Stateless; 0
price: onTuple T: {if (price > 0l) submit({n = price}, C); else submit({n = 0l}, C);} onPunct T: {if (currentPunct() == Sys.WindowMarker) submit(Sys.WindowMarker, C);} => One; Stateless; -
"#;
