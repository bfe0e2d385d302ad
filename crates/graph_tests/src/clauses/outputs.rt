//! Outputs of Functors, Unions, Aggregates and Joins, and types of the other ones.

pub(crate) const ROWS: &str = r#"
# Each attribute of a functor has one value.
# assigned in any order
one: stream<int32 a, rstring s, int32 z> F = Functor(S) {output F: z = a * 2, s = 'x';} => ok 2 operators 2 streams
# assigned in two lists
one: stream<S> F = Functor(S) {output F: a = 1; F: b = 2l;} => ok 2 operators 2 streams
# no value
one: stream<int32 a, int32 z> F = Functor(S); => C4 at 105
# no value beside assignments
one: stream<int32 a, int32 y, int32 z> F = Functor(S) {output F: y = 1;} => C4 at 105
# another type in the input
one: stream<int64 a> F = Functor(S); => C4 at 105
# an unknown attribute
one: stream<S> F = Functor(S) {output F: a = 1, z = 1;} => C4 at 148
# an attribute of the input alone
one: stream<int32 a> F = Functor(S) {output F: b = 1l;} => C4 at 147
# assigned twice
one: stream<S> F = Functor(S) {output F: a = 1, b = 1l, a = 1;} => C4 at 156
# assigned twice in two lists
one: stream<S> F = Functor(S) {output F: a = 1; F: a = 1;} => C4 at 151
# an unknown stream
one: stream<S> F = Functor(S) {output G: a = 1;} => Y1 at 138 G
# the input
one: stream<S> F = Functor(S) {output F: a = 1; S: b = 1l;} => Y1 at 148 S
# the alias
one: stream<S> F as G = Functor(S) {output G: a = 1;} => Y1 at 143 G
# an unknown name
one: stream<S> F = Functor(S) {output F: a = 1 + x;} => Y1 at 149 x
# the output in its own value
one: stream<S> F = Functor(S) {output F: a = F.a;} => Y1 at 145 F
# an output function
one: stream<S> F = Functor(S) {output F: a = Sum(a);} => Y1 at 145 Sum
# a wider type
one: stream<S> F = Functor(S) {output F: a = b;} => Y2 at 145
# a number of a narrower type
one: stream<S> F = Functor(S) {output F: b = 1;} => Y2 at 145
# a sum of another type
one: stream<S> F = Functor(S) {output F: b = a + a;} => Y2 at 145
# a sum of two types
one: stream<S> F = Functor(S) {output F: b = b + a;} => Y2 at 149
# a branch of another type
one: stream<S> F = Functor(S) {output F: b = c ? b : a;} => Y2 at 153
# the whole tuple
one: stream<tuple<int32 a, int64 b, rstring s, boolean c> t> F = Functor(S) {output F: t = S;} => ok 2 operators 2 streams

# Some operators give what they take.
# the same attributes
one: stream<int32 a, int64 b, rstring s, boolean c> F = Filter(S); => ok 2 operators 2 streams
# a tuple type
one: stream<tuple<int32 a, int64 b, rstring s, boolean c>> F = Filter(S); => ok 2 operators 2 streams
# a Filter of some attributes
one: stream<int32 a> F = Filter(S); => Y2 at 112
# another order
one: stream<int64 b, int32 a, rstring s, boolean c> F = Filter(S); => Y2 at 112
# another name
one: stream<int32 A, int64 b, rstring s, boolean c> F = Filter(S); => Y2 at 112
# a Punctor with another type
one: stream<int64 a, int64 b, rstring s, boolean c> P = Punctor(S) {param punctuation: c; position: after;} => Y2 at 112
# the second output of a Split
one: (stream<S> A; stream<int32 a> B) = Split(S) {param index: a;} => Y2 at 126
# a Union of some attributes
one: stream<boolean c, int32 a> U = Union(S); => ok 2 operators 2 streams

# A value of an aggregate is one call of an output function.
collected: A: n = Count(); => ok 2 operators 2 streams
collected: A: n = Sum(a), a = Min(a * 2), b = Last(b); => ok 2 operators 2 streams
collected: A: n = Max(length(s)), b = First(b), a = Any(c ? a : 0); => ok 2 operators 2 streams
collected: A: n = a; => Y2 at 201
collected: A: n = 1; => Y2 at 201
collected: A: n = Count() + 1; => Y2 at 201
collected: A: b = (int64) Count(); => Y2 at 201
collected: A: n = abs(a); => Y2 at 201
collected: A: n = Average(a); => Y2 at 201
collected: A: n = Count(a); => Y4 at 201
collected: A: n = Sum(); => Y4 at 201
collected: A: n = Sum(a, a); => Y4 at 201
collected: A: n = Sum(s); => Y2 at 205
collected: A: n = Min(c); => Y2 at 205
collected: A: n = Max(S); => Y2 at 205
collected: A: n = Sum(x); => Y1 at 205 x
collected: A: b = Count(); => Y2 at 201
collected: A: n = Sum(b); => Y2 at 201
collected: A: b = Any(a); => Y2 at 201
collected: A: n = Count(), m = Count(); => C4 at 210
collected: A: n = Count(), n = Sum(a); => C4 at 210
collected: A: n = Count(); A: n = Count(); => C4 at 213
collected: S: n = Count(); => Y1 at 194 S

# Other attributes of an aggregate are those of the last tuple.
# with their types
one: stream<S> A = Aggregate(S) {window S: tumbling, count(2);} => ok 2 operators 2 streams
# an attribute that isn't there
one: stream<int32 n> A = Aggregate(S) {window S: tumbling, count(2);} => C4 at 105
# another type
one: stream<rstring a> A = Aggregate(S) {window S: tumbling, count(2);} => C4 at 105

# An attribute of a join is that of one port.
# of the left one and of the right one
two: stream<rstring s, boolean c> J = Join(L; R) {window L: sliding, count(1); R: sliding, count(1);} => ok 3 operators 3 streams
# an attribute of both
two: stream<int32 a> J = Join(L; R) {window L: sliding, count(1); R: sliding, count(1);} => C4 at 166
# an attribute of none
two: stream<int64 b, int32 z> J = Join(L; R) {window L: sliding, count(1); R: sliding, count(1);} => C4 at 166
# another type
two: stream<int32 b> J = Join(L; R) {window L: sliding, count(1); R: sliding, count(1);} => C4 at 166
# an attribute of both that is assigned
two: stream<int32 a> J = Join(L; R) {window L: sliding, count(1); R: sliding, count(1); output J: a = L.a + R.a;} => ok 3 operators 3 streams
# the ports as tuples
two: stream<tuple<int32 a, int64 d, boolean c> t> J = Join(L; R) {window L: sliding, count(1); R: sliding, count(1); output J: t = R;} => ok 3 operators 3 streams
# an attribute of both as a value
two: stream<int32 z> J = Join(L; R) {window L: sliding, count(1); R: sliding, count(1); output J: z = a;} => Y1 at 263 a
# an attribute of the other port
two: stream<int64 z> J = Join(L; R) {window L: sliding, count(1); R: sliding, count(1); output J: z = R.b;} => Y1 at 265 b
# ports of two types
two: stream<int64 b> J = Join(L; R) {window L: sliding, count(1); R: sliding, count(1); param match: L == R;} => Y2 at 267
# an unknown attribute
two: stream<int64 b> J = Join(L; R) {window L: sliding, count(1); R: sliding, count(1); output J: z = 1;} => C4 at 259
# an attribute twice
two: stream<int64 b> J = Join(L; R) {window L: sliding, count(1); R: sliding, count(1); output J: b = d, b = d;} => C4 at 266
# an unknown stream
two: stream<int64 b> J = Join(L; R) {window L: sliding, count(1); R: sliding, count(1); output L: b = d;} => Y1 at 256 L
# a value of another type
two: stream<int64 b> J = Join(L; R) {window L: sliding, count(1); R: sliding, count(1); output J: b = L.a;} => Y2 at 263

# Each input of a union has each attribute.
# one that all have
two: stream<int32 a> U = Union(L; R); => ok 3 operators 3 streams
# in another order
two: stream<rstring s, int32 a> U = Union(L); => ok 3 operators 3 streams
# one that the second hasn't
two: stream<int32 a, int64 b> U = Union(L; R); => C4 at 166
# one that the first hasn't
two: stream<boolean c> U = Union(L; R); => C4 at 166
# one of another type
two: stream<int64 a> U = Union(L; R); => C4 at 166
"#;
