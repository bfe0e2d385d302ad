//! What `run` does with several streams: at one port, at several ports, and with Union and Join. An operator takes all of its first input,
//! then all of the next.

pub(crate) const SEVERAL: &str = r#"
# Several streams at a port.
# at a Filter
@source stream<int64 price> B = Filter(T) {param filter: price > 10l;} stream<int64 price> C = Filter(T, B); () as Out = FileSink(C) {param file: "o.csv";} | t.csv: 5␊11␊ => 0; o.csv 5␊11␊11␊; counts 3:3; record 2 0 0 0 0 1 1 1
# at a sink
@source stream<int64 price> B = Filter(T) {param filter: price > 10l;} () as Out = FileSink(T, B) {param file: "o.csv";} | t.csv: 5␊11␊ => 0; o.csv 5␊11␊11␊; counts 2:3; record 2 0 0 0 0 1 1 1
# a stream twice
@source () as Out = FileSink(T, T) {param file: "o.csv";} | t.csv: 1␊2␊ => 0; o.csv 1␊2␊1␊2␊; counts 1:4; record 1 0 0 0 0 1 1 1 1
# at two operators
@two stream<int64 n> F = Functor(T, S) {output F: n = n * 2l;} () as X = FileSink(S, F) {param file: "x.csv";} | s.csv: 1␊ | t.csv: 2␊3␊ => 0; x.csv 1␊4␊6␊2␊; counts 3:4; record 2 0 0 0 0 1 1 1; record 3 0 0 0 1 1 1 1 1 1
# those of a composite's input
composite C(output O; input I) {graph stream<I> O = Filter(I);} composite Main {graph stream<int64 n> S = FileSource() {param file: "s.csv";} stream<int64 n> T = FileSource() {param file: "t.csv";} stream<int64 n> A = C(S, T); () as Out = FileSink(A) {param file: "o.csv";}} | s.csv: 1␊ | t.csv: 2␊3␊ => 0; o.csv 1␊2␊3␊; counts 3:3; record 2 0 0 0 1 1 1 1
# a fault of the first one, behind which the other isn't taken
@two () as Out = FileSink(S, T) {param file: "o.csv";} | s.csv: 1␊x␊ | t.csv: 2␊ => 3 stopped S BadRow line 2␊; o.csv 1␊; counts 2:1; record 2 0 0
# a fault of the second one
@two () as Out = FileSink(S, T) {param file: "o.csv";} | s.csv: 1␊ | t.csv: 2␊x␊ => 3 stopped T BadRow line 2␊; o.csv 1␊2␊; counts 2:2; record 2 0 0 0 1 1
# a fault of the operator
@two stream<int64 n> B = Filter(S, T) {param filter: 10l / n > 1l;} () as Out = FileSink(B) {param file: "o.csv";} | s.csv: 1␊0␊ | t.csv: 2␊ => 3 stopped B DivZero␊; o.csv 1␊; counts 3:1; record 2 0 0
# a port that ends with the last of them
@two stream<int64 n> B = Custom(S, T as P) {logic state: mutable int64 seen = 0l; onTuple P: {seen += n;} onPunct P: {if (currentPunct() == Sys.FinalMarker) submit({n = seen}, B); else submit({n = -1l}, B);}} () as Out = FileSink(B) {param file: "o.csv";} | s.csv: 1␊ | t.csv: 2␊3␊ => 0; o.csv -1␊-1␊6␊; counts 3:3; record 2 0 0 0 1 1 1 1
# a sink that can't be written
@two () as Out = FileSink(S, T) {param file: "o.csv";} | s.csv: 1␊ | t.csv: 2␊ | fail write 2 o.csv => 6 cannot write o.csv␊; o.csv 1␊; record 2 0 0 0 1 1 1

# Several ports.
# each with its logic and its end
@two stream<rstring from, int64 n> B = Custom(S; T) {logic onTuple S: {submit({from = "S", n = n}, B);} onTuple T: {submit({from = "T", n = T.n}, B);} onPunct S: {if (currentPunct() == Sys.FinalMarker) submit({from = "S ends", n = 0l}, B);} onPunct T: {if (currentPunct() == Sys.WindowMarker) submit({from = "window of T", n = 0l}, B); else submit({from = "T ends", n = 0l}, B);}} () as Out = FileSink(B) {param file: "o.csv";} | s.csv: 1␊ | t.csv: 2␊ => 0; o.csv S,1␊S ends,0␊T,2␊window of T,0␊T ends,0␊; counts 3:5; record 2 0 0 0 1 1 1
# a state of both
@two () as C = Custom(S; T) {logic state: {mutable int64 sum = 0l; mutable list<int64> all = [];} onTuple S: {sum += n;} onTuple T: {appendM(all, n / (sum - 3l));}} | s.csv: 1␊2␊ | t.csv: 9␊ => 3 stopped C DivZero␊; record 2 0 0 0 0 1
"#;

/// Those of Union and Join.
pub(crate) const JOINED: &str = r#"
# A Union gives the tuples of all its inputs.
composite Main {graph stream<int64 n> A = FileSource() {param file: "a.csv";} stream<int64 n> B = FileSource() {param file: "b.csv";} stream<int64 n> U = Union(A; B); () as Out = FileSink(U) {param file: "o.csv";}} | a.csv: 1␊2␊ | b.csv: 3␊ => 0; o.csv 1␊2␊3␊; counts 3:3; record 2 0 0 0 0 1 1 1
# of one stream
@op int64 n → stream<int64 n> B = Union(T); | t.csv: 3␊1␊ => 0; o.csv 3␊1␊; counts 2:2
# attributes by their names
composite Main {graph stream<int64 n, rstring s> A = FileSource() {param file: "a.csv";} stream<boolean b, rstring s, int64 n> B = FileSource() {param file: "b.csv";} stream<rstring s, int64 n> U = Union(A; B); () as Out = FileSink(U) {param file: "o.csv";}} | a.csv: 1,x␊ | b.csv: true,"y,z",2␊ => 0; o.csv x,1␊"y,z",2␊; counts 3:2; record 2 0 0 0 1 1 1
# two streams at one of its ports
@two stream<int64 n> U = Union(S, T; S); () as Out = FileSink(U) {param file: "o.csv";} | s.csv: 1␊ | t.csv: 2␊ => 0; o.csv 1␊2␊1␊; counts 3:3; record 2 0 0 0 1 1 1 2 2 2
# it passes no window marker
@two stream<int64 n> U = Union(S; T); stream<int64 n> B = Custom(U) {logic onTuple U: {submit(U, B);} onPunct U: {if (currentPunct() == Sys.WindowMarker) submit({n = 0l}, B); else submit({n = -1l}, B);}} () as Out = FileSink(B) {param file: "o.csv";} | s.csv: 1␊ | t.csv: 2␊ => 0; o.csv 1␊2␊-1␊; counts 4:3; record 2 0 0 0 1 1 1
# a fault of the first input
@two stream<int64 n> U = Union(S; T); () as Out = FileSink(U) {param file: "o.csv";} | s.csv: 1␊x␊ | t.csv: 2␊ => 3 stopped S BadRow line 2␊; o.csv 1␊; counts 3:1; record 2 0 0
# a fault of the second one
@two stream<int64 n> U = Union(S; T); () as Out = FileSink(U) {param file: "o.csv";} | s.csv: 1␊ | t.csv: 2␊x␊ => 3 stopped T BadRow line 2␊; o.csv 1␊2␊; counts 3:2; record 2 0 0 0 1 1
# no tuples
@two stream<int64 n> U = Union(S; T); () as Out = FileSink(U) {param file: "o.csv";} | s.csv: ∅ | t.csv: ∅ => 0; o.csv ∅; counts 3:0; record 2 0 0 1 1
# sixteen inputs, of which every second one has no tuples
@two stream<int64 n> U = Union(S; T; S; T; S; T; S; T; S; T; S; T; S; T; S; T); () as Out = FileSink(U) {param file: "o.csv";} | s.csv: 1␊ | t.csv: ∅ => 0; o.csv 1␊1␊1␊1␊1␊1␊1␊1␊; counts 3:8; record 2 0 0 0 1 1 2 2 2 3 3 4 4 4 5 5 6 6 6 7 7 8 8 8 9 9 10 10 10 11 11 12 12 12 13 13 14 14 14 15 15
# the ports of a Split, in another order
@source (stream<T> L; stream<T> R) = Split(T) {param index: price;} stream<T> U = Union(R; L); () as Out = FileSink(U) {param file: "o.csv";} | t.csv: 1␊2␊3␊ => 0; o.csv 1␊3␊2␊; counts 3:3; record 2 0 0 0 0 1 1 1
# lists, in tuples with their attributes in two orders
@two stream<list<int64> l, int64 n> F = Functor(S) {output F: l = [n];} stream<int64 n, list<int64> l> G = Functor(T) {output G: l = [n, n];} stream<list<int64> l> U = Union(F; G); stream<int32 k, int64 n> B = Functor(U) {output B: k = size(l), n = l[0];} () as Out = FileSink(B) {param file: "o.csv";} | s.csv: 1␊ | t.csv: 2␊ => 0; o.csv 1,1␊2,2␊; counts 6:2; record 4 0 0 0 1 1 1
# a window behind it, which no marker flushes
@two stream<int64 n> U = Union(S; T); stream<int64 n> B = Aggregate(U) {window U: tumbling, punct(); output B: n = Sum(n);} () as Out = FileSink(B) {param file: "o.csv";} | s.csv: 1␊ | t.csv: 2␊ => 0; o.csv ∅; counts 4:0; record 2 0 0 0 1 1 1

# A Join gives a tuple for each match with the other side's window.
# the side that came first keeps none
@join window L: sliding, count(0); R: sliding, count(2); param match: L.k == R.k; output J: k = L.k; | l.csv: a␊ | r.csv: a,1␊a,1␊b,5␊ => 0; o.csv ∅; counts 3:0; record 2 0 0 0 1 1 1 1 1
# it keeps one
@join window L: sliding, count(1); R: sliding, count(2); param match: L.k == R.k; output J: k = L.k; | l.csv: b␊a␊ | r.csv: a,1␊a,2␊b,5␊ => 0; o.csv a,1␊a,2␊; counts 3:2; record 2 0 0 0 0 1 1 1 1 1
# every pair, the oldest first
@join window L: sliding, count(2); R: sliding, count(0); output J: k = L.k + R.k; | l.csv: a␊b␊c␊ | r.csv: x,1␊y,2␊ => 0; o.csv bx,1␊cx,1␊by,2␊cy,2␊; counts 3:4; record 2 0 0 0 0 0 1 1 1 1
# a stream with itself
@op int64 n → stream<int64 n> B = Join(T; T as U) {window T: sliding, count(1); U: sliding, count(1); output B: n = T.n * 10l + U.n;} | t.csv: 4␊7␊ => 0; o.csv 74␊77␊; counts 2:2; record 1 0 0 0 0 1 1 1 1
# a window of differences
@two stream<int64 a, int64 b> J = Join(S; T) {window S: sliding, delta(n, 5l); T: sliding, count(1); output J: a = S.n, b = T.n;} () as Out = FileSink(J) {param file: "o.csv";} | s.csv: 0␊5␊6␊ | t.csv: 9␊ => 0; o.csv 5,9␊6,9␊; counts 3:2; record 2 0 0 0 0 0 1 1 1
# differences that don't wrap
@two stream<int64 a, int64 b> J = Join(S; T) {window S: sliding, delta(n, 5l); T: sliding, count(1); output J: a = S.n, b = T.n;} () as Out = FileSink(J) {param file: "o.csv";} | s.csv: -9223372036854775808␊9223372036854775807␊-9223372036854775808␊ | t.csv: 1␊ => 0; o.csv 9223372036854775807,1␊-9223372036854775808,1␊; counts 3:2; record 2 0 0 0 0 0 1 1 1
# it passes no window marker
@two stream<int64 n> J = Join(S; T) {window S: sliding, count(1); T: sliding, count(1); output J: n = S.n + T.n;} stream<int64 n> B = Custom(J) {logic onTuple J: {submit(J, B);} onPunct J: {if (currentPunct() == Sys.WindowMarker) submit({n = 0l}, B); else submit({n = -1l}, B);}} () as Out = FileSink(B) {param file: "o.csv";} | s.csv: 1␊ | t.csv: 2␊ => 0; o.csv 3␊-1␊; counts 4:2; record 2 0 0 0 1 1 1
# a fault of a later pair drops what the event gave
@two stream<int64 n> J = Join(S; T) {window S: sliding, count(3); T: sliding, count(1); param match: 12l / S.n > T.n; output J: n = S.n;} () as Out = FileSink(J) {param file: "o.csv";} | s.csv: 3␊4␊0␊ | t.csv: 1␊ => 3 stopped J DivZero␊; o.csv ∅; counts 3:0; record 2 0 0 0 0 0 1
# the first pair's fault, in its assignments, before that of the next one's condition
@two stream<int64 n> J = Join(S; T) {window S: sliding, count(2); T: sliding, count(1); param match: 12l / S.n > T.n; output J: n = [1l][S.n];} () as Out = FileSink(J) {param file: "o.csv";} | s.csv: 3␊0␊ | t.csv: 1␊ => 3 stopped J Index␊; o.csv ∅; counts 3:0; record 2 0 0 0 0 1
# a fault of the second pair's condition, which drops the first pair's tuple
@two stream<int64 n> J = Join(S; T) {window S: sliding, count(2); T: sliding, count(1); param match: 12l / S.n > T.n; output J: n = S.n;} () as Out = FileSink(J) {param file: "o.csv";} | s.csv: 3␊0␊ | t.csv: 1␊ => 3 stopped J DivZero␊; o.csv ∅; counts 3:0; record 2 0 0 0 0 1

# A Join keeps what its windows say.
# windows of no tuple, on both sides
@join window L: sliding, count(0); R: sliding, count(0); output J: k = L.k; | l.csv: a␊ | r.csv: a,1␊ => 0; o.csv ∅; counts 3:0; record 2 0 0 0 1 1 1
# where no tuple comes on the first side, and on the second
@join window L: sliding, count(1); R: sliding, count(1); output J: k = L.k; | l.csv: ∅ | r.csv: a,1␊ => 0; o.csv ∅; counts 3:0; record 2 0 0 1 1 1
@join window L: sliding, count(1); R: sliding, count(1); output J: k = L.k; | l.csv: a␊ | r.csv: ∅ => 0; o.csv ∅; counts 3:0; record 2 0 0 0 1 1
# differences of an attribute that falls
@two stream<int64 a, int64 b> J = Join(S; T) {window S: sliding, delta(n, 5l); T: sliding, count(1); output J: a = S.n, b = T.n;} () as Out = FileSink(J) {param file: "o.csv";} | s.csv: 10␊3␊14␊9␊ | t.csv: 1␊ => 0; o.csv 10,1␊14,1␊9,1␊; counts 3:3; record 2 0 0 0 0 0 0 1 1 1
# differences of 0
@two stream<int64 a, int64 b> J = Join(S; T) {window S: sliding, delta(n, 0l); T: sliding, count(1); output J: a = S.n, b = T.n;} () as Out = FileSink(J) {param file: "o.csv";} | s.csv: 5␊5␊6␊4␊ | t.csv: 1␊ => 0; o.csv 6,1␊4,1␊; counts 3:2; record 2 0 0 0 0 0 0 1 1 1
# differences at the bounds of a type without a sign
composite Main {graph stream<uint64 n> S = FileSource() {param file: "s.csv";} stream<uint64 n> T = FileSource() {param file: "t.csv";} stream<uint64 a, uint64 b> J = Join(S; T) {window S: sliding, delta(n, 18446744073709551614ul); T: sliding, count(1); output J: a = S.n, b = T.n;} () as Out = FileSink(J) {param file: "o.csv";}} | s.csv: 0␊1␊18446744073709551615␊ | t.csv: 7␊ => 0; o.csv 1,7␊18446744073709551615,7␊; counts 3:2; record 2 0 0 0 0 0 1 1 1

# Its expressions see both ports.
# an attribute that one of them has, without the port's name
@join window L: sliding, count(2); R: sliding, count(0); param match: v > 1l && L.k != R.k; output J: k = L.k + R.k, v = v * 10l; | l.csv: a␊b␊ | r.csv: a,1␊a,2␊ => 0; o.csv ba,20␊; counts 3:1; record 2 0 0 0 0 1 1 1 1
# ports with other names
@two stream<int64 n> J = Join(S as A; T as B) {window A: sliding, count(3); B: sliding, count(1); param match: A.n < B.n; output J: n = A.n * 100l + B.n;} () as Out = FileSink(J) {param file: "o.csv";} | s.csv: 1␊2␊3␊ | t.csv: 2␊3␊ => 0; o.csv 102␊103␊203␊; counts 3:3; record 2 0 0 0 0 0 1 1 1 1
# two streams at the first port, and one of them at the second port too
@two stream<int64 n> J = Join(S, T as P; S as Q) {window P: sliding, count(10); Q: sliding, count(10); param match: P.n == Q.n; output J: n = P.n * 10l + Q.n;} () as Out = FileSink(J) {param file: "o.csv";} | s.csv: 1␊2␊ | t.csv: 2␊ => 0; o.csv 11␊22␊22␊; counts 3:3; record 2 0 0 0 0 1 1 1 2 2 2 2
# a whole tuple and a list
@two stream<tuple<int64 n> t, list<int64> l> J = Join(S; T) {window S: sliding, count(1); T: sliding, count(1); output J: t = S, l = [S.n, T.n];} stream<int64 n> B = Functor(J) {output B: n = t.n * 100l + l[0] * 10l + l[1];} () as Out = FileSink(B) {param file: "o.csv";} | s.csv: 3␊ | t.csv: 4␊ => 0; o.csv 334␊; counts 4:1; record 2 0 0 0 1 1 1

# A fault that comes to a Join ends it.
# from the first side, behind which the other isn't taken
@two stream<int64 n> J = Join(S; T) {window S: sliding, count(1); T: sliding, count(1); output J: n = S.n + T.n;} () as Out = FileSink(J) {param file: "o.csv";} | s.csv: 1␊x␊ | t.csv: 2␊ => 3 stopped S BadRow line 2␊; o.csv ∅; counts 3:0; record 2 0 0
# from the second side
@two stream<int64 n> J = Join(S; T) {window S: sliding, count(1); T: sliding, count(1); output J: n = S.n + T.n;} () as Out = FileSink(J) {param file: "o.csv";} | s.csv: 1␊ | t.csv: 2␊x␊ => 3 stopped T BadRow line 2␊; o.csv 3␊; counts 3:1; record 2 0 0 0 1 1
"#;
