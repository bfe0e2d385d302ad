//! What `run` does with Split, Punctor and Functor.

pub(crate) const SINGLE: &str = r#"
# A Split drops a tuple whose index is negative, and else takes the index modulo the number of its ports.
# always -1
@source (stream<T> L; stream<T> R) = Split(T) {param index: -1;} () as X = FileSink(L) {param file: "x.csv";} () as Y = FileSink(R) {param file: "y.csv";} | t.csv: 1␊2␊ => 0; x.csv ∅; y.csv ∅; counts 2:0 3:0
# always 5, of two ports
@source (stream<T> L; stream<T> R) = Split(T) {param index: 5;} () as X = FileSink(L) {param file: "x.csv";} () as Y = FileSink(R) {param file: "y.csv";} | t.csv: 1␊2␊ => 0; x.csv ∅; y.csv 1␊2␊; counts 2:0 3:2
# far below 0
@source (stream<T> L; stream<T> R) = Split(T) {param index: price;} () as X = FileSink(L) {param file: "x.csv";} () as Y = FileSink(R) {param file: "y.csv";} | t.csv: -9223372036854775808␊-9223372036854775807␊-4294967296␊-2147483649␊-6␊4␊ => 0; x.csv 4␊; y.csv ∅; counts 2:1 3:0
# each integer type, at its bounds, of three ports
@op int8 n → (stream<T> L; stream<T> B; stream<T> R) as S = Split(T) {param index: n;} () as X = FileSink(L) {param file: "x.csv";} () as Y = FileSink(R) {param file: "y.csv";} | t.csv: -128␊-1␊0␊125␊126␊127␊ => 0; o.csv 127␊; x.csv 0␊126␊; y.csv 125␊; counts 2:2 3:1 4:1
@op int16 n → (stream<T> L; stream<T> B; stream<T> R) as S = Split(T) {param index: n;} () as X = FileSink(L) {param file: "x.csv";} () as Y = FileSink(R) {param file: "y.csv";} | t.csv: -32768␊-1␊0␊32765␊32766␊32767␊ => 0; o.csv 32767␊; x.csv 0␊32766␊; y.csv 32765␊; counts 2:2 3:1 4:1
@op int32 n → (stream<T> L; stream<T> B; stream<T> R) as S = Split(T) {param index: n;} () as X = FileSink(L) {param file: "x.csv";} () as Y = FileSink(R) {param file: "y.csv";} | t.csv: -2147483648␊-1␊0␊2147483645␊2147483646␊2147483647␊ => 0; o.csv 2147483647␊; x.csv 0␊2147483646␊; y.csv 2147483645␊; counts 2:2 3:1 4:1
@op int64 n → (stream<T> L; stream<T> B; stream<T> R) as S = Split(T) {param index: n;} () as X = FileSink(L) {param file: "x.csv";} () as Y = FileSink(R) {param file: "y.csv";} | t.csv: -9223372036854775808␊-1␊0␊9223372036854775805␊9223372036854775806␊9223372036854775807␊ => 0; o.csv 9223372036854775807␊; x.csv 0␊9223372036854775806␊; y.csv 9223372036854775805␊; counts 2:2 3:1 4:1
@op uint8 n → (stream<T> L; stream<T> B; stream<T> R) as S = Split(T) {param index: n;} () as X = FileSink(L) {param file: "x.csv";} () as Y = FileSink(R) {param file: "y.csv";} | t.csv: 0␊253␊254␊255␊ => 0; o.csv 253␊; x.csv 0␊255␊; y.csv 254␊; counts 2:2 3:1 4:1
@op uint16 n → (stream<T> L; stream<T> B; stream<T> R) as S = Split(T) {param index: n;} () as X = FileSink(L) {param file: "x.csv";} () as Y = FileSink(R) {param file: "y.csv";} | t.csv: 0␊65533␊65534␊65535␊ => 0; o.csv 65533␊; x.csv 0␊65535␊; y.csv 65534␊; counts 2:2 3:1 4:1
@op uint32 n → (stream<T> L; stream<T> B; stream<T> R) as S = Split(T) {param index: n;} () as X = FileSink(L) {param file: "x.csv";} () as Y = FileSink(R) {param file: "y.csv";} | t.csv: 0␊4294967293␊4294967294␊4294967295␊ => 0; o.csv 4294967293␊; x.csv 0␊4294967295␊; y.csv 4294967294␊; counts 2:2 3:1 4:1
@op uint64 n → (stream<T> L; stream<T> B; stream<T> R) as S = Split(T) {param index: n;} () as X = FileSink(L) {param file: "x.csv";} () as Y = FileSink(R) {param file: "y.csv";} | t.csv: 0␊18446744073709551613␊18446744073709551614␊18446744073709551615␊ => 0; o.csv 18446744073709551613␊; x.csv 0␊18446744073709551615␊; y.csv 18446744073709551614␊; counts 2:2 3:1 4:1
# sixteen ports, of which most aren't read
@op int32 n → (stream<T> P0; stream<T> P1; stream<T> P2; stream<T> P3; stream<T> P4; stream<T> P5; stream<T> P6; stream<T> P7; stream<T> P8; stream<T> P9; stream<T> P10; stream<T> P11; stream<T> P12; stream<T> P13; stream<T> P14; stream<T> B) as S = Split(T) {param index: n;} () as X = FileSink(P0) {param file: "x.csv";} | t.csv: 0␊15␊16␊31␊14␊-16␊2147483647␊ => 0; o.csv 15␊31␊2147483647␊; x.csv 0␊16␊; counts 2:2 3:3
# a function
int32 side(int64 n) {if (n < 0l) return -1; return n % 2l == 0l ? 0 : 1;} composite Main {graph stream<int64 n> T = FileSource() {param file: "t.csv";} (stream<T> L; stream<T> R) = Split(T) {param index: side(n);} () as X = FileSink(L) {param file: "x.csv";} () as Y = FileSink(R) {param file: "y.csv";}} | t.csv: -3␊2␊3␊-2␊ => 0; x.csv 2␊; y.csv 3␊; counts 2:1 3:1
# window markers on a port without tuples: 0 where one comes, and -1 at the end
@op int64 n → (stream<T> L; stream<T> R) as S = Split(T) {param index: 0;} stream<T> B = Custom(R) {logic onTuple R: {submit(R, B);} onPunct R: {if (currentPunct() == Sys.WindowMarker) submit({n = 0l}, B); else submit({n = -1l}, B);}} | t.csv: 5␊6␊ => 0; o.csv 0␊-1␊; counts 3:2

# A Punctor adds window markers, with which a tumbling Aggregate behind it gives its sums.
# before the tuples
@op int64 n → stream<T> P = Punctor(T) {param punctuation: n > 10l; position: before;} stream<int64 s> B = Aggregate(P) {window P: tumbling, punct(); output B: s = Sum(n);} | t.csv: 1␊2␊11␊3␊12␊4␊ => 0; o.csv 3␊14␊16␊; counts 3:3
# behind them
@op int64 n → stream<T> P = Punctor(T) {param punctuation: n > 10l; position: after;} stream<int64 s> B = Aggregate(P) {window P: tumbling, punct(); output B: s = Sum(n);} | t.csv: 1␊2␊11␊3␊12␊4␊ => 0; o.csv 14␊15␊4␊; counts 3:3
# before the first tuple, where the window is empty; a marker follows each window that isn't
@op int64 n → stream<T> P = Punctor(T) {param punctuation: n > 10l; position: before;} stream<T> A = Aggregate(P) {window P: tumbling, punct(); output A: n = Sum(n);} stream<T> B = Custom(A) {logic onTuple A: {submit(A, B);} onPunct A: {if (currentPunct() == Sys.WindowMarker) submit({n = 0l}, B); else submit({n = -1l}, B);}} | t.csv: 11␊12␊ => 0; o.csv 11␊0␊12␊0␊-1␊; counts 4:5
# behind the last one, so that the source's marker finds an empty window
@op int64 n → stream<T> P = Punctor(T) {param punctuation: n > 10l; position: after;} stream<T> A = Aggregate(P) {window P: tumbling, punct(); output A: n = Sum(n);} stream<T> B = Custom(A) {logic onTuple A: {submit(A, B);} onPunct A: {if (currentPunct() == Sys.WindowMarker) submit({n = 0l}, B); else submit({n = -1l}, B);}} | t.csv: 11␊12␊ => 0; o.csv 11␊0␊12␊0␊-1␊; counts 4:5
# a sliding one passes them where they stand
@op int64 n → stream<T> P = Punctor(T) {param punctuation: n > 10l; position: after;} stream<T> A = Aggregate(P) {window P: sliding, count(2), count(1); output A: n = Sum(n);} stream<T> B = Custom(A) {logic onTuple A: {submit(A, B);} onPunct A: {if (currentPunct() == Sys.WindowMarker) submit({n = 0l}, B); else submit({n = -1l}, B);}} | t.csv: 1␊11␊2␊ => 0; o.csv 1␊12␊0␊13␊0␊-1␊; counts 4:6

# A Custom behind a Punctor submits where a window marker comes.
# how many tuples came since the last one, where it stands before a tuple
@op int64 n → stream<T> P = Punctor(T) {param punctuation: n > 10l; position: before;} stream<int32 tuples, boolean marker> B = Custom(P) {logic state: mutable int32 tuples = 0; onTuple P: {tuples += 1;} onPunct P: {submit({tuples = tuples, marker = currentPunct() == Sys.WindowMarker}, B); tuples = 0;}} | t.csv: 1␊11␊2␊12␊ => 0; o.csv 1,true␊2,true␊1,true␊0,false␊; counts 3:4
# and behind one
@op int64 n → stream<T> P = Punctor(T) {param punctuation: n > 10l; position: after;} stream<int32 tuples, boolean marker> B = Custom(P) {logic state: mutable int32 tuples = 0; onTuple P: {tuples += 1;} onPunct P: {submit({tuples = tuples, marker = currentPunct() == Sys.WindowMarker}, B); tuples = 0;}} | t.csv: 1␊11␊2␊12␊ => 0; o.csv 2,true␊2,true␊0,true␊0,false␊; counts 3:4
# one before each tuple
@op int64 n → stream<T> P = Punctor(T) {param punctuation: true; position: before;} stream<T> B = Custom(P) {logic onTuple P: {submit(P, B);} onPunct P: {if (currentPunct() == Sys.WindowMarker) submit({n = 0l}, B); else submit({n = -1l}, B);}} | t.csv: 5␊6␊ => 0; o.csv 0␊5␊0␊6␊0␊-1␊; counts 3:6
# two Punctors, the second of which passes what the first adds
@op int64 n → stream<T> P = Punctor(T) {param punctuation: n == 7l; position: before;} stream<T> Q = Punctor(P) {param punctuation: n == 7l; position: after;} stream<T> B = Custom(Q) {logic onTuple Q: {submit(Q, B);} onPunct Q: {if (currentPunct() == Sys.WindowMarker) submit({n = 0l}, B); else submit({n = -1l}, B);}} | t.csv: 7␊8␊ => 0; o.csv 0␊7␊0␊8␊0␊-1␊; counts 4:6

# A Functor gives each attribute the value of its assignment, or else of the input's attribute.
# each assigned
@op int64 n → stream<int64 a, boolean b, rstring c> B = Functor(T) {output B: a = n + 1l, b = n > 1l, c = (rstring) n + "!";} | t.csv: 1␊2␊ => 0; o.csv 2,false,1!␊3,true,2!␊; counts 2:2
# one that isn't assigned, between others whose assignments have the input's values
@op int64 a, int64 b, int64 c → stream<int64 a, int64 b, int64 c> B = Functor(T) {output B: a = b, c = a;} | t.csv: 1,2,3␊ => 0; o.csv 2,2,1␊; counts 2:1
# a text that is used twice, and then once more where it isn't assigned
@op rstring s → stream<rstring a, rstring s, rstring b> B = Functor(T) {output B: b = s + s, a = s;} | t.csv: xy␊ => 0; o.csv xy,xy,xyxy␊; counts 2:1
# the whole tuple, and attributes behind the port's name
@op int64 a, rstring s → stream<tuple<int64 a, rstring s> t, int64 b> F = Functor(T as In) {output F: t = In, b = In.a;} stream<rstring s, int64 sum> B = Functor(F) {output B: s = t.s + F.t.s, sum = t.a + b;} | t.csv: 2,x␊ => 0; o.csv xx,4␊; counts 3:1
# a parameter of a composite
composite Scaled(output O; input I) {param expression<int64> $by : 10l; graph stream<int64 n> O = Functor(I) {output O: n = n * $by;}} composite Main {graph stream<int64 n> T = FileSource() {param file: "t.csv";} stream<int64 n> A = Scaled(T) {param by: -1l;} stream<int64 n> B = Scaled(A); () as Out = FileSink(B) {param file: "o.csv";}} | t.csv: 3␊ => 0; o.csv -30␊; counts 3:1
# calls of functions within one another
int64 twice(int64 n) {return n * 2l;} rstring sign(int64 n) {if (n < 0l) return "-"; else if (n == 0l) return "0"; else return "+";} composite Main {graph stream<int64 n> T = FileSource() {param file: "t.csv";} stream<int64 a, rstring s, int64 n> B = Functor(T) {output B: s = sign(twice(n) - 4l), a = twice(twice(n));} () as Out = FileSink(B) {param file: "o.csv";}} | t.csv: 1␊2␊3␊ => 0; o.csv 4,-,1␊8,0,2␊12,+,3␊; counts 2:3

# Between two Functors an attribute may be a list, a map or a tuple.
# a list
@op int64 n → stream<list<int64> l, int64 n> F = Functor(T) {output F: l = [n, n * 2l, -n];} stream<int64 sum, int32 number, boolean found> B = Functor(F) {output B: sum = l[0] + l[1], number = size(l), found = 6l in l;} | t.csv: 3␊4␊ => 0; o.csv 9,3,true␊12,3,false␊; counts 3:2
# a list that is passed on twice, and read
@op int64 n → stream<list<int64> l> F = Functor(T) {output F: l = [n, n];} stream<list<int64> l, list<int64> m, int32 k> G = Functor(F) {output G: k = size(l), m = l;} stream<int64 s, int32 k> B = Functor(G) {output B: s = l[0] + m[1];} | t.csv: 3␊ => 0; o.csv 6,2␊; counts 4:1
# a map, in which the later of two pairs counts
@op rstring k, int64 v → stream<map<rstring, int64> m> F = Functor(T) {output F: m = {k : v, "b" : v * 10l, k : v + 1l};} stream<int32 number, int64 b> B = Functor(F) {output B: number = size(m), b = m["b"];} | t.csv: a,1␊b,5␊ => 0; o.csv 2,10␊1,6␊; counts 3:2
# a tuple, whose fields stand in another order
@op int64 n → stream<tuple<int64 x, list<rstring> ys> t> F = Functor(T) {output F: t = {ys = ["a", (rstring) n], x = n};} stream<int64 x, rstring y> B = Functor(F) {output B: y = t.ys[1] + t.ys[0], x = t.x;} | t.csv: 7␊ => 0; o.csv 7,7a␊; counts 3:1
# maps in a list, with tuples in them
@op int64 n → stream<list<map<int64, tuple<rstring s>>> l, int64 n> F = Functor(T) {output F: l = [{n : {s = "x"}, 0l : {s = "y"}}, {}];} stream<rstring s, int32 k, boolean e> B = Functor(F) {output B: s = l[0][n].s + l[0][0l].s, k = size(l[1]), e = n in l[1];} | t.csv: 5␊0␊ => 0; o.csv xy,0,false␊yy,0,false␊; counts 3:2

# What isn't needed faults nowhere.
# a branch that faults where it is taken
@op int32 a → stream<int32 b> B = Functor(T) {output B: b = a < 5 ? [1, 2][a] : 100 / (a - 9);} | t.csv: 1␊9␊3␊ => 3 stopped B DivZero␊; o.csv 2␊; counts 2:1
# a filter whose fault comes before that of the output; where it is false there is none
@op int64 n → stream<int64 b> B = Functor(T) {param filter: 10l / n > 0l; output B: b = [7l][n - 1l];} | t.csv: 1␊11␊0␊ => 3 stopped B DivZero␊; o.csv 7␊; counts 2:1
# where it is true the output's comes
@op int64 n → stream<int64 b> B = Functor(T) {param filter: 10l / n > 0l; output B: b = [7l][n - 1l];} | t.csv: 1␊11␊2␊ => 3 stopped B Index␊; o.csv 7␊; counts 2:1
"#;
