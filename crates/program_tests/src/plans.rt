//! What `plan` tells of programs. It reads the program's file alone.

pub(crate) const PLANS: &str = r#"
# A source and a sink stand by themselves, and a Filter between them in a region.
@first => 0 single T␊region 0 merge pulses key -: B␊single Out␊
# beside files, which are left as they are
@first | t.csv: 5␊10␊11␊ | o.csv: 7␊ => 0 single T␊region 0 merge pulses key -: B␊single Out␊; o.csv 7␊
# no operator
composite A { } => 0
# a source alone
@source => 0 single T␊
# several sources
@sources 3 => 0 single S1000␊single S1001␊single S1002␊
# two sources and two sinks
@pair => 0 single A␊single B␊single X␊single Y␊
# a row of Filters
@chain 3 => 0 single F0␊region 0 merge pulses key -: F1 F2 F3␊single Out␊

# Operators stand in topological order.
# sinks before their sources
composite Main {graph () as Y = FileSink(B) {param file: "y.csv";} () as X = FileSink(A) {param file: "x.csv";} stream<int64 n> B = FileSource() {param file: "b.csv";} stream<int64 n> A = FileSource() {param file: "a.csv";}} => 0 single B␊single Y␊single A␊single X␊
# a region before what it reads
@source () as Out = FileSink(C) {param file: "o.csv";} stream<int64 price> C = Filter(B) {param filter: price < 20l;} stream<int64 price> B = Filter(T) {param filter: price > 10l;} => 0 single T␊region 0 merge pulses key -: B C␊single Out␊
# a sink that is declared first stands before the next region
@source () as Out = FileSink(B) {param file: "o.csv";} stream<T> B = Filter(T); stream<T> C = Filter(T); => 0 single T␊region 0 merge turns key -: B␊single Out␊region 1 merge turns key -: C␊
# a region stands in the place of its first operator
@source stream<T> G = Filter(F) {param filter: price > 0l;} stream<T> D = Filter(T); stream<T> F = Filter(T); => 0 single T␊region 0 merge turns key -: D␊region 1 merge pulses key -: F G␊

# A name is the alias or the first stream, behind that of the invocation.
# an alias
@source stream<int64 price> B as Check = Filter(T); => 0 single T␊region 0 merge turns key -: Check␊
# aliases of an invocation and of an operator within
composite Share(output F; input I) {graph stream<I> F as Divide = Filter(I) {param filter: 100l / n > 1l;}} composite Main {graph stream<int64 n> T = FileSource() {param file: "t.csv";} stream<int64 n> A as First = Share(T); () as Out = FileSink(A) {param file: "o.csv";}} => 0 single T␊region 0 merge pulses key -: First.Divide␊single Out␊
# a composite that is invoked twice
composite Above(output F; input I) {param expression<int64> $least; graph stream<I> F = Filter(I) {param filter: n >= $least;}} composite Main {graph stream<int64 n> T = FileSource() {param file: "t.csv";} stream<int64 n> A = Above(T) {param least: 10l;} stream<int64 n> C = Above(T) {param least: 100l;} () as X = FileSink(A) {param file: "x.csv";} () as Y = FileSink(C) {param file: "y.csv";}} => 0 single T␊region 0 merge pulses key -: A.F␊region 1 merge pulses key -: C.F␊single X␊single Y␊
# one within another, of which a region has both operators
composite Inner(output F; input I) {param expression<int64> $by : 1l; graph stream<I> F = Filter(I) {param filter: 100l / (n - $by) != 0l;}} composite Outer(output G; input I) {param expression<int64> $at; graph stream<I> P = Inner(I); stream<I> G = Inner(P) {param by: $at + 1l;}} composite Main {graph stream<int64 n> T = FileSource() {param file: "t.csv";} stream<int64 n> A = Outer(T) {param at: 6l;} () as Out = FileSink(A) {param file: "o.csv";}} => 0 single T␊region 0 merge pulses key -: A.P.F A.G.F␊single Out␊
# those of a source and of sinks
composite Read(output T) {graph stream<int64 n> T = FileSource() {param file: "t.csv";}} composite Write(input I) {param expression<rstring> $to : "o.csv"; graph () as Out = FileSink(I) {param file: $to;}} composite Main {graph stream<int64 n> A = Read(); () as X = Write(A) {param to: "x.csv";} () as Y = Write(A);} => 0 single A.T␊single X.Out␊single Y.Out␊

# A region is merged by turns, by numbers or by pulses.
# one tuple for each, without a key; and a key that is made anew
composite Main {graph stream<int64 k> T = FileSource() {param file: "t.csv";} stream<int64 k> F = Functor(T) {output F: k = k + 1l;} stream<int64 k, int32 n> A = Aggregate(F) {window F: tumbling, count(2), partitioned; param partitionBy: k; output A: k = Any(k), n = Count();} () as Out = FileSink(A) {param file: "o.csv";}} => 0 single T␊region 0 merge turns key -: F␊region 1 merge pulses key k: A␊single Out␊
# one tuple for each, with a key
composite Main {graph stream<rstring k, int64 v> T = FileSource() {param file: "t.csv";} stream<rstring k, int64 s> A = Aggregate(T) {window T: sliding, count(3), count(1), partitioned; param partitionBy: k; output A: k = Any(k), s = Sum(v);} () as Out = FileSink(A) {param file: "o.csv";}} => 0 single T␊region 0 merge numbers key k: A␊single Out␊
# one tuple for each two
composite Main {graph stream<rstring k, int64 v> T = FileSource() {param file: "t.csv";} stream<rstring k, int64 s> A = Aggregate(T) {window T: sliding, count(3), count(2), partitioned; param partitionBy: k; output A: k = Any(k), s = Sum(v);} () as Out = FileSink(A) {param file: "o.csv";}} => 0 single T␊region 0 merge pulses key k: A␊single Out␊
# groups
composite Main {graph stream<rstring k, int64 v> T = FileSource() {param file: "t.csv";} stream<rstring k, int64 s> A = Aggregate(T) {window T: sliding, count(3), count(1), partitioned; param partitionBy: k; groupBy: v; output A: k = Any(k), s = Sum(v);} () as Out = FileSink(A) {param file: "o.csv";}} => 0 single T␊region 0 merge pulses key k: A␊single Out␊
# a window that tumbles
composite Main {graph stream<rstring k, int64 v> T = FileSource() {param file: "t.csv";} stream<rstring k, int64 s> A = Aggregate(T) {window T: tumbling, count(2), partitioned; param partitionBy: k; output A: k = Any(k), s = Sum(v);} () as Out = FileSink(A) {param file: "o.csv";}} => 0 single T␊region 0 merge pulses key k: A␊single Out␊
# one tuple for each, in each of three operators
@op rstring k, int64 v → stream<T> F = Filter(T); stream<rstring k, int64 s> A = Aggregate(F) {window F: sliding, count(3), count(1), partitioned; param partitionBy: k; output A: s = Sum(v);} stream<rstring k, int64 s> B = Functor(A) {output B: s = s * 2l;} => 0 single T␊region 0 merge numbers key k: F A B␊single Out␊
# a last one that may give none
@op rstring k, int64 v → stream<T> F = Filter(T); stream<rstring k, int64 s> A = Aggregate(F) {window F: sliding, count(3), count(1), partitioned; param partitionBy: k; output A: s = Sum(v);} stream<rstring k, int64 s> B = Functor(A) {param filter: s > 0l; output B: s = s * 2l;} => 0 single T␊region 0 merge pulses key k: F A B␊single Out␊
# a Custom that may submit none
@source stream<int64 n> C = Custom(T) {logic onTuple T: {if (price > 0l) submit({n = price}, C);}} => 0 single T␊region 0 merge pulses key -: C␊
# one that submits one in any case, and passes window markers
@source stream<int64 n> C = Custom(T) {logic onTuple T: {if (price > 0l) submit({n = price}, C); else submit({n = 0l}, C);} onPunct T: {if (currentPunct() == Sys.WindowMarker) submit(Sys.WindowMarker, C);}} => 0 single T␊region 0 merge turns key -: C␊
# one that passes none
@source stream<int64 n> C = Custom(T) {logic onTuple T: {submit({n = price}, C);}} => 0 single T␊region 0 merge pulses key -: C␊
# a Punctor, a Union of one stream and a Split with one output
@source stream<T> P = Punctor(T) {param punctuation: price > 0l; position: after;} => 0 single T␊region 0 merge pulses key -: P␊
@source stream<T> U = Union(T); => 0 single T␊region 0 merge pulses key -: U␊
@source stream<T> F = Filter(T); stream<T> P = Split(F) {param index: price;} stream<T> G = Filter(P); => 0 single T␊region 0 merge pulses key -: F P G␊

# A key is what all keyed operators of the region share.
# two Aggregates with a common attribute
composite Main {graph stream<rstring a, rstring b, int64 v> T = FileSource() {param file: "t.csv";} stream<rstring a, rstring b, int64 s> A = Aggregate(T) {window T: tumbling, count(2), partitioned; param partitionBy: a, b; output A: a = Any(a), b = Any(b), s = Sum(v);} stream<rstring b, int64 s> Z = Aggregate(A) {window A: tumbling, count(2), partitioned; param partitionBy: b; output Z: b = Any(b), s = Sum(s);} () as Out = FileSink(Z) {param file: "o.csv";}} => 0 single T␊region 0 merge pulses key b: A Z␊single Out␊
# two without one
composite Main {graph stream<rstring a, rstring b, int64 v> T = FileSource() {param file: "t.csv";} stream<rstring a, rstring b, int64 s> A = Aggregate(T) {window T: tumbling, count(2), partitioned; param partitionBy: a; output A: a = Any(a), b = Any(b), s = Sum(v);} stream<rstring b, int64 s> Z = Aggregate(A) {window A: tumbling, count(2), partitioned; param partitionBy: b; output Z: b = Any(b), s = Sum(s);} () as Out = FileSink(Z) {param file: "o.csv";}} => 0 single T␊region 0 merge pulses key a: A␊region 1 merge pulses key b: Z␊single Out␊
# attributes in the order of the stream, not of the parameter
@op int32 a, rstring s → stream<T> B = Aggregate(T) {window T: tumbling, count(2), partitioned; param partitionBy: s, a; output B: a = Any(a), s = Any(s);} => 0 single T␊region 0 merge pulses key a,s: B␊single Out␊
# three attributes
@op boolean x, int8 y, rstring z, int64 v → stream<T> B = Aggregate(T) {window T: tumbling, count(2), partitioned; param partitionBy: z, x, y; output B: v = Sum(v);} => 0 single T␊region 0 merge pulses key x,y,z: B␊single Out␊
# the name that it has where the region begins
@op rstring s, int64 v → stream<rstring x, int64 v> F = Functor(T) {output F: x = s;} stream<rstring x, int64 t> B = Aggregate(F) {window F: tumbling, count(2), partitioned; param partitionBy: x; output B: x = Any(x), t = Sum(v);} => 0 single T␊region 0 merge pulses key s: F B␊single Out␊
# names that two attributes swap
@op int64 a, int64 b → stream<T> F = Functor(T) {output F: a = T.b, b = (a);} stream<int64 a, int64 b> B = Aggregate(F) {window F: tumbling, count(2), partitioned; param partitionBy: a; output B: a = First(a), b = Max(b);} => 0 single T␊region 0 merge pulses key b: F B␊single Out␊
# a value that only comes to the same
@op rstring k, int64 v → stream<T> F = Functor(T) {output F: k = k + "";} stream<rstring k, int64 s> B = Aggregate(F) {window F: tumbling, count(2), partitioned; param partitionBy: k; output B: k = Any(k), s = Sum(v);} => 0 single T␊region 0 merge turns key -: F␊region 1 merge pulses key k: B␊single Out␊
# a tuple that a Custom passes
@op rstring k, int64 v → stream<T> C = Custom(T) {logic onTuple T: {submit(T, C);}} stream<rstring k, int64 s> B = Aggregate(C) {window C: tumbling, count(2), partitioned; param partitionBy: k; output B: k = Any(k), s = Sum(v);} => 0 single T␊region 0 merge pulses key k: C B␊single Out␊
# an attribute of one that it makes
@op rstring k, int64 v → stream<T> C = Custom(T) {logic onTuple T: {submit({k = k, v = v * 2l}, C);}} stream<rstring k, int64 s> B = Aggregate(C) {window C: tumbling, count(2), partitioned; param partitionBy: k; output B: k = Any(k), s = Sum(v);} => 0 single T␊region 0 merge pulses key k: C B␊single Out␊
# one that it makes at the end too
@op rstring k, int64 v → stream<T> C = Custom(T) {logic onTuple T: {submit(T, C);} onPunct T: {if (currentPunct() == Sys.FinalMarker) submit({k = "", v = 0l}, C);}} stream<rstring k, int64 s> B = Aggregate(C) {window C: tumbling, count(2), partitioned; param partitionBy: k; output B: k = Any(k), s = Sum(v);} => 0 single T␊region 0 merge pulses key -: C␊region 1 merge pulses key k: B␊single Out␊

# A region ends where its stream has several readers, or none.
@source stream<T> F = Filter(T); stream<T> G = Filter(F); stream<T> H = Filter(F); => 0 single T␊region 0 merge turns key -: F␊region 1 merge turns key -: G␊region 2 merge turns key -: H␊
# a sink as the second reader
@source stream<T> F = Filter(T); stream<T> G = Filter(F); () as Out = FileSink(F) {param file: "o.csv";} => 0 single T␊region 0 merge turns key -: F␊region 1 merge turns key -: G␊single Out␊
# one reader that takes it twice
@source stream<T> F = Filter(T); stream<T> U = Union(F; F); stream<T> G = Filter(U); => 0 single T␊region 0 merge turns key -: F␊single U␊region 1 merge turns key -: G␊

# It ends before an operator that may stand in none: one with several streams,
# at a Join
@two stream<int64 n> F = Filter(S); stream<int64 n> J = Join(F; T) {window F: sliding, count(1); T: sliding, count(1); output J: n = F.n;} stream<int64 n> G = Filter(J); => 0 single S␊single T␊region 0 merge turns key -: F␊single J␊region 1 merge turns key -: G␊
# at the Join of two sources
@join window L: sliding, count(1); R: sliding, count(1); output J: k = L.k; => 0 single L␊single R␊single J␊single Out␊
# at a port with two
@source stream<int64 price> B = Filter(T) {param filter: price > 10l;} stream<int64 price> C = Filter(T, B); => 0 single T␊region 0 merge pulses key -: B␊single C␊
# with two outputs or none,
@source stream<T> F = Filter(T); (stream<T> P; stream<T> Q) = Split(F) {param index: price;} stream<T> G = Filter(Q); stream<T> H = Filter(P); => 0 single T␊region 0 merge turns key -: F␊single P␊region 1 merge turns key -: G␊region 2 merge turns key -: H␊
@source stream<T> F = Filter(T); () as C = Custom(F); => 0 single T␊region 0 merge turns key -: F␊single C␊
# or with a state that isn't kept by keys:
# variables
@op int64 n → stream<T> F = Filter(T); stream<T> C = Custom(F) {logic state: mutable int64 m = 0l; onTuple F: {m += n; submit({n = m}, C);}} stream<T> B = Filter(C); => 0 single T␊region 0 merge turns key -: F␊single C␊region 1 merge turns key -: B␊single Out␊
# a window of all tuples
@op int64 n → stream<T> F = Filter(T); stream<int64 s> A = Aggregate(F) {window F: sliding, count(2), count(1); output A: s = Sum(n);} stream<A> B = Filter(A); => 0 single T␊region 0 merge turns key -: F␊single A␊region 1 merge turns key -: B␊single Out␊
# windows that a marker flushes, all at once
@op int64 n → stream<T> F = Filter(T); stream<int64 n> A = Aggregate(F) {window F: tumbling, punct(), partitioned; param partitionBy: n; output A: n = Any(n);} stream<A> B = Filter(A); => 0 single T␊region 0 merge turns key -: F␊single A␊region 1 merge turns key -: B␊single Out␊
# a variable that isn't mutable is no state
@op int64 n → stream<T> F = Filter(T); stream<T> C = Custom(F) {logic state: int64 m = 7l; onTuple F: {submit({n = n + m}, C);}} stream<T> B = Filter(C); => 0 single T␊region 0 merge pulses key -: F C B␊single Out␊

# Whole programs.
@sums => 0 single In␊region 0 merge pulses key sym: C1.Good V A␊region 1 merge pulses key -: C2.Good␊single Lo␊single LoOut␊single HiOut␊single BigOut␊
@sales => 0 single Sales␊region 0 merge pulses key shop: Sold.Kept Takings Sums␊region 1 merge pulses key -: Bulk.Kept␊single Quiet␊single QuietOut␊single BusyOut␊single BulkOut␊
@bookings => 0 single North␊single South␊single Bookings␊single Seats␊single BookedOut␊single RefusedOut␊
@averages => 0 single All␊region 0 merge pulses key sensor: Measured Sums Means␊single MeansOut␊
@highest => 0 single Trades␊region 0 merge numbers key symbol: Range␊single RangeOut␊
@trades => 0 single Trades␊region 0 merge pulses key -: Cancelled␊region 1 merge pulses key -: Valued.Valued␊single Small␊single Holdings␊single CancelledOut␊single SmallOut␊single MiddleOut␊single LargeOut␊single HoldingsOut␊
@telemetry => 0 single All␊region 0 merge pulses key -: Measured␊region 1 merge pulses key -: Failures␊region 2 merge pulses key -: Warm.High␊region 3 merge pulses key -: Hot.High␊single Known.Known␊region 4 merge pulses key -: Alerts␊single Falls␊single FailuresOut␊single WarmOut␊single HotOut␊single KnownOut␊single FallsOut␊single RisesOut␊
@logs => 0 single Lines␊region 0 merge pulses key -: Others␊region 1 merge pulses key -: Requests␊single Refused␊region 2 merge pulses key -: Large␊single Paths␊single OthersOut␊single RefusedOut␊single FailedOut␊single LargeOut␊single PathsOut␊
@bad_row => 0 single Readings␊region 0 merge pulses key -: Warm␊single WarmOut␊
@division => 0 single Downloads␊region 0 merge pulses key -: Large␊region 1 merge turns key -: Speed.Rates␊single LargeOut␊single RatesOut␊

# A program that is refused has no plan.
@wrong => 2 refused Y2 at 266␊
@text # => 2 refused L1 at 0␊
∅ => 2 refused E1 at 0␊
# a sink with the program's own file
composite Main {graph stream<int64 n> T = FileSource() {param file: "t.csv";} () as Out = FileSink(T) {param file: "p.spl";}} => 2 refused E5 at 78 p.spl␊
# numbers
@first | t.csv: 5␊10␊11␊ | $ plan t.csv => 2 refused S1 at 0␊

# Only the program can fail to be read.
@none => 4 cannot open p.spl␊
@first | $ plan q.spl => 4 cannot open q.spl␊
@first | fail call 1 => 4 cannot open p.spl␊
@first | fail read 1 p.spl => 5 cannot read p.spl␊
@first | fail read 2 p.spl => 5 cannot read p.spl␊
@first | t.csv: 5␊ | fail read 1 t.csv => 0 single T␊region 0 merge pulses key -: B␊single Out␊
# a plan that can't be told
@first | fail line 1 => 6
@text # | fail line 1 => 2
@none | fail line 1 => 4
# a plan of nothing
composite A { } | fail line 1 => 0
"#;
