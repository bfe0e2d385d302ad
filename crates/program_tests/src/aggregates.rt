//! What `run` does with Aggregates.

pub(crate) const AGGREGATES: &str = r#"
# A tumbling window gives its sums, and drops what it holds at the end.
@op int64 v → stream<int64 s, int32 n> B = Aggregate(T) {window T: tumbling, count(2); output B: s = Sum(v), n = Count();} | t.csv: 1␊2␊3␊ => 0; o.csv 3,2␊; counts 2:1
@op int64 t, int64 v → stream<int64 s> B = Aggregate(T) {window T: tumbling, delta(t, 10l); output B: s = Sum(v);} | t.csv: 0,1␊10,2␊11,3␊ => 0; o.csv 3␊; counts 2:1
# the final marker flushes nothing, and a source's window marker does
@op int64 v → stream<int32 n> B = Aggregate(T) {window T: tumbling, punct(); output B: n = Count();} | t.csv: 1␊2␊ => 0; o.csv 2␊; counts 2:1
# each partition by itself
@op rstring k, int64 v → stream<rstring k, int64 s> B = Aggregate(T) {window T: tumbling, count(2), partitioned; param partitionBy: k; output B: k = Any(k), s = Sum(v);} | t.csv: a,1␊b,2␊a,3␊a,4␊b,5␊ => 0; o.csv a,4␊b,7␊; counts 2:2
# markers flush all partitions, by ascending key
@op rstring k, int64 v → stream<T> P = Punctor(T) {param punctuation: v == 0l; position: after;} stream<rstring k, int64 s> B = Aggregate(P) {window P: tumbling, punct(), partitioned; param partitionBy: k; output B: k = Any(k), s = Sum(v);} | t.csv: b,1␊a,2␊b,0␊a,5␊ => 0; o.csv a,2␊b,1␊a,5␊; counts 3:3
# and groups stand within a content
@op rstring k, int64 v → stream<T> P = Punctor(T) {param punctuation: v == 0l; position: after;} stream<rstring k, int64 s> B = Aggregate(P) {window P: tumbling, punct(), partitioned; param partitionBy: k; groupBy: k; output B: k = Any(k), s = Sum(v);} | t.csv: b,1␊a,2␊b,0␊a,5␊ => 0; o.csv a,2␊b,1␊a,5␊; counts 3:3
@op rstring k, int64 v → stream<rstring k, int64 s> B = Aggregate(T) {window T: tumbling, count(4); param groupBy: k; output B: s = Sum(v);} | t.csv: z,1␊a,2␊z,3␊b,4␊ => 0; o.csv a,2␊b,4␊z,4␊; counts 2:3
# a window marker stands behind each content, and none that comes is passed
@op int64 n → stream<T> A = Aggregate(T) {window T: tumbling, count(2); output A: n = Sum(n);} stream<T> B = Custom(A) {logic onTuple A: {submit(A, B);} onPunct A: {if (currentPunct() == Sys.WindowMarker) submit({n = 0l}, B); else submit({n = -1l}, B);}} | t.csv: 1␊2␊3␊4␊5␊ => 0; o.csv 3␊0␊7␊0␊-1␊; counts 3:5

# A sliding window gives one at each trigger, full or not.
@op rstring k, int64 v → stream<rstring k, int64 s> B = Aggregate(T) {window T: sliding, count(3), count(1), partitioned; param partitionBy: k; output B: k = Any(k), s = Sum(v);} | t.csv: a,1␊a,2␊b,9␊a,3␊a,4␊ => 0; o.csv a,1␊a,3␊b,9␊a,6␊a,9␊; counts 2:5
@op int64 v → stream<int64 s> B = Aggregate(T) {window T: sliding, count(3), count(2); output B: s = Sum(v);} | t.csv: 1␊2␊4␊8␊16␊ => 0; o.csv 3␊14␊; counts 2:2
@op int64 t → stream<int32 n> B = Aggregate(T) {window T: sliding, delta(t, 5l), count(1); output B: n = Count();} | t.csv: 0␊5␊6␊ => 0; o.csv 1␊2␊2␊; counts 2:3
# least, greatest and sum, which wraps
@op int8 v → stream<int8 a, int8 b, int8 c> B = Aggregate(T) {window T: sliding, count(3), count(1); output B: a = Min(v), b = Max(v), c = Sum(v);} | t.csv: 5␊3␊4␊100␊27␊ => 0; o.csv 5,5,5␊3,5,8␊3,5,12␊3,100,107␊4,100,-125␊; counts 2:5
# window markers are passed
@op int64 n → stream<T> A = Aggregate(T) {window T: sliding, count(2), count(2); output A: n = Sum(n);} stream<T> B = Custom(A) {logic onTuple A: {submit(A, B);} onPunct A: {if (currentPunct() == Sys.WindowMarker) submit({n = 0l}, B); else submit({n = -1l}, B);}} | t.csv: 1␊2␊3␊ => 0; o.csv 3␊0␊-1␊; counts 3:3
# the first, the last and an attribute that isn't assigned, which is the last tuple's
@op rstring k, int64 v → stream<rstring k, int64 a, int64 v> B = Aggregate(T) {window T: tumbling, count(3); output B: k = First(k + "!"), a = Last(v + 1l);} | t.csv: x,1␊"y,z",2␊z,3␊ => 0; o.csv x!,4,3␊; counts 2:1

# A fault in an argument of a tuple that fires no window is that event's fault.
@op int64 v → stream<int64 s> B = Aggregate(T) {window T: tumbling, count(3); output B: s = Sum(10l / v);} | t.csv: 0␊5␊ => 3 stopped B DivZero␊; o.csv ∅; counts 2:0
@op int64 v → stream<int64 s> B = Aggregate(T) {window T: tumbling, count(2); output B: s = Sum(10l / v);} | t.csv: 5␊2␊0␊1␊ => 3 stopped B DivZero␊; o.csv 7␊; counts 2:1
# one that comes
@op int64 v → stream<int64 s> B = Aggregate(T) {window T: tumbling, count(2); output B: s = Sum(v);} | t.csv: 1␊2␊3␊x␊ => 3 stopped T BadRow line 4␊; o.csv 3␊; counts 2:1
# one that nobody reads
@source stream<int64 price> B = Aggregate(T) {window T: tumbling, count(2); output B: price = Sum(1l / price);} () as Out = FileSink(T) {param file: "o.csv";} | t.csv: 1␊0␊2␊ => 3 stopped B DivZero␊; o.csv 1␊0␊2␊; counts 2:3

# in a composite
composite Sums(output A; input I) {graph stream<I> A = Aggregate(I) {window I: sliding, count(2), count(1); output A: n = Sum(n);}} composite Main {graph stream<int64 n> T = FileSource() {param file: "t.csv";} stream<int64 n> B = Sums(T); () as Out = FileSink(B) {param file: "o.csv";}} | t.csv: 1␊2␊4␊ => 0; o.csv 1␊3␊6␊; counts 2:3
# trades by symbol
@sums | trades.csv: 1,IBM,100,20␍␊2,"A,B",50,5␍␊3,IBM,200,40␍␊4,MSFT,300,100␍␊5,"A,B",0,500␍␊6,"A,B",7,10␍␊7,IBM,10,10␍␊ => 0; lo.csv IBM,2000,1␊"A,B",70,1␊IBM,8100,2␊; hi.csv IBM,10000,2␊MSFT,30000,1␊; big.csv 4,MSFT,300,100␊; counts 6:3 7:2 8:1
# a source that can't be opened
@source stream<int64 price> B = Aggregate(T) {window T: tumbling, count(2);} () as Out = FileSink(B) {param file: "o.csv";} | t.csv: 1␊ | fail call 2 => 4 cannot open t.csv␊
# a refused program with an Aggregate
@source stream<int64 price> B = Aggregate(T) {window T: tumbling, count(2);} () as Out = FileSink(B); => 2 refused C1 at 151 file␊
# a check
@source stream<int64 price> B = Aggregate(T) {window T: tumbling, count(2);} | $ check p.spl => 0 ok 2 operators 2 streams␊
"#;

/// What is made of the contents of windows: of groups and partitions, of differences, of no tuple, and by each function
/// of an Aggregate at the bounds of its types.
pub(crate) const CONTENTS: &str = r#"
# Groups stand by the values of their attributes, in the order in which `groupBy` names these.
# a boolean before a text
@op rstring k, boolean b, int64 v → stream<rstring k, boolean b, int64 s> B = Aggregate(T) {window T: tumbling, count(5); param groupBy: b, k; output B: s = Sum(v);} | t.csv: z,true,1␊a,true,2␊z,false,3␊z,true,4␊a,false,5␊ => 0; o.csv a,false,5␊z,false,3␊a,true,2␊z,true,5␊; counts 2:4
# a text before a boolean
@op rstring k, boolean b, int64 v → stream<rstring k, boolean b, int64 s> B = Aggregate(T) {window T: tumbling, count(5); param groupBy: k, b; output B: s = Sum(v);} | t.csv: z,true,1␊a,true,2␊z,false,3␊z,true,4␊a,false,5␊ => 0; o.csv a,false,5␊a,true,2␊z,false,3␊z,true,5␊; counts 2:4
# integers by number
@op int8 n → stream<int8 n, int32 k> B = Aggregate(T) {window T: tumbling, count(5); param groupBy: n; output B: k = Count();} | t.csv: 5␊-1␊127␊-128␊-1␊ => 0; o.csv -128,1␊-1,2␊5,1␊127,1␊; counts 2:4
# texts by bytes, a front before the whole
@op rstring s → stream<rstring s, int32 k> B = Aggregate(T) {window T: tumbling, count(6); param groupBy: s; output B: k = Count();} | t.csv: b␊""␊ab␊a␊""␊Z␊ => 0; o.csv ,2␊Z,1␊a,1␊ab,1␊b,1␊; counts 2:5
# at each trigger of a sliding window
@op rstring k, int64 v → stream<rstring k, int64 s> B = Aggregate(T) {window T: sliding, count(3), count(2); param groupBy: k; output B: s = Sum(v);} | t.csv: a,1␊b,2␊a,4␊b,8␊ => 0; o.csv a,1␊b,2␊a,4␊b,10␊; counts 2:4
# within a partition
@op rstring k, boolean b, int64 v → stream<rstring k, boolean b, int64 s> B = Aggregate(T) {window T: tumbling, count(3), partitioned; param partitionBy: k; groupBy: b; output B: s = Sum(v);} | t.csv: x,true,1␊y,true,2␊x,false,3␊x,true,4␊y,false,5␊ => 0; o.csv x,false,3␊x,true,5␊; counts 2:2

# So do partitions that a window marker flushes, in the order in which `partitionBy` names their attributes.
# a boolean before a text
@op rstring k, boolean b, int64 v → stream<T> B = Aggregate(T) {window T: tumbling, punct(), partitioned; param partitionBy: b, k; output B: v = Sum(v);} | t.csv: a,true,1␊b,false,2␊a,false,3␊a,true,4␊ => 0; o.csv a,false,3␊b,false,2␊a,true,5␊; counts 2:3
# a text before a boolean
@op rstring k, boolean b, int64 v → stream<T> B = Aggregate(T) {window T: partitioned, tumbling, punct(); param partitionBy: k, b; output B: v = Sum(v);} | t.csv: a,true,1␊b,false,2␊a,false,3␊a,true,4␊ => 0; o.csv a,false,3␊a,true,5␊b,false,2␊; counts 2:3
# a window marker stands behind each of them
@op rstring k, int64 v → stream<T> A = Aggregate(T) {window T: tumbling, punct(), partitioned; param partitionBy: k; output A: v = Sum(v);} stream<T> B = Custom(A) {logic onTuple A: {submit(A, B);} onPunct A: {if (currentPunct() == Sys.WindowMarker) submit({k = "window", v = 0l}, B); else submit({k = "end", v = 0l}, B);}} | t.csv: b,1␊a,2␊b,3␊ => 0; o.csv a,2␊window,0␊b,4␊window,0␊end,0␊; counts 3:5

# Windows of differences.
# each partition by itself, by a trigger of its own
@op rstring k, int64 t, int64 v → stream<rstring k, int64 s> B = Aggregate(T) {window T: partitioned, sliding, delta(t, 5l), count(2); param partitionBy: k; output B: s = Sum(v);} | t.csv: a,0,1␊b,100,2␊a,5,4␊a,11,8␊b,101,16␊a,12,32␊ => 0; o.csv a,5␊b,18␊a,40␊; counts 2:3
# each partition by itself, by its first tuple
@op rstring k, int64 t, int64 v → stream<rstring k, int64 s> B = Aggregate(T) {window T: tumbling, delta(t, 10l), partitioned; param partitionBy: k; output B: s = Sum(v);} | t.csv: a,0,1␊b,50,2␊a,10,4␊a,11,8␊b,61,16␊ => 0; o.csv a,5␊b,2␊; counts 2:2
# of 0, where the attribute stays, falls and rises
@op int64 v → stream<int64 s> B = Aggregate(T) {window T: tumbling, delta(v, 0l); output B: s = Sum(v);} | t.csv: 3␊3␊2␊4␊ => 0; o.csv 8␊; counts 2:1
# at the bounds of a type: 127 and 128 above the first
@op int8 t → stream<int8 t, int32 n> B = Aggregate(T) {window T: tumbling, delta(t, 127b); output B: n = Count();} | t.csv: -128␊-1␊0␊ => 0; o.csv -1,2␊; counts 2:1
# 255 below the first
@op int8 t → stream<int8 t, int32 n> B = Aggregate(T) {window T: tumbling, delta(t, 0b); output B: n = Count();} | t.csv: 127␊-128␊127␊ => 0; o.csv ∅; counts 2:0
# 254 and 255 above the first
@op uint8 t → stream<uint8 t, int32 n> B = Aggregate(T) {window T: tumbling, delta(t, 254ub); output B: n = Count();} | t.csv: 0␊254␊255␊ => 0; o.csv 254,2␊; counts 2:1

# A window without a tuple gives nothing: 0 where a window marker comes, and -1 at the end.
# one of a count that no tuple comes to
@op int64 n → stream<T> A = Aggregate(T) {window T: tumbling, count(1); output A: n = Sum(n);} stream<T> B = Custom(A) {logic onTuple A: {submit(A, B);} onPunct A: {if (currentPunct() == Sys.WindowMarker) submit({n = 0l}, B); else submit({n = -1l}, B);}} | t.csv: ∅ => 0; o.csv -1␊; counts 3:1
# one that a marker would flush
@op int64 n → stream<T> A = Aggregate(T) {window T: tumbling, punct(); output A: n = Sum(n);} stream<T> B = Custom(A) {logic onTuple A: {submit(A, B);} onPunct A: {if (currentPunct() == Sys.WindowMarker) submit({n = 0l}, B); else submit({n = -1l}, B);}} | t.csv: ∅ => 0; o.csv -1␊; counts 3:1
# one that slides, and passes the marker
@op int64 n → stream<T> A = Aggregate(T) {window T: sliding, count(1), count(1); output A: n = Sum(n);} stream<T> B = Custom(A) {logic onTuple A: {submit(A, B);} onPunct A: {if (currentPunct() == Sys.WindowMarker) submit({n = 0l}, B); else submit({n = -1l}, B);}} | t.csv: ∅ => 0; o.csv 0␊-1␊; counts 3:2
# several markers in a row
@op int64 n → stream<T> P = Punctor(T) {param punctuation: true; position: before;} stream<T> Q = Punctor(P) {param punctuation: true; position: after;} stream<T> A = Aggregate(Q) {window Q: tumbling, punct(); output A: n = Sum(n);} stream<T> B = Custom(A) {logic onTuple A: {submit(A, B);} onPunct A: {if (currentPunct() == Sys.WindowMarker) submit({n = 0l}, B); else submit({n = -1l}, B);}} | t.csv: 5␊6␊ => 0; o.csv 5␊0␊6␊0␊-1␊; counts 5:5

# Each function at the bounds of each type: of the least value, the greatest and 1, and of three times the greatest.
@op int8 v → stream<int8 s, int8 a, int8 z, int8 f, int8 l, int8 y> B = Aggregate(T) {window T: tumbling, count(3); output B: s = Sum(v), a = Min(v), z = Max(v), f = First(v), l = Last(v), y = Any(v);} | t.csv: -128␊127␊1␊127␊127␊127␊ => 0; o.csv 0,-128,127,-128,1,-128␊125,127,127,127,127,127␊; counts 2:2
@op int16 v → stream<int16 s, int16 a, int16 z, int16 f, int16 l, int16 y> B = Aggregate(T) {window T: tumbling, count(3); output B: s = Sum(v), a = Min(v), z = Max(v), f = First(v), l = Last(v), y = Any(v);} | t.csv: -32768␊32767␊1␊32767␊32767␊32767␊ => 0; o.csv 0,-32768,32767,-32768,1,-32768␊32765,32767,32767,32767,32767,32767␊; counts 2:2
@op int32 v → stream<int32 s, int32 a, int32 z, int32 f, int32 l, int32 y> B = Aggregate(T) {window T: tumbling, count(3); output B: s = Sum(v), a = Min(v), z = Max(v), f = First(v), l = Last(v), y = Any(v);} | t.csv: -2147483648␊2147483647␊1␊2147483647␊2147483647␊2147483647␊ => 0; o.csv 0,-2147483648,2147483647,-2147483648,1,-2147483648␊2147483645,2147483647,2147483647,2147483647,2147483647,2147483647␊; counts 2:2
@op int64 v → stream<int64 s, int64 a, int64 z, int64 f, int64 l, int64 y> B = Aggregate(T) {window T: tumbling, count(3); output B: s = Sum(v), a = Min(v), z = Max(v), f = First(v), l = Last(v), y = Any(v);} | t.csv: -9223372036854775808␊9223372036854775807␊1␊9223372036854775807␊9223372036854775807␊9223372036854775807␊ => 0; o.csv 0,-9223372036854775808,9223372036854775807,-9223372036854775808,1,-9223372036854775808␊9223372036854775805,9223372036854775807,9223372036854775807,9223372036854775807,9223372036854775807,9223372036854775807␊; counts 2:2
@op uint8 v → stream<uint8 s, uint8 a, uint8 z, uint8 f, uint8 l, uint8 y> B = Aggregate(T) {window T: tumbling, count(3); output B: s = Sum(v), a = Min(v), z = Max(v), f = First(v), l = Last(v), y = Any(v);} | t.csv: 0␊255␊1␊255␊255␊255␊ => 0; o.csv 0,0,255,0,1,0␊253,255,255,255,255,255␊; counts 2:2
@op uint16 v → stream<uint16 s, uint16 a, uint16 z, uint16 f, uint16 l, uint16 y> B = Aggregate(T) {window T: tumbling, count(3); output B: s = Sum(v), a = Min(v), z = Max(v), f = First(v), l = Last(v), y = Any(v);} | t.csv: 0␊65535␊1␊65535␊65535␊65535␊ => 0; o.csv 0,0,65535,0,1,0␊65533,65535,65535,65535,65535,65535␊; counts 2:2
@op uint32 v → stream<uint32 s, uint32 a, uint32 z, uint32 f, uint32 l, uint32 y> B = Aggregate(T) {window T: tumbling, count(3); output B: s = Sum(v), a = Min(v), z = Max(v), f = First(v), l = Last(v), y = Any(v);} | t.csv: 0␊4294967295␊1␊4294967295␊4294967295␊4294967295␊ => 0; o.csv 0,0,4294967295,0,1,0␊4294967293,4294967295,4294967295,4294967295,4294967295,4294967295␊; counts 2:2
@op uint64 v → stream<uint64 s, uint64 a, uint64 z, uint64 f, uint64 l, uint64 y> B = Aggregate(T) {window T: tumbling, count(3); output B: s = Sum(v), a = Min(v), z = Max(v), f = First(v), l = Last(v), y = Any(v);} | t.csv: 0␊18446744073709551615␊1␊18446744073709551615␊18446744073709551615␊18446744073709551615␊ => 0; o.csv 0,0,18446744073709551615,0,1,0␊18446744073709551613,18446744073709551615,18446744073709551615,18446744073709551615,18446744073709551615,18446744073709551615␊; counts 2:2
# texts
@op rstring v → stream<rstring a, rstring z, rstring f, rstring l, rstring y> B = Aggregate(T) {window T: tumbling, count(3); output B: a = Min(v), z = Max(v), f = First(v), l = Last(v), y = Any(v);} | t.csv: b␊""␊ab␊a␊Z␊aa␊ => 0; o.csv ,b,b,ab,b␊Z,aa,a,aa,a␊; counts 2:2
# booleans
@op boolean v → stream<boolean f, boolean l, boolean y> B = Aggregate(T) {window T: tumbling, count(3); output B: f = First(v), l = Last(v), y = Any(!v);} | t.csv: true␊false␊false␊ => 0; o.csv true,false,false␊; counts 2:1
# lists, maps and tuples
@op int64 n → stream<list<int64> a, list<int64> b, list<int64> c, map<int64, rstring> d, map<int64, rstring> e, map<int64, rstring> f, tuple<int64 x> g, tuple<int64 x> h, tuple<int64 x> i, int32 k> A = Aggregate(T) {window T: tumbling, count(2); output A: a = First([n, n]), b = Last([n, n]), c = Any([n, n]), d = First({n : "x"}), e = Last({n : "x"}), f = Any({n : "x"}), g = First({x = n}), h = Last({x = n}), i = Any({x = n}), k = Count();} stream<int64 a, int64 b, int64 c, boolean d, boolean e, boolean f, int64 g, int64 h, int64 i, int32 k> B = Functor(A) {output B: a = A.a[1], b = A.b[1], c = A.c[1], d = 4l in A.d, e = 5l in A.e, f = 4l in A.f, g = A.g.x, h = A.h.x, i = A.i.x;} | t.csv: 4␊5␊ => 0; o.csv 4,5,4,true,true,true,4,5,4,2␊; counts 3:1
# sums that wrap below the least value
@op int8 v → stream<int8 s, int8 d> B = Aggregate(T) {window T: tumbling, count(3); output B: s = Sum(v), d = Sum(-v);} | t.csv: -128␊-128␊-1␊ => 0; o.csv -1,1␊; counts 2:1
# the oldest and the newest of a window that slides
@op int64 v → stream<int64 f, int64 l, int64 y> B = Aggregate(T) {window T: sliding, count(2), count(1); output B: f = First(v), l = Last(v), y = Any(v);} | t.csv: 1␊2␊3␊ => 0; o.csv 1,1,1␊1,2,1␊2,3,2␊; counts 2:3
# 1,000 tuples
@op int16 v → stream<int32 k, int16 s, int64 t> B = Aggregate(T) {window T: tumbling, count(1000); output B: k = Count(), s = Sum(v), t = Sum((int64) v);} | t.csv: @times 2500 70␊ => 0; o.csv 1000,4464,70000␊1000,4464,70000␊; counts 2:2
"#;
