//! What `replay` does. Unless a row says otherwise, the record stands in `r.txt`.

/// Interleavings of the items that arrive at a Union or a Join.
pub(crate) const INTERLEAVED: &str = r#"
# A Union takes the items of two sources in the order of the record.
# one of each, and then the others
@union | a.csv: 1␊2␊ | b.csv: 3␊ | r.txt: arrivals 1␊U 0 1 0 0 0 1 1␊ => 0; o.csv 1␊3␊2␊; counts 3:3; record 2 0 1 0 0 0 1 1
# input after input, as a run takes them
@union | a.csv: 1␊2␊ | b.csv: 3␊ | r.txt: arrivals 1␊U 0 0 0 0 1 1 1␊ => 0; o.csv 1␊2␊3␊; counts 3:3; record 2 0 0 0 0 1 1 1
# the second input first
@union | a.csv: 1␊2␊ | b.csv: 3␊ | r.txt: arrivals 1␊U 1 1 1 0 0 0 0␊ => 0; o.csv 3␊1␊2␊; counts 3:3; record 2 1 1 1 0 0 0 0
# an input that ends between two tuples of the other one
@union | a.csv: 1␊2␊ | b.csv: 3␊ | r.txt: arrivals 1␊U 0 1 1 1 0 0 0␊ => 0; o.csv 1␊3␊2␊; counts 3:3; record 2 0 1 1 1 0 0 0
# no tuples
@union | a.csv: ∅ | b.csv: ∅ | r.txt: arrivals 1␊U 1 0 0 1␊ => 0; o.csv ∅; counts 3:0; record 2 1 0 0 1

# A Union of three streams.
# round after round
@three stream<int64 n> U = Union(A; B; C); () as Out = FileSink(U) {param file: "o.csv";} | a.csv: 1␊2␊ | b.csv: 3␊4␊ | c.csv: 5␊6␊ | r.txt: arrivals 1␊U 0 1 2 0 1 2 0 1 2 0 1 2␊ => 0; o.csv 1␊3␊5␊2␊4␊6␊; counts 4:6; record 3 0 1 2 0 1 2 0 1 2 0 1 2
# the last input first, and the first one last
@three stream<int64 n> U = Union(A; B; C); () as Out = FileSink(U) {param file: "o.csv";} | a.csv: 1␊2␊ | b.csv: 3␊4␊ | c.csv: 5␊6␊ | r.txt: arrivals 1␊U 2 2 2 2 1 1 1 1 0 0 0 0␊ => 0; o.csv 5␊6␊3␊4␊1␊2␊; counts 4:6; record 3 2 2 2 2 1 1 1 1 0 0 0 0
# one that ends in between
@three stream<int64 n> U = Union(A; B; C); () as Out = FileSink(U) {param file: "o.csv";} | a.csv: 1␊2␊ | b.csv: 3␊4␊ | c.csv: 5␊6␊ | r.txt: arrivals 1␊U 1 0 0 2 1 0 0 2 1 1 2 2␊ => 0; o.csv 3␊1␊2␊5␊4␊6␊; counts 4:6; record 3 1 0 0 2 1 0 0 2 1 1 2 2
# one that ends before the others begin
@three stream<int64 n> U = Union(A; B; C); () as Out = FileSink(U) {param file: "o.csv";} | a.csv: 1␊2␊ | b.csv: 3␊4␊ | c.csv: 5␊6␊ | r.txt: arrivals 1␊U 0 0 0 0 2 1 2 1 2 1 2 1␊ => 0; o.csv 1␊2␊5␊3␊6␊4␊; counts 4:6; record 3 0 0 0 0 2 1 2 1 2 1 2 1
# all ends behind the last tuple
@three stream<int64 n> U = Union(A; B; C); () as Out = FileSink(U) {param file: "o.csv";} | a.csv: 1␊2␊ | b.csv: 3␊4␊ | c.csv: 5␊6␊ | r.txt: arrivals 1␊U 2 0 1 1 0 2 0 1 2 2 1 0␊ => 0; o.csv 5␊1␊3␊4␊2␊6␊; counts 4:6; record 3 2 0 1 1 0 2 0 1 2 2 1 0
# two streams at its first port
@three stream<int64 n> U = Union(A, B; C); () as Out = FileSink(U) {param file: "o.csv";} | a.csv: 1␊2␊ | b.csv: 3␊4␊ | c.csv: 5␊6␊ | r.txt: arrivals 1␊U 2 1 0 2 1 0 2 1 0 2 1 0␊ => 0; o.csv 5␊3␊1␊6␊4␊2␊; counts 4:6; record 3 2 1 0 2 1 0 2 1 0 2 1 0
# it passes no window marker, and ends once: a Custom tells 0 for a window marker, and -1 at the end
@three stream<int64 n> U = Union(A; B; C); stream<int64 n> D = Custom(U) {logic onTuple U: {submit(U, D);} onPunct U: {if (currentPunct() == Sys.WindowMarker) submit({n = 0l}, D); else submit({n = -1l}, D);}} () as Out = FileSink(D) {param file: "o.csv";} | a.csv: 1␊2␊ | b.csv: 3␊4␊ | c.csv: 5␊6␊ | r.txt: arrivals 1␊U 0 0 0 0 2 1 2 1 2 1 2 1␊ => 0; o.csv 1␊2␊5␊3␊6␊4␊-1␊; counts 5:7; record 3 0 0 0 0 2 1 2 1 2 1 2 1
# a Filter of three streams passes each where it came
@three stream<int64 n> M = Filter(A, B, C) {param filter: n != 4l;} stream<int64 n> D = Custom(M) {logic onTuple M: {submit(M, D);} onPunct M: {if (currentPunct() == Sys.WindowMarker) submit({n = 0l}, D); else submit({n = -1l}, D);}} () as Out = FileSink(D) {param file: "o.csv";} | a.csv: 1␊2␊ | b.csv: 3␊4␊ | c.csv: 5␊6␊ | r.txt: arrivals 1␊M 2 2 2 0 0 0 1 1 1 0 1 2␊ => 0; o.csv 5␊6␊0␊1␊2␊0␊3␊0␊-1␊; counts 5:9; record 3 2 2 2 0 0 0 1 1 1 0 1 2

# A Join matches a tuple with what the other side holds when it comes.
# the last tuple of each side, in turn
@two stream<int64 a, int64 b> J = Join(S; T) {window S: sliding, count(1); T: sliding, count(1); output J: a = S.n, b = T.n;} () as Out = FileSink(J) {param file: "o.csv";} | s.csv: 1␊2␊3␊ | t.csv: 10␊20␊30␊ | r.txt: arrivals 1␊J 0 1 0 1 0 1 0 1 0 1␊ => 0; o.csv 1,10␊2,10␊2,20␊3,20␊3,30␊; counts 3:5; record 2 0 1 0 1 0 1 0 1 0 1
# one side after the other: it keeps its window past its end
@two stream<int64 a, int64 b> J = Join(S; T) {window S: sliding, count(1); T: sliding, count(1); output J: a = S.n, b = T.n;} () as Out = FileSink(J) {param file: "o.csv";} | s.csv: 1␊2␊3␊ | t.csv: 10␊20␊30␊ | r.txt: arrivals 1␊J 0 0 0 0 0 1 1 1 1 1␊ => 0; o.csv 3,10␊3,20␊3,30␊; counts 3:3; record 2 0 0 0 0 0 1 1 1 1 1
@two stream<int64 a, int64 b> J = Join(S; T) {window S: sliding, count(1); T: sliding, count(1); output J: a = S.n, b = T.n;} () as Out = FileSink(J) {param file: "o.csv";} | s.csv: 1␊2␊3␊ | t.csv: 10␊20␊30␊ | r.txt: arrivals 1␊J 1 1 1 1 1 0 0 0 0 0␊ => 0; o.csv 1,30␊2,30␊3,30␊; counts 3:3; record 2 1 1 1 1 1 0 0 0 0 0
# two of a side between
@two stream<int64 a, int64 b> J = Join(S; T) {window S: sliding, count(1); T: sliding, count(1); output J: a = S.n, b = T.n;} () as Out = FileSink(J) {param file: "o.csv";} | s.csv: 1␊2␊3␊ | t.csv: 10␊20␊30␊ | r.txt: arrivals 1␊J 0 1 1 0 0 1 1 1 0 0␊ => 0; o.csv 1,10␊1,20␊2,20␊3,20␊3,30␊; counts 3:5; record 2 0 1 1 0 0 1 1 1 0 0
# the last two of each side, the oldest first
@two stream<int64 a, int64 b> J = Join(S; T) {window S: sliding, count(2); T: sliding, count(2); output J: a = S.n, b = T.n;} () as Out = FileSink(J) {param file: "o.csv";} | s.csv: 1␊2␊3␊ | t.csv: 10␊20␊30␊ | r.txt: arrivals 1␊J 0 1 0 1 0 1 0 1 0 1␊ => 0; o.csv 1,10␊2,10␊1,20␊2,20␊3,10␊3,20␊2,30␊3,30␊; counts 3:8; record 2 0 1 0 1 0 1 0 1 0 1
@two stream<int64 a, int64 b> J = Join(S; T) {window S: sliding, count(2); T: sliding, count(2); output J: a = S.n, b = T.n;} () as Out = FileSink(J) {param file: "o.csv";} | s.csv: 1␊2␊3␊ | t.csv: 10␊20␊30␊ | r.txt: arrivals 1␊J 1 1 0 0 0 1 1 1 0 0␊ => 0; o.csv 1,10␊1,20␊2,10␊2,20␊3,10␊3,20␊2,30␊3,30␊; counts 3:8; record 2 1 1 0 0 0 1 1 1 0 0
# two of one side and one of the other
@two stream<int64 a, int64 b> J = Join(S; T) {window S: sliding, count(2); T: sliding, count(1); output J: a = S.n, b = T.n;} () as Out = FileSink(J) {param file: "o.csv";} | s.csv: 1␊2␊3␊ | t.csv: 10␊20␊30␊ | r.txt: arrivals 1␊J 1 0 0 1 0 1 1 1 0 0␊ => 0; o.csv 1,10␊2,10␊1,20␊2,20␊3,20␊2,30␊3,30␊; counts 3:7; record 2 1 0 0 1 0 1 1 1 0 0
# none of the side that comes first
@two stream<int64 a, int64 b> J = Join(S; T) {window S: sliding, count(0); T: sliding, count(1); output J: a = S.n, b = T.n;} () as Out = FileSink(J) {param file: "o.csv";} | s.csv: 1␊2␊3␊ | t.csv: 10␊20␊30␊ | r.txt: arrivals 1␊J 0 1 0 0 1 1 1 1 0 0␊ => 0; o.csv 2,10␊3,10␊; counts 3:2; record 2 0 1 0 0 1 1 1 1 0 0
# those that are near enough to the newest one of their side
@two stream<int64 a, int64 b> J = Join(S; T) {window S: sliding, delta(n, 5l); T: sliding, delta(n, 10l); output J: a = S.n, b = T.n;} () as Out = FileSink(J) {param file: "o.csv";} | s.csv: 0␊5␊6␊ | t.csv: 1␊11␊12␊ | r.txt: arrivals 1␊J 0 1 0 1 0 1 0 1 0 1␊ => 0; o.csv 0,1␊5,1␊0,11␊5,11␊6,1␊6,11␊5,12␊6,12␊; counts 3:8; record 2 0 1 0 1 0 1 0 1 0 1
@two stream<int64 a, int64 b> J = Join(S; T) {window S: sliding, delta(n, 5l); T: sliding, delta(n, 10l); output J: a = S.n, b = T.n;} () as Out = FileSink(J) {param file: "o.csv";} | s.csv: 0␊5␊6␊ | t.csv: 1␊11␊12␊ | r.txt: arrivals 1␊J 0 0 1 1 1 0 1 1 0 0␊ => 0; o.csv 0,1␊5,1␊0,11␊5,11␊0,12␊5,12␊6,11␊6,12␊; counts 3:8; record 2 0 0 1 1 1 0 1 1 0 0
# values that fall
@two stream<int64 a, int64 b> J = Join(S; T) {window S: sliding, delta(n, 5l); T: sliding, delta(n, 10l); output J: a = S.n, b = T.n;} () as Out = FileSink(J) {param file: "o.csv";} | s.csv: 6␊0␊5␊ | t.csv: 12␊1␊11␊ | r.txt: arrivals 1␊J 0 1 0 1 0 1 0 1 0 1␊ => 0; o.csv 6,12␊0,12␊6,1␊0,1␊5,12␊5,1␊6,11␊0,11␊5,11␊; counts 3:9; record 2 0 1 0 1 0 1 0 1 0 1
# texts that match
@join window L: sliding, count(0); R: sliding, count(2); param match: L.k == R.k; output J: k = L.k; | l.csv: a␊ | r.csv: a,1␊a,1␊b,5␊ | r.txt: arrivals 1␊J 1 1 0 1 0 0 1 1␊ => 0; o.csv a,1␊a,1␊; counts 3:2; record 2 1 1 0 1 0 0 1 1
@join window L: sliding, count(0); R: sliding, count(2); param match: L.k == R.k; output J: k = L.k; | l.csv: a␊ | r.csv: a,1␊a,1␊b,5␊ | r.txt: arrivals 1␊J 1 1 1 0 0 0 1 1␊ => 0; o.csv a,1␊; counts 3:1; record 2 1 1 1 0 0 0 1 1
"#;

/// Other operators with several streams, several such operators, faults, and the names of the file.
pub(crate) const REPLAYS: &str = r#"
# A program without an operator of several streams has a record without a line.
@first | t.csv: 5␊10␊11␊ | r.txt: arrivals 1␊ => 0; o.csv 11␊; counts 2:1
@pair | a.csv: 1␊2␊ | b.csv: 3␊ | r.txt: arrivals 1␊ => 0; x.csv 1␊2␊; y.csv 3␊; counts 2:2 3:1
# a source alone
@source | t.csv: 1␊ | r.txt: arrivals 1␊ => 0
# no operator
composite A { } | r.txt: arrivals 1␊ => 0
# a Union of one stream
@op int64 n → stream<int64 n> B = Union(T); | t.csv: 3␊1␊ | r.txt: arrivals 1␊ => 0; o.csv 3␊1␊; counts 2:2
# a fault
@first | t.csv: 20␊x␊30␊ | r.txt: arrivals 1␊ => 3 stopped T BadRow line 2␊; o.csv 20␊; counts 2:1

# Several streams at a port.
# at a sink
@two () as Out = FileSink(S, T) {param file: "o.csv";} | s.csv: 1␊ | t.csv: 2␊3␊ | r.txt: arrivals 1␊Out 1 0 1 0 0 1 1␊ => 0; o.csv 2␊1␊3␊; counts 2:3; record 2 1 0 1 0 0 1 1
# a stream twice
@source () as Out = FileSink(T, T) {param file: "o.csv";} | t.csv: 1␊2␊ | r.txt: arrivals 1␊Out 0 1 1 0 0 0 1 1␊ => 0; o.csv 1␊1␊2␊2␊; counts 1:4; record 1 0 1 1 0 0 0 1 1
# so many that an input has two digits
@two () as Out = FileSink(S, S, S, S, S, S, S, S, S, S, T) {param file: "o.csv";} | s.csv: 1␊ | t.csv: 2␊ | r.txt: arrivals 1␊Out 10 0 1 2 3 4 5 6 7 8 9 10 10 0 0 1 1 2 2 3 3 4 4 5 5 6 6 7 7 8 8 9 9␊ => 0; o.csv 2␊1␊1␊1␊1␊1␊1␊1␊1␊1␊1␊; counts 2:11; record 2 10 0 1 2 3 4 5 6 7 8 9 10 10 0 0 1 1 2 2 3 3 4 4 5 5 6 6 7 7 8 8 9 9
# those of a composite's input
composite C(output O; input I) {graph stream<I> O = Filter(I);} composite Main {graph stream<int64 n> S = FileSource() {param file: "s.csv";} stream<int64 n> T = FileSource() {param file: "t.csv";} stream<int64 n> A = C(S, T); () as Out = FileSink(A) {param file: "o.csv";}} | s.csv: 1␊ | t.csv: 2␊3␊ | r.txt: arrivals 1␊A.O 1 0 0 1 1 1 0␊ => 0; o.csv 2␊1␊3␊; counts 3:3; record 2 1 0 0 1 1 1 0
# an alias
@two stream<int64 n> B as Check = Filter(S, T); () as Out = FileSink(B) {param file: "o.csv";} | s.csv: 1␊ | t.csv: 2␊3␊ | r.txt: arrivals 1␊Check 1 0 0 1 1 1 0␊ => 0; o.csv 2␊1␊3␊; counts 3:3; record 2 1 0 0 1 1 1 0
# what a window holds when a marker comes: both streams' tuples,
@two stream<int64 s, int32 c> G = Aggregate(S, T) {window S: tumbling, punct(); output G: s = Sum(n), c = Count();} () as Out = FileSink(G) {param file: "o.csv";} | s.csv: 1␊2␊ | t.csv: 10␊ | r.txt: arrivals 1␊G 0 1 0 0 1 0 1␊ => 0; o.csv 13,3␊; counts 3:1; record 2 0 1 0 0 1 0 1
# those of one and then of the other,
@two stream<int64 s, int32 c> G = Aggregate(S, T) {window S: tumbling, punct(); output G: s = Sum(n), c = Count();} () as Out = FileSink(G) {param file: "o.csv";} | s.csv: 1␊2␊ | t.csv: 10␊ | r.txt: arrivals 1␊G 1 1 0 0 0 0 1␊ => 0; o.csv 10,1␊3,2␊; counts 3:2; record 2 1 1 0 0 0 0 1
# or one of each and then the other one
@two stream<int64 s, int32 c> G = Aggregate(S, T) {window S: tumbling, punct(); output G: s = Sum(n), c = Count();} () as Out = FileSink(G) {param file: "o.csv";} | s.csv: 1␊2␊ | t.csv: 10␊ | r.txt: arrivals 1␊G 0 1 1 0 0 0 1␊ => 0; o.csv 11,2␊2,1␊; counts 3:2; record 2 0 1 1 0 0 0 1
# a stream that nobody reads
@two stream<int64 n> U = Union(S; T); () as Out = FileSink(S) {param file: "o.csv";} | s.csv: 1␊ | t.csv: 2␊ | r.txt: arrivals 1␊U 1 0 0 0 1 1␊ => 0; o.csv 1␊; counts 3:1; record 2 1 0 0 0 1 1

# A Custom with two ports, of which one has two streams.
# ports that end in their order
@three stream<rstring from, int64 n> D = Custom(A, B as P; C) {logic onTuple P: {submit({from = "P", n = n}, D);} onTuple C: {submit({from = "C", n = n}, D);} onPunct P: {if (currentPunct() == Sys.WindowMarker) submit({from = "window of P", n = 0l}, D); else submit({from = "P ends", n = 0l}, D);} onPunct C: {if (currentPunct() == Sys.WindowMarker) submit({from = "window of C", n = 0l}, D); else submit({from = "C ends", n = 0l}, D);}} () as Out = FileSink(D) {param file: "o.csv";} | a.csv: 1␊ | b.csv: 2␊ | c.csv: 3␊ | r.txt: arrivals 1␊D 1 2 0 0 1 0 2 1 2␊ => 0; o.csv P,2␊C,3␊P,1␊window of P,0␊window of P,0␊window of C,0␊P ends,0␊C ends,0␊; counts 4:8; record 3 1 2 0 0 1 0 2 1 2
# the second port ends first
@three stream<rstring from, int64 n> D = Custom(A, B as P; C) {logic onTuple P: {submit({from = "P", n = n}, D);} onTuple C: {submit({from = "C", n = n}, D);} onPunct P: {if (currentPunct() == Sys.WindowMarker) submit({from = "window of P", n = 0l}, D); else submit({from = "P ends", n = 0l}, D);} onPunct C: {if (currentPunct() == Sys.WindowMarker) submit({from = "window of C", n = 0l}, D); else submit({from = "C ends", n = 0l}, D);}} () as Out = FileSink(D) {param file: "o.csv";} | a.csv: 1␊ | b.csv: 2␊ | c.csv: 3␊ | r.txt: arrivals 1␊D 2 2 2 0 0 0 1 1 1␊ => 0; o.csv C,3␊window of C,0␊C ends,0␊P,1␊window of P,0␊P,2␊window of P,0␊P ends,0␊; counts 4:8; record 3 2 2 2 0 0 0 1 1 1

# Operators with several streams one behind the other.
# two Unions
@unions | a.csv: 1␊ | b.csv: 2␊ | c.csv: 3␊ | r.txt: arrivals 1␊U 1 0 0 1 1 0␊V 0 1 0 1 1 0␊ => 0; o.csv 2␊3␊1␊; counts 5:3; record 3 1 0 0 1 1 0; record 4 0 1 0 1 1 0
@unions | a.csv: 1␊ | b.csv: 2␊ | c.csv: 3␊ | r.txt: arrivals 1␊U 0 0 0 1 1 1␊V 1 1 1 0 0 0␊ => 0; o.csv 3␊1␊2␊; counts 5:3; record 3 0 0 0 1 1 1; record 4 1 1 1 0 0 0
# the later one is declared first, and so has the first line
@three stream<int64 n> V = Union(U; C); stream<int64 n> U = Union(A; B); () as Out = FileSink(V) {param file: "o.csv";} | a.csv: 1␊ | b.csv: 2␊ | c.csv: 3␊ | r.txt: arrivals 1␊V 0 1 0 1 1 0␊U 1 0 0 1 1 0␊ => 0; o.csv 2␊3␊1␊; counts 5:3; record 3 0 1 0 1 1 0; record 4 1 0 0 1 1 0
# a Functor, which passes each window marker, and a sink
@two stream<int64 n> F = Functor(T, S) {output F: n = n * 2l;} () as X = FileSink(S, F) {param file: "x.csv";} | s.csv: 1␊ | t.csv: 2␊3␊ | r.txt: arrivals 1␊F 1 0 0 1 0 1 0␊X 1 0 1 1 0 1 1 0 1␊ => 0; x.csv 2␊1␊4␊6␊; counts 3:4; record 2 1 0 0 1 0 1 0; record 3 1 0 1 1 0 1 1 0 1
@two stream<int64 n> F = Functor(T, S) {output F: n = n * 2l;} () as X = FileSink(S, F) {param file: "x.csv";} | s.csv: 1␊ | t.csv: 2␊3␊ | r.txt: arrivals 1␊F 0 0 0 0 1 1 1␊X 0 0 0 1 1 1 1 1 1␊ => 0; x.csv 1␊4␊6␊2␊; counts 3:4; record 2 0 0 0 0 1 1 1; record 3 0 0 0 1 1 1 1 1 1

# A fault ends an operator, and its record.
# a bad row of the first source
@union | a.csv: 1␊x␊ | b.csv: 3␊ | r.txt: arrivals 1␊U 1 0 0␊ => 3 stopped A BadRow line 2␊; o.csv 3␊1␊; counts 3:2; record 2 1 0 0
@union | a.csv: 1␊x␊ | b.csv: 3␊ | r.txt: arrivals 1␊U 0 0␊ => 3 stopped A BadRow line 2␊; o.csv 1␊; counts 3:1; record 2 0 0
@union | a.csv: x␊ | b.csv: 3␊ | r.txt: arrivals 1␊U 0␊ => 3 stopped A BadRow line 1␊; o.csv ∅; counts 3:0; record 2 0
# behind the end of the other source
@union | a.csv: 1␊x␊ | b.csv: 3␊ | r.txt: arrivals 1␊U 1 1 1 0 0␊ => 3 stopped A BadRow line 2␊; o.csv 3␊1␊; counts 3:2; record 2 1 1 1 0 0
# bad rows of both sources: that one is told which came
@union | a.csv: 1␊x␊ | b.csv: 3␊y␊ | r.txt: arrivals 1␊U 1 0 0␊ => 3 stopped A BadRow line 2␊; o.csv 3␊1␊; counts 3:2; record 2 1 0 0
@union | a.csv: 1␊x␊ | b.csv: 3␊y␊ | r.txt: arrivals 1␊U 0 1 1␊ => 3 stopped B BadRow line 2␊; o.csv 1␊3␊; counts 3:2; record 2 0 1 1
# at a sink
@two () as Out = FileSink(S, T) {param file: "o.csv";} | s.csv: 1␊x␊ | t.csv: 2␊ | r.txt: arrivals 1␊Out 1 0 0␊ => 3 stopped S BadRow line 2␊; o.csv 2␊1␊; counts 2:2; record 2 1 0 0
# a source that can't be read to its end
@union | a.csv: 1␊2␊ | b.csv: 3␊ | fail read 2 a.csv | r.txt: arrivals 1␊U 0 0 1 0␊ => 3 stopped A ReadFailed line 3␊; o.csv 1␊2␊3␊; counts 3:3; record 2 0 0 1 0
# of the operator itself
@two stream<int64 n> B = Filter(S, T) {param filter: 10l / n > 1l;} () as Out = FileSink(B) {param file: "o.csv";} | s.csv: 1␊0␊ | t.csv: 2␊ | r.txt: arrivals 1␊B 1 0 0␊ => 3 stopped B DivZero␊; o.csv 2␊1␊; counts 3:2; record 2 1 0 0
@two stream<int64 n> B = Filter(S, T) {param filter: 10l / n > 1l;} () as Out = FileSink(B) {param file: "o.csv";} | s.csv: 1␊0␊ | t.csv: 2␊ | r.txt: arrivals 1␊B 0 0␊ => 3 stopped B DivZero␊; o.csv 1␊; counts 3:1; record 2 0 0
# one that the order decides
@two stream<int64 n> D = Custom(S; T) {logic state: mutable int64 sum = 0l; onTuple S: {sum += n;} onTuple T: {submit({n = n / sum}, D);}} () as Out = FileSink(D) {param file: "o.csv";} | s.csv: 2␊ | t.csv: 10␊20␊ | r.txt: arrivals 1␊D 0 1 1 0 0 1 1␊ => 0; o.csv 5␊10␊; counts 3:2; record 2 0 1 1 0 0 1 1
@two stream<int64 n> D = Custom(S; T) {logic state: mutable int64 sum = 0l; onTuple S: {sum += n;} onTuple T: {submit({n = n / sum}, D);}} () as Out = FileSink(D) {param file: "o.csv";} | s.csv: 2␊ | t.csv: 10␊20␊ | r.txt: arrivals 1␊D 1␊ => 3 stopped D DivZero␊; o.csv ∅; counts 3:0; record 2 1
# it ends the operator behind too
@unions | a.csv: 1␊x␊ | b.csv: 2␊ | c.csv: 3␊ | r.txt: arrivals 1␊U 1 0 0␊V 0 1 0 0␊ => 3 stopped A BadRow line 2␊; o.csv 2␊3␊1␊; counts 5:3; record 3 1 0 0; record 4 0 1 0 0

# The record's file has any name, and may be a source's.
@first | t.csv: 5␊10␊11␊ | r.txt: arrivals 1␊ | $ replay --arrivals=r.txt p.spl => 0; o.csv 11␊; counts 2:1
@first | t.csv: 5␊10␊11␊ | r.txt: arrivals 1␊ | $ replay p.spl --arrivals=r.txt => 0; o.csv 11␊; counts 2:1
@first | t.csv: 5␊10␊11␊ | replay: arrivals 1␊ | $ replay p.spl --arrivals replay => 0; o.csv 11␊; counts 2:1
@first | t.csv: 5␊10␊11␊ | $ replay p.spl --arrivals t.csv => 7 bad arrivals␊
# one that is a source too
composite Main {graph stream<rstring s> A = FileSource() {param file: "r.txt";} stream<rstring s> B = FileSource() {param file: "b.csv";} stream<rstring s> U = Union(A; B); () as Out = FileSink(U) {param file: "o.csv";}} | b.csv: x␊ | r.txt: arrivals 1␊U 1 0 0 1 0 0 1␊ => 0; o.csv x␊arrivals 1␊U 1 0 0 1 0 0 1␊; counts 3:3; record 2 1 0 0 1 0 0 1
# a sink has another file than the record
@source () as Out = FileSink(T) {param file: "a.txt";} | t.csv: 1␊ | r.txt: arrivals 1␊ => 0; a.txt 1␊; counts 1:1
"#;

/// Records of 100,000 events and more.
pub(crate) const LONG_RECORDS: &str = r#"
# Two inputs in turn. A Custom counts where a tuple came out of turn.
@two stream<int64 n> D = Custom(S; T) {logic state: {mutable int64 s = 0l; mutable int64 t = 0l; mutable int64 wrong = 0l;} onTuple S: {if (s != t) wrong += 1l; s += 1l;} onTuple T: {t += 1l; if (s != t) wrong += 1l;} onPunct T: {if (currentPunct() == Sys.FinalMarker) {submit({n = wrong}, D); submit({n = s + t}, D);}}} () as Out = FileSink(D) {param file: "o.csv";} | s.csv: @times 49998 1␊ | t.csv: @times 49998 2␊ | r.txt: arrivals 1␊D«0 50000  0 1»␊ => 0; o.csv 0␊99996␊; counts 3:2; record 2 of 100000 inputs
# in pairs
@two stream<int64 n> D = Custom(S; T) {logic state: {mutable int64 s = 0l; mutable int64 t = 0l; mutable int64 wrong = 0l;} onTuple S: {if (s != t) wrong += 1l; s += 1l;} onTuple T: {t += 1l; if (s != t) wrong += 1l;} onPunct T: {if (currentPunct() == Sys.FinalMarker) {submit({n = wrong}, D); submit({n = s + t}, D);}}} () as Out = FileSink(D) {param file: "o.csv";} | s.csv: @times 49998 1␊ | t.csv: @times 49998 2␊ | r.txt: arrivals 1␊D«0 25000  0 0 1 1»␊ => 0; o.csv 49998␊99996␊; counts 3:2; record 2 of 100000 inputs
# without the last entry, with one more, and with one that isn't an input
@two stream<int64 n> D = Custom(S; T) {logic state: {mutable int64 s = 0l; mutable int64 t = 0l; mutable int64 wrong = 0l;} onTuple S: {if (s != t) wrong += 1l; s += 1l;} onTuple T: {t += 1l; if (s != t) wrong += 1l;} onPunct T: {if (currentPunct() == Sys.FinalMarker) {submit({n = wrong}, D); submit({n = s + t}, D);}}} () as Out = FileSink(D) {param file: "o.csv";} | s.csv: @times 49998 1␊ | t.csv: @times 49998 2␊ | r.txt: arrivals 1␊D«0 49999  0 1» 0␊ => 7 bad arrivals at D␊
@two stream<int64 n> D = Custom(S; T) {logic state: {mutable int64 s = 0l; mutable int64 t = 0l; mutable int64 wrong = 0l;} onTuple S: {if (s != t) wrong += 1l; s += 1l;} onTuple T: {t += 1l; if (s != t) wrong += 1l;} onPunct T: {if (currentPunct() == Sys.FinalMarker) {submit({n = wrong}, D); submit({n = s + t}, D);}}} () as Out = FileSink(D) {param file: "o.csv";} | s.csv: @times 49998 1␊ | t.csv: @times 49998 2␊ | r.txt: arrivals 1␊D«0 50000  0 1» 0␊ => 7 bad arrivals at D␊
@two stream<int64 n> D = Custom(S; T) {logic state: {mutable int64 s = 0l; mutable int64 t = 0l; mutable int64 wrong = 0l;} onTuple S: {if (s != t) wrong += 1l; s += 1l;} onTuple T: {t += 1l; if (s != t) wrong += 1l;} onPunct T: {if (currentPunct() == Sys.FinalMarker) {submit({n = wrong}, D); submit({n = s + t}, D);}}} () as Out = FileSink(D) {param file: "o.csv";} | s.csv: @times 49998 1␊ | t.csv: @times 49998 2␊ | r.txt: arrivals 1␊D«0 50000  0 1» 2␊ => 7 bad arrivals␊
# a Union of them
@two stream<int64 n> U = Union(S; T); () as Out = FileSink(U) {param file: "o.csv";} | s.csv: @times 49998 1␊ | t.csv: @times 49998 2␊ | r.txt: arrivals 1␊U«0 50000  1 0»␊ => 0; o.csv of 199992 bytes; counts 3:99996; record 2 of 100000 inputs
# a megabyte of entries
@two stream<int64 n> U = Union(S; T); () as Out = FileSink(U) {param file: "o.csv";} | s.csv: @times 262142 1␊ | t.csv: @times 262142 2␊ | r.txt: arrivals 1␊U«0 262144  1 0»␊ => 0; o.csv of 1048568 bytes; counts 3:524284; record 2 of 524288 inputs
"#;

/// Files that spell no record of their program.
pub(crate) const RECORDS: &str = r#"
# A record without an operator is one line.
@first | t.csv: 5␊10␊11␊ | r.txt: ∅ => 7 bad arrivals␊
@first | t.csv: 5␊10␊11␊ | r.txt: arrivals 1 => 7 bad arrivals␊
@first | t.csv: 5␊10␊11␊ | r.txt: arrivals 1␊␊ => 7 bad arrivals␊
@first | t.csv: 5␊10␊11␊ | r.txt: arrivals 1␊B 0␊ => 7 bad arrivals␊
@first | t.csv: 5␊10␊11␊ | r.txt: arrivals 1␊Out 0 0 0 0␊ => 7 bad arrivals␊
@first | t.csv: 5␊10␊11␊ | r.txt: arrivals 1␊arrivals 1␊ => 7 bad arrivals␊
@first | t.csv: 5␊10␊11␊ | r.txt: 5␊10␊11␊ => 7 bad arrivals␊
composite A { } | r.txt: ∅ => 7 bad arrivals␊

# A record is cut short.
@union | a.csv: 1␊2␊ | b.csv: 3␊ | r.txt: ∅ => 7 bad arrivals␊
@union | a.csv: 1␊2␊ | b.csv: 3␊ | r.txt: arrivals => 7 bad arrivals␊
@union | a.csv: 1␊2␊ | b.csv: 3␊ | r.txt: arrivals 1 => 7 bad arrivals␊
@union | a.csv: 1␊2␊ | b.csv: 3␊ | r.txt: arrivals 1␊ => 7 bad arrivals␊
@union | a.csv: 1␊2␊ | b.csv: 3␊ | r.txt: arrivals 1␊U => 7 bad arrivals␊
@union | a.csv: 1␊2␊ | b.csv: 3␊ | r.txt: arrivals 1␊U␊ => 7 bad arrivals␊
@union | a.csv: 1␊2␊ | b.csv: 3␊ | r.txt: arrivals 1␊U 0 1 0 0 0 1 1 => 7 bad arrivals␊
@union | a.csv: 1␊2␊ | b.csv: 3␊ | r.txt: U 0 1 0 0 0 1 1␊ => 7 bad arrivals␊

# It goes on.
@union | a.csv: 1␊2␊ | b.csv: 3␊ | r.txt: arrivals 1␊U 0 1 0 0 0 1 1␊␊ => 7 bad arrivals␊
@union | a.csv: 1␊2␊ | b.csv: 3␊ | r.txt: arrivals 1␊U 0 1 0 0 0 1 1␊U 0 1 0 0 0 1 1␊ => 7 bad arrivals␊
@union | a.csv: 1␊2␊ | b.csv: 3␊ | r.txt: arrivals 1␊U 0 1 0 0 0 1 1␊Out 0 0 0 0␊ => 7 bad arrivals␊
@union | a.csv: 1␊2␊ | b.csv: 3␊ | r.txt: arrivals 1␊U 0 1 0 0 0 1 1␊x => 7 bad arrivals␊
@union | a.csv: 1␊2␊ | b.csv: 3␊ | r.txt: arrivals 1␊U 0 1 0 0 0 1 1␊␀ => 7 bad arrivals␊

# It has another operator.
@union | a.csv: 1␊2␊ | b.csv: 3␊ | r.txt: arrivals 1␊V 0 1 0 0 0 1 1␊ => 7 bad arrivals␊
@union | a.csv: 1␊2␊ | b.csv: 3␊ | r.txt: arrivals 1␊UU 0 1 0 0 0 1 1␊ => 7 bad arrivals␊
@union | a.csv: 1␊2␊ | b.csv: 3␊ | r.txt: arrivals 1␊u 0 1 0 0 0 1 1␊ => 7 bad arrivals␊
@union | a.csv: 1␊2␊ | b.csv: 3␊ | r.txt: arrivals 1␊2 0 1 0 0 0 1 1␊ => 7 bad arrivals␊
@union | a.csv: 1␊2␊ | b.csv: 3␊ | r.txt: arrivals 1␊␣0 1 0 0 0 1 1␊ => 7 bad arrivals␊
@union | a.csv: 1␊2␊ | b.csv: 3␊ | r.txt: arrivals 1␊0 1 0 0 0 1 1␊ => 7 bad arrivals␊
@union | a.csv: 1␊2␊ | b.csv: 3␊ | r.txt: arrivals 1␊Out 0 1 0 0 0 1 1␊U 0 1 0 0 0 1 1␊ => 7 bad arrivals␊
# the name within the composite, and the operator's stream, are none
composite C(output O; input I) {graph stream<I> O = Filter(I);} composite Main {graph stream<int64 n> S = FileSource() {param file: "s.csv";} stream<int64 n> T = FileSource() {param file: "t.csv";} stream<int64 n> A = C(S, T); () as Out = FileSink(A) {param file: "o.csv";}} | s.csv: 1␊ | t.csv: 2␊3␊ | r.txt: arrivals 1␊A 1 0 0 1 1 1 0␊ => 7 bad arrivals␊
composite C(output O; input I) {graph stream<I> O = Filter(I);} composite Main {graph stream<int64 n> S = FileSource() {param file: "s.csv";} stream<int64 n> T = FileSource() {param file: "t.csv";} stream<int64 n> A = C(S, T); () as Out = FileSink(A) {param file: "o.csv";}} | s.csv: 1␊ | t.csv: 2␊3␊ | r.txt: arrivals 1␊O 1 0 0 1 1 1 0␊ => 7 bad arrivals␊
@two stream<int64 n> B as Check = Filter(S, T); () as Out = FileSink(B) {param file: "o.csv";} | s.csv: 1␊ | t.csv: 2␊3␊ | r.txt: arrivals 1␊B 1 0 0 1 1 1 0␊ => 7 bad arrivals␊

# Of two operators one is missing, without numbers or twice there, or both are in another order.
@unions | a.csv: 1␊ | b.csv: 2␊ | c.csv: 3␊ | r.txt: arrivals 1␊U 1 0 0 1 1 0␊ => 7 bad arrivals␊
@unions | a.csv: 1␊ | b.csv: 2␊ | c.csv: 3␊ | r.txt: arrivals 1␊V 0 1 0 1 1 0␊ => 7 bad arrivals␊
@unions | a.csv: 1␊ | b.csv: 2␊ | c.csv: 3␊ | r.txt: arrivals 1␊U 1 0 0 1 1 0␊V␊ => 7 bad arrivals␊
@unions | a.csv: 1␊ | b.csv: 2␊ | c.csv: 3␊ | r.txt: arrivals 1␊U␊V 0 1 0 1 1 0␊ => 7 bad arrivals␊
@unions | a.csv: 1␊ | b.csv: 2␊ | c.csv: 3␊ | r.txt: arrivals 1␊U 1 0 0 1 1 0␊U 1 0 0 1 1 0␊ => 7 bad arrivals␊
@unions | a.csv: 1␊ | b.csv: 2␊ | c.csv: 3␊ | r.txt: arrivals 1␊U 1 0 0 1 1 0␊U 1 0 0 1 1 0␊V 0 1 0 1 1 0␊ => 7 bad arrivals␊
@unions | a.csv: 1␊ | b.csv: 2␊ | c.csv: 3␊ | r.txt: arrivals 1␊V 0 1 0 1 1 0␊U 1 0 0 1 1 0␊ => 7 bad arrivals␊
@unions | a.csv: 1␊ | b.csv: 2␊ | c.csv: 3␊ | r.txt: arrivals 1␊U 1 0 0 1 1 0 V 0 1 0 1 1 0␊ => 7 bad arrivals␊
# the order of the operators is that of the program
@three stream<int64 n> V = Union(U; C); stream<int64 n> U = Union(A; B); () as Out = FileSink(V) {param file: "o.csv";} | a.csv: 1␊ | b.csv: 2␊ | c.csv: 3␊ | r.txt: arrivals 1␊U 1 0 0 1 1 0␊V 0 1 0 1 1 0␊ => 7 bad arrivals␊

# A number isn't that of an input.
@union | a.csv: 1␊2␊ | b.csv: 3␊ | r.txt: arrivals 1␊U 0 2 0 0 0 1 1␊ => 7 bad arrivals␊
@union | a.csv: 1␊2␊ | b.csv: 3␊ | r.txt: arrivals 1␊U 2␊ => 7 bad arrivals␊
@union | a.csv: 1␊2␊ | b.csv: 3␊ | r.txt: arrivals 1␊U 0 1 0 0 0 1 10␊ => 7 bad arrivals␊
@union | a.csv: 1␊2␊ | b.csv: 3␊ | r.txt: arrivals 1␊U 0 1 0 0 0 1 4294967297␊ => 7 bad arrivals␊
@union | a.csv: 1␊2␊ | b.csv: 3␊ | r.txt: arrivals 1␊U 18446744073709551616 1 0 0 0 1 1␊ => 7 bad arrivals␊
@union | a.csv: 1␊2␊ | b.csv: 3␊ | r.txt: arrivals 1␊U 0 1 0 0 0 1 1«0 1000 0»␊ => 7 bad arrivals␊
@two () as Out = FileSink(S, S, S, S, S, S, S, S, S, S, T) {param file: "o.csv";} | s.csv: 1␊ | t.csv: 2␊ | r.txt: arrivals 1␊Out 11␊ => 7 bad arrivals␊
# inputs are those of the operator, and not of another one with more
@three stream<int64 n> U = Union(A; B); stream<int64 n> V = Union(A; B; C); | a.csv: 1␊ | b.csv: 2␊ | c.csv: 3␊ | r.txt: arrivals 1␊U 0 0 0 1 1 2␊V 0 0 0 1 1 1 2 2 2␊ => 7 bad arrivals␊

# Or it isn't written as one.
# a zero in front
@union | a.csv: 1␊2␊ | b.csv: 3␊ | r.txt: arrivals 1␊U 00 1 0 0 0 1 1␊ => 7 bad arrivals␊
@union | a.csv: 1␊2␊ | b.csv: 3␊ | r.txt: arrivals 1␊U 0 01 0 0 0 1 1␊ => 7 bad arrivals␊
@union | a.csv: 1␊2␊ | b.csv: 3␊ | r.txt: arrivals 1␊U 0 1 0 0 0 1 0000000001␊ => 7 bad arrivals␊
@two () as Out = FileSink(S, S, S, S, S, S, S, S, S, S, T) {param file: "o.csv";} | s.csv: 1␊ | t.csv: 2␊ | r.txt: arrivals 1␊Out 010␊ => 7 bad arrivals␊
# a sign
@union | a.csv: 1␊2␊ | b.csv: 3␊ | r.txt: arrivals 1␊U -0 1 0 0 0 1 1␊ => 7 bad arrivals␊
@union | a.csv: 1␊2␊ | b.csv: 3␊ | r.txt: arrivals 1␊U 0 -1 0 0 0 1 1␊ => 7 bad arrivals␊
@union | a.csv: 1␊2␊ | b.csv: 3␊ | r.txt: arrivals 1␊U +0 1 0 0 0 1 1␊ => 7 bad arrivals␊
# no digits
@union | a.csv: 1␊2␊ | b.csv: 3␊ | r.txt: arrivals 1␊U 0 1 0 0 0 1 x␊ => 7 bad arrivals␊
@union | a.csv: 1␊2␊ | b.csv: 3␊ | r.txt: arrivals 1␊U 0 1 0 0 0 1 1x␊ => 7 bad arrivals␊
@union | a.csv: 1␊2␊ | b.csv: 3␊ | r.txt: arrivals 1␊U 0,1,0,0,0,1,1␊ => 7 bad arrivals␊
@union | a.csv: 1␊2␊ | b.csv: 3␊ | r.txt: arrivals 1␊U 0 1. 0 0 0 1 1␊ => 7 bad arrivals␊
@union | a.csv: 1␊2␊ | b.csv: 3␊ | r.txt: arrivals 1␊U 0*1 1*1 0*3 1*2␊ => 7 bad arrivals␊

# It has one blank before each number, and no other.
# two
@union | a.csv: 1␊2␊ | b.csv: 3␊ | r.txt: arrivals 1␊U 0␣␣1 0 0 0 1 1␊ => 7 bad arrivals␊
@union | a.csv: 1␊2␊ | b.csv: 3␊ | r.txt: arrivals 1␊U␣␣0 1 0 0 0 1 1␊ => 7 bad arrivals␊
@union | a.csv: 1␊2␊ | b.csv: 3␊ | r.txt: arrivals␣␣1␊U 0 1 0 0 0 1 1␊ => 7 bad arrivals␊
# in front, and at the end
@union | a.csv: 1␊2␊ | b.csv: 3␊ | r.txt: ␣arrivals 1␊U 0 1 0 0 0 1 1␊ => 7 bad arrivals␊
@union | a.csv: 1␊2␊ | b.csv: 3␊ | r.txt: arrivals 1␊␣U 0 1 0 0 0 1 1␊ => 7 bad arrivals␊
@union | a.csv: 1␊2␊ | b.csv: 3␊ | r.txt: arrivals 1␊U 0 1 0 0 0 1 1␣␊ => 7 bad arrivals␊
@union | a.csv: 1␊2␊ | b.csv: 3␊ | r.txt: arrivals 1␣␊U 0 1 0 0 0 1 1␊ => 7 bad arrivals␊
@union | a.csv: 1␊2␊ | b.csv: 3␊ | r.txt: arrivals 1␊U␣␊ => 7 bad arrivals␊
@union | a.csv: 1␊2␊ | b.csv: 3␊ | r.txt: arrivals 1␊U 0 1 0 0 0 1 1␊␣ => 7 bad arrivals␊
# none
@union | a.csv: 1␊2␊ | b.csv: 3␊ | r.txt: arrivals 1␊U0 1 0 0 0 1 1␊ => 7 bad arrivals␊
@union | a.csv: 1␊2␊ | b.csv: 3␊ | r.txt: arrivals 1␊U 01 0 0 0 1 1␊ => 7 bad arrivals␊
@union | a.csv: 1␊2␊ | b.csv: 3␊ | r.txt: arrivals1␊U 0 1 0 0 0 1 1␊ => 7 bad arrivals␊
# a tab
@union | a.csv: 1␊2␊ | b.csv: 3␊ | r.txt: arrivals 1␊U␉0 1 0 0 0 1 1␊ => 7 bad arrivals␊
@union | a.csv: 1␊2␊ | b.csv: 3␊ | r.txt: arrivals 1␊U 0 1␉0 0 0 1 1␊ => 7 bad arrivals␊
@union | a.csv: 1␊2␊ | b.csv: 3␊ | r.txt: arrivals␉1␊U 0 1 0 0 0 1 1␊ => 7 bad arrivals␊

# Its lines end with a line feed each, and none is empty.
@union | a.csv: 1␊2␊ | b.csv: 3␊ | r.txt: arrivals 1␍␊U 0 1 0 0 0 1 1␍␊ => 7 bad arrivals␊
@union | a.csv: 1␊2␊ | b.csv: 3␊ | r.txt: arrivals 1␊U 0 1 0 0 0 1 1␍␊ => 7 bad arrivals␊
@union | a.csv: 1␊2␊ | b.csv: 3␊ | r.txt: arrivals 1␍␊U 0 1 0 0 0 1 1␊ => 7 bad arrivals␊
@union | a.csv: 1␊2␊ | b.csv: 3␊ | r.txt: arrivals 1␍U 0 1 0 0 0 1 1␍ => 7 bad arrivals␊
@union | a.csv: 1␊2␊ | b.csv: 3␊ | r.txt: arrivals 1␊␊U 0 1 0 0 0 1 1␊ => 7 bad arrivals␊
@union | a.csv: 1␊2␊ | b.csv: 3␊ | r.txt: ␊arrivals 1␊U 0 1 0 0 0 1 1␊ => 7 bad arrivals␊
@union | a.csv: 1␊2␊ | b.csv: 3␊ | r.txt: arrivals 1␊U 0 1 0␊0 0 1 1␊ => 7 bad arrivals␊
@union | a.csv: 1␊2␊ | b.csv: 3␊ | r.txt: arrivals 1 U 0 1 0 0 0 1 1␊ => 7 bad arrivals␊

# Its first line is `arrivals 1`.
@union | a.csv: 1␊2␊ | b.csv: 3␊ | r.txt: ◆arrivals 1␊U 0 1 0 0 0 1 1␊ => 7 bad arrivals␊
@union | a.csv: 1␊2␊ | b.csv: 3␊ | r.txt: arrivals 2␊U 0 1 0 0 0 1 1␊ => 7 bad arrivals␊
@union | a.csv: 1␊2␊ | b.csv: 3␊ | r.txt: arrivals 2␊U 0*1 1*1 0*3 1*2␊ => 7 bad arrivals␊
@union | a.csv: 1␊2␊ | b.csv: 3␊ | r.txt: arrivals 01␊U 0 1 0 0 0 1 1␊ => 7 bad arrivals␊
@union | a.csv: 1␊2␊ | b.csv: 3␊ | r.txt: arrivals 11␊U 0 1 0 0 0 1 1␊ => 7 bad arrivals␊
@union | a.csv: 1␊2␊ | b.csv: 3␊ | r.txt: arrivals␊U 0 1 0 0 0 1 1␊ => 7 bad arrivals␊
@union | a.csv: 1␊2␊ | b.csv: 3␊ | r.txt: Arrivals 1␊U 0 1 0 0 0 1 1␊ => 7 bad arrivals␊
@union | a.csv: 1␊2␊ | b.csv: 3␊ | r.txt: ARRIVALS 1␊U 0 1 0 0 0 1 1␊ => 7 bad arrivals␊
@union | a.csv: 1␊2␊ | b.csv: 3␊ | r.txt: # arrivals␊arrivals 1␊U 0 1 0 0 0 1 1␊ => 7 bad arrivals␊
"#;

/// Records that aren't whole for an operator.
pub(crate) const NOT_WHOLE: &str = r#"
# A record ends before its operator.
@union | a.csv: 1␊2␊ | b.csv: 3␊ | r.txt: arrivals 1␊U 0 1 0 0 0 1␊ => 7 bad arrivals at U␊
@union | a.csv: 1␊2␊ | b.csv: 3␊ | r.txt: arrivals 1␊U 0␊ => 7 bad arrivals at U␊
@union | a.csv: 1␊2␊ | b.csv: 3␊ | r.txt: arrivals 1␊U 1 1 1␊ => 7 bad arrivals at U␊
@union | a.csv: 1␊2␊ | b.csv: 3␊ | r.txt: arrivals 1␊U 0 0 0 0 1 1␊ => 7 bad arrivals at U␊
# also where only ends are left
@union | a.csv: ∅ | b.csv: ∅ | r.txt: arrivals 1␊U 0 1 0␊ => 7 bad arrivals at U␊
@union | a.csv: ∅ | b.csv: ∅ | r.txt: arrivals 1␊U 1␊ => 7 bad arrivals at U␊
# before a fault
@union | a.csv: 1␊x␊ | b.csv: 3␊ | r.txt: arrivals 1␊U 1 0␊ => 7 bad arrivals at U␊
@union | a.csv: 1␊x␊ | b.csv: 3␊ | r.txt: arrivals 1␊U 0 1 1 1␊ => 7 bad arrivals at U␊
@two stream<int64 n> B = Filter(S, T) {param filter: 10l / n > 1l;} () as Out = FileSink(B) {param file: "o.csv";} | s.csv: 1␊0␊ | t.csv: 2␊ | r.txt: arrivals 1␊B 1 0␊ => 7 bad arrivals at B␊

# It goes on behind the operator's end.
@union | a.csv: 1␊2␊ | b.csv: 3␊ | r.txt: arrivals 1␊U 0 1 0 0 0 1 1 0␊ => 7 bad arrivals at U␊
@union | a.csv: 1␊2␊ | b.csv: 3␊ | r.txt: arrivals 1␊U 0 1 0 0 0 1 1 1␊ => 7 bad arrivals at U␊
@union | a.csv: 1␊2␊ | b.csv: 3␊ | r.txt: arrivals 1␊U 0 0 0 0 1 1 1 1␊ => 7 bad arrivals at U␊
# behind a fault that came
@union | a.csv: 1␊x␊ | b.csv: 3␊ | r.txt: arrivals 1␊U 1 0 0 1␊ => 7 bad arrivals at U␊
@union | a.csv: 1␊x␊ | b.csv: 3␊ | r.txt: arrivals 1␊U 0 1 0 0 0 1 1␊ => 7 bad arrivals at U␊
@union | a.csv: 1␊x␊ | b.csv: 3␊ | r.txt: arrivals 1␊U 0 0 1 1 1␊ => 7 bad arrivals at U␊
@two () as Out = FileSink(S, T) {param file: "o.csv";} | s.csv: 1␊x␊ | t.csv: 2␊ | r.txt: arrivals 1␊Out 1 0 0 1␊ => 7 bad arrivals at Out␊
# a source that can't be read to its end
@union | a.csv: 1␊2␊ | b.csv: 3␊ | fail read 2 a.csv | r.txt: arrivals 1␊U 0 1 0 0 0 1 1␊ => 7 bad arrivals at U␊
# behind its own fault
@two stream<int64 n> B = Filter(S, T) {param filter: 10l / n > 1l;} () as Out = FileSink(B) {param file: "o.csv";} | s.csv: 1␊0␊ | t.csv: 2␊ | r.txt: arrivals 1␊B 0 0 1␊ => 7 bad arrivals at B␊
@two stream<int64 n> B = Filter(S, T) {param filter: 10l / n > 1l;} () as Out = FileSink(B) {param file: "o.csv";} | s.csv: 1␊0␊ | t.csv: 2␊ | r.txt: arrivals 1␊B 1 0 0 0 0 1 1␊ => 7 bad arrivals at B␊
@two stream<int64 n> D = Custom(S; T) {logic state: mutable int64 sum = 0l; onTuple S: {sum += n;} onTuple T: {submit({n = n / sum}, D);}} () as Out = FileSink(D) {param file: "o.csv";} | s.csv: 2␊ | t.csv: 10␊20␊ | r.txt: arrivals 1␊D 1 0 1 0 0 1 1␊ => 7 bad arrivals at D␊

# It names an input that is used up.
@union | a.csv: 1␊2␊ | b.csv: 3␊ | r.txt: arrivals 1␊U 1 1 1 1 0 0 0 0␊ => 7 bad arrivals at U␊
@union | a.csv: 1␊2␊ | b.csv: 3␊ | r.txt: arrivals 1␊U 0 1 0 0 0 0 1 1␊ => 7 bad arrivals at U␊
@union | a.csv: 1␊2␊ | b.csv: 3␊ | r.txt: arrivals 1␊U 0 0 0 0 0 1 1␊ => 7 bad arrivals at U␊
@three stream<rstring from, int64 n> D = Custom(A, B as P; C) {logic onTuple P: {submit({from = "P", n = n}, D);} onTuple C: {submit({from = "C", n = n}, D);} onPunct P: {if (currentPunct() == Sys.WindowMarker) submit({from = "window of P", n = 0l}, D); else submit({from = "P ends", n = 0l}, D);} onPunct C: {if (currentPunct() == Sys.WindowMarker) submit({from = "window of C", n = 0l}, D); else submit({from = "C ends", n = 0l}, D);}} () as Out = FileSink(D) {param file: "o.csv";} | a.csv: 1␊ | b.csv: 2␊ | c.csv: 3␊ | r.txt: arrivals 1␊D 1 2 0 0 1 0 2 1 0␊ => 7 bad arrivals at D␊
@three stream<rstring from, int64 n> D = Custom(A, B as P; C) {logic onTuple P: {submit({from = "P", n = n}, D);} onTuple C: {submit({from = "C", n = n}, D);} onPunct P: {if (currentPunct() == Sys.WindowMarker) submit({from = "window of P", n = 0l}, D); else submit({from = "P ends", n = 0l}, D);} onPunct C: {if (currentPunct() == Sys.WindowMarker) submit({from = "window of C", n = 0l}, D); else submit({from = "C ends", n = 0l}, D);}} () as Out = FileSink(D) {param file: "o.csv";} | a.csv: 1␊ | b.csv: 2␊ | c.csv: 3␊ | r.txt: arrivals 1␊D 2 2 2 2 0 0 0 1 1 1␊ => 7 bad arrivals at D␊

# The first such operator in topological order is told.
# the second one alone
@unions | a.csv: 1␊ | b.csv: 2␊ | c.csv: 3␊ | r.txt: arrivals 1␊U 1 0 0 1 1 0␊V 0 1 0 1 1␊ => 7 bad arrivals at V␊
@unions | a.csv: 1␊ | b.csv: 2␊ | c.csv: 3␊ | r.txt: arrivals 1␊U 1 0 0 1 1 0␊V 0 1 0 0 1 1 0␊ => 7 bad arrivals at V␊
@unions | a.csv: 1␊ | b.csv: 2␊ | c.csv: 3␊ | r.txt: arrivals 1␊U 1 0 0 1 1 0␊V 0 1 0 1 1 0 1␊ => 7 bad arrivals at V␊
# the first one alone
@unions | a.csv: 1␊ | b.csv: 2␊ | c.csv: 3␊ | r.txt: arrivals 1␊U 1 0 0 1 1␊V 0 1 0 1 1 0␊ => 7 bad arrivals at U␊
@unions | a.csv: 1␊ | b.csv: 2␊ | c.csv: 3␊ | r.txt: arrivals 1␊U 1 0 0 1 1 0 0␊V 0 1 0 1 1 0␊ => 7 bad arrivals at U␊
# both
@unions | a.csv: 1␊ | b.csv: 2␊ | c.csv: 3␊ | r.txt: arrivals 1␊U 1 0 0 1 1␊V 0 1 0 1 1␊ => 7 bad arrivals at U␊
@unions | a.csv: 1␊ | b.csv: 2␊ | c.csv: 3␊ | r.txt: arrivals 1␊U 1␊V 1␊ => 7 bad arrivals at U␊
# operators that are declared in the other order
@three stream<int64 n> V = Union(U; C); stream<int64 n> U = Union(A; B); () as Out = FileSink(V) {param file: "o.csv";} | a.csv: 1␊ | b.csv: 2␊ | c.csv: 3␊ | r.txt: arrivals 1␊V 0 1 0 1 1␊U 1 0 0 1 1 0␊ => 7 bad arrivals at V␊
@three stream<int64 n> V = Union(U; C); stream<int64 n> U = Union(A; B); () as Out = FileSink(V) {param file: "o.csv";} | a.csv: 1␊ | b.csv: 2␊ | c.csv: 3␊ | r.txt: arrivals 1␊V 0 1 0 1 1 0␊U 1 0 0 1 1␊ => 7 bad arrivals at U␊
@three stream<int64 n> V = Union(U; C); stream<int64 n> U = Union(A; B); () as Out = FileSink(V) {param file: "o.csv";} | a.csv: 1␊ | b.csv: 2␊ | c.csv: 3␊ | r.txt: arrivals 1␊V 0 1 0 1 1␊U 1 0 0 1 1␊ => 7 bad arrivals at U␊
# operators beside each other
@two () as X = FileSink(S, T) {param file: "x.csv";} () as Y = FileSink(T, S) {param file: "y.csv";} | s.csv: 1␊ | t.csv: 2␊ | r.txt: arrivals 1␊X 0 0 0 1 1␊Y 0 0 0 1 1␊ => 7 bad arrivals at X␊
@two () as X = FileSink(S, T) {param file: "x.csv";} () as Y = FileSink(T, S) {param file: "y.csv";} | s.csv: 1␊ | t.csv: 2␊ | r.txt: arrivals 1␊X 0 0 0 1 1␊Y 0 0 0 1 1 1␊ => 7 bad arrivals at X␊
@two () as X = FileSink(S, T) {param file: "x.csv";} () as Y = FileSink(T, S) {param file: "y.csv";} | s.csv: 1␊ | t.csv: 2␊ | r.txt: arrivals 1␊X 0 0 0 1 1 1␊Y 0 0 0 1 1␊ => 7 bad arrivals at Y␊
# one whose stream nobody reads
@two stream<int64 n> U = Union(S; T); () as Out = FileSink(S) {param file: "o.csv";} | s.csv: 1␊ | t.csv: 2␊ | r.txt: arrivals 1␊U 1 0 0 0 1␊ => 7 bad arrivals at U␊
# one with another name than its stream
composite C(output O; input I) {graph stream<I> O = Filter(I);} composite Main {graph stream<int64 n> S = FileSource() {param file: "s.csv";} stream<int64 n> T = FileSource() {param file: "t.csv";} stream<int64 n> A = C(S, T); () as Out = FileSink(A) {param file: "o.csv";}} | s.csv: 1␊ | t.csv: 2␊3␊ | r.txt: arrivals 1␊A.O 1 0 0 1 1 1␊ => 7 bad arrivals at A.O␊
@two stream<int64 n> B as Check = Filter(S, T); () as Out = FileSink(B) {param file: "o.csv";} | s.csv: 1␊ | t.csv: 2␊3␊ | r.txt: arrivals 1␊Check 1 0 0 1 1 1␊ => 7 bad arrivals at Check␊
"#;

/// What comes first where a replay isn't carried out.
pub(crate) const STOPPED_REPLAYS: &str = r#"
# The program comes first.
# no program
@none | r.txt: arrivals 1␊ => 4 cannot open p.spl␊
@none => 4 cannot open p.spl␊
# one that can't be read
@union | a.csv: 1␊2␊ | b.csv: 3␊ | fail read 1 p.spl | r.txt: x␊ => 5 cannot read p.spl␊
@union | a.csv: 1␊2␊ | b.csv: 3␊ | fail read 2 p.spl | r.txt: arrivals 1␊U 0 1 0 0 0 1 1␊ => 5 cannot read p.spl␊
# one that is refused
@text # | r.txt: x␊ => 2 refused L1 at 0␊
@text # => 2 refused L1 at 0␊
@wrong | r.txt: ∅ => 2 refused Y2 at 266␊
# a sink with the record's file, which a check accepts
@source () as Out = FileSink(T) {param file: "r.txt";} | t.csv: 1␊ | r.txt: arrivals 1␊ => 2 refused E5 at 82 r.txt␊
@source () as Out = FileSink(T) {param file: "r.txt";} | t.csv: 1␊ => 2 refused E5 at 82 r.txt␊
@source () as Out = FileSink(T) {param file: "r.txt";} | r.txt: arrivals 1␊ | $ check p.spl => 0 ok 2 operators 1 streams␊

# Then the record is read.
# no such file
@union | a.csv: 1␊2␊ | b.csv: 3␊ => 4 cannot open r.txt␊
@union | a.csv: 1␊2␊ | b.csv: 3␊ | r.txt: arrivals 1␊U 0 1 0 0 0 1 1␊ | $ replay p.spl --arrivals a.txt => 4 cannot open a.txt␊
@first | t.csv: 5␊10␊11␊ => 4 cannot open r.txt␊
# nor a source
@union => 4 cannot open r.txt␊
# a file that can't be opened
@union | a.csv: 1␊2␊ | b.csv: 3␊ | fail call 2 | r.txt: arrivals 1␊U 0 1 0 0 0 1 1␊ => 4 cannot open r.txt␊
# one that can't be read
@union | a.csv: 1␊2␊ | b.csv: 3␊ | fail read 1 r.txt | r.txt: arrivals 1␊U 0 1 0 0 0 1 1␊ => 5 cannot read r.txt␊
@union | a.csv: 1␊2␊ | b.csv: 3␊ | fail read 2 r.txt | r.txt: arrivals 1␊U 0 1 0 0 0 1 1␊ => 5 cannot read r.txt␊
@union | a.csv: 1␊2␊ | b.csv: 3␊ | fail read 3 r.txt | r.txt: arrivals 1␊U 0 1 0 0 0 1 1␊ => 0; o.csv 1␊3␊2␊; counts 3:3; record 2 0 1 0 0 0 1 1
@union | a.csv: 1␊2␊ | b.csv: 3␊ | fail read 2 r.txt | r.txt: x␊ => 5 cannot read r.txt␊
@union | fail read 1 r.txt | r.txt: x␊ => 5 cannot read r.txt␊
# one that is a source's too
composite Main {graph stream<rstring s> A = FileSource() {param file: "r.txt";} stream<rstring s> B = FileSource() {param file: "b.csv";} stream<rstring s> U = Union(A; B); () as Out = FileSink(U) {param file: "o.csv";}} | b.csv: x␊ | fail read 2 r.txt | r.txt: arrivals 1␊U 1 0 0 1 0 0 1␊ => 5 cannot read r.txt␊
# one that is spelled otherwise, before a source that isn't there or can't be read
@union | a.csv: 1␊2␊ | r.txt: arrivals 1␊U 0␣␣1␊ => 7 bad arrivals␊
@union | r.txt: x␊ => 7 bad arrivals␊
@union | a.csv: 1␊2␊ | b.csv: 3␊ | fail call 3 | r.txt: x␊ => 7 bad arrivals␊
@union | a.csv: 1␊2␊ | b.csv: 3␊ | fail read 1 a.csv | r.txt: x␊ => 7 bad arrivals␊

# Then the sources are opened.
# one that isn't there
@union | a.csv: 1␊2␊ | r.txt: arrivals 1␊U 0 1 0 0 0 1 1␊ => 4 cannot open b.csv␊
@union | b.csv: 3␊ | r.txt: arrivals 1␊U 0 1 0 0 0 1 1␊ => 4 cannot open a.csv␊
@union | r.txt: arrivals 1␊U 0 1 0 0 0 1 1␊ => 4 cannot open a.csv␊
@first | r.txt: arrivals 1␊ => 4 cannot open t.csv␊
# beside a record that isn't whole
@union | a.csv: 1␊2␊ | r.txt: arrivals 1␊U 0 1 0 0 0 1␊ => 4 cannot open b.csv␊
@union | a.csv: 1␊2␊ | b.csv: 3␊ | fail call 4 | r.txt: arrivals 1␊U 0 1 0 0 0 1␊ => 4 cannot open b.csv␊

# Then the record has to be whole, before a sink is created.
@union | a.csv: 1␊2␊ | b.csv: 3␊ | fail call 5 | r.txt: arrivals 1␊U 0 1 0 0 0 1␊ => 7 bad arrivals at U␊
@union | a.csv: 1␊2␊ | b.csv: 3␊ | o.csv: older rows␊ | r.txt: arrivals 1␊U 0 1 0 0 0 1␊ => 7 bad arrivals at U␊; o.csv older rows␊
@union | a.csv: 1␊2␊ | b.csv: 3␊ | o.csv: older rows␊ | r.txt: x␊ => 7 bad arrivals␊; o.csv older rows␊
@two () as X = FileSink(S, T) {param file: "x.csv";} () as Y = FileSink(T, S) {param file: "y.csv";} | s.csv: 1␊ | t.csv: 2␊ | fail call 5 | r.txt: arrivals 1␊X 0 0 0 1 1 1␊Y 0 0 0 1 1␊ => 7 bad arrivals at Y␊

# Then the sinks are created and written.
# one that can't be created
@union | a.csv: 1␊2␊ | b.csv: 3␊ | fail call 5 | r.txt: arrivals 1␊U 0 1 0 0 0 1 1␊ => 4 cannot open o.csv␊; record 2
@union | a.csv: 1␊x␊ | b.csv: 3␊ | fail call 5 | r.txt: arrivals 1␊U 1 0 0␊ => 4 cannot open o.csv␊; record 2
@two () as X = FileSink(S, T) {param file: "x.csv";} () as Y = FileSink(T, S) {param file: "y.csv";} | s.csv: 1␊ | t.csv: 2␊ | fail call 6 | r.txt: arrivals 1␊X 0 0 0 1 1 1␊Y 0 0 0 1 1 1␊ => 4 cannot open y.csv␊; x.csv ∅; record 2; record 3
# one that can't be written
@union | a.csv: 1␊2␊ | b.csv: 3␊ | fail write 2 o.csv | r.txt: arrivals 1␊U 0 1 0 0 0 1 1␊ => 6 cannot write o.csv␊; o.csv 1␊; record 2 0 1 0 0 0 1 1
@union | a.csv: 1␊2␊ | b.csv: 3␊ | fail write 3 o.csv | r.txt: arrivals 1␊U 0 1 0 0 0 1 1␊ => 6 cannot write o.csv␊; o.csv 1␊3␊; record 2 0 1 0 0 0 1 1
@two () as X = FileSink(S, T) {param file: "x.csv";} () as Y = FileSink(T, S) {param file: "y.csv";} | s.csv: 1␊ | t.csv: 2␊ | fail write 2 x.csv | r.txt: arrivals 1␊X 0 1 0 1 0 1␊Y 0 1 0 1 0 1␊ => 6 cannot write x.csv␊; x.csv 1␊; y.csv 2␊1␊; record 2 0 1 0 1 0 1; record 3 0 1 0 1 0 1
# one that can't be finished
@union | a.csv: 1␊2␊ | b.csv: 3␊ | fail call 6 | r.txt: arrivals 1␊U 0 1 0 0 0 1 1␊ => 6 cannot write o.csv␊; o.csv 1␊3␊2␊; record 2 0 1 0 0 0 1 1
# behind a fault
@union | a.csv: 1␊x␊ | b.csv: 3␊ | fail write 1 o.csv | r.txt: arrivals 1␊U 1 0 0␊ => 6 cannot write o.csv␊; o.csv ∅; record 2 1 0 0
# one that was there
@union | a.csv: 1␊2␊ | b.csv: 3␊ | o.csv: older rows␊ | r.txt: arrivals 1␊U 0 1 0 0 0 1 1␊ => 0; o.csv 1␊3␊2␊; o.csv changed; counts 3:3; record 2 0 1 0 0 0 1 1

# A line that can't be told.
@union | a.csv: 1␊2␊ | b.csv: 3␊ | fail line 1 | r.txt: arrivals 1␊U 0 1 0 0 0 1 1␊ => 0; o.csv 1␊3␊2␊; counts 3:3; record 2 0 1 0 0 0 1 1
@union | a.csv: 1␊x␊ | b.csv: 3␊ | fail line 1 | r.txt: arrivals 1␊U 1 0 0␊ => 6; o.csv 3␊1␊; record 2 1 0 0
@union | a.csv: 1␊2␊ | b.csv: 3␊ | fail line 1 | r.txt: arrivals 1␊U 0 1 0 0 0 1␊ => 7
@union | a.csv: 1␊2␊ | b.csv: 3␊ | fail line 1 | r.txt: x␊ => 7
@union | a.csv: 1␊2␊ | b.csv: 3␊ | fail line 1 => 4

# Other words.
@union | a.csv: 1␊2␊ | b.csv: 3␊ | r.txt: arrivals 1␊U 0 1 0 0 0 1 1␊ | $ replay p.spl => 1 bad words␊
@union | a.csv: 1␊2␊ | b.csv: 3␊ | r.txt: arrivals 1␊U 0 1 0 0 0 1 1␊ | $ replay --arrivals r.txt => 1 bad words␊
@union | a.csv: 1␊2␊ | b.csv: 3␊ | r.txt: arrivals 1␊U 0 1 0 0 0 1 1␊ | $ replay p.spl r.txt => 1 bad words␊
@union | a.csv: 1␊2␊ | b.csv: 3␊ | r.txt: arrivals 1␊U 0 1 0 0 0 1 1␊ | $ replay p.spl --arrivals p.spl => 1 bad words␊
@union | a.csv: 1␊2␊ | b.csv: 3␊ | r.txt: arrivals 1␊U 0 1 0 0 0 1 1␊ | $ replay p.spl --arrivals=p.spl => 1 bad words␊
@union | a.csv: 1␊2␊ | b.csv: 3␊ | r.txt: arrivals 1␊U 0 1 0 0 0 1 1␊ | $ replay p.spl --arrivals => 1 bad words␊
@union | a.csv: 1␊2␊ | b.csv: 3␊ | r.txt: arrivals 1␊U 0 1 0 0 0 1 1␊ | $ replay p.spl --arrivals= => 1 bad words␊
@union | a.csv: 1␊2␊ | b.csv: 3␊ | r.txt: arrivals 1␊U 0 1 0 0 0 1 1␊ | $ replay p.spl --arrivals - => 1 bad words␊
@union | a.csv: 1␊2␊ | b.csv: 3␊ | r.txt: arrivals 1␊U 0 1 0 0 0 1 1␊ | $ replay p.spl --arrivals r.txt --counts => 1 bad words␊
@union | a.csv: 1␊2␊ | b.csv: 3␊ | r.txt: arrivals 1␊U 0 1 0 0 0 1 1␊ | $ replay p.spl --arrivals r.txt --width 1 => 1 bad words␊
@union | a.csv: 1␊2␊ | b.csv: 3␊ | r.txt: arrivals 1␊U 0 1 0 0 0 1 1␊ | $ replay p.spl --arrivals r.txt --arrivals r.txt => 1 bad words␊
@union | a.csv: 1␊2␊ | b.csv: 3␊ | r.txt: arrivals 1␊U 0 1 0 0 0 1 1␊ | $ replay p.spl --arrivals r.txt --arrivals=a.txt => 1 bad words␊
@union | a.csv: 1␊2␊ | b.csv: 3␊ | r.txt: arrivals 1␊U 0 1 0 0 0 1 1␊ | $ replay p.spl --Arrivals r.txt => 1 bad words␊
@union | a.csv: 1␊2␊ | b.csv: 3␊ | r.txt: arrivals 1␊U 0 1 0 0 0 1 1␊ | $ Replay p.spl --arrivals r.txt => 1 bad words␊
"#;
