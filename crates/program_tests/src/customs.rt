//! What `run` does with Customs: their state, submits, markers and returns, and the turns of their events.

pub(crate) const CUSTOMS: &str = r#"
# A variable of a state has a first value.
# that of its type
@op int64 n → stream<boolean b, rstring s, int8 i, uint64 u, int32 l, int32 m, boolean t> B = Custom(T) {logic state: {boolean b; rstring s; int8 i; uint64 u; list<int64> l; map<int8, rstring> m; tuple<int64 x, rstring y> t;} onTuple T: {submit({b = b, s = s, i = i, u = u, l = size(l), m = size(m), t = t.x == 0l && t.y == ""}, B);}} | t.csv: 1␊ => 0; o.csv false,,0,0,0,0,true␊; counts 2:1
# one of literals, in which a later pair counts
@op int64 n → stream<int64 n, rstring s> B = Custom(T) {logic state: {int64 a = -5l; list<int64> l = [3l, -1l]; map<rstring, int64> m = {"x" : 7l, "x" : 8l}; tuple<int64 x, rstring y> t = {y = "q", x = 2l};} onTuple T: {submit({n = a + l[0] + l[1] + m["x"] + t.x, s = t.y}, B);}} | t.csv: 1␊ => 0; o.csv 7,q␊; counts 2:1
# a parameter of a composite, which is invoked twice
composite Running(output D; input I) {param expression<int64> $from : 100l; graph stream<int64 n> D = Custom(I) {logic state: mutable int64 at = $from; onTuple I: {at += n; submit({n = at}, D);}}} composite Main {graph stream<int64 n> T = FileSource() {param file: "t.csv";} stream<int64 n> A = Running(T); stream<int64 n> C = Running(T) {param from: -1l;} () as X = FileSink(A) {param file: "x.csv";} () as Y = FileSink(C) {param file: "y.csv";}} | t.csv: 1␊2␊ => 0; x.csv 101␊103␊; y.csv 0␊2␊; counts 3:2 4:2

# It keeps its value from one event to the next.
# one that isn't mutable, beside one that is
@op int64 n → stream<int64 n> B = Custom(T) {logic state: {int64 limit = 10l; mutable int64 above = 0l;} onTuple T: {if (n > limit) above += 1l;} onPunct T: {if (currentPunct() == Sys.FinalMarker) submit({n = above * limit}, B);}} | t.csv: 5␊11␊12␊ => 0; o.csv 20␊; counts 2:1
# tuples and markers change one list
@op int64 n → stream<int64 n> B = Custom(T) {logic state: mutable list<int64> seen = []; onTuple T: {appendM(seen, n);} onPunct T: {appendM(seen, 0l); for (int64 m in seen) submit({n = m}, B);}} | t.csv: 3␊4␊ => 0; o.csv 3␊4␊0␊3␊4␊0␊0␊; counts 2:7
# keys that are taken out, of which one isn't there
@op int64 n → stream<int32 k> B = Custom(T) {logic state: mutable map<int64, int64> m; onTuple T: {m[n] = n; if (n % 2l == 0l) removeM(m, n - 1l); if (n == 5l) clearM(m); submit({k = size(m)}, B);}} | t.csv: 1␊2␊3␊5␊4␊ => 0; o.csv 1␊1␊2␊0␊1␊; counts 2:5
# names: a local variable, or else one of the state, or else an attribute
@op int64 n → stream<int64 n> B = Custom(T) {logic state: int64 n = 100l; onTuple T: {submit({n = n}, B); int64 m = n + T.n; {int64 n = 5l; submit({n = n + m}, B);} submit({n = n}, B);}} | t.csv: 1␊ => 0; o.csv 100␊106␊100␊; counts 2:3

# A submit may stand anywhere in a body.
# in branches
@op int64 n → stream<rstring at> B = Custom(T) {logic onTuple T: {if (n > 1l) submit({at = "if"}, B); else if (n > 0l) submit({at = "else if"}, B); else submit({at = "else"}, B);}} | t.csv: 2␊1␊0␊ => 0; o.csv if␊else if␊else␊; counts 2:3
# for each element of a list
@op int64 n → stream<int64 n> B = Custom(T) {logic onTuple T: {for (int64 m in [n, n * 2l]) submit({n = m}, B);}} | t.csv: 1␊5␊ => 0; o.csv 1␊2␊5␊10␊; counts 2:4
# for each key of a map, in ascending order
@op int64 n → stream<rstring k, int64 n> B = Custom(T) {logic onTuple T: {map<rstring, int64> m = {"b" : n, "a" : n + 1l, "" : 0l}; for (rstring k in m) submit({k = k, n = m[k]}, B);}} | t.csv: 1␊ => 0; o.csv ,0␊a,2␊b,1␊; counts 2:3
# in a loop with `break` and `continue`, and behind it
@op int64 n → stream<int64 n> B = Custom(T) {logic onTuple T: {mutable int64 i = 0l; while (true) {i += 1l; if (i > n) break; if (i % 2l == 0l) continue; submit({n = i}, B);} submit({n = -1l}, B);}} | t.csv: 5␊0␊2␊ => 0; o.csv 1␊3␊5␊-1␊-1␊1␊-1␊; counts 2:7
# in a loop within another, whose `break` ends the inner one
@op int64 n → stream<int64 n> B = Custom(T) {logic onTuple T: {for (int64 a in [1l, 2l]) for (int64 b in [1l, 2l, 3l]) {if (b > a) break; submit({n = a * 10l + b}, B);}}} | t.csv: 0␊ => 0; o.csv 11␊21␊22␊; counts 2:3
# while the list grows that is gone over
@op int64 n → stream<int64 n> B = Custom(T) {logic onTuple T: {mutable list<int64> l = [1l, 2l]; for (int64 m in l) {appendM(l, m * 10l); submit({n = m}, B);} submit({n = (int64) size(l)}, B);}} | t.csv: 0␊ => 0; o.csv 1␊2␊4␊; counts 2:3
# of a variable, and of a literal with its fields in another order
@op int64 n → stream<int64 n, rstring s> B = Custom(T) {logic onTuple T: {tuple<int64 n, rstring s> t = {s = "t", n = n + 1l}; submit(t, B); submit({s = "l", n = t.n + 1l}, B);}} | t.csv: 1␊ => 0; o.csv 2,t␊3,l␊; counts 2:2
# of tuples and window markers in turn, where no marker is passed
@op int64 n → stream<T> C = Custom(T) {logic onTuple T: {submit(T, C); submit(Sys.WindowMarker, C); submit(T, C);}} stream<int64 s> B = Aggregate(C) {window C: tumbling, punct(); output B: s = Sum(n);} | t.csv: 1␊2␊ => 0; o.csv 1␊3␊; counts 3:2
# of markers on one of two ports
@op int64 n → (stream<T> L; stream<T> R) as C = Custom(T) {logic onTuple T: {submit(T, L); submit(Sys.WindowMarker, L); submit(T, R);}} stream<T> B = Aggregate(L) {window L: tumbling, punct(); output B: n = Sum(n);} stream<T> D = Aggregate(R) {window R: tumbling, punct(); output D: n = Sum(n);} () as X = FileSink(D) {param file: "x.csv";} | t.csv: 1␊2␊ => 0; o.csv 1␊2␊; x.csv ∅; counts 4:0 5:2

# Functions run before what is submitted.
# one without a result, before a submit and behind it
void check(int64 n) {int64 m = 100l / n;} composite Main {graph stream<int64 n> T = FileSource() {param file: "t.csv";} stream<int64 n> B = Custom(T) {logic onTuple T: {check(n); submit(T, B); check(n - 1l);}} () as Out = FileSink(B) {param file: "o.csv";}} | t.csv: 5␊2␊1␊ => 3 stopped B DivZero␊; o.csv 5␊2␊; counts 2:2
# one that changes its own copy of a list
list<int64> longer(list<int64> l, int64 n) {mutable list<int64> m = l; appendM(m, n); return m;} composite Main {graph stream<int64 n> T = FileSource() {param file: "t.csv";} stream<int32 a, int32 b, int64 n> B = Custom(T) {logic state: list<int64> kept = [1l]; onTuple T: {list<int64> more = longer(kept, n); submit({a = size(kept), b = size(more), n = more[1]}, B);}} () as Out = FileSink(B) {param file: "o.csv";}} | t.csv: 7␊8␊ => 0; o.csv 1,2,7␊1,2,8␊; counts 2:2
# one with a loop, in a condition and in what is submitted
int64 sum(int64 n) {mutable int64 s = 0l; mutable int64 i = 1l; while (i <= n) {s += i; i += 1l;} return s;} composite Main {graph stream<int64 n> T = FileSource() {param file: "t.csv";} stream<int64 n> B = Custom(T) {logic onTuple T: {if (sum(n) % 2l == 0l) submit({n = sum(n)}, B);}} () as Out = FileSink(B) {param file: "o.csv";}} | t.csv: 3␊4␊2␊0␊ => 0; o.csv 6␊10␊0␊; counts 2:3

# `currentPunct()` says which marker came.
# as values
@op int64 n → stream<boolean w, boolean f, boolean other> B = Custom(T) {logic onPunct T: {boolean w = currentPunct() == Sys.WindowMarker; submit({w = w, f = currentPunct() == Sys.FinalMarker, other = currentPunct() != Sys.FinalMarker}, B);}} | t.csv: 1␊ => 0; o.csv true,false,true␊false,true,false␊; counts 2:2
# before `?`, in parentheses
@op int64 n → stream<int64 n> B = Custom(T) {logic onPunct T: {submit({n = (currentPunct()) == (Sys.FinalMarker) ? 2l : 1l}, B);}} | t.csv: 5␊ => 0; o.csv 1␊2␊; counts 2:2
# beside another condition
@op int64 n → stream<int64 n> B = Custom(T) {logic state: mutable int64 seen = 0l; onTuple T: {seen += n;} onPunct T: {if (currentPunct() != Sys.FinalMarker && seen > 5l) submit({n = seen}, B); if (!(currentPunct() == Sys.WindowMarker)) submit({n = -seen}, B);}} | t.csv: 3␊4␊ => 0; o.csv 7␊-7␊; counts 2:2
# in the condition of a loop
@op int64 n → stream<int64 n> B = Custom(T) {logic onPunct T: {mutable int64 i = 0l; while (currentPunct() == Sys.FinalMarker && i < 3l) {i += 1l; submit({n = i}, B);}}} | t.csv: 5␊ => 0; o.csv 1␊2␊3␊; counts 2:3
# as an argument
int64 number(boolean isLast) {return isLast ? 9l : 1l;} composite Main {graph stream<int64 n> T = FileSource() {param file: "t.csv";} stream<int64 n> B = Custom(T) {logic onPunct T: {submit({n = number(currentPunct() == Sys.FinalMarker)}, B);}} () as Out = FileSink(B) {param file: "o.csv";}} | t.csv: ∅ => 0; o.csv 1␊9␊; counts 2:2

# A `return` ends the body.
# before its submit
@op int64 n → stream<T> B = Custom(T) {logic onTuple T: {if (n < 0l) return; submit(T, B);}} | t.csv: 1␊-1␊2␊ => 0; o.csv 1␊2␊; counts 2:2
# behind one and before another
@op int64 n → stream<T> B = Custom(T) {logic onTuple T: {submit(T, B); if (n < 0l) return; submit({n = 0l}, B);}} | t.csv: 1␊-1␊ => 0; o.csv 1␊0␊-1␊; counts 2:3
# in a loop
@op int64 n → stream<int64 n> B = Custom(T) {logic onTuple T: {for (int64 m in [1l, 2l, 3l]) {if (m > n) return; submit({n = m}, B);} submit({n = 100l}, B);}} | t.csv: 2␊3␊0␊ => 0; o.csv 1␊2␊1␊2␊3␊100␊; counts 2:6
# at a window marker
@op int64 n → stream<int64 n> B = Custom(T) {logic onPunct T: {if (currentPunct() == Sys.WindowMarker) return; submit({n = 9l}, B);}} | t.csv: 1␊ => 0; o.csv 9␊; counts 2:1
# what the state holds by then stays
@op int64 n → stream<int64 n> B = Custom(T) {logic state: mutable int64 seen = 0l; onTuple T: {seen += 1l; if (n == 0l) return; seen += 10l; submit({n = seen}, B);}} | t.csv: 1␊0␊1␊ => 0; o.csv 11␊23␊; counts 2:2

# Markers and ports.
# a body for markers alone, and no row
@op int64 n → stream<int64 n> B = Custom(T) {logic onPunct T: {submit({n = 1l}, B);}} | t.csv: ∅ => 0; o.csv 1␊1␊; counts 2:2
# a port without a body
@two stream<int64 n> B = Custom(S; T) {logic onTuple S: {submit(S, B);}} () as Out = FileSink(B) {param file: "o.csv";} | s.csv: 1␊ | t.csv: 2␊ => 0; o.csv 1␊; counts 3:1; record 2 0 0 0 1 1 1
# two streams at a port, of which one is at another port too: what had come where a port ends
@two stream<int64 port, int64 tuples, int64 windows> B = Custom(S, T as P; S as Q) {logic state: {mutable list<int64> tuples = [0l, 0l]; mutable list<int64> windows = [0l, 0l];} onTuple P: {tuples[0] += 1l;} onTuple Q: {tuples[1] += 1l;} onPunct P: {if (currentPunct() == Sys.WindowMarker) windows[0] += 1l; else submit({port = 0l, tuples = tuples[0], windows = windows[0]}, B);} onPunct Q: {if (currentPunct() == Sys.WindowMarker) windows[1] += 1l; else submit({port = 1l, tuples = tuples[1], windows = windows[1]}, B);}} () as Out = FileSink(B) {param file: "o.csv";} | s.csv: 1␊2␊ | t.csv: 3␊ => 0; o.csv 0,3,2␊1,2,1␊; counts 3:2; record 2 0 0 0 0 1 1 1 2 2 2 2
# two ports with two streams each
@two stream<rstring from, int64 n> B = Custom(S, S as P; T, S as Q) {logic state: mutable int64 sum = 0l; onTuple P: {sum += n;} onTuple Q: {sum -= n;} onPunct P: {if (currentPunct() == Sys.FinalMarker) submit({from = "P", n = sum}, B);} onPunct Q: {if (currentPunct() == Sys.FinalMarker) submit({from = "Q", n = sum}, B);}} () as Out = FileSink(B) {param file: "o.csv";} | s.csv: 10␊ | t.csv: 3␊ => 0; o.csv P,20␊Q,7␊; counts 3:2; record 2 0 0 0 1 1 1 2 2 2 3 3 3
# a fault where the first port ends, behind which the second one isn't taken
@two stream<int64 n> B = Custom(S; T) {logic state: mutable int64 seen = 0l; onTuple S: {submit(S, B);} onTuple T: {submit(T, B);} onPunct S: {if (currentPunct() == Sys.FinalMarker) submit({n = 1l / seen}, B);}} () as Out = FileSink(B) {param file: "o.csv";} | s.csv: 5␊ | t.csv: 7␊ => 3 stopped B DivZero␊; o.csv 5␊; counts 3:1; record 2 0 0 0

# A fault drops all that its event submitted.
# to two ports, with markers between
@op int64 n → (stream<T> L; stream<T> B) as C = Custom(T) {logic onTuple T: {submit(T, L); submit(Sys.WindowMarker, L); submit({n = 1l / n}, B);}} () as X = FileSink(L) {param file: "x.csv";} | t.csv: 1␊0␊1␊ => 3 stopped C DivZero␊; o.csv 1␊; x.csv 1␊; counts 2:1 3:1
"#;

/// Rows that take their time.
pub(crate) const LOOPS: &str = r#"
# An event has a million turns, for loops and calls together.
# loops in a loop: 1,000 turns, and 999 in each
@op int64 n → stream<int64 n> B = Custom(T) {logic onTuple T: {mutable int64 turns = 0l; mutable int64 i = 0l; while (i < 1000l) {i += 1l; mutable int64 j = 0l; while (j < 999l) {j += 1l; turns += 1l;}} submit({n = turns}, B);}} | t.csv: 1␊ => 0; o.csv 999000␊; counts 2:1
# and one more behind them
@op int64 n → stream<int64 n> B = Custom(T) {logic onTuple T: {mutable int64 turns = 0l; mutable int64 i = 0l; while (i < 1000l) {i += 1l; mutable int64 j = 0l; while (j < 999l) {j += 1l; turns += 1l;}} for (int64 m in [0l]) turns += m; submit({n = turns}, B);}} | t.csv: 1␊ => 3 stopped B Turns␊; o.csv ∅; counts 2:0
# half of them calls
int64 next(int64 n) {return n + 1l;} composite Main {graph stream<int64 n> T = FileSource() {param file: "t.csv";} stream<int64 n> B = Custom(T) {logic onTuple T: {mutable int64 i = 0l; while (i < 500000l) i = next(i); submit({n = i}, B);}} () as Out = FileSink(B) {param file: "o.csv";}} | t.csv: 1␊ => 0; o.csv 500000␊; counts 2:1
# and one more call, behind the submit
int64 next(int64 n) {return n + 1l;} composite Main {graph stream<int64 n> T = FileSource() {param file: "t.csv";} stream<int64 n> B = Custom(T) {logic onTuple T: {mutable int64 i = 0l; while (i < 500000l) i = next(i); submit({n = i}, B); next(i);}} () as Out = FileSink(B) {param file: "o.csv";}} | t.csv: 1␊ => 3 stopped B Turns␊; o.csv ∅; counts 2:0
# a list's elements: 999 to make it, and then 999 for each of 999, and one
@op int64 n → stream<int64 n> B = Custom(T) {logic onTuple T: {mutable list<int64> l = []; mutable int64 seen = 0l; while (size(l) < 999) appendM(l, 1l); for (int64 a in l) for (int64 b in l) seen += b; for (int64 c in [1l]) seen += c; submit({n = seen}, B);}} | t.csv: 1␊ => 0; o.csv 998002␊; counts 2:1

# Each event of a Custom has them anew: a tuple, a window marker and the end.
int64 spin(int64 n) {mutable int64 i = 0l; while (i < n) i += 1l; return i;} composite Main {graph stream<int64 n> T = FileSource() {param file: "t.csv";} stream<int64 n> B = Custom(T) {logic state: mutable int64 turns = 0l; onTuple T: {turns += spin(999999l); submit({n = turns}, B);} onPunct T: {turns += spin(999999l); submit({n = turns}, B);}} () as Out = FileSink(B) {param file: "o.csv";}} | t.csv: 1␊ => 0; o.csv 999999␊1999998␊2999997␊; counts 2:3

# What an operator evaluates for an event takes them together.
# a Functor's filter and its output
int64 spin(int64 n) {mutable int64 i = 0l; while (i < n) i += 1l; return i;} composite Main {graph stream<int64 n> T = FileSource() {param file: "t.csv";} stream<int64 n> B = Functor(T) {param filter: spin(499999l) > 0l; output B: n = spin(n);} () as Out = FileSink(B) {param file: "o.csv";}} | t.csv: 499999␊500000␊ => 3 stopped B Turns␊; o.csv 499999␊; counts 2:1
# the assignments of an Aggregate
int64 spin(int64 n) {mutable int64 i = 0l; while (i < n) i += 1l; return i;} composite Main {graph stream<int64 n> T = FileSource() {param file: "t.csv";} stream<int64 a, int64 b> B = Aggregate(T) {window T: tumbling, count(1); output B: a = Sum(spin(499999l)), b = Max(spin(n));} () as Out = FileSink(B) {param file: "o.csv";}} | t.csv: 499999␊500000␊ => 3 stopped B Turns␊; o.csv 499999,499999␊; counts 2:1
# all pairs of a Join, with their conditions and assignments
int64 spin(int64 n) {mutable int64 i = 0l; while (i < n) i += 1l; return i;} composite Main {graph stream<int64 n> S = FileSource() {param file: "s.csv";} stream<int64 n> T = FileSource() {param file: "t.csv";} stream<int64 n> J = Join(S; T) {window S: sliding, count(2); T: sliding, count(1); param match: spin(S.n) > 0l; output J: n = spin(S.n);} () as Out = FileSink(J) {param file: "o.csv";}} | s.csv: 249999␊249999␊ | t.csv: 1␊ => 0; o.csv 249999␊249999␊; counts 3:2; record 2 0 0 0 0 1 1 1
# and one turn more, of the last assignment
int64 spin(int64 n) {mutable int64 i = 0l; while (i < n) i += 1l; return i;} composite Main {graph stream<int64 n> S = FileSource() {param file: "s.csv";} stream<int64 n> T = FileSource() {param file: "t.csv";} stream<int64 n> J = Join(S; T) {window S: sliding, count(2); T: sliding, count(1); param match: spin(249999l) > 0l; output J: n = spin(S.n);} () as Out = FileSink(J) {param file: "o.csv";}} | s.csv: 249999␊250000␊ | t.csv: 1␊ => 3 stopped J Turns␊; o.csv ∅; counts 3:0; record 2 0 0 0 0 1

# A state may have 100,000 keys: four tuples put in 25,000 each, a window marker sums their values and takes all out.
@op int64 n → stream<int32 keys, int64 sum> B = Custom(T) {logic state: mutable map<int64, int64> m; onTuple T: {mutable int64 i = 0l; while (i < 25000l) {m[n * 25000l + i] = (n * 25000l + i) * 2l; i += 1l;}} onPunct T: {mutable int64 sum = 0l; for (int64 k in m) sum += m[k]; submit({keys = size(m), sum = sum}, B); clearM(m);}} | t.csv: 0␊1␊2␊3␊ => 0; o.csv 100000,9999900000␊0,0␊; counts 2:2
# 100,000 lists, which the next tuple makes longer
@op int64 n → stream<int32 keys, int64 sum, boolean last> B = Custom(T) {logic state: mutable map<int64, list<int64>> m; onTuple T: {mutable int64 i = 0l; while (i < 100000l) {if (!has(m, i)) m[i] = []; appendM(m[i], n); i += 1l;}} onPunct T: {if (currentPunct() == Sys.FinalMarker) {mutable int64 sum = 0l; for (int64 k in m) sum += m[k][0] + m[k][1]; submit({keys = size(m), sum = sum, last = 99999l in m && !(100000l in m)}, B);}}} | t.csv: 3␊4␊ => 0; o.csv 100000,700000,true␊; counts 2:1
# an event that submits 100,000 tuples
@op int64 n → stream<int64 n> B = Custom(T) {logic onTuple T: {mutable int64 i = 0l; while (i < 100000l) {submit({n = i}, B); i += 1l;}}} | t.csv: 1␊ => 0; o.csv of 588890 bytes; counts 2:100000
"#;
