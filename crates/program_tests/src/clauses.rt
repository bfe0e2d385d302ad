//! How `run` ends where a clause faults, and what the sinks hold then.

/// Faults of values, of each kind, in each clause that evaluates something. Those of a Filter stand in `faults`, and
/// some divisions by zero with the other rows of their operators.
pub(crate) const CLAUSES: &str = r#"
# The filter of a Functor.
# a remainder by zero, in an operator with an alias
@op int64 n → stream<int64 b> B as Check = Functor(T) {param filter: 100l % n < 50l; output B: b = n * 2l;} | t.csv: 20␊0␊5␊ => 3 stopped Check DivZero␊; o.csv 40␊; counts 2:1
# an index beyond its list
@op int64 n → stream<T> B = Functor(T) {param filter: [true, false, true][n];} | t.csv: 0␊1␊2␊3␊0␊ => 3 stopped B Index␊; o.csv 0␊2␊; counts 2:2
# a key that a map doesn't have
@op int64 n → stream<T> B = Functor(T) {param filter: {1l : true, 2l : false}[n];} | t.csv: 1␊2␊3␊1␊ => 3 stopped B NoKey␊; o.csv 1␊; counts 2:1

# Its output.
# a text that begins at its end is empty, and beyond that is a fault
@op rstring s, int32 n → stream<rstring s> B = Functor(T) {output B: s = substring(s, n, 1);} | t.csv: ab,1␊ab,2␊ab,3␊ => 3 stopped B Index␊; o.csv b␊""␊; counts 2:2
# a key that a map doesn't have
@op rstring k → stream<int64 v> B = Functor(T) {output B: v = {"a" : 1l, "" : 2l}[k];} | t.csv: a␊""␊b␊ => 3 stopped B NoKey␊; o.csv 1␊2␊; counts 2:2

# The condition of a Punctor: its event gives neither the tuple nor a marker.
# a division by zero, where markers stand before their tuples
@op int64 n → stream<T> P = Punctor(T) {param punctuation: 10l / n > 4l; position: before;} stream<T> B = Custom(P) {logic onTuple P: {submit(P, B);} onPunct P: {if (currentPunct() == Sys.WindowMarker) submit({n = 0l}, B); else submit({n = -1l}, B);}} | t.csv: 1␊5␊0␊1␊ => 3 stopped P DivZero␊; o.csv 0␊1␊5␊; counts 3:3
# an index beyond its list, where they stand behind them
@op int64 n → stream<T> P = Punctor(T) {param punctuation: [true, false][n]; position: after;} stream<T> B = Custom(P) {logic onTuple P: {submit(P, B);} onPunct P: {if (currentPunct() == Sys.WindowMarker) submit({n = 100l}, B); else submit({n = -1l}, B);}} | t.csv: 0␊1␊2␊ => 3 stopped P Index␊; o.csv 0␊100␊1␊; counts 3:3
# a key that a map doesn't have
@op int64 n → stream<T> B = Punctor(T) {param punctuation: {1l : true}[n]; position: before;} | t.csv: 1␊1␊2␊ => 3 stopped B NoKey␊; o.csv 1␊1␊; counts 2:2
# what the window behind it holds is dropped
@op int64 n → stream<T> P = Punctor(T) {param punctuation: 10l / n > 4l; position: after;} stream<T> B = Aggregate(P) {window P: tumbling, punct(); output B: n = Sum(n);} | t.csv: 5␊2␊5␊0␊ => 3 stopped P DivZero␊; o.csv 7␊; counts 3:1

# The index of a Split: each port has the fault.
# an index beyond its list
@source (stream<T> L; stream<T> R) = Split(T) {param index: [1l, 0l][price];} () as X = FileSink(L) {param file: "x.csv";} () as Y = FileSink(R) {param file: "y.csv";} | t.csv: 0␊1␊1␊2␊0␊ => 3 stopped L Index␊; x.csv 1␊1␊; y.csv 0␊; counts 2:2 3:1
# a key that a map doesn't have, in an operator with an alias
@source (stream<T> L; stream<T> R) as Choice = Split(T) {param index: {7l : 1, 8l : -1}[price];} () as Y = FileSink(R) {param file: "y.csv";} | t.csv: 7␊8␊9␊7␊ => 3 stopped Choice NoKey␊; y.csv 7␊; counts 2:1

# The body of a Custom for a tuple.
# an index beyond its list, in an assignment
@op int64 n → stream<T> B = Custom(T) {logic state: mutable list<int64> l = [0l]; onTuple T: {submit(T, B); l[n] = 1l; submit(T, B);}} | t.csv: 0␊1␊0␊ => 3 stopped B Index␊; o.csv 0␊0␊; counts 2:2
# a key that a map doesn't have, in a sum
@op int64 n → stream<T> B = Custom(T) {logic state: mutable map<int64, int64> m = {1l : 0l}; onTuple T: {m[n] += 1l; submit({n = m[n]}, B);}} | t.csv: 1␊1␊2␊ => 3 stopped B NoKey␊; o.csv 1␊2␊; counts 2:2

# That for a window marker.
# a division by zero
@op int64 n → stream<T> B = Custom(T) {logic onTuple T: {submit(T, B);} onPunct T: {if (currentPunct() == Sys.WindowMarker) {submit({n = 0l}, B); submit({n = 1l / 0l}, B);}}} | t.csv: 5␊6␊ => 3 stopped B DivZero␊; o.csv 5␊6␊; counts 2:2
# an index beyond its list, at the third marker
@op int64 n → stream<T> P = Punctor(T) {param punctuation: n > 1l; position: after;} stream<T> B = Custom(P) {logic state: mutable int64 windows = 0l; onTuple P: {submit(P, B);} onPunct P: {submit({n = [10l, 20l][windows]}, B); windows += 1l;}} | t.csv: 1␊2␊3␊4␊5␊ => 3 stopped B Index␊; o.csv 1␊2␊10␊3␊20␊4␊; counts 3:6
# a key that a map doesn't have, at a marker before its tuple
@op int64 n → stream<T> P = Punctor(T) {param punctuation: n == 2l; position: before;} stream<T> B = Custom(P) {logic state: mutable map<int64, int64> m; onTuple P: {m[n] = n; submit(P, B);} onPunct P: {if (currentPunct() == Sys.WindowMarker) submit({n = m[2l]}, B);}} | t.csv: 1␊2␊ => 3 stopped B NoKey␊; o.csv 1␊; counts 3:1

# That for the end: the final marker isn't given.
# a division by zero, before a Custom that sees no end then
@op int64 n → stream<T> C = Custom(T) {logic state: mutable int64 seen = 0l; onTuple T: {submit(T, C);} onPunct T: {if (currentPunct() == Sys.FinalMarker) submit({n = 1l / seen}, C); else submit({n = 50l}, C);}} stream<T> B = Custom(C) {logic onTuple C: {submit(C, B);} onPunct C: {submit({n = -1l}, B);}} | t.csv: 5␊ => 3 stopped C DivZero␊; o.csv 5␊50␊; counts 3:2
# an index beyond its list, behind other submits
@op int64 n → stream<T> B = Custom(T) {logic state: mutable list<int64> l = []; onTuple T: {appendM(l, n);} onPunct T: {if (currentPunct() == Sys.FinalMarker) {for (int64 m in l) submit({n = m}, B); submit({n = l[2]}, B);}}} | t.csv: 5␊6␊ => 3 stopped B Index␊; o.csv ∅; counts 2:0

# The arguments of an Aggregate.
# a remainder by zero, in a partition whose window it would fill
@op rstring k, int64 v → stream<rstring k, int64 s> B = Aggregate(T) {window T: tumbling, count(2), partitioned; param partitionBy: k; output B: s = Sum(12l % v);} | t.csv: a,5␊b,7␊a,8␊b,0␊a,1␊ => 3 stopped B DivZero␊; o.csv a,6␊; counts 2:1
# an index beyond its list
@op int64 v → stream<int64 s> B = Aggregate(T) {window T: sliding, count(2), count(1); output B: s = Max([10l, 20l][v]);} | t.csv: 0␊1␊0␊2␊ => 3 stopped B Index␊; o.csv 10␊20␊20␊; counts 2:3
# a key that a map doesn't have
@op int64 v → stream<rstring s, int64 v> B = Aggregate(T) {window T: tumbling, count(1); output B: s = Last({1l : "one"}[v]);} | t.csv: 1␊2␊ => 3 stopped B NoKey␊; o.csv one,1␊; counts 2:1
# the first of two, in the order of the text
@op int64 v → stream<int64 a, int64 b> B = Aggregate(T) {window T: tumbling, count(1); output B: b = First([1l][v - 1l]), a = Sum(1l / v);} | t.csv: 1␊0␊ => 3 stopped B Index␊; o.csv 1,1␊; counts 2:1
# a delta window that the faulting tuple would flush
@op int64 v → stream<int64 s> B = Aggregate(T) {window T: tumbling, delta(v, 10l); output B: s = Sum(100l / (v - 25l));} | t.csv: 0␊11␊15␊25␊30␊ => 3 stopped B DivZero␊; o.csv -4␊; counts 2:1

# The condition of a Join.
# an index below 0, in the first pair of the second tuple
@two stream<int64 n> J = Join(S; T) {window S: sliding, count(3); T: sliding, count(1); param match: [true, false][S.n - T.n]; output J: n = S.n * 10l + T.n;} () as Out = FileSink(J) {param file: "o.csv";} | s.csv: 5␊6␊ | t.csv: 5␊6␊ => 3 stopped J Index␊; o.csv 55␊; counts 3:1; record 2 0 0 0 0 1 1
# a key that a map doesn't have, in its second pair
@two stream<int64 n> J = Join(S; T) {window S: sliding, count(3); T: sliding, count(1); param match: {5l : true, 6l : false}[S.n + T.n]; output J: n = S.n;} () as Out = FileSink(J) {param file: "o.csv";} | s.csv: 1␊2␊ | t.csv: 4␊5␊ => 3 stopped J NoKey␊; o.csv 1␊; counts 3:1; record 2 0 0 0 0 1 1

# Its output.
# a division by zero, in the second pair of the second tuple
@two stream<int64 n> J = Join(S; T) {window S: sliding, count(3); T: sliding, count(1); output J: n = 12l / (S.n - T.n);} () as Out = FileSink(J) {param file: "o.csv";} | s.csv: 3␊5␊ | t.csv: 1␊5␊1␊ => 3 stopped J DivZero␊; o.csv 6␊3␊; counts 3:2; record 2 0 0 0 0 1 1
# a key that a map doesn't have, in its only pair that matches
@two stream<int64 n> J = Join(S; T) {window S: sliding, count(3); T: sliding, count(1); param match: S.n > 1l; output J: n = {5l : 50l}[S.n + T.n];} () as Out = FileSink(J) {param file: "o.csv";} | s.csv: 1␊2␊ | t.csv: 3␊4␊ => 3 stopped J NoKey␊; o.csv 50␊; counts 3:1; record 2 0 0 0 0 1 1
"#;

/// Turns that are spent, in each clause but a Filter's condition and a Custom's body for a tuple, which stand in
/// `faults`. The function `spin` doesn't end for 0.
pub(crate) const SPENT: &str = r#"
# A clause that takes all turns ends the run.
# the filter of a Functor
int64 spin(int64 n) {while (n == 0l) {} return n;} composite Main {graph stream<int64 n> T = FileSource() {param file: "t.csv";} stream<int64 n> B as Check = Functor(T) {param filter: spin(n) > 1l;} () as Out = FileSink(B) {param file: "o.csv";}} | t.csv: 1␊2␊0␊3␊ => 3 stopped Check Turns␊; o.csv 2␊; counts 2:1
# its output
int64 spin(int64 n) {while (n == 0l) {} return n;} composite Main {graph stream<int64 n> T = FileSource() {param file: "t.csv";} stream<int64 n> B = Functor(T) {output B: n = spin(n) * 2l;} () as Out = FileSink(B) {param file: "o.csv";}} | t.csv: 1␊2␊0␊3␊ => 3 stopped B Turns␊; o.csv 2␊4␊; counts 2:2
# the condition of a Punctor
int64 spin(int64 n) {while (n == 0l) {} return n;} composite Main {graph stream<int64 n> T = FileSource() {param file: "t.csv";} stream<int64 n> P = Punctor(T) {param punctuation: spin(n) > 1l; position: before;} stream<int64 n> B = Custom(P) {logic onTuple P: {submit(P, B);} onPunct P: {submit({n = 100l}, B);}} () as Out = FileSink(B) {param file: "o.csv";}} | t.csv: 1␊2␊0␊3␊ => 3 stopped P Turns␊; o.csv 1␊100␊2␊; counts 3:3
# the index of a Split
int64 spin(int64 n) {while (n == 0l) {} return n;} composite Main {graph stream<int64 n> T = FileSource() {param file: "t.csv";} (stream<T> L; stream<T> R) = Split(T) {param index: spin(n);} () as X = FileSink(L) {param file: "x.csv";} () as Y = FileSink(R) {param file: "y.csv";}} | t.csv: 1␊2␊0␊3␊ => 3 stopped L Turns␊; x.csv 2␊; y.csv 1␊; counts 2:1 3:1
# the body of a Custom for a window marker
int64 spin(int64 n) {while (n == 0l) {} return n;} composite Main {graph stream<int64 n> T = FileSource() {param file: "t.csv";} stream<int64 n> B = Custom(T) {logic onTuple T: {submit(T, B);} onPunct T: {submit({n = 100l}, B); if (currentPunct() == Sys.WindowMarker) spin(0l);}} () as Out = FileSink(B) {param file: "o.csv";}} | t.csv: 1␊2␊ => 3 stopped B Turns␊; o.csv 1␊2␊; counts 2:2
# that for the end
int64 spin(int64 n) {while (n == 0l) {} return n;} composite Main {graph stream<int64 n> T = FileSource() {param file: "t.csv";} stream<int64 n> B = Custom(T) {logic onTuple T: {submit(T, B);} onPunct T: {submit({n = 100l}, B); if (currentPunct() == Sys.FinalMarker) spin(0l);}} () as Out = FileSink(B) {param file: "o.csv";}} | t.csv: 1␊2␊ => 3 stopped B Turns␊; o.csv 1␊2␊100␊; counts 2:3
# the argument of an Aggregate
int64 spin(int64 n) {while (n == 0l) {} return n;} composite Main {graph stream<int64 n> T = FileSource() {param file: "t.csv";} stream<int64 n> B = Aggregate(T) {window T: tumbling, count(2); output B: n = Sum(spin(n));} () as Out = FileSink(B) {param file: "o.csv";}} | t.csv: 1␊2␊0␊3␊ => 3 stopped B Turns␊; o.csv 3␊; counts 2:1
# the condition of a Join
int64 spin(int64 n) {while (n == 0l) {} return n;} composite Main {graph stream<int64 n> S = FileSource() {param file: "s.csv";} stream<int64 n> T = FileSource() {param file: "t.csv";} stream<int64 n> J = Join(S; T) {window S: sliding, count(2); T: sliding, count(1); param match: spin(S.n * T.n) > 0l; output J: n = S.n + T.n;} () as Out = FileSink(J) {param file: "o.csv";}} | s.csv: 1␊2␊ | t.csv: 3␊0␊ => 3 stopped J Turns␊; o.csv 4␊5␊; counts 3:2; record 2 0 0 0 0 1 1
# its output
int64 spin(int64 n) {while (n == 0l) {} return n;} composite Main {graph stream<int64 n> S = FileSource() {param file: "s.csv";} stream<int64 n> T = FileSource() {param file: "t.csv";} stream<int64 n> J = Join(S; T) {window S: sliding, count(2); T: sliding, count(1); output J: n = spin(S.n - T.n);} () as Out = FileSink(J) {param file: "o.csv";}} | s.csv: 4␊2␊ | t.csv: 1␊2␊ => 3 stopped J Turns␊; o.csv 3␊1␊; counts 3:2; record 2 0 0 0 0 1 1
"#;
