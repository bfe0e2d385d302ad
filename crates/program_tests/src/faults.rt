//! How `run` ends where an operator faults.

pub(crate) const FAULTS: &str = r#"
# A fault of a condition ends the run.
# a division by zero
@filter 100l / price > 1l | t.csv: 20␊0␊5␊ => 3 stopped B DivZero␊; o.csv 20␊; counts 2:1
# a remainder of zero
@filter price % 0l == 1l | t.csv: 20␊ => 3 stopped B DivZero␊; o.csv ∅; counts 2:0
# an index beyond its list
@filter [true, false, true][price] | t.csv: 0␊1␊2␊3␊0␊ => 3 stopped B Index␊; o.csv 0␊2␊; counts 2:2
# an index below 0
@filter [true][price] | t.csv: 0␊-1␊0␊ => 3 stopped B Index␊; o.csv 0␊; counts 2:1
# bytes beyond a text
@filter substring((rstring) price, 2, 1) != "1" | t.csv: 123␊451␊12␊1␊22␊ => 3 stopped B Index␊; o.csv 123␊12␊; counts 2:2
# a key that a map doesn't have
@filter {1l : true}[price] | t.csv: 1␊2␊1␊ => 3 stopped B NoKey␊; o.csv 1␊; counts 2:1
# the first fault of a condition
@filter {1l : true}[price] && 1l / 0l > 0l | t.csv: 2␊ => 3 stopped B NoKey␊; o.csv ∅; counts 2:0

# The first end with a fault names it.
# the name of the operator
@source stream<int64 price> B as Check = Filter(T) {param filter: 100l / price > 1l;} () as Out = FileSink(B) {param file: "o.csv";} | t.csv: 20␊0␊ => 3 stopped Check DivZero␊; o.csv 20␊; counts 2:1
# a stream that nobody reads
@source stream<int64 price> B = Filter(T) {param filter: 100l / price > 1l;} () as Out = FileSink(T) {param file: "o.csv";} | t.csv: 20␊0␊5␊ => 3 stopped B DivZero␊; o.csv 20␊0␊5␊; counts 2:3
# two sinks of the stream
@source stream<int64 price> B = Filter(T) {param filter: 100l / price > 1l;} () as X = FileSink(B) {param file: "x.csv";} () as Y = FileSink(B) {param file: "y.csv";} | t.csv: 20␊0␊5␊ => 3 stopped B DivZero␊; x.csv 20␊; y.csv 20␊; counts 2:1 3:1
# a Filter behind the fault
@source stream<int64 price> B = Filter(T) {param filter: 100l / price > 1l;} stream<int64 price> C = Filter(B) {param filter: price % 2l == 0l;} () as Out = FileSink(C) {param file: "o.csv";} | t.csv: 7␊20␊0␊2␊ => 3 stopped B DivZero␊; o.csv 20␊; counts 3:1
# a Filter that faults before the fault comes
@source stream<int64 price> B = Filter(T) {param filter: 100l / price > 1l;} stream<int64 price> C = Filter(B) {param filter: [true][price - 20l];} () as Out = FileSink(C) {param file: "o.csv";} | t.csv: 20␊7␊0␊20␊ => 3 stopped C Index␊; o.csv 20␊; counts 3:1
# one of two branches
@source stream<int64 price> B = Filter(T) {param filter: price > 10l;} stream<int64 price> C = Filter(T) {param filter: 100l / price > 1l;} () as X = FileSink(B) {param file: "x.csv";} () as Y = FileSink(C) {param file: "y.csv";} | t.csv: 20␊0␊30␊ => 3 stopped C DivZero␊; x.csv 20␊30␊; y.csv 20␊; counts 3:2 4:1
# two faults, and the first end with one
@source stream<int64 price> B = Filter(T) {param filter: 100l / price > 1l;} stream<int64 price> C = Filter(T) {param filter: [true][price];} | t.csv: 1␊0␊ => 3 stopped B DivZero␊
# the same in the other order
@source stream<int64 price> C = Filter(T) {param filter: [true][price];} stream<int64 price> B = Filter(T) {param filter: 100l / price > 1l;} | t.csv: 0␊1␊ => 3 stopped C Index␊
# a sink before an unread stream
@source () as Out = FileSink(C) {param file: "o.csv";} stream<int64 price> B = Filter(T) {param filter: 100l / price > 1l;} stream<int64 price> C = Filter(T) {param filter: [true][price];} | t.csv: 0␊1␊ => 3 stopped C Index␊; o.csv 0␊; counts 1:1
# an unread stream before a sink
@source stream<int64 price> B = Filter(T) {param filter: 100l / price > 1l;} stream<int64 price> C = Filter(T) {param filter: [true][price];} () as Out = FileSink(C) {param file: "o.csv";} | t.csv: 0␊1␊ => 3 stopped B DivZero␊; o.csv 0␊; counts 3:1
# a fault that comes to two ends, behind another
@source stream<int64 price> B = Filter(T) {param filter: 100l / price > 1l;} stream<int64 price> C = Filter(B) {param filter: 1l / (price - 5l) < 2l;} () as X = FileSink(B) {param file: "x.csv";} () as Y = FileSink(C) {param file: "y.csv";} | t.csv: 4␊5␊0␊ => 3 stopped B DivZero␊; x.csv 4␊5␊; y.csv 4␊; counts 3:2 4:1
"#;

/// Rows that take their time.
pub(crate) const TURNS: &str = r#"
# An event has a million turns.
# a loop that needs them all
@op int64 price → stream<int32 n> B = Custom(T) {logic onTuple T: {mutable int32 i = 0; while (i < 1000000) {i += 1;} submit({n = i}, B);}} | t.csv: 1␊ => 0; o.csv 1000000␊; counts 2:1
# a loop that needs one more
@op int64 price → stream<int32 n> B = Custom(T) {logic onTuple T: {mutable int32 i = 0; while (i < 1000001) {i += 1;} submit({n = i}, B);}} | t.csv: 1␊ => 3 stopped B Turns␊; o.csv ∅; counts 2:0
# a million turns for each tuple
boolean counts(int64 n) {mutable int64 i = 0l; while (i < n) {i += 1l;} return true;} composite Main {graph stream<int64 n> T = FileSource() {param file: "t.csv";} stream<int64 n> B = Filter(T) {param filter: counts(n);} () as Out = FileSink(B) {param file: "o.csv";}} | t.csv: 999999␊5␊1000000␊7␊ => 3 stopped B Turns␊; o.csv 999999␊5␊; counts 2:2
"#;
