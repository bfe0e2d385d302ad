//! What is answered where a call of the shelf, of a file or of what is told fails.
use crate::ask::asked;
use std::alloc::{AllocError, Global};
use std::sync::Wait;
use std::thread::Threads;

/// What is answered where calls fail and the program with two sources and two sinks is run.
pub(crate) fn failing<W: Threads + Wait + Sync>(
    rt: &W,
    alloc: Global,
    text: &str,
) -> Result<String, AllocError> {
    let row = format!(in alloc; "@pair | a.csv: 1␊2␊ | b.csv: 3␊ | fail {text}")?;
    asked(rt, alloc, "run p.spl", row.as_str())
}

/// What is answered to `run`, unless a row says otherwise.
pub(crate) const DEVICES: &str = r#"
# What cannot be read is told.
# a check of a program that isn't there
@none | $ check p.spl => 4 cannot open p.spl␊
# a run of a program that isn't there
@none => 4 cannot open p.spl␊
# a check whose program can't be opened
@pair | a.csv: 1␊2␊ | b.csv: 3␊ | fail call 1 | $ check p.spl => 4 cannot open p.spl␊
# a check whose first read fails
@pair | a.csv: 1␊2␊ | b.csv: 3␊ | fail read 1 p.spl | $ check p.spl => 5 cannot read p.spl␊
# a check whose read for the end fails
@pair | a.csv: 1␊2␊ | b.csv: 3␊ | fail read 2 p.spl | $ check p.spl => 5 cannot read p.spl␊
# a check of no tokens whose read for the end fails
@text # | fail read 2 p.spl | $ check p.spl => 5 cannot read p.spl␊
# a check over sources that can't be read
@pair | a.csv: 1␊2␊ | b.csv: 3␊ | fail read 1 a.csv | $ check p.spl => 0 ok 4 operators 2 streams␊
# a run whose first read fails
@pair | a.csv: 1␊2␊ | b.csv: 3␊ | fail read 1 p.spl => 5 cannot read p.spl␊
# a run whose program's read for the end fails
@pair | a.csv: 1␊2␊ | b.csv: 3␊ | fail read 2 p.spl => 5 cannot read p.spl␊
# a first source that can't be read
@pair | a.csv: 1␊2␊ | b.csv: 3␊ | fail read 1 a.csv => 3 stopped A ReadFailed line 1␊; x.csv ∅; y.csv 3␊; counts 2:0 3:1
# a second source that can't be read
@pair | a.csv: 1␊2␊ | b.csv: 3␊ | fail read 1 b.csv => 3 stopped B ReadFailed line 1␊; x.csv 1␊2␊; y.csv ∅; counts 2:2 3:0
# both sources that can't be read: the first is told
@pair | a.csv: 1␊2␊ | b.csv: 3␊ | fail read 2 a.csv | fail read 1 b.csv => 3 stopped A ReadFailed line 3␊; x.csv 1␊2␊; y.csv ∅; counts 2:2 3:0
# a first source that isn't there
@pair | b.csv: 3␊ => 4 cannot open a.csv␊
# a second source that isn't there
@pair | a.csv: 1␊2␊ => 4 cannot open b.csv␊
# an only source that isn't there
@first => 4 cannot open t.csv␊
# a source that nobody reads, and isn't there
composite Main {graph stream<int64 n> T = FileSource() {param file: "t.csv";}} => 4 cannot open t.csv␊
# a second source that isn't there beside a first one with a bad row
@pair | a.csv: x␊ => 4 cannot open b.csv␊
# two sources of which none is there
@pair => 4 cannot open a.csv␊
# a first source that can't be read beside a second one that isn't there
@pair | a.csv: 1␊2␊ | fail read 1 a.csv => 4 cannot open b.csv␊; a.csv unread
# a second source that can't be read beside a first one that isn't there
@pair | b.csv: 3␊ | fail read 1 b.csv => 4 cannot open a.csv␊
# a program that can't be read, as its own source
composite Main {graph stream<int64 n> T = FileSource() {param file: "p.spl";} () as Out = FileSink(T) {param file: "o.csv";}} | fail read 2 p.spl => 5 cannot read p.spl␊

# What cannot be created or written is told: the program and the two sources are opened, and then the sinks are created.
# no failing call
@pair | a.csv: 1␊2␊ | b.csv: 3␊ => 0; x.csv 1␊2␊; y.csv 3␊; counts 2:2 3:1
# a first sink that can't be created
@pair | a.csv: 1␊2␊ | b.csv: 3␊ | fail call 4 => 4 cannot open x.csv␊
# a second sink that can't be created
@pair | a.csv: 1␊2␊ | b.csv: 3␊ | fail call 5 => 4 cannot open y.csv␊; x.csv ∅
# an only sink that can't be finished
@first | t.csv: 20␊30␊ | fail call 4 => 6 cannot write o.csv␊; o.csv 20␊30␊
# both sinks that can't be written: the first is told
@pair | a.csv: 1␊2␊ | b.csv: 3␊ | fail write 2 x.csv | fail write 1 y.csv => 6 cannot write x.csv␊; x.csv 1␊; y.csv ∅
# both sinks that can't be finished: the first is told
@pair | a.csv: 1␊2␊ | b.csv: 3␊ | fail call 6,7 => 6 cannot write x.csv␊; x.csv 1␊2␊; y.csv 3␊
# a first sink that can't be finished, beside a second one that can't be written before
@pair | a.csv: 1␊2␊ | b.csv: 3␊ | fail call 6 | fail write 1 y.csv => 6 cannot write x.csv␊; x.csv 1␊2␊; y.csv ∅
# a first sink that can't be created, beside a second source that can't be read before
@pair | a.csv: 1␊2␊ | b.csv: 3␊ | fail read 2 b.csv | fail call 4 => 4 cannot open x.csv␊; b.csv unread
# a second sink that can't be created, of a run that ends with a fault
@pair | a.csv: x␊ | b.csv: 3␊ | fail call 5 => 4 cannot open y.csv␊; x.csv ∅
# a sink that can't be written, of a source that can't be read
@pair | a.csv: 1␊2␊ | b.csv: 3␊ | fail read 2 a.csv | fail write 1 y.csv => 6 cannot write y.csv␊; x.csv 1␊2␊; y.csv ∅
# a sink before its source, of which the first is told
composite Main {graph () as Y = FileSink(B) {param file: "y.csv";} () as X = FileSink(A) {param file: "x.csv";} stream<int64 n> A = FileSource() {param file: "a.csv";} stream<int64 n> B = FileSource() {param file: "b.csv";}} | a.csv: 1␊2␊ | b.csv: 3␊4␊ | fail write 1 x.csv | fail write 2 y.csv => 6 cannot write y.csv␊; x.csv ∅; y.csv 3␊
# a sink that can't be created beside one that couldn't be written
@pair | a.csv: 1␊2␊ | b.csv: 3␊ | fail write 1 x.csv | fail call 5 => 4 cannot open y.csv␊; x.csv ∅
# a sink that can't be written, of a run that ends with a fault
composite Main {graph stream<int64 n> T = FileSource() {param file: "t.csv";} stream<int64 n> B = Filter(T) {param filter: 100l / n > 1l;} () as Out = FileSink(B) {param file: "o.csv";}} | t.csv: 20␊30␊0␊5␊ | fail write 2 o.csv => 6 cannot write o.csv␊; o.csv 20␊
# a sink that can't be written, behind a bad row
@first | t.csv: 20␊x␊ | fail write 1 o.csv => 6 cannot write o.csv␊; o.csv ∅
# a second write to the only sink
@first | t.csv: 20␊30␊ | fail write 2 o.csv => 6 cannot write o.csv␊; o.csv 20␊

# A line that cannot be told fails what was done.
# a check
@pair | a.csv: 1␊2␊ | b.csv: 3␊ | fail line 1 | $ check p.spl => 6
# a refused check
@text # | fail line 1 | $ check p.spl => 2
# a check of no program
@none | fail line 1 | $ check p.spl => 4
# a plan
@pair | a.csv: 1␊2␊ | b.csv: 3␊ | fail line 1 | $ plan p.spl => 6
# a run with nothing to tell
@pair | a.csv: 1␊2␊ | b.csv: 3␊ | fail line 1 => 0; x.csv 1␊2␊; y.csv 3␊; counts 2:2 3:1
# a run that ended with a fault
composite Main {graph stream<int64 n> T = FileSource() {param file: "t.csv";} stream<int64 n> B = Filter(T) {param filter: 100l / n > 1l;} () as Out = FileSink(B) {param file: "o.csv";}} | t.csv: 20␊0␊5␊ | fail line 1 => 6; o.csv 20␊
# a refused run
∅ | fail line 1 => 2
# a bad row
@first | t.csv: 20␊x␊ | fail line 1 => 6; o.csv 20␊
# a sink that can't be written
@first | t.csv: 20␊ | fail line 1 | fail write 1 o.csv => 6; o.csv ∅
# a source that isn't there
@first | fail line 1 => 4
# a request that isn't built
@pair | a.csv: 1␊2␊ | b.csv: 3␊ | fail line 1 | $ simulate p.spl --width 1 --schedule 0 => 13
# no request
@pair | a.csv: 1␊2␊ | b.csv: 3␊ | fail line 1 | $ walk p.spl => 1
"#;

/// Calls that fail.
pub(crate) const FAILING: &str = r#"
# Each file is read once, and once more for its end.
read 1 p.spl => 5 cannot read p.spl␊
read 2 p.spl => 5 cannot read p.spl␊
read 3 p.spl => 0; x.csv 1␊2␊; y.csv 3␊; counts 2:2 3:1
read 1 a.csv => 3 stopped A ReadFailed line 1␊; x.csv ∅; y.csv 3␊; counts 2:0 3:1
read 2 a.csv => 3 stopped A ReadFailed line 3␊; x.csv 1␊2␊; y.csv 3␊; counts 2:2 3:1
read 3 a.csv => 0; x.csv 1␊2␊; y.csv 3␊; counts 2:2 3:1
read 1 b.csv => 3 stopped B ReadFailed line 1␊; x.csv 1␊2␊; y.csv ∅; counts 2:2 3:0
read 2 b.csv => 3 stopped B ReadFailed line 2␊; x.csv 1␊2␊; y.csv 3␊; counts 2:2 3:1
read 3 b.csv => 0; x.csv 1␊2␊; y.csv 3␊; counts 2:2 3:1

# Three files are opened, two are created, and these are finished.
call 1 => 4 cannot open p.spl␊
call 2 => 4 cannot open a.csv␊
call 3 => 4 cannot open b.csv␊
call 4 => 4 cannot open x.csv␊
call 5 => 4 cannot open y.csv␊; x.csv ∅
call 6 => 6 cannot write x.csv␊; x.csv 1␊2␊; y.csv 3␊
call 7 => 6 cannot write y.csv␊; x.csv 1␊2␊; y.csv 3␊
call 8 => 0; x.csv 1␊2␊; y.csv 3␊; counts 2:2 3:1
call 9 => 0; x.csv 1␊2␊; y.csv 3␊; counts 2:2 3:1

# A write for each row. The other sink is written whole.
write 1 x.csv => 6 cannot write x.csv␊; x.csv ∅; y.csv 3␊
write 2 x.csv => 6 cannot write x.csv␊; x.csv 1␊; y.csv 3␊
write 3 x.csv => 0; x.csv 1␊2␊; y.csv 3␊; counts 2:2 3:1
write 1 y.csv => 6 cannot write y.csv␊; x.csv 1␊2␊; y.csv ∅
write 2 y.csv => 0; x.csv 1␊2␊; y.csv 3␊; counts 2:2 3:1
write 3 y.csv => 0; x.csv 1␊2␊; y.csv 3␊; counts 2:2 3:1
"#;
