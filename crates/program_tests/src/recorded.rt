//! Runs that write the record of their arrivals.
use crate::ask::{Seen, answered, ask, asked};
use crate::shown::{shown, shown_but};
use program_texts::{File, files_of};
use spl_value::{Boxed, Items};
use std::alloc::{AllocError, Global};
use std::sync::Wait;
use std::thread::Threads;
use test_texts::signs::words;
use test_texts::words::bytes;

// The file of the record.
const RECORD: &str = "a.txt";

// Adds the record's file as a run left it.
fn add_record(alloc: Global, files: &mut Vec<File>, ran: &Seen) -> Result<(), AllocError> {
    let name = bytes(alloc, RECORD)?;
    if let Some(held) = ran.shelf.file(&name) {
        let held = Items::from_slice(alloc, held)?;
        files.push(File { name, held })?;
    }
    Ok(())
}

// What is answered to a replay of the record that a run wrote, over the files of its row.
fn replayed<W: Threads + Wait + Sync>(
    rt: &W,
    alloc: Global,
    row: &str,
    ran: &Seen,
) -> Result<Boxed<Seen>, AllocError> {
    let (program, beside) = row.split_once(" | ").unwrap_or((row, ""));
    let words = words(alloc, "replay p.spl --arrivals a.txt")?;
    let mut files = files_of(alloc, program, beside)?;
    add_record(alloc, &mut files, ran)?;
    answered(rt, alloc, beside, files, words.as_slice())
}

// Adds what a replay is answered of the record that a run wrote, where it is another answer than the run's.
fn add_replay<W: Threads + Wait + Sync>(
    rt: &W,
    alloc: Global,
    text: &mut String,
    row: &str,
    ran: &Seen,
) -> Result<(), AllocError> {
    let again = replayed(rt, alloc, row, ran)?;
    let first = shown(alloc, ran)?;
    let second = shown(alloc, again.get())?;
    if first.as_str() != second.as_str() {
        text.push_str(" / ")?;
        text.push_str(second.as_str())?;
    }
    Ok(())
}

// What is answered to a run that writes its record, beside that file, and to a replay of that.
fn ran_and_replayed<W: Threads + Wait + Sync>(
    rt: &W,
    alloc: Global,
    row: &str,
) -> Result<String, AllocError> {
    let ran = ask(rt, alloc, row, "run p.spl --arrivals a.txt")?;
    let mut text = shown_but(alloc, ran.get(), RECORD)?;
    if ran.get().ended.status == 0 || ran.get().ended.status == 3 {
        add_replay(rt, alloc, &mut text, row, ran.get())?;
    }
    Ok(text)
}

/// What is answered to a row: where it has no words of its own, to a run that writes its record, and to a
/// replay of that record, which is to be answered alike.
pub(crate) fn recorded<W: Threads + Wait + Sync>(
    rt: &W,
    alloc: Global,
    text: &str,
) -> Result<String, AllocError> {
    if text.contains(" | $ ") {
        asked(rt, alloc, "run p.spl", text)
    } else {
        ran_and_replayed(rt, alloc, text)
    }
}

/// The record is that of input after input, and stands in a file of its own.
pub(crate) const WRITTEN: &str = r#"
# Two streams, and three.
@union | a.csv: 1␊2␊ | b.csv: 3␊ => 0; o.csv 1␊2␊3␊; a.txt arrivals 1␊U 0 0 0 0 1 1 1␊; counts 3:3; record 2 0 0 0 0 1 1 1
@union | a.csv: ∅ | b.csv: ∅ => 0; o.csv ∅; a.txt arrivals 1␊U 0 0 1 1␊; counts 3:0; record 2 0 0 1 1
@three stream<int64 n> U = Union(A, B; C); () as Out = FileSink(U) {param file: "o.csv";} | a.csv: 1␊2␊ | b.csv: 3␊4␊ | c.csv: 5␊6␊ => 0; o.csv 1␊2␊3␊4␊5␊6␊; a.txt arrivals 1␊U 0 0 0 0 1 1 1 1 2 2 2 2␊; counts 4:6; record 3 0 0 0 0 1 1 1 1 2 2 2 2
# two Unions
@unions | a.csv: 1␊ | b.csv: 2␊ | c.csv: 3␊ => 0; o.csv 1␊2␊3␊; a.txt arrivals 1␊U 0 0 0 1 1 1␊V 0 0 0 1 1 1␊; counts 5:3; record 3 0 0 0 1 1 1; record 4 0 0 0 1 1 1
# the later one is declared first, and so has the first line
@three stream<int64 n> V = Union(U; C); stream<int64 n> U = Union(A; B); () as Out = FileSink(V) {param file: "o.csv";} | a.csv: 1␊ | b.csv: 2␊ | c.csv: 3␊ => 0; o.csv 1␊2␊3␊; a.txt arrivals 1␊V 0 0 0 1 1 1␊U 0 0 0 1 1 1␊; counts 5:3; record 3 0 0 0 1 1 1; record 4 0 0 0 1 1 1
# eleven streams at a sink
@two () as Out = FileSink(S, S, S, S, S, S, S, S, S, S, T) {param file: "o.csv";} | s.csv: 1␊ | t.csv: 2␊ => 0; o.csv 1␊1␊1␊1␊1␊1␊1␊1␊1␊1␊2␊; a.txt arrivals 1␊Out 0 0 0 1 1 1 2 2 2 3 3 3 4 4 4 5 5 5 6 6 6 7 7 7 8 8 8 9 9 9 10 10 10␊; counts 2:11; record 2 0 0 0 1 1 1 2 2 2 3 3 3 4 4 4 5 5 5 6 6 6 7 7 7 8 8 8 9 9 9 10 10 10
# an operator within a composite, and an alias
composite C(output O; input I) {graph stream<I> O = Filter(I);} composite Main {graph stream<int64 n> S = FileSource() {param file: "s.csv";} stream<int64 n> T = FileSource() {param file: "t.csv";} stream<int64 n> A = C(S, T); () as Out = FileSink(A) {param file: "o.csv";}} | s.csv: 1␊ | t.csv: 2␊3␊ => 0; o.csv 1␊2␊3␊; a.txt arrivals 1␊A.O 0 0 0 1 1 1 1␊; counts 3:3; record 2 0 0 0 1 1 1 1
@two stream<int64 n> B as Check = Filter(S, T); () as Out = FileSink(B) {param file: "o.csv";} | s.csv: 1␊ | t.csv: 2␊3␊ => 0; o.csv 1␊2␊3␊; a.txt arrivals 1␊Check 0 0 0 1 1 1 1␊; counts 3:3; record 2 0 0 0 1 1 1 1
# a Join
@join window L: sliding, count(0); R: sliding, count(2); param match: L.k == R.k; output J: k = L.k; | l.csv: a␊ | r.csv: a,1␊a,1␊b,5␊ => 0; o.csv ∅; a.txt arrivals 1␊J 0 0 0 1 1 1 1 1␊; counts 3:0; record 2 0 0 0 1 1 1 1 1

# No operator with several streams.
@first | t.csv: 5␊10␊11␊ => 0; o.csv 11␊; a.txt arrivals 1␊; counts 2:1
@pair | a.csv: 1␊2␊ | b.csv: 3␊ => 0; x.csv 1␊2␊; y.csv 3␊; a.txt arrivals 1␊; counts 2:2 3:1
@source | t.csv: 1␊ => 0; a.txt arrivals 1␊
composite A { } => 0; a.txt arrivals 1␊

# A fault ends the record of the operator that it reaches.
@union | a.csv: 1␊x␊ | b.csv: 3␊ => 3 stopped A BadRow line 2␊; o.csv 1␊; a.txt arrivals 1␊U 0 0␊; counts 3:1; record 2 0 0
@union | a.csv: 1␊ | b.csv: 3␊x␊4␊ => 3 stopped B BadRow line 2␊; o.csv 1␊3␊; a.txt arrivals 1␊U 0 0 0 1 1␊; counts 3:2; record 2 0 0 0 1 1
@union | a.csv: 1␊ | b.csv: 3␊ | fail read 2 a.csv => 3 stopped A ReadFailed line 2␊; o.csv 1␊; a.txt arrivals 1␊U 0 0␊; counts 3:1; record 2 0 0

# The file's name, and what was there before.
@union | a.csv: 1␊2␊ | b.csv: 3␊ | a.txt: older rows␊ => 0; o.csv 1␊2␊3␊; a.txt arrivals 1␊U 0 0 0 0 1 1 1␊; a.txt changed; counts 3:3; record 2 0 0 0 0 1 1 1
@union | a.csv: 1␊2␊ | b.csv: 3␊ | $ run --arrivals=a.txt p.spl => 0; o.csv 1␊2␊3␊; a.txt arrivals 1␊U 0 0 0 0 1 1 1␊; counts 3:3; record 2 0 0 0 0 1 1 1
@union | a.csv: 1␊2␊ | b.csv: 3␊ | $ run p.spl --counts --arrivals a.txt => 0 sink Out tuples 3␊; o.csv 1␊2␊3␊; a.txt arrivals 1␊U 0 0 0 0 1 1 1␊; counts 3:3; record 2 0 0 0 0 1 1 1
# that of a source, which is read before it
@union | a.csv: 1␊2␊ | b.csv: 3␊ | $ run p.spl --arrivals b.csv => 0; o.csv 1␊2␊3␊; b.csv changed; counts 3:3; record 2 0 0 0 0 1 1 1
# that of a sink
@source () as Out = FileSink(T) {param file: "a.txt";} | t.csv: 1␊ => 2 refused E5 at 82 a.txt␊
@source () as Out = FileSink(T) {param file: "o.csv";} | t.csv: 1␊ | $ run p.spl --arrivals o.csv => 2 refused E5 at 82 o.csv␊
# that of the program
@union | a.csv: 1␊2␊ | b.csv: 3␊ | $ run p.spl --arrivals p.spl => 1 bad words␊
# beside what isn't built
@union | a.csv: 1␊2␊ | b.csv: 3␊ | a.txt: older rows␊ | $ run p.spl --arrivals a.txt --width 1 => 13 not built␊; a.txt older rows␊

# It is created last, and where a file can't be created nothing is taken.
@none | a.txt: older rows␊ => 4 cannot open p.spl␊; a.txt older rows␊
@union | a.csv: 1␊2␊ | a.txt: older rows␊ => 4 cannot open b.csv␊; a.txt older rows␊
@union | a.csv: 1␊2␊ | b.csv: 3␊ | a.txt: older rows␊ | fail call 4 => 4 cannot open o.csv␊; a.txt older rows␊; record 2
@union | a.csv: 1␊2␊ | b.csv: 3␊ | a.txt: older rows␊ | fail call 5 => 4 cannot open a.txt␊; o.csv ∅; a.txt older rows␊; record 2
@union | a.csv: 1␊2␊ | b.csv: 3␊ | fail call 5 => 4 cannot open a.txt␊; o.csv ∅; record 2
@pair | a.csv: 1␊2␊ | b.csv: 3␊ | fail call 5 => 4 cannot open y.csv␊; x.csv ∅
@pair | a.csv: 1␊2␊ | b.csv: 3␊ | fail call 6 => 4 cannot open a.txt␊; x.csv ∅; y.csv ∅
composite A { } | fail call 2 => 4 cannot open a.txt␊

# It stays empty where a sink's file can't be written or finished.
@union | a.csv: 1␊2␊ | b.csv: 3␊ | fail write 1 o.csv => 6 cannot write o.csv␊; o.csv ∅; a.txt ∅; record 2 0 0 0 0 1 1 1
@union | a.csv: 1␊2␊ | b.csv: 3␊ | fail write 3 o.csv => 6 cannot write o.csv␊; o.csv 1␊2␊; a.txt ∅; record 2 0 0 0 0 1 1 1
@union | a.csv: 1␊2␊ | b.csv: 3␊ | fail call 6 => 6 cannot write o.csv␊; o.csv 1␊2␊3␊; a.txt ∅; record 2 0 0 0 0 1 1 1
@pair | a.csv: 1␊2␊ | b.csv: 3␊ | fail write 2 x.csv => 6 cannot write x.csv␊; x.csv 1␊; y.csv 3␊; a.txt ∅
@pair | a.csv: 1␊2␊ | b.csv: 3␊ | fail write 1 y.csv => 6 cannot write y.csv␊; x.csv 1␊2␊; y.csv ∅; a.txt ∅
@pair | a.csv: 1␊2␊ | b.csv: 3␊ | fail call 8 => 6 cannot write y.csv␊; x.csv 1␊2␊; y.csv 3␊; a.txt ∅
@union | a.csv: 1␊x␊ | b.csv: 3␊ | fail write 1 o.csv => 6 cannot write o.csv␊; o.csv ∅; a.txt ∅; record 2 0 0
# also where it can't be either
@union | a.csv: 1␊2␊ | b.csv: 3␊ | fail write 2 o.csv | fail write 1 a.txt => 6 cannot write o.csv␊; o.csv 1␊; a.txt ∅; record 2 0 0 0 0 1 1 1
@union | a.csv: 1␊2␊ | b.csv: 3␊ | fail call 6,7 => 6 cannot write o.csv␊; o.csv 1␊2␊3␊; a.txt ∅; record 2 0 0 0 0 1 1 1

# It can't be written or finished itself.
@union | a.csv: 1␊2␊ | b.csv: 3␊ | fail write 1 a.txt => 6 cannot write a.txt␊; o.csv 1␊2␊3␊; a.txt ∅; record 2 0 0 0 0 1 1 1
@union | a.csv: 1␊2␊ | b.csv: 3␊ | fail call 7 => 6 cannot write a.txt␊; o.csv 1␊2␊3␊; a.txt arrivals 1␊U 0 0 0 0 1 1 1␊; record 2 0 0 0 0 1 1 1
@union | a.csv: 1␊x␊ | b.csv: 3␊ | fail write 1 a.txt => 6 cannot write a.txt␊; o.csv 1␊; a.txt ∅; record 2 0 0
@pair | a.csv: 1␊2␊ | b.csv: 3␊ | fail call 9 => 6 cannot write a.txt␊; x.csv 1␊2␊; y.csv 3␊; a.txt arrivals 1␊
composite A { } | fail call 3 => 6 cannot write a.txt␊; a.txt arrivals 1␊

# It stands where what is told can't be.
@union | a.csv: 1␊x␊ | b.csv: 3␊ | fail line 1 => 6; o.csv 1␊; a.txt arrivals 1␊U 0 0␊; record 2 0 0
@union | a.csv: 1␊2␊ | b.csv: 3␊ | fail line 1 => 0; o.csv 1␊2␊3␊; a.txt arrivals 1␊U 0 0 0 0 1 1 1␊; counts 3:3; record 2 0 0 0 0 1 1 1
@union | a.csv: 1␊2␊ | b.csv: 3␊ | fail line 1 | $ run p.spl --counts --arrivals a.txt => 6; o.csv 1␊2␊3␊; a.txt arrivals 1␊U 0 0 0 0 1 1 1␊; record 2 0 0 0 0 1 1 1

# A record of a megabyte.
@two stream<int64 n> U = Union(S; T); () as Out = FileSink(U) {param file: "o.csv";} | s.csv: @times 262142 1␊ | t.csv: @times 262142 2␊ => 0; o.csv of 1048568 bytes; a.txt of 1048589 bytes; counts 3:524284; record 2 of 524288 inputs
"#;
