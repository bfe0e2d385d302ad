//! The programs of rows.
//!
//! | Program of a row | What `p.spl` holds |
//! |---|---|
//! | `@source TEXT` | a composite with a source `T` and the text |
//! | `@filter TEXT` | a source `T`, a Filter `B` with the text as its condition, and a sink |
//! | `@rows TYPES`, `@permissive TYPES` | a source `T` of these attributes, strict or not, and a sink |
//! | `@op TYPES → TEXT` | a source `T` of these attributes, the text, and a sink of `B` |
//! | `@two TEXT` | a composite with two sources `S` and `T`, and the text |
//! | `@three TEXT` | a composite with three sources `A`, `B` and `C`, and the text |
//! | `@join TEXT` | two sources `L` and `R`, a Join `J` with the text as its clauses, and a sink |
//! | `@first`, `@pair`, `@union`, `@unions`, `@sums`, `@telemetry`, `@trades`, `@logs`, `@averages`, `@highest`, `@sales`, `@bookings`, `@bad_row`, `@division`, `@wrong` | that program |
//! | `@sums OLD → NEW` | that program with the first such piece replaced |
//! | `@nested 9` | `@first` with its attribute in nine pairs of parentheses |
//! | `@parentheses 9`, `@sources 9`, `@chain 9`, `@padded 9 TEXT` | what `generated` says |
//! | `@spread TEXT` | the text with its pieces, as `«0 9 x»` for nine times `x` |
//! | `@text TEXT` | the text, where it begins with `#` or `@` |
//! | another text | the text |
use crate::examples::{
    AVERAGES, BAD_ROW, BOOKINGS, DIVISION, HIGHEST, LOGS, SALES, TELEMETRY, TRADES, WRONG,
};
use crate::generated::{CHAIN, NESTED, PARENTHESES, SOURCES, counted, edited, padded};
use std::alloc::{AllocError, Global};
use test_texts::signs::without_signs;
use test_texts::spelled::spread;
use test_texts::words::{cut, number};

// What comes before the text of a composite after its source, and before a condition and
// after it.
const SOURCE: &str =
    r#"composite Main {graph stream<int64 price> T = FileSource() {param file: "t.csv";} "#;

const FILTER: &str = r#"stream<int64 price> B = Filter(T) {param filter: "#;

const SINK: &str = r#";} () as Out = FileSink(B) {param file: "o.csv";}}"#;

// Programs in which the two texts of a row replace FIRST and THEN.
const ROWS: &str =
    r#"composite Main {graph stream<FIRST> T = FileSource() {param file: "t.csv";} () as Out = FileSink(T) {param file: "o.csv";}}"#;

const PERMISSIVE: &str =
    r#"composite Main {graph stream<FIRST> T = FileSource() {param file: "t.csv"; parsing: permissive;} () as Out = FileSink(T) {param file: "o.csv";}}"#;

const OPERATOR: &str =
    r#"composite Main {graph stream<FIRST> T = FileSource() {param file: "t.csv";} THEN () as Out = FileSink(B) {param file: "o.csv";}}"#;

const TWO: &str =
    r#"composite Main {graph stream<int64 n> S = FileSource() {param file: "s.csv";} stream<int64 n> T = FileSource() {param file: "t.csv";} FIRST}"#;

const THREE: &str =
    r#"composite Main {graph stream<int64 n> A = FileSource() {param file: "a.csv";} stream<int64 n> B = FileSource() {param file: "b.csv";} stream<int64 n> C = FileSource() {param file: "c.csv";} FIRST}"#;

const JOIN: &str =
    r#"composite Main {graph stream<rstring k> L = FileSource() {param file: "l.csv";} stream<rstring k, int64 v> R = FileSource() {param file: "r.csv";} stream<rstring k, int64 v> J = Join(L; R) {FIRST} () as Out = FileSink(J) {param file: "o.csv";}}"#;

// A source, a Filter and a sink.
const FIRST: &str = r#"composite Main {
  graph
    stream<int64 price> T = FileSource() { param file: "t.csv"; format: csv; }
    stream<int64 price> B = Filter(T) { param filter: price > 10l; }
    () as Out = FileSink(B) { param file: "o.csv"; format: csv; }
}
"#;

// Two sources, each with a sink.
const PAIR: &str = r#"composite Main {
  graph
    stream<int64 n> A = FileSource() { param file: "a.csv"; }
    stream<int64 n> B = FileSource() { param file: "b.csv"; }
    () as X = FileSink(A) { param file: "x.csv"; }
    () as Y = FileSink(B) { param file: "y.csv"; }
}
"#;

// Two sources, a Union of them, and a sink.
const UNION: &str = r#"composite Main {
  graph
    stream<int64 n> A = FileSource() { param file: "a.csv"; }
    stream<int64 n> B = FileSource() { param file: "b.csv"; }
    stream<int64 n> U = Union(A; B);
    () as Out = FileSink(U) { param file: "o.csv"; }
}
"#;

// Three sources, and two Unions one after the other.
const UNIONS: &str = r#"composite Main {
  graph
    stream<int64 n> A = FileSource() { param file: "a.csv"; }
    stream<int64 n> B = FileSource() { param file: "b.csv"; }
    stream<int64 n> C = FileSource() { param file: "c.csv"; }
    stream<int64 n> U = Union(A; B);
    stream<int64 n> V = Union(U; C);
    () as Out = FileSink(V) { param file: "o.csv"; }
}
"#;

// Trades that are cleaned, summed by symbol and split by their sum.
const SUMS: &str = r#"namespace demo.trades;
type Trade = int64 ts, rstring sym, int64 price, int64 qty;
composite Clean(output Good; input Raw) {
  param expression<int64> $least : 1l;
  graph
    stream<Trade> Good = Filter(Raw) {
      param filter: qty >= $least && price > 0l; // both must hold
    }
}
composite Main {
  graph
    stream<Trade> In = FileSource() { param file: "trades.csv"; format: csv; }
    stream<Trade> C1 = Clean(In) { param least: 10l; }
    stream<Trade> C2 = Clean(In) { param least: 100l; }
    stream<rstring sym, int64 value> V = Functor(C1) { output V: value = price * qty; }
    stream<rstring sym, int64 total, int32 n> A = Aggregate(V) {
      window V: sliding, count(2), count(1), partitioned;
      param partitionBy: sym;
      output A: sym = Any(sym), total = Sum(value), n = Count();
    }
    (stream<A> Lo; stream<A> Hi) = Split(A) { param index: total >= 10000l ? 1 : 0; }
    () as LoOut = FileSink(Lo) { param file: "lo.csv"; format: csv; }
    () as HiOut = FileSink(Hi) { param file: "hi.csv"; format: csv; }
    () as BigOut = FileSink(C2) { param file: "big.csv"; format: csv; }
}
"#;

// The program of that name. It is empty where there is none.
fn named(name: &str) -> &'static str {
    match name {
        "first" => FIRST,
        "pair" => PAIR,
        "union" => UNION,
        "unions" => UNIONS,
        "sums" => SUMS,
        "telemetry" => TELEMETRY,
        "trades" => TRADES,
        "logs" => LOGS,
        "averages" => AVERAGES,
        "highest" => HIGHEST,
        "sales" => SALES,
        "bookings" => BOOKINGS,
        "bad_row" => BAD_ROW,
        "division" => DIVISION,
        "wrong" => WRONG,
        _ => "",
    }
}

// The program of that name, edited where the text says so.
fn named_of(alloc: Global, name: &str, text: &str) -> Result<String, AllocError> {
    match text.split_once(" → ") {
        None => named(name).to_string(alloc),
        Some((old, new)) => edited(alloc, named(name), old, new),
    }
}

// A program with the two texts of a row; the second one is empty where there is one alone.
fn filled(alloc: Global, program: &str, text: &str) -> Result<String, AllocError> {
    let (first, then) = text.split_once(" → ").unwrap_or((text, ""));
    let program = edited(alloc, program, "FIRST", first)?;
    edited(alloc, program.as_str(), "THEN", then)
}

// The text after the number, padded to that number of bytes.
fn padded_of(alloc: Global, text: &str) -> Result<String, AllocError> {
    let (size, program) = cut(text);
    let program = if program == "@first" { FIRST } else { program };
    padded(alloc, program, number(size))
}

// The first program with its attribute in pairs of parentheses.
fn nested_of(alloc: Global, count: &str) -> Result<String, AllocError> {
    let condition = counted(alloc, NESTED, count)?;
    edited(alloc, FIRST, "price > 10l", condition.as_str())
}

// A program by its name and what comes after the name.
fn program_by_name(alloc: Global, name: &str, text: &str) -> Result<String, AllocError> {
    match name {
        "text" => text.to_string(alloc),
        "source" => format!(in alloc; "{SOURCE}{text}}}"),
        "filter" => format!(in alloc; "{SOURCE}{FILTER}{text}{SINK}"),
        "rows" => filled(alloc, ROWS, text),
        "permissive" => filled(alloc, PERMISSIVE, text),
        "op" => filled(alloc, OPERATOR, text),
        "two" => filled(alloc, TWO, text),
        "three" => filled(alloc, THREE, text),
        "join" => filled(alloc, JOIN, text),
        "nested" => nested_of(alloc, text),
        "parentheses" => counted(alloc, PARENTHESES, text),
        "sources" => counted(alloc, SOURCES, text),
        "chain" => counted(alloc, CHAIN, text),
        "padded" => padded_of(alloc, text),
        "spread" => spread(alloc, text),
        name => named_of(alloc, name, text),
    }
}

/// The program of a row.
pub(crate) fn program_of(alloc: Global, text: &str) -> Result<String, AllocError> {
    let text = without_signs(alloc, text)?;
    match text.as_str().strip_prefix("@") {
        None => text.as_str().to_string(alloc),
        Some(asked) => {
            let (name, text) = cut(asked);
            program_by_name(alloc, name, text)
        }
    }
}
