//! The lines of faults, also of those that no run ends with.
use language_model::Checked;
use run_report::{Cause, status_text};
use spl_driver::compile;
use spl_value::{Fault, Items, NoMemory};
use std::alloc::{AllocError, Global};
use test_texts::rows::{Answers, Untrue, expect};
use test_texts::signs::with_signs;
use test_texts::text::Text;
use test_texts::values::fault_named;
use test_texts::words::cut;

// A fault of one of the operators, its kind and its line.
struct Faults;

// The operators T, C.T, F and Out.
const OPERATORS: &str =
    r#"composite Read(output T) {graph stream<int64 n> T = FileSource() {param file: "c.csv";}} composite Main {graph stream<int64 n> T = FileSource() {param file: "t.csv";} stream<int64 n> C = Read(); stream<int64 n> F = Filter(T); () as Out = FileSink(F) {param file: "o.csv";}}"#;

// The number of the operator with that name.
fn number_of(checked: &Checked, name: &str) -> u32 {
    let mut number = 0u32;
    for op in checked.graph.ops.as_slice() {
        if op.name.as_slice() == name.as_bytes() {
            return number;
        }
        number = number.saturating_add(1);
    }
    number
}

fn fault_of(checked: &Checked, parts: &str) -> Fault {
    let (op, parts) = cut(parts);
    let (kind, line) = cut(parts);
    Fault {
        op: number_of(checked, op),
        kind: fault_named(kind),
        line: line.parse::<u64>().unwrap_or(0),
    }
}

// The line that is told of a cause.
fn told(alloc: Global, checked: &Checked, cause: &Cause) -> Result<String, AllocError> {
    let mut shown = Text::new(alloc);
    match status_text(alloc, Some(checked), cause) {
        Ok(line) => shown.add_bytes(line.as_slice()),
        Err(NoMemory) => shown.add("no memory"),
    }
    with_signs(alloc, shown.finish()?.as_str())
}

impl Answers for Faults {
    fn answer(&self, alloc: Global, text: &str) -> Result<String, AllocError> {
        match compile(alloc, OPERATORS.as_bytes(), &Items::new(alloc)) {
            Ok(checked) => told(alloc, &checked, &Cause::Stopped(fault_of(&checked, text))),
            Err(_) => "refused".to_string(alloc),
        }
    }
}

#[test]
fn a_fault_is_told_with_its_operator(rt: HostRuntime) -> Result<(), Untrue> {
    expect(rt.alloc(), &Faults, &[STOPPED])
}

const STOPPED: &str = r#"
T BadRow 2 => stopped T BadRow line 2␊
T LongRow 1 => stopped T LongRow line 1␊
C.T LongFile 1099511627776 => stopped C.T LongFile line 1099511627776␊
T ReadFailed 3 => stopped T ReadFailed line 3␊
F DivZero 0 => stopped F DivZero␊
F Index 0 => stopped F Index␊
F NoKey 0 => stopped F NoKey␊
Out Turns 0 => stopped Out Turns␊
"#;
