//! The lines that tell why the program ended.
use crate::shown::add_held;
use language_model::{CheckError as Check, ExpansionError as Expansion};
use run_report::{Cause, Code, Refusal, status_text};
use spl_tree::LexicalError as Lexical;
use spl_value::{Items, NoMemory};
use std::alloc::{AllocError, Global};
use test_texts::rows::{Answers, Untrue, expect};
use test_texts::signs::with_signs;
use test_texts::text::Text;
use test_texts::words::{cut, number};

// Causes other than faults, each by its name; a refusal with its place and its name.
struct Lines;

const CODES: &[(&str, Code)] = &[
    ("lexical BadByte", Code::Lexical(Lexical::BadByte)),
    ("lexical OpenText", Code::Lexical(Lexical::OpenText)),
    ("lexical OpenComment", Code::Lexical(Lexical::OpenComment)),
    ("lexical BadNumber", Code::Lexical(Lexical::BadNumber)),
    ("lexical TooLong", Code::Lexical(Lexical::TooLong)),
    ("syntax Unexpected", Code::Unexpected),
    ("syntax TooDeep", Code::TooDeep),
    ("expansion NoMain", Code::Expansion(Expansion::NoMain)),
    ("expansion Recursive", Code::Expansion(Expansion::Recursive)),
    ("expansion Twice", Code::Expansion(Expansion::Twice)),
    ("expansion Loop", Code::Expansion(Expansion::Loop)),
    ("expansion SameFile", Code::Expansion(Expansion::SameFile)),
    ("expansion TooMany", Code::Expansion(Expansion::TooMany)),
    ("expansion Unknown", Code::Expansion(Expansion::Unknown)),
    ("expansion Ports", Code::Expansion(Expansion::Ports)),
    ("check Unknown", Code::Check(Check::Unknown)),
    ("check Mismatch", Code::Check(Check::Mismatch)),
    ("check NotMutable", Code::Check(Check::NotMutable)),
    ("check WrongCall", Code::Check(Check::WrongCall)),
    ("check LeftOut", Code::Check(Check::LeftOut)),
    ("check NoReturn", Code::Check(Check::NoReturn)),
    (
        "check MissingParameter",
        Code::Check(Check::MissingParameter),
    ),
    ("check ExtraParameter", Code::Check(Check::ExtraParameter)),
    ("check BadWindow", Code::Check(Check::BadWindow)),
    ("check BadOutput", Code::Check(Check::BadOutput)),
    ("check PortCount", Code::Check(Check::PortCount)),
    ("check NoTextForm", Code::Check(Check::NoTextForm)),
];

// The code with which a text begins, and what comes after it.
fn code(text: &str) -> Option<(Code, &str)> {
    for (name, code) in CODES {
        if let Some(parts) = text.strip_prefix(*name) {
            return Some((*code, parts));
        }
    }
    None
}

fn refused(alloc: Global, code: Code, parts: &str) -> Result<Cause, AllocError> {
    let (_, parts) = cut(parts);
    let (at, name) = cut(parts);
    let name = if name.is_empty() {
        None
    } else {
        Some(Items::from_slice(alloc, name.as_bytes())?)
    };
    Ok(Cause::Refused(Refusal {
        code,
        at: number(at),
        name,
    }))
}

// A cause with a file's name, or a lack of memory.
fn named(alloc: Global, text: &str) -> Result<Cause, AllocError> {
    let (kind, name) = cut(text);
    let name = Items::from_slice(alloc, name.as_bytes())?;
    match kind {
        "OpenFailed" => Ok(Cause::OpenFailed(name)),
        "ReadFailed" => Ok(Cause::ReadFailed(name)),
        "WriteFailed" => Ok(Cause::WriteFailed(name)),
        _ => Ok(Cause::NoMemory),
    }
}

// The cause of a text.
fn cause(alloc: Global, text: &str) -> Result<Cause, AllocError> {
    match text {
        "Done" => Ok(Cause::Done),
        "BadWords" => Ok(Cause::BadWords),
        "NotBuilt" => Ok(Cause::NotBuilt),
        _ => match code(text) {
            Some((code, parts)) => refused(alloc, code, parts),
            None => named(alloc, text),
        },
    }
}

impl Answers for Lines {
    fn answer(&self, alloc: Global, text: &str) -> Result<String, AllocError> {
        let cause = cause(alloc, text)?;
        let mut shown = Text::new(alloc);
        match status_text(alloc, None, &cause) {
            Ok(line) => add_held(&mut shown, Some(line.as_slice())),
            Err(NoMemory) => shown.add("no memory"),
        }
        with_signs(alloc, shown.finish()?.as_str())
    }
}

#[test]
fn each_cause_has_its_line(rt: HostRuntime) -> Result<(), Untrue> {
    expect(rt.alloc(), &Lines, &[LINES])
}

const LINES: &str = r#"
lexical BadByte 0 => refused L1 at 0␊
lexical OpenText 0 => refused L2 at 0␊
lexical OpenComment 1 => refused L3 at 1␊
lexical BadNumber 0 => refused L4 at 0␊
lexical TooLong 1048576 => refused L5 at 1048576␊
syntax Unexpected 9 => refused S1 at 9␊
syntax TooDeep 342 => refused S2 at 342␊
expansion NoMain 0 => refused E1 at 0␊
expansion Recursive 20 A => refused E2 at 20 A␊
expansion Twice 21 T => refused E3 at 21 T␊
expansion Loop 20 A => refused E4 at 20 A␊
expansion SameFile 128 o.csv => refused E5 at 128 o.csv␊
expansion TooMany 9000 => refused E6 at 9000␊
expansion Unknown 40 Fliter => refused E7 at 40 Fliter␊
expansion Ports 50 P => refused E8 at 50 P␊
check Unknown 27 foo => refused Y1 at 27 foo␊
check Mismatch 67 => refused Y2 at 67␊
check NotMutable 80 => refused Y3 at 80␊
check WrongCall 81 => refused Y4 at 81␊
check LeftOut 27 float64 => refused Y5 at 27 float64␊
check NoReturn 6 f => refused Y6 at 6 f␊
check MissingParameter 20 file => refused C1 at 20 file␊
check ExtraParameter 61 window => refused C2 at 61 window␊
check BadWindow 62 => refused C3 at 62␊
check BadOutput 63 => refused C4 at 63␊
check PortCount 20 => refused C5 at 20␊
check NoTextForm 4294967295 => refused C6 at 4294967295␊

# A name that isn't told, and one that isn't there.
check NotMutable 80 price => refused Y3 at 80␊
check LeftOut 27 => refused Y5 at 27␊

# causes without parts
Done => ∅
BadWords => bad words␊
NotBuilt => not built␊
OpenFailed t.csv => cannot open t.csv␊
ReadFailed p.spl => cannot read p.spl␊
WriteFailed o.csv => cannot write o.csv␊
WriteFailed - => cannot write -␊
NoMemory => no memory␊
"#;
