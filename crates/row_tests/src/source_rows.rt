//! The rows of a source's file as its stream, and tuples as the rows of a sink.
ghost use Rattle.std.specs.Prelude.{◌≡◌, ◌∷◌, [], true, false, IfOk};
ghost use Rattle.language_model.specs.Checking.{has_text_form};
ghost use Rattle.language_model.specs.parts.Checking.{level_text_form};
ghost use Rattle.spl_value.specs.declared.types.SplType.TheViews.{out-SplType};
ghost use Rattle.row_reader.specs.Reading.{is_over};

use feed_pour::{Feed, Pour, PourAnswer};
use memory_files::{MemoryFeed, MemoryPour};
use row_reader::{Rows, read_rows};
use row_writer::RowWriter;
use spl_value::{
    Attribute, Bytes, FaultKind, IntKind, Item, Items, NoMemory, Schema, SplType, Value,
};
use std::alloc::{AllocError, Global};
use test_texts::rows::{Answers, Untrue, expect};
use test_texts::signs::with_signs;
use test_texts::spelled::spelled_out;
use test_texts::text::Text;
use test_texts::words::{bytes, cut, number, numbers};

// The types of the columns, `s` for strict or `p` for permissive, the limit, the read that fails, and
// the file.
struct Sources;

// The types of the columns, and a file whose rows are read and written, a tuple at a time.
struct Copies;

// The write that fails, and the rows that are written.
struct Sinks;

fn kind_of(word: &str) -> SplType
    ensures { level_text_form (out-SplType result) ≡ true }
{
    match word {
        "i8" => SplType::Int(IntKind::I8),
        "i16" => SplType::Int(IntKind::I16),
        "i32" => SplType::Int(IntKind::I32),
        "i64" => SplType::Int(IntKind::I64),
        "u8" => SplType::Int(IntKind::U8),
        "u16" => SplType::Int(IntKind::U16),
        "u32" => SplType::Int(IntKind::U32),
        "u64" => SplType::Int(IntKind::U64),
        "b" => SplType::Bool,
        _ => SplType::Text,
    }
}

fn attribute(alloc: Global, word: &str) -> Attribute
    ensures { has_text_form (result ∷ []) ≡ true }
{
    Attribute {
        name: Items::new(alloc),
        kind: kind_of(word),
    }
}

// A schema of columns of these types.
fn schema_of(alloc: Global, words: &str) -> Result<Schema, AllocError>
    ensures { IfOk result (λ schema. has_text_form schema ≡ true) }
{
    let mut schema = Items::new(alloc);
    for word in words.split(',') {
        schema.push(attribute(alloc, word))?;
    }
    Ok(schema)
}

fn add_text(text: &mut Text, bytes: &[u8]) {
    if bytes.is_empty() {
        text.add("∅");
    } else if bytes.len() > 100 {
        text.add_number(bytes.len() as i128);
        text.add(" bytes");
    } else {
        text.add_bytes(bytes);
    }
}

fn add_value(text: &mut Text, value: &Value) {
    match value {
        Value::Int(number) => text.add_number(*number),
        Value::Bool(true) => text.add("true"),
        Value::Bool(false) => text.add("false"),
        Value::Text(bytes) => add_text(text, bytes.as_slice()),
        _ => text.add("?"),
    }
}

fn add_tuple(text: &mut Text, values: &[Value]) {
    text.add("[");
    for (at, value) in values.iter().enumerate() {
        text.add_between(at, " | ");
        add_value(text, value);
    }
    text.add("]");
}

fn fault_word(kind: FaultKind) -> &'static str {
    match kind {
        FaultKind::BadRow => "BadRow",
        FaultKind::LongRow => "LongRow",
        FaultKind::LongFile => "LongFile",
        FaultKind::ReadFailed => "ReadFailed",
        _ => "another fault",
    }
}

fn add_item(text: &mut Text, item: &Item) {
    match item {
        Item::Tuple(values) => add_tuple(text, values.as_slice()),
        Item::Window => text.add("Window"),
        Item::Final => text.add("Final"),
        Item::Bad(fault) => {
            text.add(fault_word(fault.kind));
            text.add(" of ");
            text.add_number(i128::from(fault.op));
            text.add(" at ");
            text.add_number(i128::from(fault.line));
        }
    }
}

// The items; of many ones the last five, and how many are in front of them.
fn shown_items(alloc: Global, items: &[Item]) -> Result<String, AllocError> {
    let mut text = Text::new(alloc);
    let passed = if items.len() > 10 { items.len() - 5 } else { 0 };
    if passed > 0 {
        text.add_number(passed as i128);
        text.add(" items, ");
    }
    for (at, item) in items[passed..].iter().enumerate() {
        text.add_between(at, ", ");
        add_item(&mut text, item);
    }
    with_signs(alloc, text.finish()?.as_str())
}

fn file_of(alloc: Global, file: &str) -> Result<Bytes, AllocError> {
    bytes(alloc, spelled_out(alloc, file)?.as_str())
}

fn rows_of(
    alloc: Global,
    head: &str,
    file: Result<Bytes, AllocError>,
) -> Result<Items<Item>, NoMemory> {
    let (columns, rest) = cut(head);
    let (mode, rest) = cut(rest);
    let (limit, failing) = cut(rest);
    let mut feed = MemoryFeed::new(file?, numbers(alloc, failing)?);
    let schema = schema_of(alloc, columns)?;
    let limit = u64::from(number(limit));
    read_rows(alloc, &mut feed, &schema, mode == "s", 7, limit)
}

impl Answers for Sources {
    fn answer(&self, alloc: Global, text: &str) -> Result<String, AllocError> {
        let (head, file) = text.split_once(" | ").unwrap_or((text, ""));
        match rows_of(alloc, head, file_of(alloc, file)) {
            Ok(items) => shown_items(alloc, items.as_slice()),
            Err(NoMemory) => Err(AllocError),
        }
    }
}

// Writes the rows that are left.
fn copy_rows<F: Feed, P: Pour>(
    rows: &mut Rows,
    feed: &mut F,
    writer: &mut RowWriter,
    pour: &mut P,
) -> Result<(), NoMemory>
    requires { is_over rows.old ≡ false }
{
    'rows: loop {
        match rows.next(feed)? {
            Item::Tuple(values) => {
                if writer.put(pour, &values).is_err() {
                    return Err(NoMemory);
                }
                rows.give_back(values);
            }
            Item::Window => {}
            Item::Final | Item::Bad(_) => return Ok(()),
        }
    }
}

// Writes all rows, and adds what is then written.
fn add_copied(
    text: &mut Text,
    rows: Result<Rows, NoMemory>,
    feed: &mut MemoryFeed,
    writer: Result<RowWriter, NoMemory>,
    pour: &mut MemoryPour,
)
    requires { IfOk rows (λ r. is_over r ≡ false) }
{
    let Ok(mut rows) = rows else {
        return text.add("no memory");
    };
    let Ok(mut writer) = writer else {
        return text.add("no memory");
    };
    match copy_rows(&mut rows, feed, &mut writer, pour) {
        Ok(()) => text.add_bytes(pour.bytes()),
        Err(NoMemory) => text.add("no memory"),
    }
}

fn add_copy(
    alloc: Global,
    text: &mut Text,
    columns: &str,
    mut feed: MemoryFeed,
) -> Result<(), AllocError> {
    let schema = schema_of(alloc, columns)?;
    let rows = Rows::new(alloc, &schema, true, 7, 1_000_000);
    let mut pour = MemoryPour::new(alloc, Items::new(alloc));
    add_copied(text, rows, &mut feed, RowWriter::new(alloc), &mut pour);
    Ok(())
}

impl Answers for Copies {
    fn answer(&self, alloc: Global, text: &str) -> Result<String, AllocError> {
        let (columns, file) = text.split_once(" | ").unwrap_or((text, ""));
        let feed = MemoryFeed::new(file_of(alloc, file)?, Items::new(alloc));
        let mut shown = Text::new(alloc);
        add_copy(alloc, &mut shown, columns, feed)?;
        with_signs(alloc, shown.finish()?.as_str())
    }
}

fn put_word(put: Result<u64, PourAnswer>) -> &'static str {
    match put {
        Ok(3) => "three rows: ",
        Ok(_) => "other rows: ",
        Err(PourAnswer::Failed) => "failed: ",
        Err(PourAnswer::Memory) => "no memory: ",
    }
}

// Writes the rows to a pour, and adds what is then written.
fn add_put(
    text: &mut Text,
    writer: Result<RowWriter, NoMemory>,
    mut pour: MemoryPour,
    items: Result<Items<Item>, NoMemory>,
) {
    let Ok(mut writer) = writer else {
        return text.add("no memory");
    };
    let Ok(items) = items else {
        return text.add("no memory");
    };
    text.add(put_word(writer.put_all(&mut pour, items.as_slice())));
    text.add_bytes(pour.bytes());
}

impl Answers for Sinks {
    fn answer(&self, alloc: Global, text: &str) -> Result<String, AllocError> {
        let (failing, file) = cut(text);
        let pour = MemoryPour::new(alloc, numbers(alloc, failing)?);
        let items = rows_of(alloc, "t s 1000 0", file_of(alloc, file));
        let mut shown = Text::new(alloc);
        add_put(&mut shown, RowWriter::new(alloc), pour, items);
        with_signs(alloc, shown.finish()?.as_str())
    }
}

#[test]
fn sources_have_these_rows(rt: HostRuntime) -> Result<(), Untrue> {
    expect(
        rt.alloc(),
        &Sources,
        &[LINES, QUOTES, BOUNDS, LIMITS, READS],
    )
}

#[test]
fn rows_are_written_as_they_are_read(rt: HostRuntime) -> Result<(), Untrue> {
    expect(rt.alloc(), &Copies, &[COPIES])?;
    expect(rt.alloc(), &Sinks, &[WRITES])
}

const LINES: &str = r#"
# no line, lines without rows, and a last line without a line feed
t,t s 1000 0 |  => Window, Final
t,t s 1000 0 | ␊ => Window, Final
t,t s 1000 0 | ␊␍␊␍␍␊a,b => [a | b], Window, Final
t,t s 1000 0 | a,b␊␊c,d => [a | b], [c | d], Window, Final

# carriage returns
t,t s 1000 0 | a,b␍␊c,d␍␍␊␍e,f␊ => [a | b], [c | d], [e | f], Window, Final
t,t s 1000 0 | a,b␍c,d␊ => BadRow of 7 at 1
t,t s 1000 0 | a,b␍,␊ => BadRow of 7 at 1

# byte order marks
t,t s 1000 0 | ◆a,b␊◆c,d␊◆"e",f␊ => [a | b], [c | d], [e | f], Window, Final
t s 1000 0 | ◆␊◆␍␊ => Window, Final

# more fields, and fewer
t,t s 1000 0 | a,b␊a␊c,d => [a | b], BadRow of 7 at 2
t,t s 1000 0 | a,b,c => BadRow of 7 at 1
t,t s 1000 0 | "a",b,c␊ => BadRow of 7 at 1
t,t s 1000 0 | "a"␊ => BadRow of 7 at 1
t,t p 1000 0 | a,b␊a␊a,b,c␊"a"␊"a",b,c␊a,b␍c,d␊c,d => [a | b], [c | d], Window, Final
t,t s 1000 0 | ,␊a,␊,b => [∅ | ∅], [a | ∅], [∅ | b], Window, Final
"#;

const QUOTES: &str = r#"
t,t s 1000 0 | "a,b",c␊ => [a,b | c], Window, Final
t,t s 1000 0 | a,"b,c"␊ => [a | b,c], Window, Final
t,t s 1000 0 | "a""b",""""␊ => [a"b | "], Window, Final
t,t s 1000 0 | a"b,c""␊ => [a"b | c""], Window, Final
t,t s 1000 0 | "a"b,"c"d"e"␊ => [ab | cd"e"], Window, Final
t,t s 1000 0 | "",""␊ => [∅ | ∅], Window, Final
t s 1000 0 | ""␊ => [∅], Window, Final
t,t s 1000 0 | "a",b␍␊c,"d"␍␊ => [a | b], [c | d], Window, Final

# not closed: the field ends with its line
t,t s 1000 0 | a,"b␊c,d␊ => [a | b], [c | d], Window, Final
t,t s 1000 0 | a,"b␍␊ => [a | b␍], Window, Final
t,t s 1000 0 | a,"b""␊ => [a | b"], Window, Final
t,t s 1000 0 | "a,b␊ => BadRow of 7 at 1
t s 1000 0 | "a␊b"␊ => [a], [b"], Window, Final
t s 1000 0 | " => [∅], Window, Final

# carriage returns in quotes, and behind them
t,t s 1000 0 | "a␍b",c␍␊ => [a␍b | c], Window, Final
t s 1000 0 | "a"␍b␊ => BadRow of 7 at 1
"#;

const BOUNDS: &str = r#"
i8 p 1000 0 | -129␊-128␊127␊128␊ => [-128], [127], Window, Final
i16 p 1000 0 | -32769␊-32768␊32767␊32768␊ => [-32768], [32767], Window, Final
i32 p 1000 0 | -2147483649␊-2147483648␊2147483647␊2147483648␊ => [-2147483648], [2147483647], Window, Final
i64 p 1000 0 | -9223372036854775809␊-9223372036854775808␊9223372036854775807␊9223372036854775808␊ => [-9223372036854775808], [9223372036854775807], Window, Final
u8 p 1000 0 | -1␊0␊255␊256␊ => [0], [255], Window, Final
u16 p 1000 0 | -1␊0␊65535␊65536␊ => [0], [65535], Window, Final
u32 p 1000 0 | -1␊0␊4294967295␊4294967296␊ => [0], [4294967295], Window, Final
u64 p 1000 0 | -1␊0␊18446744073709551615␊18446744073709551616␊ => [0], [18446744073709551615], Window, Final
i8 s 1000 0 | 127␊128␊ => [127], BadRow of 7 at 2
i64 s 1000 0 | 99999999999999999999999999999999999999999999␊ => BadRow of 7 at 1

# forms of numbers and booleans
u8 s 1000 0 | -0␊007␊"12"␊"-0"␊ => [0], [7], [12], [0], Window, Final
i8 p 1000 0 | +1␊1␣␊␣1␊-␊--1␊1.0␊0x1␊a␊"1" ␊1 => [1], Window, Final
i8 s 1000 0 | «1 40 0»1␊ => [1], Window, Final
b p 1000 0 | true␊false␊"true"␊True␊1␊true␣␊ => [true], [false], [true], Window, Final
i8,b,t s 1000 0 | 1,true,x␊2,"false","y"␊3,yes,z => [1 | true | x], [2 | false | y], BadRow of 7 at 3
i8,t s 1000 0 | ,x␊ => BadRow of 7 at 1
"#;

const LIMITS: &str = r#"
# of a file
i8 s 5 0 | 1␊23␊45␊ => [1], [23], LongFile of 7 at 3
i8 p 5 0 | 1␊23␊x␊ => [1], [23], LongFile of 7 at 3
i8 s 8 0 | 1␊23␊45␊ => [1], [23], [45], Window, Final
i8 s 7 0 | 1␊23␊45␊ => [1], [23], LongFile of 7 at 3
i8 s 7 0 | 1␊23␊45 => [1], [23], [45], Window, Final
i8 s 6 0 | 1␊23␊45 => [1], [23], LongFile of 7 at 3
i8 s 0 0 |  => Window, Final
i8 s 0 0 | ␊ => LongFile of 7 at 1

# of a row
t s 99999 0 | «1 65536 a»␊b␊ => [65536 bytes], [b], Window, Final
t s 99999 0 | «1 65536 a» => [65536 bytes], Window, Final
t s 99999 0 | b␊«1 65537 a»␊c␊ => [b], LongRow of 7 at 2
t p 99999 0 | b␊«1 65537 a» => [b], LongRow of 7 at 2
t s 99999 0 | «1 65536 a»␍␊ => LongRow of 7 at 1
t s 99999 0 | "«1 65534 a»"␊ => [65534 bytes], Window, Final

# of both: the one whose first byte too many stands first, and for the same byte the row's
t s 65536 0 | «1 65537 a»␊ => LongRow of 7 at 1
t s 65535 0 | «1 65537 a»␊ => LongFile of 7 at 1
t s 65536 0 | «1 65536 a»␊ => LongFile of 7 at 1
t s 65536 0 | «1 65536 a» => [65536 bytes], Window, Final
"#;

const READS: &str = r#"
# 4,000 lines of 5 bytes are read in pieces of 8,192, 8,192 and 3,616 bytes, and then none
i32 s 99999 0 | «1000 4000 {n}␊» => 3997 items, [4997], [4998], [4999], Window, Final
i32 s 99999 1 | «1000 4000 {n}␊» => ReadFailed of 7 at 1
i32 s 99999 2 | «1000 4000 {n}␊» => 1634 items, [2634], [2635], [2636], [2637], ReadFailed of 7 at 1639
i32 s 99999 3 | «1000 4000 {n}␊» => 3272 items, [4272], [4273], [4274], [4275], ReadFailed of 7 at 3277
i32 s 99999 4 | «1000 4000 {n}␊» => 3996 items, [4996], [4997], [4998], [4999], ReadFailed of 7 at 4001
i32 s 99999 5 | «1000 4000 {n}␊» => 3997 items, [4997], [4998], [4999], Window, Final

# the bytes of an unfinished line are dropped, unless they are too many
i8 s 1000 2 | 1␊2 => [1], ReadFailed of 7 at 2
i8 s 1000 2 | 1␊2␊ => [1], [2], ReadFailed of 7 at 3
i8 s 1000 2 | 1␊x => [1], ReadFailed of 7 at 2
t s 99999 9 | «1 65536 a» => ReadFailed of 7 at 1
t s 99999 10 | «1 65537 a» => LongRow of 7 at 1
t s 99999 10 | «1 73728 a» => LongRow of 7 at 1
"#;

const COPIES: &str = r#"
t,i64,b | "a,b",1,true␊c,-2,false␊ => "a,b",1,true␊c,-2,false␊
t | "a"␊""␊"b""c"␊"d␍e"␊ => a␊""␊"b""c"␊"d␍e"␊
u64,i64 | 18446744073709551615,-9223372036854775808␊ => 18446744073709551615,-9223372036854775808␊
"#;

const WRITES: &str = r#"
0 a␊b␊c => three rows: a␊b␊c␊
1 a␊b␊c => failed: 
2 a␊b␊c => failed: a␊
3 a␊b␊c => failed: a␊b␊
4 a␊b␊c => three rows: a␊b␊c␊
"#;
