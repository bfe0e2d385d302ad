//! What lines give, and what is written of that.
use crate::schemas::schema_of;
use spl_value::{Bytes, Items, NoMemory, Schema, Value};
use std::alloc::{AllocError, Global};
use test_texts::rows::{Answers, Untrue, expect, no_others};
use test_texts::signs::with_signs;
use test_texts::spelled::spelled_out;
use test_texts::text::Text;
use test_texts::values::add_value;
use test_texts::words::bytes;
use txt_format::{
    TxtRow, fitting_law, one_line_law, one_tuple_law, read_row, write_row, written_law,
};

// A schema and a line: what the line gives.
struct Lines;

// A schema and a line: the text of its tuple.
struct Copies;

fn read(alloc: Global, schema: &Schema, line: &str) -> Result<TxtRow, AllocError> {
    let line = bytes(alloc, line)?;
    match read_row(alloc, schema, line.as_slice()) {
        Ok(row) => Ok(row),
        Err(NoMemory) => Err(AllocError),
    }
}

fn add_row(text: &mut Text, row: TxtRow) {
    match row {
        TxtRow::Empty => text.add("empty"),
        TxtRow::Row(values) => add_value(text, &Value::Tuple(values)),
        TxtRow::Bad => text.add("bad"),
    }
}

impl Answers for Lines {
    fn answer(&self, alloc: Global, text: &str) -> Result<String, AllocError> {
        let row = spelled_out(alloc, text)?;
        let (schema, line) = row.split_once(" | ").unwrap_or(("", ""));
        let schema = schema_of(alloc, schema)?;
        let mut shown = Text::new(alloc);
        add_row(&mut shown, read(alloc, &schema, line)?);
        with_signs(alloc, shown.finish()?.as_str())
    }
}

fn copied(alloc: Global, schema: &Schema, row: TxtRow) -> Result<Bytes, NoMemory> {
    match row {
        TxtRow::Row(values) => write_row(alloc, schema, &values),
        TxtRow::Empty | TxtRow::Bad => Ok(Items::new(alloc)),
    }
}

impl Answers for Copies {
    fn answer(&self, alloc: Global, text: &str) -> Result<String, AllocError> {
        let spelled = spelled_out(alloc, text)?;
        let (schema, line) = spelled.split_once(" | ").unwrap_or(("", ""));
        let schema = schema_of(alloc, schema)?;
        let row = read(alloc, &schema, line)?;
        let mut shown = Text::new(alloc);
        match copied(alloc, &schema, row) {
            Ok(copy) => shown.add_bytes(copy.as_slice()),
            Err(NoMemory) => return Err(AllocError),
        }
        with_signs(alloc, shown.finish()?.as_str())
    }
}

fn in_quotes(alloc: Global, inside: &[u8]) -> Result<Bytes, AllocError> {
    let mut line = Items::from_slice(alloc, b"{s=\"")?;
    line.extend_from_slice(inside)?;
    line.extend_from_slice(b"\"}")?;
    Ok(line)
}

// Whether a row has one text, of this byte.
fn is_text_of(row: &TxtRow, byte: u8) -> bool {
    match row {
        TxtRow::Row(values) => match values.as_slice() {
            [Value::Text(bytes)] => bytes.as_slice() == [byte].as_slice(),
            _ => false,
        },
        TxtRow::Empty | TxtRow::Bad => false,
    }
}

// How a byte is written in a text.
fn written(byte: u8) -> &'static [u8] {
    match byte {
        b'"' => b"\\\"",
        b'\\' => b"\\\\",
        b'\n' => b"\\n",
        b'\t' => b"\\t",
        b'\r' => b"\\r",
        _ => b"",
    }
}

// Whether a byte that stands in a text gives itself, or, where it can't stand there, a bad row.
fn stands(alloc: Global, schema: &Schema, byte: u8) -> Result<bool, NoMemory> {
    let line = in_quotes(alloc, [byte].as_slice())?;
    let row = read_row(alloc, schema, line.as_slice())?;
    if byte == b'"' || byte == b'\\' || byte == b'\n' {
        return Ok(matches!(row, TxtRow::Bad));
    }
    Ok(is_text_of(&row, byte))
}

// Whether a text of a byte is written as it has to be, and is read back.
fn returns(alloc: Global, schema: &Schema, byte: u8) -> Result<bool, NoMemory> {
    let mut tuple = Items::new(alloc);
    tuple.push(Value::Text(Items::from_slice(alloc, [byte].as_slice())?))?;
    let line = write_row(alloc, schema, &tuple)?;
    let escaped = written(byte);
    let wanted = if escaped.is_empty() {
        in_quotes(alloc, [byte].as_slice())?
    } else {
        in_quotes(alloc, escaped)?
    };
    let row = read_row(alloc, schema, line.as_slice())?;
    Ok(line == wanted && is_text_of(&row, byte))
}

// The bytes that don't stand in texts, or aren't written, as they have to.
fn others(alloc: Global) -> Result<String, NoMemory> {
    let schema = schema_of(alloc, "s:rstring")?;
    let mut others = String::new(alloc);
    for byte in 0..=255u8 {
        if !stands(alloc, &schema, byte)? || !returns(alloc, &schema, byte)? {
            write!(others, " {byte}")?;
        }
    }
    Ok(others)
}

#[test]
fn each_byte_is_read_and_written(rt: HostRuntime) -> Result<(), Untrue> {
    match others(rt.alloc()) {
        Ok(others) => no_others(others),
        Err(NoMemory) => Err(Untrue::Memory),
    }
}

#[test]
fn lines_spell_these_tuples(rt: HostRuntime) -> Result<(), Untrue> {
    expect(
        rt.alloc(),
        &Lines,
        &[BOUNDS, TEXTS, BLANKS, NESTED, ATTRIBUTES],
    )
}

#[test]
fn tuples_are_written_so(rt: HostRuntime) -> Result<(), Untrue> {
    written_law();
    one_line_law();
    fitting_law();
    one_tuple_law();
    expect(rt.alloc(), &Copies, &[COPIES])
}

const BOUNDS: &str = r#"
n:int8 | {n=-128} => <-128>
n:int8 | {n=127} => <127>
n:int8 | {n=-129} => bad
n:int8 | {n=128} => bad
n:int16 | {n=-32768} => <-32768>
n:int16 | {n=32767} => <32767>
n:int16 | {n=-32769} => bad
n:int16 | {n=32768} => bad
n:int32 | {n=-2147483648} => <-2147483648>
n:int32 | {n=2147483647} => <2147483647>
n:int32 | {n=-2147483649} => bad
n:int32 | {n=2147483648} => bad
n:int64 | {n=-9223372036854775808} => <-9223372036854775808>
n:int64 | {n=9223372036854775807} => <9223372036854775807>
n:int64 | {n=-9223372036854775809} => bad
n:int64 | {n=9223372036854775808} => bad
n:uint8 | {n=0} => <0>
n:uint8 | {n=255} => <255>
n:uint8 | {n=-1} => bad
n:uint8 | {n=256} => bad
n:uint16 | {n=65535} => <65535>
n:uint16 | {n=65536} => bad
n:uint32 | {n=4294967295} => <4294967295>
n:uint32 | {n=4294967296} => bad
n:uint64 | {n=18446744073709551615} => <18446744073709551615>
n:uint64 | {n=18446744073709551616} => bad

# of 18 digits and of 19
n:int64 | {n=999999999999999999} => <999999999999999999>
n:int64 | {n=-999999999999999999} => <-999999999999999999>
n:int64 | {n=1000000000000000000} => <1000000000000000000>
n:int64 | {n=-1000000000000000000} => <-1000000000000000000>
n:int8 | {n=000000000000000007} => <7>
n:int8 | {n=-0000000000000000007} => <-7>
n:int8 | {n=999999999999999999} => bad

# forms of integers and booleans
n:uint8 | {n=-0} => <0>
n:uint8 | {n=007} => <7>
n:int8 | {n=«1 40 0»1} => <1>
n:int8 | {n=-} => bad
n:int8 | {n=} => bad
n:int8 | {n=--1} => bad
n:int8 | {n=+1} => bad
n:int8 | {n=1-} => bad
n:int8 | {n=1 2} => bad
n:int8 | {n=- 1} => bad
n:int8 | {n=1.0} => bad
n:int8 | {n=0x1} => bad
n:int8 | {n="1"} => bad
n:int64 | {n=«1 50 9»} => bad
b:boolean | {b=true} => <true>
b:boolean | {b=false} => <false>
b:boolean | {b=True} => bad
b:boolean | {b=truex} => bad
b:boolean | {b=tru} => bad
b:boolean | {b=1} => bad
b:boolean | {b="true"} => bad
"#;

const TEXTS: &str = r#"
s:rstring | {s=""} => <''>
s:rstring | {s="a b"} => <'a b'>
s:rstring | {s="a,b}"} => <'a,b}'>
s:rstring | {s="it's {a=1}"} => <'it's {a=1}'>
s:rstring | {s="a␍b"} => <'a␍b'>

# the six escapes, and others
s:rstring | {s="\"\'\\"} => <'"'\'>
s:rstring | {s="\n\r"} => <'␊␍'>
s:rstring | {s="a\\nb"} => <'a\nb'>
s:rstring | {s="ab\"cd\"ef"} => <'ab"cd"ef'>
s:rstring | {s="\a"} => bad
s:rstring | {s="\N"} => bad
s:rstring | {s="\0"} => bad
s:rstring | {s="\ n"} => bad

# not opened, not closed, closed too early, and a line feed
s:rstring | {s=a} => bad
s:rstring | {s='a'} => bad
s:rstring | {s="a} => bad
s:rstring | {s="a\"} => bad
s:rstring | {s="a\ => bad
s:rstring | {s=" => bad
s:rstring | {s="a"b"} => bad
s:rstring | {s="a""b"} => bad
s:rstring | {s="a␊b"} => bad
s:rstring | {s="a\␊b"} => bad
"#;

const BLANKS: &str = r#"
# a line of blanks alone gives nothing
n:int8 |  => empty
n:int8 | ␣ => empty
n:int8 | ␣␉␍␣ => empty
n:int8 | ␍ => empty
n:int8 | ␊ => bad

# between two tokens, before the first and behind the last
n:int8 | ␣␉{␍n␣␣=␉1␍}␣␍ => <1>
n:int8 | {n=1}␍ => <1>
n:int8 | {n = 1 , m = 2} => bad
s:rstring xs:int64,list | { s = "c" , xs = [ ] } => <'c', []>
xs:int64,list | {xs=␉[␣1␣,␍2␉]} => <[1, 2]>
m:rstring,int8,map | {m={␣"a"␉:␍1␣,"b":2␣}␉} => <{'a': 1, 'b': 2}>
t:int8,boolean,a+b | {t=␣{␉a␍=␣1␉,␍b␣=␉true␍}␣} => <<1, true>>

# and no other byte
n:int8 | {n=1}x => bad
n:int8 | x{n=1} => bad
n:int8 | {n=1}{n=1} => bad
n:int8 | {n=1}, => bad
n:int8 | {n=1␊} => bad
n:int8 | ◆{n=1} => bad
n:int8 | {n␀=1} => bad

# not within a token
ab:int8 | {ab=1} => <1>
ab:int8 | {a b=1} => bad
b:boolean | {b=tr ue} => bad
"#;

const NESTED: &str = r#"
# empty ones
xs:int8,list | {xs=[]} => <[]>
m:rstring,int8,map | {m={}} => <{}>
xs:rstring,list,list | {xs=[[],[""],["",""]]} => <[[], [''], ['', '']]>

# commas
xs:int8,list | {xs=[1,]} => bad
xs:int8,list | {xs=[,1]} => bad
xs:int8,list | {xs=[,]} => bad
xs:int8,list | {xs=[1 2]} => bad
xs:int8,list | {xs=[1,,2]} => bad
m:int8,int8,map | {m={1:2,}} => bad
m:int8,int8,map | {m={,}} => bad
m:int8,int8,map | {m={1:2 3:4}} => bad
m:int8,int8,map | {m={1,2}} => bad
m:int8,int8,map | {m={1:}} => bad
m:int8,int8,map | {m={:2}} => bad
m:int8,int8,map | {m={1:2:3}} => bad

# brackets
xs:int8,list | {xs={}} => bad
xs:int8,list | {xs=[1}} => bad
xs:int8,list | {xs=[1} => bad
xs:int8,list | {xs=[1 => bad
xs:int8,list | {xs=[ => bad
xs:int8,list | {xs=1} => bad
xs:int8,list | {xs=[[1]]} => bad
xs:int8,list | {xs=[1]]} => bad
m:int8,int8,map | {m=[1:2]} => bad
m:int8,int8,map | {m={1:2]} => bad
m:int8,int8,map | {m={1:2} => bad
t:int8,boolean,a+b | {t=(a=1,b=true)} => bad
n:int8 | {n=1 => bad
n:int8 | n=1} => bad
n:int8 | n=1 => bad
n:int8 | [n=1] => bad
n:int8 | { => bad
n:int8 | } => bad

# a later pair comes in place of an earlier one with the same key
m:rstring,int32,map | {m={"b":1,"a":2,"b":3}} => <{'a': 2, 'b': 3}>
m:int8,rstring,map | {m={2:"a",1:"b",2:"c",1:"d",2:"e"}} => <{1: 'd', 2: 'e'}>
m:int8,int8,map | {m={007:1,7:2,-0:3,0:4}} => <{0: 4, 7: 2}>
m:rstring,int8,map | {m={"\r":1,"␍":2}} => <{'␍': 2}>
m:int8,list,int8,map | {m={[2]:1,[1,2]:2,[]:3,[2]:4}} => <{[]: 3, [1, 2]: 2, [2]: 4}>
m:boolean,int8,map | {m={true:1,false:2}} => <{false: 2, true: 1}>

# one in another
t:int8,list,rstring,int8,map,xs+m | {t={xs=[1,2],m={"a":1}}} => <<[1, 2], {'a': 1}>>
m:rstring,rstring,int8,map,map | {m={"a":{"b":1},"c":{}}} => <{'a': {'b': 1}, 'c': {}}>
ts:int8,boolean,a+b,list | {ts=[{a=1,b=true},{a=2,b=false}]} => <[<1, true>, <2, false>]>
ts:int8,boolean,a+b,list | {ts=[{a=1,b=true},{b=false,a=2}]} => bad
xs:int8,list,list,list,list,list,list,list,list | {xs=[[[[[[[[1,2]]]]]],[]]]} => <[[[[[[[[1, 2]]]]]], []]]>
xs:int8,list,list,list,list,list,list,list,list | {xs=[[[[[[[1]]]]]]]} => bad
xs:int8«1 250 ,list» | {xs=«1 250 [»1«1 250 ]»x} => bad
xs:int8«1 250 ,list» | {xs=«1 249 [»1«1 249 ]»} => bad
"#;

const ATTRIBUTES: &str = r#"
s:rstring n:int64 | {s="a",n=1} => <'a', 1>
s:rstring n:int64 | {s="a\"b",n=-1} => <'a"b', -1>

# one that is missing, that stands twice, in another order, and one more
s:rstring n:int64 | {s="a"} => bad
s:rstring n:int64 | {n=1} => bad
s:rstring n:int64 | {} => bad
s:rstring n:int64 | {n=1,s="a"} => bad
s:rstring n:int64 | {s="a",s="a"} => bad
s:rstring n:int64 | {s="a",s="a",n=1} => bad
s:rstring n:int64 | {s="a",n=1,n=1} => bad
s:rstring n:int64 | {s="a",n=1,m=1} => bad
s:rstring n:int64 | {s="a",n=1,} => bad
s:rstring n:int64 | {,s="a",n=1} => bad
s:rstring n:int64 | {s="a" n=1} => bad
s:rstring n:int64 | {s="a";n=1} => bad

# other names
n:int8 | {m=1} => bad
n:int8 | {N=1} => bad
n:int8 | {nn=1} => bad
nn:int8 | {n=1} => bad
n:int8 | {"n"=1} => bad
n:int8 | {=1} => bad
n:int8 | {n:1} => bad
n:int8 | {n==1} => bad
n:int8 | {n 1} => bad
n:int8 | {1} => bad
n_1:int8 _:int8 | {n_1=1,_=2} => <1, 2>

# a name that is the front of another
n:int8 nm:int8 | {n=1,nm=2} => <1, 2>
nm:int8 n:int8 | {nm=1,n=2} => <1, 2>
true:boolean | {true=true} => <true>
"#;

const COPIES: &str = r#"
s:rstring xs:int64,list | {s="a\"b",xs=[1,2]} => {s="a\"b",xs=[1,2]}
s:rstring xs:int64,list | { s = "c" , xs = [ ] } => {s="c",xs=[]}
m:rstring,int32,map | {m={"b":1,"a":2,"b":3}} => {m={"a":2,"b":3}}
n:uint8 | {n=-007} => 
n:uint8 | {n=007} => {n=7}
n:int8 | {n=-0} => {n=0}
n:uint64 m:int64 | {n=18446744073709551615,m=-9223372036854775808} => {n=18446744073709551615,m=-9223372036854775808}
b:boolean c:boolean | {b=true,c=false} => {b=true,c=false}

# five bytes are written by escapes, and a quote of the other kind isn't
s:rstring | {s="\"\\\n\t\r"} => {s="\"\\\n\t\r"}
s:rstring | {s="␉␍"} => {s="\t\r"}
s:rstring | {s="\'/,{}[]:= "} => {s="'/,{}[]:= "}
s:rstring | {s="ab\tcd"} => {s="ab\tcd"}

# keys of a map ascend
m:int8,boolean,map | {m={2:true,-1:false,10:true}} => {m={-1:false,2:true,10:true}}
m:rstring,rstring,map | {m={"b":"","a":"","ab":"","":""}} => {m={"":"","a":"","ab":"","b":""}}
m:rstring,rstring,int8,map,map | {m={"z":{},"a":{"y":1,"x":2}}} => {m={"a":{"x":2,"y":1},"z":{}}}
t:int8,list,rstring,int8,map,xs+m | { t = { xs = [ 1 , 2 ] , m = { } } } => {t={xs=[1,2],m={}}}
ts:int8,boolean,a+b,list | {ts=[{a=1,b=true}, {a=2,b=false}]} => {ts=[{a=1,b=true},{a=2,b=false}]}
"#;
