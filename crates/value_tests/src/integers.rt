//! Integers and their texts.
use crate::words::number;
use spl_value::{NoMemory, add_integer, is_of_kind, read_integer, read_natural, wrap};
use std::alloc::{AllocError, Global};
use test_texts::rows::{Answers, Untrue, expect};
use test_texts::text::Text;
use test_texts::types::integer_kind;
use test_texts::words::cut;

fn add_optional(text: &mut Text, number: Option<i128>) {
    match number {
        Some(number) => text.add_number(number),
        None => text.add("none"),
    }
}

fn add_natural(text: &mut Text, digits: &[u8]) {
    if digits.len() > 18 {
        text.add("too long");
    } else {
        add_optional(text, read_natural(digits).map(i128::from));
    }
}

// The number after `n=`.
fn add_added(text: &mut Text, start: Result<Vec<u8>, AllocError>, number: i128) {
    let Ok(mut added) = start else {
        return text.add("memory");
    };
    match add_integer(&mut added, number) {
        Ok(()) => text.add_bytes(added.as_slice()),
        Err(NoMemory) => text.add("memory"),
    }
}

fn add_of_kind(text: &mut Text, call: &str, words: &str) {
    let (kind, word) = cut(words);
    let Some(kind) = integer_kind(kind) else {
        return text.add("no kind");
    };
    match call {
        "wrap" => text.add_number(wrap(kind, number(word))),
        "holds" => text.add(if is_of_kind(kind, number(word)) {
            "true"
        } else {
            "false"
        }),
        "read" => add_optional(text, read_integer(kind, word.as_bytes())),
        _ => text.add("no call"),
    }
}

// Calls with a kind and a number, or with a number alone.
struct Integers;

impl Answers for Integers {
    fn answer(&self, alloc: Global, text: &str) -> Result<String, AllocError> {
        let (call, rest) = cut(text);
        let mut shown = Text::new(alloc);
        match call {
            "natural" => add_natural(&mut shown, rest.as_bytes()),
            "add" => add_added(&mut shown, b"n=".to_vec(alloc), number(rest)),
            _ => add_of_kind(&mut shown, call, rest),
        }
        shown.finish()
    }
}

const ROWS: &str = r#"
# A number past a kind wraps round
wrap int8 -129 => 127
wrap int8 -128 => -128
wrap int8 127 => 127
wrap int8 128 => -128
wrap int8 18446744073709551616 => 0
wrap int8 -18446744073709551616 => 0
wrap int16 -32769 => 32767
wrap int16 -32768 => -32768
wrap int16 32767 => 32767
wrap int16 32768 => -32768
wrap int16 18446744073709551616 => 0
wrap int16 -18446744073709551616 => 0
wrap int32 -2147483649 => 2147483647
wrap int32 -2147483648 => -2147483648
wrap int32 2147483647 => 2147483647
wrap int32 2147483648 => -2147483648
wrap int32 18446744073709551616 => 0
wrap int32 -18446744073709551616 => 0
wrap int64 -9223372036854775809 => 9223372036854775807
wrap int64 -9223372036854775808 => -9223372036854775808
wrap int64 9223372036854775807 => 9223372036854775807
wrap int64 9223372036854775808 => -9223372036854775808
wrap int64 18446744073709551616 => 0
wrap int64 -18446744073709551616 => 0
wrap uint8 -1 => 255
wrap uint8 0 => 0
wrap uint8 255 => 255
wrap uint8 256 => 0
wrap uint8 18446744073709551616 => 0
wrap uint8 -18446744073709551616 => 0
wrap uint16 -1 => 65535
wrap uint16 0 => 0
wrap uint16 65535 => 65535
wrap uint16 65536 => 0
wrap uint16 18446744073709551616 => 0
wrap uint16 -18446744073709551616 => 0
wrap uint32 -1 => 4294967295
wrap uint32 0 => 0
wrap uint32 4294967295 => 4294967295
wrap uint32 4294967296 => 0
wrap uint32 18446744073709551616 => 0
wrap uint32 -18446744073709551616 => 0
wrap uint64 -1 => 18446744073709551615
wrap uint64 0 => 0
wrap uint64 18446744073709551615 => 18446744073709551615
wrap uint64 18446744073709551616 => 0
wrap uint64 18446744073709551616 => 0
wrap uint64 -18446744073709551616 => 0
# A number far past a kind wraps
wrap int8 300 => 44
wrap int8 -300 => -44
wrap int8 200 => -56
wrap uint8 300 => 44
wrap uint8 -300 => 212
wrap uint8 456 => 200
wrap int32 4294967295 => -1
wrap int64 18446744073709551615 => -1
wrap uint64 -18446744073709551617 => 18446744073709551615

# A number is one of a kind or not
holds int8 -129 => false
holds int8 -128 => true
holds int8 127 => true
holds int8 128 => false

# Each kind reads its range
read int8 -129 => none
read int8 -128 => -128
read int8 127 => 127
read int8 128 => none
read int16 -32769 => none
read int16 -32768 => -32768
read int16 32767 => 32767
read int16 32768 => none
read int32 -2147483649 => none
read int32 -2147483648 => -2147483648
read int32 2147483647 => 2147483647
read int32 2147483648 => none
read int64 -9223372036854775809 => none
read int64 -9223372036854775808 => -9223372036854775808
read int64 9223372036854775807 => 9223372036854775807
read int64 9223372036854775808 => none
read uint8 -1 => none
read uint8 0 => 0
read uint8 255 => 255
read uint8 256 => none
read uint16 -1 => none
read uint16 0 => 0
read uint16 65535 => 65535
read uint16 65536 => none
read uint32 -1 => none
read uint32 0 => 0
read uint32 4294967295 => 4294967295
read uint32 4294967296 => none
read uint64 -1 => none
read uint64 0 => 0
read uint64 18446744073709551615 => 18446744073709551615
read uint64 18446744073709551616 => none
# An integer is a minus and digits
read int32 -0 => 0
read uint8 -0 => 0
read int8 007 => 7
read int8 -007 => -7
read uint8 0000000000000000000000000000007 => 7
read int8 -0000000000000000000000000000007 => -7
read uint64 184467440737095516150 => none
read int64 000000000000000000000x => none
read int32  => none
read int32 - => none
read int32 --1 => none
read int32 1x => none
read int32 +1 => none
read int32  1 => none

# A natural is digits
natural 123456789012345678 => 123456789012345678
natural 999999999999999999 => 999999999999999999
natural  => none
natural x => none

# An integer is added behind
add 0 => n=0
add -1 => n=-1
add -9223372036854775808 => n=-9223372036854775808
add 18446744073709551615 => n=18446744073709551615
"#;

#[test]
fn integers_wrap_and_are_read_and_written(rt: HostRuntime) -> Result<(), Untrue> {
    expect(rt.alloc(), &Integers, &[ROWS])
}
