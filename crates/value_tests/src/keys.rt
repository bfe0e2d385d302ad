//! Hashes of bytes and of keys.
ghost use Rattle.std.specs.Prelude.{IsTrue};
ghost use Rattle.spl_value.specs.Key.{is_key_value, are_key_places};

use crate::words::{bytes_of, key};
use spl_value::{Items, Value, Values, fnv, hash_key};
use std::alloc::{AllocError, Global};
use test_texts::rows::{Answers, Untrue, expect};
use test_texts::words::{bytes, cut, number};

fn hash_of(alloc: Global, tuple: &Values, places: &[u32]) -> Result<u64, AllocError>
    requires { IsTrue (are_key_places tuple.now places.now) }
{
    let key = Items::from_slice(alloc, places)?;
    Ok(hash_key(tuple, &key))
}

// The hash of a key with this value alone.
fn hash_of_one(alloc: Global, value: Value) -> Result<u64, AllocError>
    requires { IsTrue (is_key_value value) }
{
    let tuple = Items::from_vec(vec![in alloc; value]?);
    hash_of(alloc, &tuple, &[0])
}

// The hash of a key with these places of the text `a` and 1.
fn hash_at(alloc: Global, places: &str) -> Result<u64, AllocError> {
    let text = Value::Text(bytes(alloc, "a")?);
    let tuple = Items::from_vec(vec![in alloc; text, Value::Int(1)]?);
    match places {
        "0,1" => hash_of(alloc, &tuple, &[0, 1]),
        "1,0" => hash_of(alloc, &tuple, &[1, 0]),
        "0,1,0,0,1" => hash_of(alloc, &tuple, &[0, 1, 0, 0, 1]),
        "1,1" => hash_of(alloc, &tuple, &[1, 1]),
        _ => hash_of(alloc, &tuple, &[]),
    }
}

// The remainder of the hash of a text, divided by a width: of none by 0.
fn channel(alloc: Global, words: &str) -> Result<String, AllocError> {
    let (width, text) = cut(words);
    let hash = hash_of_one(alloc, Value::Text(bytes(alloc, text)?))?;
    let channel = hash.checked_rem(u64::from(number(width)));
    channel.unwrap_or(u64::MAX).to_string(alloc)
}

// Whether a hash is that of these bytes.
fn same(alloc: Global, hash: Result<u64, AllocError>, bytes: &str) -> Result<String, AllocError> {
    let hash = hash?;
    let bytes = bytes_of(alloc, bytes)?;
    (hash == fnv(bytes.as_slice())).to_string(alloc)
}

// The hash of bytes, the channel that a text goes to, of a number of them, and whether a key is hashed as the
// bytes behind ` as `.
struct Hashes;

impl Answers for Hashes {
    fn answer(&self, alloc: Global, text: &str) -> Result<String, AllocError> {
        let (call, rest) = cut(text);
        let (front, bytes) = rest.split_once(" as ").unwrap_or((rest, ""));
        match call {
            "fnv" => format!(in alloc; "{:016x}", fnv(rest.as_bytes())),
            "channel" => channel(alloc, rest),
            "places" => same(alloc, hash_at(alloc, front), bytes),
            _ => same(alloc, hash_of_one(alloc, key(front)), bytes),
        }
    }
}

const ROWS: &str = r#"
# Known bytes have their hash
fnv  => cbf29ce484222325
fnv a => af63dc4c8601ec8c
fnv foobar => 85944171f73967e8

# A text key goes to its channel
channel 2 a => 1
channel 2 b => 0
channel 4 IBM => 0
channel 4 MSFT => 3
channel 4 A,B => 3

# A value of a key has these bytes
same 0 as 0 0 0 0 0 0 0 0 => true
same 258 as 2 1 0 0 0 0 0 0 => true
same -1 as 255 255 255 255 255 255 255 255 => true
same -2 as 254 255 255 255 255 255 255 255 => true
same -9223372036854775808 as 0 0 0 0 0 0 0 128 => true
same 18446744073709551615 as 255 255 255 255 255 255 255 255 => true
same false as 0 => true
same true as 1 => true

# A key is hashed as a set of attributes
places 0,1 as 1 0 0 0 0 0 0 0 97 1 0 0 0 0 0 0 0 => true
places 1,0 as 1 0 0 0 0 0 0 0 97 1 0 0 0 0 0 0 0 => true
places 0,1,0,0,1 as 1 0 0 0 0 0 0 0 97 1 0 0 0 0 0 0 0 => true
places 1,1 as 1 0 0 0 0 0 0 0 => true
places none as  => true
"#;

#[test]
fn bytes_and_keys_have_their_hashes(rt: HostRuntime) -> Result<(), Untrue> {
    expect(rt.alloc(), &Hashes, &[ROWS])
}
