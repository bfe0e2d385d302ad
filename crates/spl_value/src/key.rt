//! Keys of tuples: their bytes and their hash.
ghost use Rattle.std.specs.Prelude.{◌≡◌, [], ◌∷◌, ◌++◌, pos, negsuc, true, false, replicate, codes, IsTrue, fold};
ghost use Rattle.std.specs.Cmp.Lexicographic.{pointwise};
ghost use Rattle.spl_value.specs.declared.types.IntKind.TheVariants as N;
ghost use Rattle.spl_value.specs.declared.types.SplType.TheVariants as S;
ghost use Rattle.spl_value.specs.declared.value.Value.TheVariants as V;
ghost use Rattle.spl_value.specs.KeyLaws.{KeyPlacesLaw, KeyTypesLaw, SameBytesLaw, SamePlacesLaw, OneKeyLaw};
ghost use Rattle.spl_value.specs.Key.{fnv, fnv_step, is_key_value, are_key_places, has_place as has_place_lem, enc_integer, enc_value, enc, key_fits};

use crate::{Places, Value, Values};

// Where 64-bit FNV-1a begins, and what it multiplies by.
const OFFSET_BASIS: u64 = 0xcbf2_9ce4_8422_2325;

const PRIME: u64 = 0x100_0000_01b3;

/// The 64-bit FNV-1a hash of some bytes.
pub fn fnv(bytes: &[u8]) -> u64
    ensures { result ≡ fnv bytes.now }
{
    fnv_from(OFFSET_BASIS, bytes)
}

// The hash of the bytes that gave `state` and then these.
fn fnv_from(mut state: u64, bytes: &[u8]) -> u64
    ensures { result ≡ fold fnv_step state bytes.now }
{
    for byte in bytes {
        state = (state ^ u64::from(*byte)).wrapping_mul(PRIME);
    }
    state
}

// The number modulo 2^64, lowest byte first.
fn integer_bytes(n: i128) -> [u8; 8]
    ensures { result ≡ enc_integer n }
{
    (n.rem_euclid(0x1_0000_0000_0000_0000) as u64).to_le_bytes()
}

// The hash of the bytes that gave `state` and then the value's.
fn hash_value(state: u64, v: &Value) -> u64
    requires { IsTrue (is_key_value v.now) }
    ensures { result ≡ fold fnv_step state (enc_value v.now) }
{
    match v {
        Value::Int(n) => fnv_from(state, &integer_bytes(*n)),
        Value::Bool(b) => fnv_from(state, &[u8::from(*b)]),
        Value::Text(bytes) => {
            let state = fnv_from(state, &integer_bytes(bytes.len() as i128));
            fnv_from(state, bytes.as_slice())
        }
        _ => unreachable!(),
    }
}

// Whether the key has the place.
fn has_place(key: &[u32], place: usize) -> bool
    ensures { result ≡ has_place_lem key.now place }
{
    key.iter().any(|p| *p as usize == place)
}

/// The hash `fnv` of a tuple's key: of the bytes of the values whose places the key has, in the order
/// of the tuple, whatever the order of the key's places. A place that is given twice counts once. An
/// integer is 8 bytes, its number modulo 2^64, the lowest byte first. A boolean is one byte, 0 or 1. A
/// text is its length as such 8 bytes, and then its bytes. No memory is taken, since each value is
/// hashed on from the ones before it.
pub fn hash_key(tuple: &Values, key: &Places) -> u64
    requires { IsTrue (are_key_places tuple.now key.now) }
    ensures { result ≡ fnv (enc tuple.now key.now) }
{
    let values = tuple.as_slice();
    let places = key.as_slice();
    let mut state = OFFSET_BASIS;
    for (place, value) in values.iter().enumerate() {
        if has_place(places, place) {
            state = hash_value(state, value);
        }
    }
    state
}

/// A key has the value at each of its places, and a value of an integer type, `boolean` or
/// `rstring` may stand there. Tuples with the same values at the key's places have the same bytes, and
/// so have keys with the same places. Keys with other values of the same types have other bytes. Keys of
/// other types may have the same: -1 of a signed type and 2^64 - 1 of `uint64` are the same 8 bytes.
pub fn key_law()
    ensures places { KeyPlacesLaw }
    ensures types { KeyTypesLaw }
    ensures same { SameBytesLaw }
    ensures places_as_a_set { SamePlacesLaw }
    ensures one { OneKeyLaw }
{}

/// The hashes of some bytes, the bytes of some keys, and values that may stand in a key by their types.
pub fn key_on_literals()
    ensures hash_of_nothing { fnv [] ≡ 0xcbf29ce484222325 }
    ensures hash_of_a { fnv (codes "a") ≡ 0xaf63dc4c8601ec8c }
    ensures hash_of_foobar { fnv (codes "foobar") ≡ 0x85944171f73967e8 }
    ensures minus_one { enc_value (V.Int (negsuc 0)) ≡ replicate 8 255 }
    ensures largest { enc_value (V.Int (pos 0xffffffffffffffff)) ≡ replicate 8 255 }
    ensures lowest_first { enc_value (V.Int (pos 0x0102)) ≡ 2 ∷ 1 ∷ replicate 6 0 }
    ensures yes { enc_value (V.Bool true) ≡ 1 ∷ [] }
    ensures no_bytes { enc_value (V.Text []) ≡ replicate 8 0 }
    ensures two_places { enc (V.Text (codes "ab") ∷ V.Bool false ∷ V.Int (pos 7) ∷ []) (2 ∷ 0 ∷ [])
        ≡ 2 ∷ replicate 7 0 ++ codes "ab" ++ 7 ∷ replicate 7 0 }
    ensures twice_counts_once { enc (V.Text (codes "ab") ∷ V.Bool false ∷ V.Int (pos 7) ∷ []) (0 ∷ 2 ∷ 0 ∷ 2 ∷ [])
        ≡ 2 ∷ replicate 7 0 ++ codes "ab" ++ 7 ∷ replicate 7 0 }
    ensures fitting { IsTrue (pointwise key_fits (S.Text ∷ S.Bool ∷ S.Int N.I8 ∷ [])
        (V.Text (codes "ab") ∷ V.Bool false ∷ V.Int (negsuc 127) ∷ [])) }
{}
