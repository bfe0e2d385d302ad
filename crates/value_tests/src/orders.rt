//! Orders in which keys come.

/// Keys are below this number.
pub(crate) const KEYS: u32 = 0x4_0000;

/// An order in which the keys come.
#[derive(Clone, Copy)]
pub(crate) enum Order {
    Rising,
    Falling,
    Random,
}

impl Order {
    /// The key that comes at a step, of which there are as many as keys.
    pub(crate) fn key_at(self, step: u32) -> u32 {
        match self {
            Order::Rising => step,
            Order::Falling => !step % KEYS,
            Order::Random => mixed(mixed(step)),
        }
    }
}

// Another key for each: `KEYS` is a power of two, so a product with an odd number leaves no two the same, and
// so does a sum of bits with those of nine places above.
fn mixed(key: u32) -> u32 {
    let product = key.wrapping_mul(0x9E37_79B1) % KEYS;
    product ^ (product >> 9)
}

/// The order that a word names; what names no other is that at random.
pub(crate) fn order_named(word: &str) -> Order {
    match word {
        "rising" => Order::Rising,
        "falling" => Order::Falling,
        _ => Order::Random,
    }
}
