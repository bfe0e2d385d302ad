use spl_value::Item;

/// What came next, where a tuple is written over the values of a place.
#[derive(Drop)]
pub enum Came {
    /// The tuple that stands at the place.
    Tuple,
    /// A marker or a fault. What stands at the place is of no account.
    Other(Item),
}
