//! What the attributes of an operator's output get.
mod assigned;
mod attributes;
mod groups;
mod index;
mod refusals;
mod tuples;
mod unions;

pub use groups::groups_of;
pub use tuples::tuple_of;
pub use unions::places_of;
