//! What flows in a stream: values, items and packets, and the types of values.
#![tactic(auto)]

mod boxed;
mod compare;
mod default;
mod integer;
mod item;
mod items;
mod key;
mod memory;
mod packet;
mod pairs;
mod reserved;
mod routing;
mod segmented_list;
mod segmented_pairs;
mod types;
mod value;
mod wrapping;

pub use boxed::Boxed;
pub use compare::{order, order_law, same};
pub use default::{default_law, default_of};
pub use integer::{add_integer, is_of_kind, read_integer, read_natural};
pub use item::{Evaluated, Fault, FaultKind, Item, copy_item};
pub use items::Items;
pub use key::{fnv, hash_key, key_law, key_on_literals};
pub use memory::NoMemory;
pub use packet::Packet;
pub use pairs::pairs_law;
pub use reserved::Reserved;
pub use routing::Routing;
pub use segmented_list::{SegmentedIter, SegmentedList};
pub use types::{
    Attribute, Bytes, Ids, Inputs, IntKind, Name, Named, Places, Schema, SplType, copy_schema,
    copy_type, same_type,
};
pub use value::{Pairs, Value, Values, copy_value, copy_values};
pub use wrapping::{wrap, wrap_law};
