//! Names, members, elements and literals: their types and codes.
#![tactic(auto)]

mod boxing;
mod copying;
mod functions;
mod literals;
mod making;
mod members;
mod names;
mod wanted;

pub use boxing::{kind_in, kinds_in};
pub use functions::{called, function_given};
pub use literals::{
    add_code, add_field, list_given, map_given, tuple_given, with_element, with_entry,
};
pub use making::{chosen, literal, number_typed, select, take_index, take_member, text};
pub use members::{of_port, port_member};
pub use names::{dollar_typed, name_typed};
pub use wanted::{element_wanted, field_wanted, index_wanted, pair_wanted, schema_wanted};
