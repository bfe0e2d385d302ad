//! Operations on the values that evaluations hold: operators, what is taken of values, changes within
//! them, and the calls that the language has built in.
#![tactic(auto)]

mod answers;
mod calls;
mod changes;
mod collections;
mod held;
mod integers;
mod operators;
mod slots;
mod stop;
mod taking;
mod truths;

pub use answers::{Made, Truth};
pub use calls::{call_with_one, call_with_three, call_with_two};
pub use changes::change_at;
pub use collections::{elements, tuple_values, values_of_tuple};
pub use held::{Held, evaluated, list_value, map_value, owned, stopped, tuple_value};
pub use operators::{are_related, operator_with, unaries_of};
pub use slots::{blanks, enter, is_marker, slot_value, standing_value, truth_of};
pub use stop::Stop;
pub use taking::{element_at, member, take_step, value_at};
pub use truths::{made, related_with, truth};
