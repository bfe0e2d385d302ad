//! Lists of codes, and copies of codes.
#![tactic(auto)]

mod copying;
mod lists;

pub use copying::{boxed_copy, copy_code};
pub use lists::{
    Codes, EntryCodes, FieldCodes, Selectors, push_code, push_element, push_entry, push_field,
    push_key,
};
