//! Whether attributes are the same.
ghost use Rattle.std.specs.Prelude.{◌≡◌, ◌↔◌, IsTrue};
ghost use Rattle.language_model.specs.StreamTypes.{same_attributes};

use spl_value::{Attribute, same_type};

fn is_same(first: &Attribute, second: &Attribute) -> bool
    ensures { IsTrue result ↔ (first.now ≡ second.now) }
{
    if first.name.as_slice() != second.name.as_slice() {
        return false;
    }
    same_type(&first.kind, &second.kind)
}

fn are_equal(first: &[Attribute], second: &[Attribute]) -> bool
    ensures { IsTrue result ↔ (first.now ≡ second.now) }
{
    if first.len() != second.len() {
        return false;
    }
    for (at, attribute) in first.iter().enumerate() {
        if !is_same(attribute, &second[at]) {
            return false;
        }
    }
    true
}

/// Whether two rows of attributes are the same.
pub(crate) fn same_attributes(first: &[Attribute], second: &[Attribute]) -> bool
    ensures { result ≡ same_attributes first.now second.now }
{
    are_equal(first, second)
}
