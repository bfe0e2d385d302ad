//! The values that an operator is given. Codes, bytes and places are moved out of the list, and the others
//! are read.
ghost use Rattle.std.specs.Prelude.{◌≡◌, codes};
ghost use Rattle.std.specs.Option.{option_copied};
ghost use Rattle.language_model.specs.parts.Checking.{code_given, file_given, places_given, position_given, strict_given};
ghost use Rattle.language_model.specs.ParameterTyping.{value_given};
ghost use Rattle.parameter_rules.specs.Taking.{KeepsOthers, without_first};
ghost use Rattle.parameter_rules.specs.steps.Firsts.{IsFirst};

use language_model::{Given, ParameterValue, Position};
use spl_tree::{Code, Slot};
use spl_value::{Bytes, Items, Places};
use std::alloc::Global;

/// The place of the first parameter of the name.
fn place_given(given: &[Given], name: &[u8]) -> Option<usize>
    ensures { IsFirst given.now name.now result }
{
    for (at, parameter) in given.iter().enumerate() {
        if parameter.name.as_slice() == name {
            return Some(at);
        }
    }
    None
}

/// The value of the first parameter of the name.
fn value_given<'g>(given: &'g [Given], name: &[u8]) -> Option<&'g ParameterValue>
    ensures { option_copied result ≡ value_given given.now name.now }
{
    for parameter in given {
        if parameter.name.as_slice() == name {
            return Some(&parameter.value);
        }
    }
    None
}

/// The same, moved out of the list with its name.
fn take_value(given: &mut Items<Given>, name: &[u8]) -> Option<ParameterValue>
    ensures value { result ≡ value_given given.old name.now }
    ensures rest { given.new ≡ without_first name.now given.old }
    ensures others { KeepsOthers name.now given.old given.new }
{
    let at = place_given(given.as_slice(), name)?;
    Some(given.remove(at).value)
}

/// The code of a condition or an index, by its name. The first parameter of the name leaves the list with
/// its value, also where that is no code, and the others stay.
pub fn take_code(given: &mut Items<Given>, name: &[u8]) -> Option<Code<Slot>>
    ensures code { result ≡ code_given given.old name.now }
    ensures rest { given.new ≡ without_first name.now given.old }
    ensures others { KeepsOthers name.now given.old given.new }
{
    match take_value(given, name)? {
        ParameterValue::Code(code) => Some(code),
        _ => None,
    }
}

/// The name of the file; without one it is empty. The first parameter of the name leaves the list with its
/// value, and the others stay.
pub fn take_file(alloc: Global, given: &mut Items<Given>) -> Bytes
    ensures file { result ≡ file_given given.old }
    ensures rest { given.new ≡ without_first (codes "file") given.old }
    ensures others { KeepsOthers (codes "file") given.old given.new }
{
    match take_value(given, b"file") {
        Some(ParameterValue::File(bytes)) => bytes,
        other => {
            drop(other);
            Items::new(alloc)
        }
    }
}

/// The places of attributes, by the parameter's name; without one there are none. The first parameter of the
/// name leaves the list with its value, and the others stay.
pub fn take_places(alloc: Global, given: &mut Items<Given>, name: &[u8]) -> Places
    ensures places { result ≡ places_given given.old name.now }
    ensures rest { given.new ≡ without_first name.now given.old }
    ensures others { KeepsOthers name.now given.old given.new }
{
    match take_value(given, name) {
        Some(ParameterValue::Places(places)) => places,
        other => {
            drop(other);
            Items::new(alloc)
        }
    }
}

/// Whether a row that doesn't fit is a fault, which it is unless the operator is said to be permissive.
pub fn strict_given(given: &[Given]) -> bool
    ensures { result ≡ strict_given given.now }
{
    match value_given(given, b"parsing") {
        Some(ParameterValue::Strict(strict)) => *strict,
        _ => true,
    }
}

/// Where a Punctor puts its markers.
pub fn position_given(given: &[Given]) -> Option<Position>
    ensures { result ≡ position_given given.now }
{
    match value_given(given, b"position") {
        Some(ParameterValue::Position(position)) => Some(*position),
        _ => None,
    }
}
