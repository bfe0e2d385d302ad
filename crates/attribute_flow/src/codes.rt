//! The sources of attributes in expressions.
ghost use Rattle.std.specs.Prelude.{◌≡◌};
ghost use Rattle.std.specs.Option.{option_and_then};
ghost use Rattle.stream_model.specs.Copies.{attribute_alone, code_at, tuple_source};

use spl_tree::{Code, Slot};

/// The attribute of the first port that an expression is alone.
#[tactic(auto, using(crate::proofs::CodeForms::form_laws))]
pub(crate) fn attribute_alone(code: &Code<Slot>) -> Option<u32>
    ensures { result ≡ attribute_alone code.now }
{
    match code {
        Code::Name(Slot::Attribute { port: 0, attribute }) => Some(*attribute),
        _ => None,
    }
}

/// Of a tuple that an expression gives, the input attribute that one of its attributes is.
#[tactic(auto, using(crate::proofs::CodeForms::form_laws))]
pub(crate) fn tuple_source(attribute: u32, code: &Code<Slot>) -> Option<u32>
    ensures { result ≡ tuple_source attribute code.now }
{
    match code {
        Code::Name(Slot::Port(0)) => Some(attribute),
        Code::Tuple(fields) => field_source(attribute, fields.as_slice()),
        _ => None,
    }
}

/// The same of the fields of a literal.
fn field_source(attribute: u32, fields: &[(u32, Code<Slot>)]) -> Option<u32>
    ensures { result ≡ option_and_then attribute_alone (code_at attribute fields.now) }
{
    for (place, code) in fields {
        if *place == attribute {
            return attribute_alone(code);
        }
    }
    None
}
