//! Defaults of types.
ghost use Rattle.std.specs.Prelude.{◌≡◌, IsTrue, IfOk, map};
ghost use Rattle.spl_value.specs.Values.{fits, default_value};

use crate::{Attribute, Items, NoMemory, SegmentedList, SplType, Value, Values};
use std::alloc::Global;

/// The default of a type: 0, false, the empty text, list or map, and a tuple of its attributes'
/// defaults.
#[cycle(default)]
#[tactic(auto, using(crate::proofs::FitsLaws::default_laws))]
pub fn default_of(alloc: Global, t: &SplType) -> Result<Value, NoMemory>
    ensures { IfOk result (λ v. v ≡ default_value t.now) }
{
    match t {
        SplType::Int(_) => Ok(Value::Int(0)),
        SplType::Bool => Ok(Value::Bool(false)),
        SplType::Text => Ok(Value::Text(Items::new(alloc))),
        SplType::List(_) => Ok(Value::List(Items::new(alloc))),
        SplType::Map(_, _) => Ok(Value::Map(SegmentedList::new(alloc))),
        SplType::Tuple(schema) => Ok(Value::Tuple(default_values(alloc, schema.as_slice())?)),
    }
}

// The defaults of attributes, in their order.
#[cycle(default)]
fn default_values(alloc: Global, schema: &[Attribute]) -> Result<Values, NoMemory>
    ensures { IfOk result (λ vs. vs ≡ map (λ a. default_value a.kind) schema.now) }
{
    let mut values = Items::new(alloc);
    for attribute in schema {
        values.push(default_of(alloc, &attribute.kind)?)?;
    }
    Ok(values)
}

/// The default of each type is a value of the type.
pub fn default_law()
    ensures { (t : SplType) → IsTrue (fits t (default_value t)) }
{}
