//! The types and codes of expressions whose parts have theirs.
ghost use Rattle.std.specs.Prelude.{◌≡◌, Ok};
ghost use Rattle.spl_tree.specs.declared.code.Code.TheVariants as C;
ghost use Rattle.spl_tree.specs.declared.code.Selector.TheVariants as K;
ghost use Rattle.spl_value.specs.declared.types.SplType.TheVariants as S;
ghost use Rattle.spl_value.specs.declared.types.SplType.TheViews.{out-SplType};
ghost use Rattle.spl_value.specs.declared.value.Value.TheVariants as V;
ghost use Rattle.language_model.specs.Typing.{after, level_index, typed, number_typed, selected};
ghost use Rattle.language_model.specs.Finds.{Finds};
ghost use Rattle.name_rules.specs.Takings.{Takes, member_taken, index_taken};

use crate::boxing::boxed;
use crate::wanted::{index_typed, schema_of};
use code_copies::{Selectors, boxed_copy, push_element, push_key};
use language_model::{TypeAnswer, Typed, attribute_named, mismatch, narrow, unknown};
use spl_tree::{Code, Number, Placed, Selector, Slot};
use spl_value::{Attribute, Boxed, Bytes, Items, Name, SplType, Value, is_of_kind};
use std::alloc::Global;

/// A literal of a type.
pub fn literal(alloc: Global, kind: SplType, value: Value) -> Result<Typed, TypeAnswer>
    ensures { Finds (Ok (typed kind (C.Literal value))) result }
{
    boxed(alloc, kind, Code::Literal(value))
}

/// A number at its place. It has to be one of its type.
pub fn number_typed(alloc: Global, at: u32, number: Number) -> Result<Typed, TypeAnswer>
    ensures { Finds (number_typed at number) result }
{
    let value = i128::from(number.value);
    if is_of_kind(number.kind, value) {
        literal(alloc, SplType::Int(number.kind), Value::Int(value))
    } else {
        Err(mismatch(at))
    }
}

/// A text literal.
pub fn text(alloc: Global, bytes: &Bytes) -> Result<Typed, TypeAnswer>
    ensures { Finds (Ok (typed S.Text (C.Literal (V.Text bytes.now)))) result }
{
    let bytes = Items::from_slice(alloc, bytes.as_slice())?;
    literal(alloc, SplType::Text, Value::Text(bytes))
}

/// Takes a member of a value of a type, whose expression begins at `base`: the type of that.
pub fn take_member(
    alloc: Global,
    base: u32,
    kind: Boxed<SplType>,
    member: &Placed<Name>,
    takings: &mut Selectors,
) -> Result<Boxed<SplType>, TypeAnswer>
    ensures { Takes (member_taken base (out-SplType kind) member.now.at member.now.what) takings.old takings.new result }
{
    let Some(schema) = schema_of(kind.get()) else {
        return Err(mismatch(base));
    };
    let name = member.what.as_slice();
    match attribute_named(schema.as_slice(), name) {
        Some((place, found)) => take_attribute(alloc, place, found, takings),
        None => Err(unknown(alloc, member.at, name)),
    }
}

/// Takes an attribute at its place.
fn take_attribute(
    alloc: Global,
    place: usize,
    found: &Attribute,
    takings: &mut Selectors,
) -> Result<Boxed<SplType>, TypeAnswer>
    ensures { Takes (Ok (K.Member place, found.now.kind)) takings.old takings.new result }
{
    let given = boxed_copy(alloc, &found.kind)?;
    takings.push(Selector::Member(narrow(place)?))?;
    Ok(given)
}

/// Takes what stands in a list at an index, or in a map at a key. The index begins at `at`, and the
/// value's expression at `base`.
pub fn take_index(
    alloc: Global,
    base: u32,
    kind: Boxed<SplType>,
    at: u32,
    index: Typed,
    takings: &mut Selectors,
) -> Result<Boxed<SplType>, TypeAnswer>
    ensures { Takes (index_taken base at index (out-SplType kind)) takings.old takings.new result }
{
    match kind.get() {
        SplType::List(element) => take_element(alloc, at, element.get(), index, takings),
        SplType::Map(_, value) => take_value(alloc, value.get(), index, takings),
        SplType::Int(_) | SplType::Bool | SplType::Text | SplType::Tuple(_) => Err(mismatch(base)),
    }
}

/// Takes an element of a list. Its index begins at a place.
fn take_element(
    alloc: Global,
    at: u32,
    element: &SplType,
    index: Typed,
    takings: &mut Selectors,
) -> Result<Boxed<SplType>, TypeAnswer>
    ensures { Takes (after (level_index at index.code (out-SplType index.kind)) (λ code. Ok (K.Element code, element.now))) takings.old takings.new result }
{
    let code = index_typed(at, index)?;
    let given = boxed_copy(alloc, element)?;
    push_element(takings, code)?;
    Ok(given)
}

/// Takes the value of a map at a key.
fn take_value(
    alloc: Global,
    value: &SplType,
    key: Typed,
    takings: &mut Selectors,
) -> Result<Boxed<SplType>, TypeAnswer>
    ensures { Takes (Ok (K.AtKey key.code, value.now)) takings.old takings.new result }
{
    let Typed { kind: _, code } = key;
    let given = boxed_copy(alloc, value)?;
    push_key(takings, code)?;
    Ok(given)
}

/// What is taken in turn of a code, with the type of the result.
pub fn select(
    alloc: Global,
    kind: Boxed<SplType>,
    base: Boxed<Code<Slot>>,
    takings: Selectors,
) -> Result<Typed, TypeAnswer>
    ensures { Finds (Ok (typed kind (selected base takings))) result }
{
    if takings.is_empty() {
        return Ok(Typed { kind, code: base });
    }
    let code = Boxed::new(alloc, Code::Select(base, takings))?;
    Ok(Typed { kind, code })
}

/// A conditional, of the type of its first branch.
pub fn chosen(
    alloc: Global,
    condition: Typed,
    first: Typed,
    second: Typed,
) -> Result<Typed, TypeAnswer>
    ensures { Finds (Ok (typed first.kind (C.Conditional condition.code first.code second.code))) result }
{
    let Typed { kind, code } = first;
    let code = Code::Conditional(condition.code, code, second.code);
    let code = Boxed::new(alloc, code)?;
    Ok(Typed { kind, code })
}
