//! Copies of codes, and of types in boxes.
ghost use Rattle.std.specs.Prelude.{◌≡◌, IfOk, List, ℕ};
ghost use Rattle.spl_tree.specs.declared.code.Code.{Code};
ghost use Rattle.spl_tree.specs.declared.code.Code.TheVariants as C;
ghost use Rattle.spl_tree.specs.declared.code.Slot.{Slot};

use crate::lists::{
    Codes, EntryCodes, FieldCodes, Selectors, push_code, push_element, push_entry, push_field,
    push_key,
};
use spl_tree::{BinaryCode, BuiltIn, Code, Selector, Slot, UnaryCode};
use spl_value::{Boxed, Items, NoMemory, SplType, Value, copy_type, copy_value};
use std::alloc::Global;

/// A code in a box.
fn in_box(alloc: Global, code: Code<Slot>) -> Result<Boxed<Code<Slot>>, NoMemory>
    ensures { IfOk result (λ boxed. boxed ≡ code) }
{
    Ok(Boxed::new(alloc, code)?)
}

fn list(alloc: Global, elements: Result<Codes, NoMemory>) -> Result<Boxed<Code<Slot>>, NoMemory>
    ensures { (xs : List (Code Slot)) → IfOk elements (λ it. it ≡ xs) → IfOk result (λ code. code ≡ C.List xs) }
{
    in_box(alloc, Code::List(elements?))
}

fn map(alloc: Global, entries: Result<EntryCodes, NoMemory>) -> Result<Boxed<Code<Slot>>, NoMemory>
    ensures { (xs : List (Code Slot × Code Slot)) → IfOk entries (λ it. it ≡ xs) → IfOk result (λ code. code ≡ C.Map xs) }
{
    in_box(alloc, Code::Map(entries?))
}

fn tuple(alloc: Global, fields: Result<FieldCodes, NoMemory>) -> Result<Boxed<Code<Slot>>, NoMemory>
    ensures { (xs : List (ℕ × Code Slot)) → IfOk fields (λ it. it ≡ xs) → IfOk result (λ code. code ≡ C.Tuple xs) }
{
    in_box(alloc, Code::Tuple(fields?))
}

fn built_in(alloc: Global, call: BuiltIn, arguments: Codes) -> Result<Boxed<Code<Slot>>, NoMemory>
    ensures { IfOk result (λ code. code ≡ C.BuiltIn call arguments) }
{
    in_box(alloc, Code::BuiltIn(call, arguments))
}

fn call(
    alloc: Global,
    place: u32,
    arguments: Result<Codes, NoMemory>,
) -> Result<Boxed<Code<Slot>>, NoMemory>
    ensures { (xs : List (Code Slot)) → IfOk arguments (λ it. it ≡ xs) → IfOk result (λ code. code ≡ C.Call place xs) }
{
    in_box(alloc, Code::Call(place, arguments?))
}

fn select(
    alloc: Global,
    base: Boxed<Code<Slot>>,
    takings: Selectors,
) -> Result<Boxed<Code<Slot>>, NoMemory>
    ensures { IfOk result (λ code. code ≡ C.Select base takings) }
{
    in_box(alloc, Code::Select(base, takings))
}

fn unary(
    alloc: Global,
    operators: &[UnaryCode],
    operand: Boxed<Code<Slot>>,
) -> Result<Boxed<Code<Slot>>, NoMemory>
    ensures { IfOk result (λ code. code ≡ C.Unary operators.now operand) }
{
    let operators = Items::from_slice(alloc, operators)?;
    in_box(alloc, Code::Unary(operators, operand))
}

fn binary(
    alloc: Global,
    operator: BinaryCode,
    left: Boxed<Code<Slot>>,
    right: Boxed<Code<Slot>>,
) -> Result<Boxed<Code<Slot>>, NoMemory>
    ensures { IfOk result (λ code. code ≡ C.Binary operator left right) }
{
    in_box(alloc, Code::Binary(operator, left, right))
}

fn conditional(
    alloc: Global,
    condition: Boxed<Code<Slot>>,
    first: Boxed<Code<Slot>>,
    second: Boxed<Code<Slot>>,
) -> Result<Boxed<Code<Slot>>, NoMemory>
    ensures { IfOk result (λ code. code ≡ C.Conditional condition first second) }
{
    in_box(alloc, Code::Conditional(condition, first, second))
}

fn literal(alloc: Global, value: &Value) -> Result<Boxed<Code<Slot>>, NoMemory>
    ensures { IfOk result (λ code. code ≡ C.Literal value.now) }
{
    let value = copy_value(alloc, value)?;
    in_box(alloc, Code::Literal(value))
}

/// A copy of a code.
#[cycle(copy)]
#[tactic(auto, using(crate::proofs::CodeWeights::weight_laws))]
pub fn copy_code(alloc: Global, code: &Code<Slot>) -> Result<Boxed<Code<Slot>>, NoMemory>
    ensures { IfOk result (λ copy. copy ≡ code.now) }
{
    match code {
        Code::Literal(value) => literal(alloc, value),
        Code::Name(slot) => in_box(alloc, Code::Name(*slot)),
        Code::List(elements) => list(alloc, copy_codes(alloc, elements.as_slice())),
        Code::Map(entries) => map(alloc, copy_entries(alloc, entries.as_slice())),
        Code::Tuple(fields) => tuple(alloc, copy_fields(alloc, fields.as_slice())),
        Code::Select(base, takings) => copy_select(alloc, base.get(), takings.as_slice()),
        Code::Unary(operators, operand) => {
            copy_unary(alloc, operators.as_slice(), operand.get())
        }
        Code::Binary(operator, left, right) => {
            copy_binary(alloc, *operator, left.get(), right.get())
        }
        Code::Conditional(condition, first, second) => {
            copy_conditional(alloc, condition.get(), first.get(), second.get())
        }
        Code::BuiltIn(name, arguments) => copy_built_in(alloc, *name, arguments.as_slice()),
        Code::Call(place, arguments) => {
            call(alloc, *place, copy_codes(alloc, arguments.as_slice()))
        }
        Code::IsMarker(marker) => in_box(alloc, Code::IsMarker(*marker)),
        Code::IsNotMarker(marker) => in_box(alloc, Code::IsNotMarker(*marker)),
    }
}

#[cycle(copy)]
fn copy_select(
    alloc: Global,
    base: &Code<Slot>,
    takings: &[Selector<Code<Slot>>],
) -> Result<Boxed<Code<Slot>>, NoMemory>
    ensures { IfOk result (λ copy. copy ≡ C.Select base.now takings.now) }
{
    let base = copy_code(alloc, base)?;
    select(alloc, base, copy_takings(alloc, takings)?)
}

#[cycle(copy)]
fn copy_unary(
    alloc: Global,
    operators: &[UnaryCode],
    operand: &Code<Slot>,
) -> Result<Boxed<Code<Slot>>, NoMemory>
    ensures { IfOk result (λ copy. copy ≡ C.Unary operators.now operand.now) }
{
    let operand = copy_code(alloc, operand)?;
    unary(alloc, operators, operand)
}

#[cycle(copy)]
fn copy_binary(
    alloc: Global,
    operator: BinaryCode,
    left: &Code<Slot>,
    right: &Code<Slot>,
) -> Result<Boxed<Code<Slot>>, NoMemory>
    ensures { IfOk result (λ copy. copy ≡ C.Binary operator left.now right.now) }
{
    let left = copy_code(alloc, left)?;
    binary(alloc, operator, left, copy_code(alloc, right)?)
}

#[cycle(copy)]
fn copy_conditional(
    alloc: Global,
    condition: &Code<Slot>,
    first: &Code<Slot>,
    second: &Code<Slot>,
) -> Result<Boxed<Code<Slot>>, NoMemory>
    ensures { IfOk result (λ copy. copy ≡ C.Conditional condition.now first.now second.now) }
{
    let condition = copy_code(alloc, condition)?;
    let first = copy_code(alloc, first)?;
    conditional(alloc, condition, first, copy_code(alloc, second)?)
}

#[cycle(copy)]
fn copy_built_in(
    alloc: Global,
    call: BuiltIn,
    arguments: &[Code<Slot>],
) -> Result<Boxed<Code<Slot>>, NoMemory>
    ensures { IfOk result (λ copy. copy ≡ C.BuiltIn call arguments.now) }
{
    built_in(alloc, call, copy_codes(alloc, arguments)?)
}

#[cycle(copy)]
fn copy_codes(alloc: Global, codes: &[Code<Slot>]) -> Result<Codes, NoMemory>
    ensures { IfOk result (λ copy. copy ≡ codes.now) }
{
    let mut copied = Items::new(alloc);
    for code in codes {
        let copy = copy_code(alloc, code)?;
        push_code(&mut copied, copy)?;
    }
    Ok(copied)
}

#[cycle(copy)]
fn copy_entries(alloc: Global, entries: &[(Code<Slot>, Code<Slot>)]) -> Result<EntryCodes, NoMemory>
    ensures { IfOk result (λ copy. copy ≡ entries.now) }
{
    let mut copied = Items::new(alloc);
    for entry in entries {
        let key = copy_code(alloc, &entry.0)?;
        let value = copy_code(alloc, &entry.1)?;
        push_entry(&mut copied, key, value)?;
    }
    Ok(copied)
}

#[cycle(copy)]
fn copy_fields(alloc: Global, fields: &[(u32, Code<Slot>)]) -> Result<FieldCodes, NoMemory>
    ensures { IfOk result (λ copy. copy ≡ fields.now) }
{
    let mut copied = Items::new(alloc);
    for field in fields {
        let value = copy_code(alloc, &field.1)?;
        push_field(&mut copied, field.0, value)?;
    }
    Ok(copied)
}

#[cycle(copy)]
fn copy_takings(alloc: Global, takings: &[Selector<Code<Slot>>]) -> Result<Selectors, NoMemory>
    ensures { IfOk result (λ copy. copy ≡ takings.now) }
{
    let mut copied = Items::new(alloc);
    for taking in takings {
        match taking {
            Selector::Member(place) => copied.push(Selector::Member(*place))?,
            Selector::Element(index) => {
                let index = copy_code(alloc, index)?;
                push_element(&mut copied, index)?;
            }
            Selector::AtKey(key) => {
                let key = copy_code(alloc, key)?;
                push_key(&mut copied, key)?;
            }
        }
    }
    Ok(copied)
}

/// A copy of a type, in a box.
pub fn boxed_copy(alloc: Global, kind: &SplType) -> Result<Boxed<SplType>, NoMemory>
    ensures { IfOk result (λ copy. copy ≡ kind.now) }
{
    let copy = copy_type(alloc, kind)?;
    Ok(Boxed::new(alloc, copy)?)
}
