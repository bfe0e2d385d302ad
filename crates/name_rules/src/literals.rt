//! Lists, maps and tuples, made of the types and codes of their parts.
ghost use Rattle.std.specs.Prelude.{◌≡◌, ◌++◌, ◌∷◌, [], IfOk, Ok, OnOk, Some, unwrap_or};
ghost use Rattle.std.specs.Option.{option_copied};
ghost use Rattle.spl_tree.specs.declared.code.Code.TheVariants as C;
ghost use Rattle.spl_value.specs.declared.types.SplType.TheVariants as S;
ghost use Rattle.language_model.specs.Typing.{typed};
ghost use Rattle.language_model.specs.Finds.{Finds};
ghost use Rattle.name_rules.specs.LiteralAnswers.{list_given, map_given, with_own};

use crate::boxing::boxed;
use code_copies::{Codes, EntryCodes, FieldCodes, push_code, push_entry, push_field};
use language_model::{TypeAnswer, Typed, mismatch};
use spl_tree::Code;
use spl_value::{Boxed, Items, Name, Named, NoMemory, Schema, SplType, copy_schema};
use std::alloc::{AllocError, Global};

/// Adds the code of an expression to others.
pub fn add_code(codes: &mut Codes, typed: Typed) -> Result<(), AllocError>
    ensures { OnOk result (codes.new ≡ codes.old ++ typed.code ∷ []) }
{
    let Typed { kind: _, code } = typed;
    push_code(codes, code)
}

/// Adds an element of a list. The type of the first one is that of the list's elements where none is
/// known.
pub fn with_element(
    kind: Option<Boxed<SplType>>,
    codes: &mut Codes,
    element: Typed,
) -> Result<Option<Boxed<SplType>>, AllocError>
    ensures kind { IfOk result (λ k. k ≡ Some (unwrap_or kind element.kind)) }
    ensures code { OnOk result (codes.new ≡ codes.old ++ element.code ∷ []) }
{
    let Typed { kind: own, code } = element;
    push_code(codes, code)?;
    Ok(Some(kind.unwrap_or(own)))
}

/// A list at a place, where the type of its elements is known.
pub fn list_given(
    alloc: Global,
    at: u32,
    kind: Option<Boxed<SplType>>,
    codes: Codes,
) -> Result<Typed, TypeAnswer>
    ensures { Finds (list_given at kind codes) result }
{
    match kind {
        Some(kind) => boxed(alloc, SplType::List(kind), Code::List(codes)),
        None => Err(mismatch(at)),
    }
}

/// Adds an entry of a map. The types of the first one are those of the map's keys and values where
/// none are known.
pub fn with_entry(
    kinds: Option<(Boxed<SplType>, Boxed<SplType>)>,
    codes: &mut EntryCodes,
    key: Typed,
    value: Typed,
) -> Result<Option<(Boxed<SplType>, Boxed<SplType>)>, AllocError>
    ensures kinds { IfOk result (λ p. p ≡ Some (unwrap_or kinds (key.kind, value.kind))) }
    ensures code { OnOk result (codes.new ≡ codes.old ++ (key.code, value.code) ∷ []) }
{
    let own = (key.kind, value.kind);
    push_entry(codes, key.code, value.code)?;
    Ok(Some(kinds.unwrap_or(own)))
}

/// A map at a place, where the types of its keys and values are known.
pub fn map_given(
    alloc: Global,
    at: u32,
    kinds: Option<(Boxed<SplType>, Boxed<SplType>)>,
    codes: EntryCodes,
) -> Result<Typed, TypeAnswer>
    ensures { Finds (map_given at kinds codes) result }
{
    match kinds {
        Some((key, value)) => boxed(alloc, SplType::Map(key, value), Code::Map(codes)),
        None => Err(mismatch(at)),
    }
}

/// Adds a field with the place of its attribute. Where no attributes are wanted it is one of its own.
pub fn add_field(
    alloc: Global,
    wanted: Option<&Schema>,
    own: &mut Schema,
    codes: &mut FieldCodes,
    name: &Name,
    place: u32,
    typed: Typed,
) -> Result<(), NoMemory>
    ensures own { OnOk result (own.new ≡ with_own (option_copied wanted.entry) own.old (record { name = name.now; kind = typed.kind })) }
    ensures code { OnOk result (codes.new ≡ codes.old ++ (place, typed.code) ∷ []) }
{
    let Typed { kind, code } = typed;
    push_field(codes, place, code)?;
    match wanted {
        Some(_) => Ok(()),
        None => add_attribute(alloc, own, name, kind),
    }
}

/// Adds an attribute of this name and type.
fn add_attribute(
    alloc: Global,
    schema: &mut Schema,
    name: &Name,
    kind: Boxed<SplType>,
) -> Result<(), NoMemory>
    ensures { OnOk result (schema.new ≡ schema.old ++ record { name = name.now; kind = kind } ∷ []) }
{
    let name = Items::from_slice(alloc, name.as_slice())?;
    schema.push(Named {
        name,
        kind: kind.into_inner(),
    })?;
    Ok(())
}

/// A tuple of the attributes that are wanted, or of its own where none are.
pub fn tuple_given(
    alloc: Global,
    wanted: Option<&Schema>,
    own: Schema,
    codes: FieldCodes,
) -> Result<Typed, TypeAnswer>
    ensures { Finds (Ok (typed (S.Tuple (unwrap_or (option_copied wanted.entry) own)) (C.Tuple codes))) result }
{
    match wanted {
        Some(schema) => tuple_of(alloc, copy_schema(alloc, schema.as_slice())?, codes),
        None => tuple_of(alloc, own, codes),
    }
}

/// A tuple of attributes.
fn tuple_of(alloc: Global, schema: Schema, codes: FieldCodes) -> Result<Typed, TypeAnswer>
    ensures { Finds (Ok (typed (S.Tuple schema) (C.Tuple codes))) result }
{
    boxed(alloc, SplType::Tuple(schema), Code::Tuple(codes))
}
