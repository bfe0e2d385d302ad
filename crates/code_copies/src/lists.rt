//! Lists of codes.
ghost use Rattle.std.specs.Prelude.{◌≡◌, ◌++◌, ◌∷◌, [], OnOk};
ghost use Rattle.spl_tree.specs.declared.code.Selector.TheVariants as K;

use spl_tree::{Code, Selector, Slot};
use spl_value::{Boxed, Items};
use std::alloc::AllocError;

/// Codes of expressions.
pub type Codes = Items<Code<Slot>>;

/// Codes of keys and values.
pub type EntryCodes = Items<(Code<Slot>, Code<Slot>)>;

/// Places of attributes, and the codes of their values.
pub type FieldCodes = Items<(u32, Code<Slot>)>;

/// What is taken in turn.
pub type Selectors = Items<Selector<Code<Slot>>>;

/// Adds a code to others.
pub fn push_code(codes: &mut Codes, code: Boxed<Code<Slot>>) -> Result<(), AllocError>
    ensures { OnOk result (codes.new ≡ codes.old ++ code ∷ []) }
{
    codes.push(code.into_inner())
}

/// Adds the codes of a key and a value.
pub fn push_entry(
    codes: &mut EntryCodes,
    key: Boxed<Code<Slot>>,
    value: Boxed<Code<Slot>>,
) -> Result<(), AllocError>
    ensures { OnOk result (codes.new ≡ codes.old ++ (key, value) ∷ []) }
{
    codes.push((key.into_inner(), value.into_inner()))
}

/// Adds the code of a field, with the place of its attribute.
pub fn push_field(
    codes: &mut FieldCodes,
    place: u32,
    code: Boxed<Code<Slot>>,
) -> Result<(), AllocError>
    ensures { OnOk result (codes.new ≡ codes.old ++ (place, code) ∷ []) }
{
    codes.push((place, code.into_inner()))
}

/// Adds what stands in a list at an index.
pub fn push_element(takings: &mut Selectors, index: Boxed<Code<Slot>>) -> Result<(), AllocError>
    ensures { OnOk result (takings.new ≡ takings.old ++ K.Element index ∷ []) }
{
    takings.push(Selector::Element(index.into_inner()))
}

/// Adds what stands in a map at a key.
pub fn push_key(takings: &mut Selectors, key: Boxed<Code<Slot>>) -> Result<(), AllocError>
    ensures { OnOk result (takings.new ≡ takings.old ++ K.AtKey key ∷ []) }
{
    takings.push(Selector::AtKey(key.into_inner()))
}
