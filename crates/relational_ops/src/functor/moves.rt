//! Which attributes of the tuple that came are moved into the one that is made.
ghost use Rattle.std.specs.Prelude.{◌≡◌, IfOk, IfSome};
ghost use Rattle.spl_tree.specs.declared.code.Code.TheVariants as C;
ghost use Rattle.spl_tree.specs.declared.code.Slot.TheVariants as L;
ghost use Rattle.expr_eval.specs.Moving.{MovesFit};
ghost use Rattle.relational_ops.specs.steps.Moving.{Takes};

use spl_tree::{Code, Slot};
use spl_value::{Items, NoMemory};
use std::alloc::Global;
use std::collections::HashSet;

/// For each field of the code of a tuple, the attribute that is moved there: the one that the field is alone,
/// where no field before it is that one.
pub(crate) fn moves_of(alloc: Global, output: &Code<Slot>) -> Result<Items<Option<u32>>, NoMemory>
    ensures { IfOk result (λ moves. MovesFit output.now moves) }
{
    let mut moves = Items::new(alloc);
    let Code::Tuple(fields) = output else {
        return Ok(moves);
    };
    let fields = fields.as_slice();
    let mut moved = HashSet::new(alloc);
    for field in fields {
        let attribute = newly_moved(&field.1, &mut moved)?;
        moves.push(attribute)?;
    }
    Ok(moves)
}

/// The attribute that a code is alone.
fn attribute_alone(code: &Code<Slot>) -> Option<u32>
    ensures { IfSome result (λ a. code.now ≡ C.Name (L.Attribute 0 a)) }
{
    let Code::Name(slot) = code else {
        return None;
    };
    let Slot::Attribute { port, attribute } = *slot else {
        return None;
    };
    if port == 0 {
        return Some(attribute);
    }
    None
}

/// The attribute that a code is alone, where it isn't moved yet. Then it is.
fn newly_moved(code: &Code<Slot>, moved: &mut HashSet<u32>) -> Result<Option<u32>, NoMemory>
    ensures { IfOk result (λ attribute. Takes code.now moved.old attribute moved.new) }
{
    let Some(attribute) = attribute_alone(code) else {
        return Ok(None);
    };
    if moved.insert(attribute)? {
        return Ok(Some(attribute));
    }
    Ok(None)
}
