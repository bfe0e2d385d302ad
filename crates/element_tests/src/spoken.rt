//! Items as words: `5` is a tuple of that number, `w` a window marker, `.` a final marker, `!` a fault that arrives.
ghost use Rattle.std.specs.Prelude.{◌≡◌, true, [], ◌∷◌, IfOk, IsTrue};
ghost use Rattle.spl_value.specs.declared.routing.Routing.TheVariants.{Key};
ghost use Rattle.spl_value.specs.declared.types.IntKind.TheVariants.{I64};
ghost use Rattle.spl_value.specs.declared.types.SplType.TheVariants as T;
ghost use Rattle.spl_value.specs.declared.value.Value.TheVariants as V;
ghost use Rattle.spl_value.specs.Key.{are_key_places, is_key_value};
ghost use Rattle.spl_value.specs.Values.{fits};
ghost use Rattle.hash_splitter.specs.Splitting.{IsRoutable};
ghost use Rattle.language_model.specs.StreamTypes.{Attributes};
ghost use Rattle.stream_model.specs.Replies.{ItemHas};
ghost use Rattle.element_tests.specs.Driving.{HasNumber};

use spl_value::{Fault, FaultKind, IntKind, Item, Items, NoMemory, Value, Values, wrap};
use std::alloc::Global;
use test_texts::words::number;

#[tactic(auto, using(spl_value::proofs::FitsLaws::number_laws))]
fn integer(n: u32) -> Value
    ensures fits { IsTrue (fits (T.Int I64) result) }
    ensures key { is_key_value result ≡ true }
{
    Value::Int(wrap(IntKind::I64, i128::from(n)))
}

/// A tuple of a number.
fn tuple_of(alloc: Global, digits: &str) -> Result<Values, NoMemory>
    ensures fits { IfOk result (λ values. (types : Attributes) → HasNumber types → IsTrue (fits (T.Tuple types) (V.Tuple values))) }
    ensures key { IfOk result (λ values. IsTrue (are_key_places values (0 ∷ []))) }
{
    let value = integer(number(digits));
    Ok(Items::from_vec(vec![in alloc; value]?))
}

/// The item of a word.
pub(crate) fn item_of(alloc: Global, word: &str) -> Result<Item, NoMemory>
    ensures has { IfOk result (λ x. (types : Attributes) → HasNumber types → ItemHas types x) }
    ensures key { IfOk result (λ x. IsRoutable (Key (0 ∷ [])) x) }
{
    match word {
        "w" => Ok(Item::Window),
        "." => Ok(Item::Final),
        "!" => Ok(Item::Bad(Fault {
            op: 9,
            kind: FaultKind::BadRow,
            line: 3,
        })),
        _ => Ok(Item::Tuple(tuple_of(alloc, word)?)),
    }
}
