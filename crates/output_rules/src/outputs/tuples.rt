//! Outputs of one tuple.
ghost use Rattle.std.specs.Option.{option_copied};
ghost use Rattle.language_model.specs.OutputTyping.{taken_over, tuple_typing};
ghost use Rattle.language_model.specs.parts.OutputTyping.{assigned_code};
ghost use Rattle.language_model.specs.Finds.{Finds};

use super::assigned::{Gives, all_given};
use super::attributes::Inputs;
use language_model::{Port, Scope, TypeAnswer};
use spl_tree::{Code, Expr, OutputAssignments, Slot};
use spl_value::{Attribute, SplType};
use std::alloc::Global;
use type_rules::type_of;

/// Values in a scope, for an output at an invocation.
#[derive(Drop)]
struct Codes<'s> {
    inputs: Inputs<'s>,
    at: u32,
}

impl<'s> Gives for Codes<'s> {
    type Given = Code<Slot>;

    ghost assigns = { λ s. assigned_code s.inputs.scope.now };

    ghost fills = { λ s. taken_over s.inputs.scope.now s.at };

    fn assigned(
        &self,
        alloc: Global,
        wanted: Option<&SplType>,
        value: &Expr,
    ) -> Result<Code<Slot>, TypeAnswer> {
        let typed = type_of(alloc, self.inputs.scope, value, wanted)?;
        Ok(typed.code.into_inner())
    }

    fn filled(&self, alloc: Global, attribute: &Attribute) -> Result<Code<Slot>, TypeAnswer> {
        self.inputs.taken_over(self.at, attribute)
    }
}

/// The tuple that a Functor or a Join gives, whose invocation stands at that place of the program. The
/// scope has its input ports, and the rows are those of its `output` clause. The assignments come first, in
/// the order of the text, and after them the attributes that have none: each of them is taken over from
/// the one port that has an attribute of its name, which has to be of its type.
///
/// `Refused` is the first refusal in the order of the text: that of a value, `BadOutput` at the name of an
/// attribute that the output doesn't have or that is assigned before, and `Unknown` at the name of a row
/// that isn't for the output. After them comes `BadOutput` at the invocation, of an attribute that can't
/// be taken over. `Memory` is also the answer for more than 2^32 attributes or ports.
pub fn tuple_of(
    alloc: Global,
    scope: &Scope,
    at: u32,
    output: &Port,
    rows: &[OutputAssignments],
) -> Result<Code<Slot>, TypeAnswer>
    ensures { Finds (tuple_typing scope.now at output.now.schema output.now.name rows.now) result }
{
    let inputs = Inputs::new(alloc, scope)?;
    let codes = Codes { inputs, at };
    let given = all_given(alloc, &codes, output, rows)?;
    Ok(Code::Tuple(given))
}
