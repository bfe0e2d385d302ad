//! Outputs of a group of tuples.
ghost use Rattle.std.specs.Prelude.{◌≡◌, IfOk, Some};
ghost use Rattle.std.specs.Option.{option_copied, option_map};
ghost use Rattle.spl_value.specs.declared.types.SplType.TheViews.{out-SplType};
ghost use Rattle.spl_tree.specs.declared.expression.ExprKind.TheViews.{out-ExprKind};
ghost use Rattle.language_model.specs.OutputTyping.{assigned_group, called_typing, collecting_of, groups_typing, level_gathered, level_gathers};
ghost use Rattle.language_model.specs.parts.OutputTyping.{collected, last_of, of_wanted};
ghost use Rattle.language_model.specs.Finds.{Finds};
ghost use Rattle.output_rules.specs.steps.Collecting.{collecting_meant, collector_on, counted};

use super::assigned::{Assigned, Gives, all_given};
use super::attributes::{Inputs, is_same};
use language_model::{
    CollectedAttribute, Collector, CollectorCall, Port, Scope, TypeAnswer, Typed, mismatch,
    wrong_call,
};
use spl_tree::{Expr, ExprKind, OutputAssignments};
use spl_value::{Attribute, IntKind, Items, NoMemory, SplType, copy_type};
use std::alloc::Global;
use type_rules::type_of;

/// A function of the values in a group.
#[derive(Clone, Copy)]
enum Collecting {
    /// Of integers.
    Summing,
    /// Of integers or texts.
    Extreme(Collector),
    /// Of values of any type.
    Choosing(Collector),
    /// Of no values.
    Counting,
}

/// The function that has this name.
fn collecting_of(name: &[u8]) -> Option<Collecting>
    ensures { option_map collecting_meant result ≡ collecting_of name.now }
{
    if name == b"Sum".as_slice() {
        Some(Collecting::Summing)
    } else if name == b"Min".as_slice() {
        Some(Collecting::Extreme(Collector::Min))
    } else if name == b"Max".as_slice() {
        Some(Collecting::Extreme(Collector::Max))
    } else if name == b"First".as_slice() || name == b"Any".as_slice() {
        Some(Collecting::Choosing(Collector::First))
    } else if name == b"Last".as_slice() {
        Some(Collecting::Choosing(Collector::Last))
    } else if name == b"Count".as_slice() {
        Some(Collecting::Counting)
    } else {
        None
    }
}

/// What a function of an argument at that place is on its type. None where it isn't on that type.
fn collector_on(collecting: Collecting, kind: &SplType) -> Option<Collector>
    ensures { result ≡ collector_on (collecting_meant collecting) (out-SplType kind.now) }
{
    match collecting {
        Collecting::Summing => match kind {
            SplType::Int(kind) => Some(Collector::Sum(*kind)),
            _ => None,
        },
        Collecting::Extreme(collector) => match kind {
            SplType::Int(_) | SplType::Text => Some(collector),
            _ => None,
        },
        Collecting::Choosing(collector) => Some(collector),
        Collecting::Counting => None,
    }
}

/// What is collected of an argument at that place.
fn gathers(at: u32, collecting: Collecting, argument: Typed) -> Result<CollectorCall, TypeAnswer>
    ensures { Finds (level_gathers at (collecting_meant collecting) argument.code argument.kind (out-SplType argument.kind)) result }
{
    let Some(collector) = collector_on(collecting, argument.kind.get()) else {
        return Err(mismatch(at));
    };
    let Typed { kind, code } = argument;
    Ok(CollectorCall {
        collector,
        argument: Some(code.into_inner()),
        kind: kind.into_inner(),
    })
}

/// The number of the tuples in a group.
fn counted(at: u32, arguments: &[Expr]) -> Result<CollectorCall, TypeAnswer>
    ensures { Finds (counted at arguments.now) result }
{
    if !arguments.is_empty() {
        return Err(wrong_call(at));
    }
    Ok(CollectorCall {
        collector: Collector::Count,
        argument: None,
        kind: SplType::Int(IntKind::I32),
    })
}

/// A call of such a function at that place.
fn called(
    alloc: Global,
    scope: &Scope,
    at: u32,
    collecting: Collecting,
    arguments: &[Expr],
) -> Result<CollectorCall, TypeAnswer>
    ensures { Finds (called_typing scope.now at (collecting_meant collecting) arguments.now) result }
{
    if let Collecting::Counting = collecting {
        return counted(at, arguments);
    }
    let [argument] = arguments else {
        return Err(wrong_call(at));
    };
    let typed = type_of(alloc, scope, argument, None)?;
    gathers(argument.at, collecting, typed)
}

/// What a value collects, which has to be a call of such a function.
fn gathered(alloc: Global, scope: &Scope, value: &Expr) -> Result<CollectorCall, TypeAnswer>
    ensures { Finds (level_gathered scope.now value.now.at (out-ExprKind value.now.what)) result }
{
    let ExprKind::Call(name, arguments) = value.what.get() else {
        return Err(mismatch(value.at));
    };
    match collecting_of(name.as_slice()) {
        Some(collecting) => called(alloc, scope, value.at, collecting, arguments.as_slice()),
        None => Err(mismatch(value.at)),
    }
}

/// What is collected, where it is of the type that is wanted.
fn of_type(at: u32, kind: &SplType, found: CollectorCall) -> Result<CollectorCall, TypeAnswer>
    ensures { Finds (of_wanted at (Some kind.now) found) result }
{
    if is_same(&found.kind, kind) {
        Ok(found)
    } else {
        Err(mismatch(at))
    }
}

/// Values collected in a scope, for an output at an invocation.
#[derive(Drop)]
struct Collections<'s> {
    inputs: Inputs<'s>,
    at: u32,
}

impl<'s> Gives for Collections<'s> {
    type Given = CollectorCall;

    ghost assigns = { λ s. assigned_group s.inputs.scope.now };

    ghost fills = { λ s. last_of s.inputs.scope.now s.at };

    fn assigned(
        &self,
        alloc: Global,
        wanted: Option<&SplType>,
        value: &Expr,
    ) -> Result<CollectorCall, TypeAnswer> {
        let found = gathered(alloc, self.inputs.scope, value)?;
        match wanted {
            None => Ok(found),
            Some(kind) => of_type(value.at, kind, found),
        }
    }

    fn filled(&self, alloc: Global, attribute: &Attribute) -> Result<CollectorCall, TypeAnswer> {
        let kind = copy_type(alloc, &attribute.kind)?;
        let code = self.inputs.taken_over(self.at, attribute)?;
        Ok(CollectorCall {
            collector: Collector::Last,
            argument: Some(code),
            kind,
        })
    }
}

/// What an attribute gets, without its type.
fn collects(attribute: u32, gathers: CollectorCall) -> CollectedAttribute
    ensures { result ≡ record { attribute = attribute; collector = gathers.collector; argument = gathers.argument } }
{
    let CollectorCall {
        collector,
        argument,
        kind: _,
    } = gathers;
    CollectedAttribute {
        attribute,
        collector,
        argument,
    }
}

/// What is collected, without the types.
fn collected(
    alloc: Global,
    given: Assigned<CollectorCall>,
) -> Result<Items<CollectedAttribute>, NoMemory>
    ensures { IfOk result (λ made. made ≡ collected given) }
{
    let mut made = Items::new(alloc);
    for (attribute, gathers) in given.into_vec() {
        made.push(collects(attribute, gathers))?;
    }
    Ok(made)
}

/// What an Aggregate collects for the attributes of its output, whose invocation stands at that place of
/// the program. The scope has its input port, and the rows are those of its `output` clause. Each value is
/// one call of `Sum`, `Min`, `Max`, `First`, `Any` or `Last` with an argument, or of `Count` with none. An
/// attribute that has no assignment gets that of its name and type of the group's last tuple.
///
/// `Refused` is the first refusal, in the order of `tuple_of`: that of an argument, at its place; `Mismatch`
/// at an argument of a type that the function isn't on, and at a value that is no such call or gives another
/// type; `WrongCall` at a call with another number of arguments; and the refusals of `tuple_of` of rows and
/// attributes. `Memory` is also the answer for more than 2^32 attributes.
pub fn groups_of(
    alloc: Global,
    scope: &Scope,
    at: u32,
    output: &Port,
    rows: &[OutputAssignments],
) -> Result<Items<CollectedAttribute>, TypeAnswer>
    ensures { Finds (groups_typing scope.now at output.now.schema output.now.name rows.now) result }
{
    let inputs = Inputs::new(alloc, scope)?;
    let collections = Collections { inputs, at };
    let given = all_given(alloc, &collections, output, rows)?;
    Ok(collected(alloc, given)?)
}
