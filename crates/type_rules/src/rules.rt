//! The types of expressions, by a call for each form of expression.

ghost use Rattle.std.specs.Prelude.{List, None, Ok, ◌&&◌};
ghost use Rattle.std.specs.Option.{option_copied};
ghost use Rattle.spl_value.specs.declared.types.SplType.TheVariants as S;
ghost use Rattle.spl_tree.specs.declared.code.Code.TheVariants as C;
ghost use Rattle.language_model.specs.Readings.{asks_punct, name_of, named_marker};
ghost use Rattle.language_model.specs.Typing.{Found, after, conditional_typed, typing, typed, list_typed, map_typed, tuple_typed, select_typed, marker_asked, arguments_typed, built_in_typed, call_of};
ghost use Rattle.language_model.specs.parts.Typing.{value_given, wants_list, wants_map, wants_tuple, of_base, binary_or_marker, call_typed};
ghost use Rattle.language_model.specs.TypingLaws.{parted, parts, entry_parts, field_parts, step_parts};
ghost use Rattle.language_model.specs.declared.scope.Typed.{Typed};
ghost use Rattle.spl_tree.specs.declared.code.Code.{Code};
ghost use Rattle.spl_tree.specs.declared.code.Slot.{Slot};
ghost use Rattle.language_model.specs.Finds.{Finds, with_front};

use call_rules::{
    argument_row, asks, behind_first, branch_wanted, call_named, first_wanted, given, marker,
    marker_test, operation_of, prefixed, required, right_wanted, truth,
};
use code_copies::Codes;
use language_model::{Scope, Signature, TypeAnswer, Typed};
use name_rules::{
    add_code, add_field, called, chosen, dollar_typed, element_wanted, field_wanted,
    function_given, index_wanted, kind_in, kinds_in, list_given, literal, map_given, name_typed,
    number_typed, of_port, pair_wanted, port_member, schema_wanted, select, take_index,
    take_member, text, tuple_given, with_element, with_entry,
};
use spl_tree::{BinaryOperator, CallName, Code, Expr, ExprKind, Field, Slot, Step};
use spl_value::{Boxed, Items, SplType, Value};
use std::alloc::Global;

/// The type and the code of an expression in a scope, under the type that its place wants, if it
/// wants one.
///
/// Where the expression has none, the answer is `Refused`, with the first expression in it, in the
/// order of the text, that has no meaning. A `$` parameter has the type and the code of its value, or
/// the refusal of that. A call of a function whose types aren't any has the refusal of those.
/// `Memory` is also the answer for rows of more than 2^32 names.
#[cycle(types)]
pub fn type_of(
    alloc: Global,
    scope: &Scope,
    expr: &Expr,
    wanted: Option<&SplType>,
) -> Result<Typed, TypeAnswer>
    ensures { Finds (typing scope.now expr.now (option_copied wanted.entry)) result }
{
    let at = expr.at;
    match expr.what.get() {
        ExprKind::Group(inner) => type_of(alloc, scope, inner, wanted),
        ExprKind::List(elements) => list(alloc, scope, at, elements.as_slice(), wanted),
        ExprKind::Map(entries) => map(alloc, scope, at, entries.as_slice(), wanted),
        ExprKind::Tuple(fields) => tuple(alloc, scope, at, fields.as_slice(), wanted),
        ExprKind::Conditional(condition, first, second) => {
            conditional(alloc, scope, condition, first, second, wanted)
        }
        ExprKind::Name(name) => {
            required(at, wanted, name_typed(alloc, scope, at, name.as_slice()))
        }
        ExprKind::Dollar(name) => {
            required(at, wanted, dollar_typed(alloc, scope, at, name.as_slice()))
        }
        ExprKind::Number(number) => required(at, wanted, number_typed(alloc, at, *number)),
        ExprKind::Text(bytes) => required(at, wanted, text(alloc, bytes)),
        ExprKind::Bool(b) => {
            required(at, wanted, literal(alloc, SplType::Bool, Value::Bool(*b)))
        }
        ExprKind::Call(name, arguments) => {
            let found = call(alloc, scope, at, name.as_slice(), arguments.as_slice());
            required(at, wanted, found)
        }
        ExprKind::Select(base, steps) => {
            required(at, wanted, selection(alloc, scope, base, steps.as_slice()))
        }
        ExprKind::Unary(prefixes, operand) => {
            let typed = type_of(alloc, scope, operand, None);
            let found = prefixed(alloc, prefixes.as_slice(), operand.at, typed);
            required(at, wanted, found)
        }
        ExprKind::Binary(operator, left, right) => {
            required(at, wanted, operation(alloc, scope, *operator, left, right))
        }
    }
}

/// A conditional. Its second branch has to be of the wanted type, or else of that of the first one.
#[cycle(types)]
fn conditional(
    alloc: Global,
    scope: &Scope,
    condition: &Expr,
    first: &Expr,
    second: &Expr,
    wanted: Option<&SplType>,
) -> Result<Typed, TypeAnswer>
    ensures { Finds (conditional_typed scope.now (option_copied wanted.entry) (parted condition.now) (parted first.now) (parted second.now)) result }
{
    let test = type_of(alloc, scope, condition, Some(&SplType::Bool))?;
    let one = type_of(alloc, scope, first, wanted)?;
    let other = type_of(alloc, scope, second, branch_wanted(wanted, one.kind.get()));
    if_other(alloc, test, one, other)
}

/// A conditional, where its second branch was found.
fn if_other(
    alloc: Global,
    condition: Typed,
    first: Typed,
    second: Result<Typed, TypeAnswer>,
) -> Result<Typed, TypeAnswer>
    ensures { (o : Found Typed) → Finds o second → Finds (after o (λ z. Ok (typed first.kind (C.Conditional condition.code first.code z.code)))) result }
{
    match second {
        Ok(second) => chosen(alloc, condition, first, second),
        Err(answer) => Err(answer),
    }
}

/// A list. Its elements have to be of the wanted type, or else of that of the first one.
#[cycle(types)]
fn list(
    alloc: Global,
    scope: &Scope,
    at: u32,
    all: &[Expr],
    wanted: Option<&SplType>,
) -> Result<Typed, TypeAnswer>
    ensures { Finds (list_typed at scope.now (wants_list (option_copied wanted.entry)) (parts all.now)) result }
{
    let mut kind = element_wanted(alloc, at, wanted)?;
    let mut codes = Items::new(alloc);
    for element in all {
        let typed = type_of(alloc, scope, element, kind_in(&kind))?;
        kind = with_element(kind, &mut codes, typed)?;
    }
    list_given(alloc, at, kind, codes)
}

/// A map. Its keys and values have to be of the wanted types, or else of those of the first entry.
#[cycle(types)]
fn map(
    alloc: Global,
    scope: &Scope,
    at: u32,
    all: &[(Expr, Expr)],
    wanted: Option<&SplType>,
) -> Result<Typed, TypeAnswer>
    ensures { Finds (map_typed at scope.now (wants_map (option_copied wanted.entry)) (entry_parts all.now)) result }
{
    let mut kinds = pair_wanted(alloc, at, wanted)?;
    let mut codes = Items::new(alloc);
    for entry in all {
        let (key, value) = kinds_in(&kinds);
        let first = type_of(alloc, scope, &entry.0, key)?;
        let second = type_of(alloc, scope, &entry.1, value)?;
        kinds = with_entry(kinds, &mut codes, first, second)?;
    }
    map_given(alloc, at, kinds, codes)
}

/// A tuple. Where attributes are wanted of it each of them is the field of its name, or else its
/// attributes are its fields.
#[cycle(types)]
fn tuple(
    alloc: Global,
    scope: &Scope,
    at: u32,
    fields: &[Field<Expr>],
    wanted: Option<&SplType>,
) -> Result<Typed, TypeAnswer>
    ensures { Finds (tuple_typed at scope.now (wants_tuple (option_copied wanted.entry)) (field_parts fields.now)) result }
{
    let schema = schema_wanted(at, wanted, fields)?;
    let mut own = Items::new(alloc);
    let mut codes = Items::new(alloc);
    for (place, field) in fields.iter().enumerate() {
        let (number, kind) = field_wanted(schema, place, field)?;
        let typed = type_of(alloc, scope, &field.value, kind)?;
        add_field(
            alloc,
            schema,
            &mut own,
            &mut codes,
            &field.name.what,
            number,
            typed,
        )?;
    }
    tuple_given(alloc, schema, own, codes)
}

/// A value whose expression begins at `base`, and what is taken of it in turn.
#[cycle(types)]
fn taken(
    alloc: Global,
    scope: &Scope,
    base: u32,
    first: Typed,
    steps: &[Step<Expr>],
) -> Result<Typed, TypeAnswer>
    ensures { Finds (select_typed base scope.now first (step_parts steps.now)) result }
{
    let Typed { mut kind, code } = first;
    let mut takings = Items::new(alloc);
    for next in steps {
        match next {
            Step::Member(member) => {
                kind = take_member(alloc, base, kind, member, &mut takings)?;
            }
            Step::Index(index) => {
                let typed = type_of(alloc, scope, index, index_wanted(base, kind.get())?)?;
                kind = take_index(alloc, base, kind, index.at, typed, &mut takings)?;
            }
        }
    }
    select(alloc, kind, code, takings)
}

/// What is taken of an expression in turn. `Port.attribute` is the attribute.
#[cycle(types)]
fn selection(
    alloc: Global,
    scope: &Scope,
    base: &Expr,
    steps: &[Step<Expr>],
) -> Result<Typed, TypeAnswer>
    ensures { Finds (of_base (name_of base.now.what) (parted base.now) scope.now (step_parts steps.now)) result }
{
    if let Some((place, port, member, rest)) = port_member(scope, base, steps) {
        let typed = of_port(alloc, place, port, member)?;
        return taken(alloc, scope, base.at, typed, rest);
    }
    let typed = type_of(alloc, scope, base, None)?;
    taken(alloc, scope, base.at, typed, steps)
}

/// A comparison with a marker, where a marker has come.
fn marker_tested(
    alloc: Global,
    scope: &Scope,
    operator: BinaryOperator,
    left: &Expr,
    right: &Expr,
) -> Result<Option<Boxed<Code<Slot>>>, TypeAnswer>
    ensures { Finds (Ok (marker_asked (scope.now.punct && asks_punct left.now.what) operator (named_marker right.now.what))) result }
{
    let asks = scope.punct && asks(left);
    marker_test(alloc, asks, operator, marker(right))
}

/// An operator between two operands, or a comparison with a marker.
#[cycle(types)]
fn operation(
    alloc: Global,
    scope: &Scope,
    operator: BinaryOperator,
    left: &Expr,
    right: &Expr,
) -> Result<Typed, TypeAnswer>
    ensures { Finds (binary_or_marker (marker_asked (scope.now.punct && asks_punct left.now.what) operator (named_marker right.now.what)) scope.now operator (parted left.now) (parted right.now)) result }
{
    if let Some(code) = marker_tested(alloc, scope, operator, left, right)? {
        return truth(alloc, code);
    }
    let first = type_of(alloc, scope, left, None)?;
    let wanted = right_wanted(operator, left.at, first.kind.get())?;
    let second = type_of(alloc, scope, right, wanted)?;
    operation_of(alloc, operator, left.at, first, right.at, second)
}

/// The codes of arguments that have to be of these types, one of each, after other codes.
#[cycle(types)]
pub(crate) fn arguments(
    alloc: Global,
    scope: &Scope,
    kinds: &[SplType],
    arguments: &[Expr],
    front: Codes,
) -> Result<Codes, TypeAnswer>
    ensures { Finds (with_front front (arguments_typed scope.now kinds.now (parts arguments.now))) result }
{
    let mut codes = front;
    let mut at = 0;
    'arguments: while at < kinds.len() && at < arguments.len() {
        let typed = type_of(alloc, scope, &arguments[at], Some(&kinds[at]))?;
        add_code(&mut codes, typed)?;
        at += 1;
    }
    Ok(codes)
}

/// A call of a function, or of one that the language has built in.
#[cycle(types)]
pub(crate) fn call(
    alloc: Global,
    scope: &Scope,
    at: u32,
    name: &[u8],
    all: &[Expr],
) -> Result<Typed, TypeAnswer>
    ensures { Finds (call_typed at scope.now name.now (parts all.now) (call_of name.now)) result }
{
    if let Some(call) = call_named(name) {
        return built_in(alloc, scope, at, call, all);
    }
    let (place, found) = called(alloc, scope, at, name, all)?;
    let kinds = found.parameters.as_slice();
    let codes = arguments(alloc, scope, kinds, all, Items::new(alloc));
    if_codes(alloc, at, place, found, codes)
}

/// A call of the function at a place, where the codes of its arguments were found.
fn if_codes(
    alloc: Global,
    at: u32,
    place: usize,
    function: &Signature,
    codes: Result<Codes, TypeAnswer>,
) -> Result<Typed, TypeAnswer>
    ensures { (o : Found (List (Code Slot))) → Finds o codes → Finds (after o (λ xs. value_given at function.now.result (C.Call place xs))) result }
{
    match codes {
        Ok(codes) => function_given(alloc, at, place, function.result.as_ref(), codes),
        Err(answer) => Err(answer),
    }
}

/// A call of one that the language has built in. Its first argument says what the others have to be.
#[cycle(types)]
fn built_in(
    alloc: Global,
    scope: &Scope,
    at: u32,
    call: CallName,
    all: &[Expr],
) -> Result<Typed, TypeAnswer>
    ensures { Finds (built_in_typed at scope.now call (parts all.now)) result }
{
    let (first, rest) = argument_row(at, call, all)?;
    let wanted = first_wanted(alloc, call)?;
    let typed = type_of(alloc, scope, first, kind_in(&wanted))?;
    let (gives, others, front) = behind_first(alloc, scope, at, call, first, typed)?;
    let codes = arguments(alloc, scope, others.as_slice(), rest, front)?;
    given(alloc, at, gives, codes)
}
