//! The functions of a program.
ghost use Rattle.std.specs.Prelude.{◌≡◌, [], Ok, Some, IfOk, length};
ghost use Rattle.std.specs.Option.{option_copied};
ghost use Rattle.language_model.specs.BodyFits.{OfFunction};
ghost use Rattle.language_model.specs.BodyTyping.{body_typing};
ghost use Rattle.language_model.specs.FunctionTyping.{function_types, functions_typing, if_returning, unit_scope};
ghost use Rattle.language_model.specs.parts.FunctionTyping.{kinds, result_type};
ghost use Rattle.language_model.specs.TypeNames.{unit_types};
ghost use Rattle.spl_tree.specs.declared.unit.Definition.TheVariants as D;
ghost use Rattle.body_rules.specs.steps.Leads.{shortened};
ghost use Rattle.body_rules.specs.steps.Signatures.{as_types, function_in, scope_in, with_definition, with_function, with_parameters};
ghost use Rattle.written_types.specs.TypeScopes.{types_in};
ghost use Rattle.language_model.specs.Finds.{Finds};

use crate::bodies::{
    BodyPurpose, BodySetting, add_variable, body_of, drop_variables, ends_with_result,
};
use code_copies::boxed_copy;
use language_model::{
    CheckError, Scope, Signature, Signatures, TypeAnswer, Unresolved, refused_name,
};
use spl_tree::{Body, Definition, Function, FunctionDefinition, Functions, Stmt, TypeExpr, Unit};
use spl_value::{Attribute, Items, Name, NoMemory, Schema, SplType};
use std::alloc::Global;
use written_types::{TypeScope, TypeTable, attributes_of, type_of_written};

/// The types of a function: of its result, where it has one, and of its parameters.
#[derive(Drop)]
struct FunctionTypes {
    result: Option<SplType>,
    parameters: Schema,
}

fn result_written(
    alloc: Global,
    types: &TypeScope,
    written: Option<&TypeExpr>,
) -> Result<Option<SplType>, TypeAnswer>
    ensures { Finds (result_type (types_in types.now) (option_copied written.entry)) result }
{
    match written {
        None => Ok(None),
        Some(written) => Ok(Some(type_of_written(alloc, types, written)?)),
    }
}

fn types_of(
    alloc: Global,
    types: &TypeScope,
    function: &FunctionDefinition,
) -> Result<FunctionTypes, TypeAnswer>
    ensures { Finds (as_types (function_types (types_in types.now) function.now)) result }
{
    let result = result_written(alloc, types, function.result.as_ref())?;
    let parameters = attributes_of(alloc, types, function.parameters.as_slice())?;
    Ok(FunctionTypes { result, parameters })
}

/// The types of attributes.
fn kinds(alloc: Global, attributes: Schema) -> Result<Items<SplType>, NoMemory>
    ensures { IfOk result (λ made. made ≡ kinds attributes) }
{
    let mut made = Items::new(alloc);
    for attribute in attributes.into_vec() {
        made.push(attribute.kind)?;
    }
    Ok(made)
}

/// Adds a function, or the refusal of its types.
fn add_function(
    alloc: Global,
    types: &TypeScope,
    scope: &mut Scope,
    function: &FunctionDefinition,
) -> Result<(), NoMemory>
    ensures { IfOk result (λ _. scope.new ≡ with_definition (types_in types.now) scope.old (D.Function function.now)) }
{
    let name = Items::from_slice(alloc, function.name.what.as_slice())?;
    match types_of(alloc, types, function) {
        Ok(found) => add_signature(alloc, scope, name, found),
        Err(TypeAnswer::Refused(refusal)) => {
            Ok(scope.unresolved.push(Unresolved { name, refusal })?)
        }
        Err(TypeAnswer::Memory) => Err(NoMemory),
    }
}

/// Adds a function of these types.
fn add_signature(
    alloc: Global,
    scope: &mut Scope,
    name: Name,
    found: FunctionTypes,
) -> Result<(), NoMemory>
    ensures { IfOk result (λ _. scope.new ≡ with_function scope.old name (Ok (record { result = found.result; parameters = found.parameters }))) }
{
    let FunctionTypes { result, parameters } = found;
    let parameters = kinds(alloc, parameters)?;
    let signature = Signature {
        name,
        parameters,
        result,
    };
    Ok(scope.functions.push(alloc, signature)?)
}

/// A scope with the functions of these definitions.
fn with_functions(alloc: Global, types: &TypeScope, unit: &[Definition]) -> Result<Scope, NoMemory>
    ensures { IfOk result (λ scope. scope ≡ scope_in (types_in types.now) unit.now) }
{
    let mut scope = Scope {
        vars: Items::new(alloc),
        ports: Items::new(alloc),
        functions: Signatures::new(alloc),
        unresolved: Items::new(alloc),
        dollars: Items::new(alloc),
        punct: false,
    };
    for definition in unit {
        if let Definition::Function(function) = definition {
            add_function(alloc, types, &mut scope, function)?;
        }
    }
    Ok(scope)
}

/// Where the functions of a program can be called, and nothing else can be named. A function whose
/// types are refused is there with that refusal.
pub fn scope_of_unit(alloc: Global, unit: &Unit) -> Result<Scope, NoMemory>
    ensures { IfOk result (λ scope. scope ≡ unit_scope unit.now) }
{
    let table = TypeTable::of_unit(alloc, unit)?;
    let types = TypeScope::of_unit(&table);
    with_functions(alloc, &types, unit.as_slice())
}

/// Adds parameters as variables that don't change, after those that there are.
fn add_parameters(
    alloc: Global,
    scope: &mut Scope,
    parameters: &[Attribute],
) -> Result<(), NoMemory>
    ensures ok { IfOk result (λ _. scope.new ≡ with_parameters scope.old parameters.now) }
    ensures longer { shortened (length scope.old.vars) scope.new ≡ scope.old }
{
    for parameter in parameters {
        let kind = boxed_copy(alloc, &parameter.kind)?;
        add_variable(alloc, scope, false, &parameter.name, kind)?;
    }
    Ok(())
}

/// The code of the body of a function of these types, in a scope. The parameters stay after the variables
/// that there were.
fn body_with(
    alloc: Global,
    types: &TypeScope,
    scope: &mut Scope,
    found: &FunctionTypes,
    statements: &[Stmt],
) -> Result<Body, TypeAnswer>
    ensures code { Finds (body_typing (record { types = types_in types.now; purpose = OfFunction found.now.result; outputs = [] })
        (with_parameters scope.old found.now.parameters) statements.now) result }
    ensures longer { shortened (length scope.old.vars) scope.new ≡ scope.old }
{
    add_parameters(alloc, scope, found.parameters.as_slice())?;
    let purpose = BodyPurpose::Function(found.result.as_ref());
    let setting = BodySetting {
        types: *types,
        purpose,
    };
    body_of(alloc, &setting, scope, statements)
}

/// A function of these types with the code of its body, which ends with a result where it has one.
fn returning(
    alloc: Global,
    function: &FunctionDefinition,
    found: FunctionTypes,
    body: Body,
) -> Result<Function, TypeAnswer>
    ensures { Finds (if_returning function.now (record { result = found.result; parameters = found.parameters }) body) result }
{
    let FunctionTypes { result, parameters } = found;
    if result.is_some() && !ends_with_result(function.body.as_slice()) {
        let name = &function.name;
        return Err(refused_name(alloc, CheckError::NoReturn, name.at, name.what.as_slice()));
    }
    let parameters = kinds(alloc, parameters)?;
    Ok(Function {
        parameters,
        result,
        body,
    })
}

/// A function with the code of its body, in a scope.
#[tactic(auto, using(crate::proofs::Signing::types_are))]
fn function_of(
    alloc: Global,
    types: &TypeScope,
    scope: &mut Scope,
    function: &FunctionDefinition,
) -> Result<Function, TypeAnswer>
    ensures code { Finds (function_in (types_in types.now) scope.old function.now) result }
    ensures same_scope { scope.new ≡ scope.old }
{
    let found = types_of(alloc, types, function)?;
    let before = scope.vars.len();
    let answer = body_with(alloc, types, scope, &found, function.body.as_slice());
    drop_variables(scope, before);
    let body = answer?;
    returning(alloc, function, found, body)
}

/// The functions of a unit, in the scope of its functions.
fn each_function(
    alloc: Global,
    types: &TypeScope,
    scope: &mut Scope,
    unit: &[Definition],
) -> Result<Functions, TypeAnswer>
    requires types { types_in types.now ≡ unit_types unit.now }
    requires scope { scope.old ≡ unit_scope unit.now }
    ensures { Finds (functions_typing unit.now) result }
{
    let mut functions = Items::new(alloc);
    for definition in unit {
        if let Definition::Function(function) = definition {
            let next = function_of(alloc, types, scope, function)?;
            functions.push(next)?;
        }
    }
    Ok(functions)
}

/// The functions of a program, in the order of the text.
///
/// Where there are none, the answer is `Refused`, with the first refusal of a function: that of its
/// types, that of its body, or else `NoReturn` at its name, where it has a result and its body may
/// end without one. `Memory` is as that of `type_of`.
pub fn functions_of(alloc: Global, unit: &Unit) -> Result<Functions, TypeAnswer>
    ensures { Finds (functions_typing unit.now) result }
{
    let table = TypeTable::of_unit(alloc, unit)?;
    let types = TypeScope::of_unit(&table);
    let scope = with_functions(alloc, &types, unit.as_slice());
    functions_in(alloc, &types, scope, unit.as_slice())
}

/// The functions of a unit, where there is memory for their scope.
fn functions_in(
    alloc: Global,
    types: &TypeScope,
    scope: Result<Scope, NoMemory>,
    unit: &[Definition],
) -> Result<Functions, TypeAnswer>
    requires types { types_in types.now ≡ unit_types unit.now }
    requires scope { IfOk scope (λ scope. scope ≡ unit_scope unit.now) }
    ensures { Finds (functions_typing unit.now) result }
{
    match scope {
        Ok(scope) => {
            let mut scope = scope;
            each_function(alloc, types, &mut scope, unit)
        }
        Err(NoMemory) => Err(TypeAnswer::Memory),
    }
}
