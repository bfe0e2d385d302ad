//! The parameters of a composite, with what is given for them.
ghost use Rattle.std.specs.Prelude.{◌≡◌, IfOk, filter_map};
ghost use Rattle.std.specs.Option.{option_copied};
ghost use Rattle.language_model.specs.Parameters.{constant_scope, constant_typing, has_meaning, parameter_leads, parameter_place, parameter_typing};
ghost use Rattle.language_model.specs.parts.Parameters.{default_leads};
ghost use Rattle.language_model.specs.Finds.{Finds};
ghost use Rattle.dollar_rules.specs.steps.Mentioned.{names_seen};
ghost use Rattle.written_types.specs.TypeScopes.{types_in};
ghost use Rattle.dollar_rules.specs.steps.Heads.{rows_of, passes_at, passes_from};

use crate::constants::is_constant;
use crate::mentions::dollars_in;
use crate::weights::is_small;
use language_model::{CheckError, CheckRefusal, Scope, TypeAnswer, Typed, refused, unknown};
use program_tables::value_named;
use spl_tree::{CompositeParameter, Expr, Parameter};
use spl_value::{Items, Name, NoMemory, SplType};
use std::alloc::Global;
use type_rules::type_of;
use written_types::{TypeScope, leads_back, narrow, type_of_written};

/// The parameters of a composite, with what is given for them where it is invoked.
#[derive(Drop)]
pub(crate) struct Head<'a> {
    pub(crate) types: TypeScope<'a, 'a>,
    /// What may be named in the arguments.
    pub(crate) outer: &'a Scope,
    pub(crate) arguments: &'a [Parameter],
    pub(crate) parameters: &'a [CompositeParameter],
    /// For each parameter, those that its default mentions, where it has no argument.
    leads: Vec<Items<u32>>,
    /// For each parameter, whether it has a meaning.
    meanings: Vec<bool>,
    ghost constants: { outer.now ≡ constant_scope outer.now.dollars },
    ghost led: { leads.items ≡ rows_of parameters.now arguments.now },
    ghost meant: { meanings.items ≡ passes_from (has_meaning parameters.now arguments.now) 0 parameters.now },
}

/// The first parameter of the name.
fn place_named(parameters: &[CompositeParameter], name: &[u8]) -> Result<Option<u32>, NoMemory>
    ensures { IfOk result (λ place. place ≡ parameter_place parameters.now name.now) }
{
    for (at, parameter) in parameters.iter().enumerate() {
        if parameter.name.what.as_slice() == name {
            return Ok(Some(narrow(at)?));
        }
    }
    Ok(None)
}

/// The parameters of these names.
fn places_of(
    alloc: Global,
    parameters: &[CompositeParameter],
    names: &[&Name],
) -> Result<Items<u32>, NoMemory>
    ensures { IfOk result (λ row. row ≡ filter_map (parameter_place parameters.now) (names_seen names.now)) }
{
    let mut row = Items::new(alloc);
    for name in names {
        if let Some(place) = place_named(parameters, name.as_slice())? {
            row.push(place)?;
        }
    }
    Ok(row)
}

/// The parameters that the default of one mentions, where it has no argument.
fn default_leads(
    alloc: Global,
    parameters: &[CompositeParameter],
    arguments: &[Parameter],
    parameter: &CompositeParameter,
) -> Result<Items<u32>, NoMemory>
    ensures { IfOk result (λ row. row ≡ default_leads parameters.now arguments.now parameter.now) }
{
    if value_named(arguments, parameter.name.what.as_slice()).is_some() {
        return Ok(Items::new(alloc));
    }
    match &parameter.default {
        Some(default) => {
            let names = dollars_in(alloc, default)?;
            places_of(alloc, parameters, names.as_slice())
        }
        None => Ok(Items::new(alloc)),
    }
}

fn leads(
    alloc: Global,
    parameters: &[CompositeParameter],
    arguments: &[Parameter],
) -> Result<Vec<Items<u32>>, NoMemory>
    ensures { IfOk result (λ rows. rows.items ≡ rows_of parameters.now arguments.now) }
{
    let mut rows = Vec::new(alloc);
    for parameter in parameters {
        rows.push(default_leads(alloc, parameters, arguments, parameter)?)?;
    }
    Ok(rows)
}

/// Whether the parameter at a place is the first of its name, and its default doesn't lead back to it.
fn has_meaning(
    alloc: Global,
    parameters: &[CompositeParameter],
    arguments: &[Parameter],
    leads: &[Items<u32>],
    place: u32,
    parameter: &CompositeParameter,
) -> Result<bool, NoMemory>
    requires { leads.now ≡ rows_of parameters.now arguments.now }
    ensures { IfOk result (λ b. b ≡ has_meaning parameters.now arguments.now place parameter.now) }
{
    match place_named(parameters, parameter.name.what.as_slice())? {
        Some(first) if first == place => Ok(!leads_back(alloc, leads, place)?),
        _ => Ok(false),
    }
}

fn meanings(
    alloc: Global,
    parameters: &[CompositeParameter],
    arguments: &[Parameter],
    leads: &[Items<u32>],
) -> Result<Vec<bool>, NoMemory>
    requires { leads.now ≡ rows_of parameters.now arguments.now }
    ensures { IfOk result (λ meanings. meanings.items ≡ passes_from (has_meaning parameters.now arguments.now) 0 parameters.now) }
{
    let mut meanings = Vec::new(alloc);
    for (at, parameter) in parameters.iter().enumerate() {
        let place = narrow(at)?;
        meanings.push(has_meaning(alloc, parameters, arguments, leads, place, parameter)?)?;
    }
    Ok(meanings)
}

/// An expression that is the value of a parameter of the type, where these can be named.
fn constant_typing(
    alloc: Global,
    given: &Scope,
    expr: &Expr,
    kind: &SplType,
) -> Result<Typed, TypeAnswer>
    requires { given.now ≡ constant_scope given.now.dollars }
    ensures { Finds (constant_typing given.now.dollars expr.now kind.now) result }
{
    if !is_constant(expr) {
        return Err(refused(CheckError::Mismatch, expr.at));
    }
    let typed = type_of(alloc, given, expr, Some(kind))?;
    if !is_small(typed.code.get()) {
        return Err(TypeAnswer::Memory);
    }
    Ok(typed)
}

impl<'a> Head<'a> {
    pub(crate) fn new(
        alloc: Global,
        types: TypeScope<'a, 'a>,
        outer: &'a Scope,
        arguments: &'a [Parameter],
        parameters: &'a [CompositeParameter],
    ) -> Result<Head<'a>, NoMemory>
        requires { outer.now ≡ constant_scope outer.now.dollars }
        ensures types { IfOk result (λ head. head.types ≡ types.entry) }
        ensures outer { IfOk result (λ head. head.outer.now ≡ outer.now) }
        ensures arguments { IfOk result (λ head. head.arguments.now ≡ arguments.now) }
        ensures parameters { IfOk result (λ head. head.parameters.now ≡ parameters.now) }
    {
        let leads = leads(alloc, parameters, arguments)?;
        let meanings = meanings(alloc, parameters, arguments, leads.as_slice())?;
        Ok(Head {
            types,
            outer,
            arguments,
            parameters,
            leads,
            meanings,
        })
    }

    /// The parameters that the default of one leads to.
    pub(crate) fn leads(&self, place: u32) -> &[u32]
        ensures { result.now ≡ parameter_leads self.now.parameters.now self.now.arguments.now place }
    {
        match self.leads.get(place as usize) {
            Some(row) => row.as_slice(),
            None => &[],
        }
    }

    /// Whether a parameter has a meaning.
    pub(crate) fn has_meaning(&self, place: u32) -> bool
        ensures { result ≡ passes_at (has_meaning self.now.parameters.now self.now.arguments.now) self.now.parameters.now place }
    {
        match self.meanings.get(place as usize) {
            Some(meaning) => *meaning,
            None => false,
        }
    }

    /// What is typed for a parameter, where `own` has the values of those that its default mentions.
    fn typed(
        &self,
        alloc: Global,
        own: &Scope,
        parameter: &CompositeParameter,
    ) -> Result<Typed, TypeAnswer>
        requires { own.now ≡ constant_scope own.now.dollars }
        ensures { Finds (parameter_typing (types_in self.now.types) self.now.outer.now.dollars own.now.dollars self.now.arguments.now parameter.now) result }
    {
        let kind = type_of_written(alloc, &self.types, &parameter.kind)?;
        let name = parameter.name.what.as_slice();
        if let Some(argument) = value_named(self.arguments, name) {
            return constant_typing(alloc, self.outer, argument, &kind);
        }
        match &parameter.default {
            Some(default) => constant_typing(alloc, own, default, &kind),
            None => Err(unknown(alloc, parameter.name.at, name)),
        }
    }

    /// The value of a parameter, or its refusal.
    pub(crate) fn found(
        &self,
        alloc: Global,
        own: &Scope,
        parameter: &CompositeParameter,
    ) -> Result<Result<Typed, CheckRefusal>, NoMemory>
        requires { own.now ≡ constant_scope own.now.dollars }
        ensures { IfOk result (λ found. found
            ≡ parameter_typing (types_in self.now.types) self.now.outer.now.dollars own.now.dollars self.now.arguments.now parameter.now) }
    {
        match self.typed(alloc, own, parameter) {
            Ok(typed) => Ok(Ok(typed)),
            Err(TypeAnswer::Refused(refusal)) => Ok(Err(refusal)),
            Err(TypeAnswer::Memory) => Err(NoMemory),
        }
    }
}
