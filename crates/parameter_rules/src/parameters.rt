//! The parameters of operators.
ghost use Rattle.std.specs.Prelude.{◌≡◌, [], map, reverse};
ghost use Rattle.language_model.specs.Checking.{parameters_checked};
ghost use Rattle.language_model.specs.ParameterTyping.{parameter_typing, parameters_typing, role_of};
ghost use Rattle.language_model.specs.declared.scope.CheckError.TheVariants as E;
ghost use Rattle.language_model.specs.Finds.{Finds, IsRefused};
ghost use Rattle.literal_sites.specs.Sites.{site_seen};

mod given;
mod keys;
mod roles;
mod values;

pub use given::{position_given, strict_given, take_code, take_file, take_places};
use language_model::{CheckError, Given, TypeAnswer, refused_name};
use literal_sites::{ExpressionSite, extra};
use roles::{is_given, missing, role_of};
use spl_tree::{OpKind, Parameter};
use spl_value::Items;
use std::alloc::Global;
use values::value_of;

/// The parameters of an operator with their values, in the order of the text. `partitioned` says whether
/// its window is.
///
/// `Refused` comes with the first parameter in the text that is refused: one that the operator doesn't
/// have, one that is given twice, or one whose value is refused. After those it comes at the invocation,
/// which is at `at`, with the name of the first that the operator needs and that isn't given. `Memory` is
/// as that of `type_of`.
pub fn parameters_of(
    alloc: Global,
    site: &ExpressionSite,
    kind: OpKind,
    partitioned: bool,
    at: u32,
    parameters: &[Parameter],
) -> Result<Items<Given>, TypeAnswer>
    ensures { Finds (parameters_checked (site_seen site.now) kind partitioned at parameters.now) result }
{
    let given = parameters_typing(alloc, site, kind, partitioned, parameters)?;
    match missing(given.as_slice(), kind, partitioned) {
        Some(name) => Err(missing_parameter(alloc, at, name)),
        None => Ok(given),
    }
}

/// A parameter that is needed and that isn't given.
fn missing_parameter(alloc: Global, at: u32, name: &[u8]) -> TypeAnswer
    ensures { IsRefused E.MissingParameter at name.now result }
{
    refused_name(alloc, CheckError::MissingParameter, at, name)
}

/// Parameters in the order of the text.
fn parameters_typing(
    alloc: Global,
    site: &ExpressionSite,
    kind: OpKind,
    partitioned: bool,
    parameters: &[Parameter],
) -> Result<Items<Given>, TypeAnswer>
    ensures { Finds (parameters_typing (site_seen site.now) kind partitioned [] parameters.now) result }
{
    let mut given = Items::new(alloc);
    for parameter in parameters {
        let next = parameter_typing(alloc, site, kind, partitioned, given.as_slice(), parameter)?;
        given.push(next)?;
    }
    Ok(given)
}

/// A parameter after those that are given.
fn parameter_typing(
    alloc: Global,
    site: &ExpressionSite,
    kind: OpKind,
    partitioned: bool,
    given: &[Given],
    parameter: &Parameter,
) -> Result<Given, TypeAnswer>
    ensures { Finds (parameter_typing (site_seen site.now) (reverse (map (λ g. g.name) given.now)) parameter.now
        (role_of kind partitioned parameter.now.name.what)) result }
{
    let name = parameter.name.what.as_slice();
    let Some(role) = role_of(kind, partitioned, name) else {
        return Err(extra(alloc, parameter.name.at, name));
    };
    if is_given(given, name) {
        return Err(extra(alloc, parameter.name.at, name));
    }
    let name = Items::from_slice(alloc, name)?;
    let value = value_of(alloc, site, role, parameter)?;
    Ok(Given { name, value })
}
