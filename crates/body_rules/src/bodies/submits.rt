//! Submits.
ghost use Rattle.std.specs.Prelude.{◌≡◌, IfOk};
ghost use Rattle.spl_value.specs.declared.types.SplType.TheVariants as S;
ghost use Rattle.language_model.specs.BodyTyping.{submit_typing, submitted};
ghost use Rattle.body_rules.specs.Settings.{purpose_meant, setting_meant};
ghost use Rattle.language_model.specs.Finds.{Finds};

use super::{BodyPurpose, BodySetting};
use call_rules::marker;
use language_model::{Scope, TypeAnswer, narrow, port_named, unknown, wrong_call};
use spl_tree::{Expr, Marker, Placed, Statement};
use spl_value::{Boxed, Name, NoMemory, Schema, SplType, copy_schema};
use std::alloc::Global;
use type_rules::type_of;

/// `submit`, which stands in handlers alone.
pub(super) fn submitted(
    alloc: Global,
    at: u32,
    setting: &BodySetting,
    scope: &Scope,
    value: &Expr,
    stream: &Placed<Name>,
) -> Result<Statement, TypeAnswer>
    ensures { Finds (submit_typing at (setting_meant setting.now) (purpose_meant setting.now.purpose) scope.now value.now stream.now) result }
{
    let BodyPurpose::Handler(ports) = setting.purpose else {
        return Err(wrong_call(at));
    };
    let name = stream.what.as_slice();
    let Some((place, port)) = port_named(ports, name) else {
        return Err(unknown(alloc, stream.at, name));
    };
    let place = narrow(place)?;
    submitted_on(alloc, scope, place, &port.schema, value)
}

/// The type of tuples of these attributes.
fn tuple_type(alloc: Global, schema: &Schema) -> Result<Boxed<SplType>, NoMemory>
    ensures { IfOk result (λ kind. kind ≡ S.Tuple schema.now) }
{
    let schema = copy_schema(alloc, schema.as_slice())?;
    Ok(Boxed::new(alloc, SplType::Tuple(schema))?)
}

/// A window marker, or a tuple of the port's attributes, on the port at a place.
fn submitted_on(
    alloc: Global,
    scope: &Scope,
    port: u32,
    schema: &Schema,
    value: &Expr,
) -> Result<Statement, TypeAnswer>
    ensures { Finds (submitted scope.now port schema.now value.now) result }
{
    if let Some(Marker::Window) = marker(value) {
        return Ok(Statement::SubmitWindow(port));
    }
    let kind = tuple_type(alloc, schema)?;
    let typed = type_of(alloc, scope, value, Some(kind.get()))?;
    Ok(Statement::Submit(port, typed.code.into_inner()))
}
