//! The columns of a row, and the values of their fields.
ghost use Rattle.std.specs.Prelude.{◌≡◌, ◌≤◌, true, length, map, IfOk};
ghost use Rattle.spl_value.specs.declared.types.SplType.TheViews.{out-SplType};
ghost use Rattle.language_model.specs.Checking.{has_text_form};
ghost use Rattle.language_model.specs.parts.Checking.{level_text_form};
ghost use Rattle.stream_model.specs.parts.Fields.{field_value};
ghost use Rattle.row_reader.specs.declared.columns.Column.TheVariants as C;
ghost use Rattle.row_reader.specs.steps.Adding.{Puts};
ghost use Rattle.row_reader.specs.Columns.{type_of};

use crate::places::{put_number, put_text, put_truth};
use spl_value::{Attribute, IntKind, NoMemory, SplType, Values, read_integer};
use std::alloc::Global;

/// The type of an attribute that a row can hold.
#[derive(Clone, Copy)]
pub enum Column {
    Int(IntKind),
    Bool,
    Text,
}

fn column_of(kind: &SplType) -> Column
    requires { level_text_form (out-SplType kind.now) ≡ true }
    ensures { type_of result ≡ kind.now }
{
    match kind {
        SplType::Int(kind) => Column::Int(*kind),
        SplType::Bool => Column::Bool,
        SplType::Text => Column::Text,
        SplType::List(_) | SplType::Map(_, _) | SplType::Tuple(_) => unreachable!(),
    }
}

/// The columns of a schema.
pub(crate) fn columns_of(alloc: Global, schema: &[Attribute]) -> Result<Vec<Column>, NoMemory>
    requires { has_text_form schema.now ≡ true }
    ensures { IfOk result (λ columns. map type_of columns.items ≡ map (λ a. a.kind) schema.now) }
{
    let mut columns = Vec::with_capacity(alloc, schema.len())?;
    for attribute in schema {
        columns.push(column_of(&attribute.kind))?;
    }
    Ok(columns)
}

fn put_text_field(
    alloc: Global,
    tuple: &mut Values,
    at: usize,
    field: &[u8],
) -> Result<bool, NoMemory>
    requires { at ≤ length tuple.old }
    ensures { IfOk result (λ fits. Puts (field_value (type_of C.Text) field.now) fits at tuple.old tuple.new) }
{
    put_text(alloc, tuple, at, field)?;
    Ok(true)
}

fn put_truth_field(tuple: &mut Values, at: usize, field: &[u8]) -> Result<bool, NoMemory>
    requires { at ≤ length tuple.old }
    ensures { IfOk result (λ fits. Puts (field_value (type_of C.Bool) field.now) fits at tuple.old tuple.new) }
{
    if field == b"true".as_slice() {
        put_truth(tuple, at, true)?;
        Ok(true)
    } else if field == b"false".as_slice() {
        put_truth(tuple, at, false)?;
        Ok(true)
    } else {
        Ok(false)
    }
}

#[tactic(auto, using(crate::proofs::FieldValues::no_integer))]
fn put_integer_field(
    tuple: &mut Values,
    at: usize,
    kind: IntKind,
    field: &[u8],
) -> Result<bool, NoMemory>
    requires { at ≤ length tuple.old }
    ensures { IfOk result (λ fits. Puts (field_value (type_of (C.Int kind)) field.now) fits at tuple.old tuple.new) }
{
    match read_integer(kind, field) {
        None => Ok(false),
        Some(n) => {
            put_number(tuple, at, n)?;
            Ok(true)
        }
    }
}

/// Puts the value of a field at a place, where it fits the column.
pub(crate) fn put_field(
    alloc: Global,
    tuple: &mut Values,
    at: usize,
    column: Column,
    field: &[u8],
) -> Result<bool, NoMemory>
    requires { at ≤ length tuple.old }
    ensures { IfOk result (λ fits. Puts (field_value (type_of column) field.now) fits at tuple.old tuple.new) }
{
    match column {
        Column::Int(kind) => put_integer_field(tuple, at, kind, field),
        Column::Bool => put_truth_field(tuple, at, field),
        Column::Text => put_text_field(alloc, tuple, at, field),
    }
}
