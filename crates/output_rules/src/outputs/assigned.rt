//! Attributes of an output with what they get, whatever that is.
ghost use Rattle.std.specs.Prelude.{◌≡◌, ◌<◌, ℕ, List, [], length, IfOk, slice_set, true};
ghost use Rattle.language_model.specs.OutputTyping.{assignment_typing, assignments_typing, rows_typing, with_others};
ghost use Rattle.language_model.specs.parts.OutputTyping.{places};
ghost use Rattle.language_model.specs.Typing.{after};
ghost use Rattle.language_model.specs.Finds.{Finds, with_front};
ghost use Rattle.output_rules.specs.steps.Marking.{Tells};

use super::index::Index;
use super::refusals::bad_output;
use language_model::{Port, TypeAnswer, narrow, unknown};
use spl_tree::{Expr, Field, OutputAssignments};
use spl_value::{Attribute, Items, SplType};
use std::alloc::Global;

/// Attributes by their places, each with what it gets.
pub(super) type Assigned<A> = Items<(u32, A)>;

/// What an operator gives to the attributes of its output.
pub(super) trait Gives {
    ghost use Rattle.std.specs.Option.{option_copied};
    ghost use Rattle.language_model.specs.OutputTyping.{Assigns, Fills};
    ghost use Rattle.language_model.specs.Finds.{Finds};

    type Given: Drop;

    ghost assigns: { Self → Assigns Self.Given };

    ghost fills: { Self → Fills Self.Given };

    /// What is given by the value that the text assigns, to an attribute of that type where it is known.
    fn assigned(
        &self,
        alloc: Global,
        wanted: Option<&SplType>,
        value: &Expr,
    ) -> Result<Self::Given, TypeAnswer>
        ensures { Finds (assigns self.now (option_copied wanted.entry) value.now) result };

    /// What is given to an attribute that has no assignment.
    fn filled(&self, alloc: Global, attribute: &Attribute) -> Result<Self::Given, TypeAnswer>
        ensures { Finds (fills self.now attribute.now) result };
}

/// One assignment, by the marks of the attributes that are assigned before. Its own is marked too.
fn assignment<T: Gives>(
    alloc: Global,
    gives: &T,
    schema: &Index,
    field: &Field<Expr>,
    marks: &mut [bool],
) -> Result<(u32, T::Given), TypeAnswer>
    requires { length marks.old ≡ length schema.now.schema.now }
    ensures given { (before : List ℕ) → Tells before marks.old → Finds (assignment_typing (T.assigns gives.now) schema.now.schema.now before field.now) result }
    ensures within { IfOk result (λ x. x.0 < length marks.old) }
    ensures marked { IfOk result (λ x. marks.new ≡ slice_set marks.old x.0 true) }
{
    let found = schema.attribute(field.name.what.as_slice());
    let wanted = found.map(|p| &p.1.kind);
    let value = gives.assigned(alloc, wanted, &field.value)?;
    let Some((place, _)) = found else {
        return Err(bad_output(field.name.at));
    };
    if marks[place] {
        return Err(bad_output(field.name.at));
    }
    let number = narrow(place)?;
    marks[place] = true;
    Ok((number, value))
}

/// Assignments in turn, after those in `front`.
fn assignments<T: Gives>(
    alloc: Global,
    gives: &T,
    schema: &Index,
    fields: &[Field<Expr>],
    front: Assigned<T::Given>,
    marks: &mut [bool],
) -> Result<Assigned<T::Given>, TypeAnswer>
    requires size { length marks.old ≡ length schema.now.schema.now }
    requires told { Tells (places [] front) marks.old }
    ensures given { Finds (with_front front (assignments_typing (T.assigns gives.now) schema.now.schema.now (places [] front) fields.now)) result }
    ensures told { IfOk result (λ xs. Tells (places [] xs) marks.new) }
{
    let mut given = front;
    for field in fields {
        given.push(assignment(alloc, gives, schema, field, marks)?)?;
    }
    Ok(given)
}

/// The assignments of all rows, each of which has to be for the output.
fn rows<T: Gives>(
    alloc: Global,
    gives: &T,
    schema: &Index,
    output: &[u8],
    rows: &[OutputAssignments],
    marks: &mut [bool],
) -> Result<Assigned<T::Given>, TypeAnswer>
    requires size { length marks.old ≡ length schema.now.schema.now }
    requires told { Tells [] marks.old }
    ensures given { Finds (rows_typing (T.assigns gives.now) schema.now.schema.now output.now [] rows.now) result }
    ensures told { IfOk result (λ xs. Tells (places [] xs) marks.new) }
{
    let mut given = Items::new(alloc);
    for row in rows {
        let stream = row.stream.what.as_slice();
        if stream != output {
            return Err(unknown(alloc, row.stream.at, stream));
        }
        given = assignments(
            alloc,
            gives,
            schema,
            row.assignments.as_slice(),
            given,
            marks,
        )?;
    }
    Ok(given)
}

/// The attributes that aren't marked, after those that are assigned.
fn others<T: Gives>(
    alloc: Global,
    gives: &T,
    schema: &Index,
    front: Assigned<T::Given>,
    marks: &[bool],
) -> Result<Assigned<T::Given>, TypeAnswer>
    requires size { length marks.now ≡ length schema.now.schema.now }
    requires told { Tells (places [] front) marks.now }
    ensures { Finds (with_others (T.fills gives.now) schema.now.schema.now front) result }
{
    let mut given = front;
    for (place, attribute) in schema.schema.iter().enumerate() {
        if !marks[place] {
            let number = narrow(place)?;
            let value = gives.filled(alloc, attribute)?;
            given.push((number, value))?;
        }
    }
    Ok(given)
}

/// Every attribute of an output of that name.
fn given_to<T: Gives>(
    alloc: Global,
    gives: &T,
    schema: &Index,
    output: &[u8],
    assignments: &[OutputAssignments],
) -> Result<Assigned<T::Given>, TypeAnswer>
    ensures { Finds (after (rows_typing (T.assigns gives.now) schema.now.schema.now output.now [] assignments.now) (λ xs. with_others (T.fills gives.now) schema.now.schema.now xs)) result }
{
    let mut marks = vec![in alloc; false; schema.schema.len()]?;
    let given = rows(
        alloc,
        gives,
        schema,
        output,
        assignments,
        marks.as_mut_slice(),
    )?;
    others(alloc, gives, schema, given, marks.as_slice())
}

/// Every attribute of the output with what it gets: those that are assigned, in the order of the text,
/// and after them the others.
pub(super) fn all_given<T: Gives>(
    alloc: Global,
    gives: &T,
    output: &Port,
    assignments: &[OutputAssignments],
) -> Result<Assigned<T::Given>, TypeAnswer>
    ensures { Finds (after (rows_typing (T.assigns gives.now) output.now.schema output.now.name [] assignments.now) (λ xs. with_others (T.fills gives.now) output.now.schema xs)) result }
{
    let schema = Index::new(alloc, output.schema.as_slice())?;
    given_to(alloc, gives, &schema, output.name.as_slice(), assignments)
}
