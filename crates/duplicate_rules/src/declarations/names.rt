//! Names that repeat an earlier one in a row.
ghost use Rattle.std.specs.Prelude.{◌≡◌, IfOk, List, [], filter_map};
ghost use Rattle.std.specs.Option.{option_copied};
ghost use Rattle.language_model.specs.Declarations.{Name, first_of, repeated_names};
ghost use Rattle.duplicate_rules.specs.steps.Earliest.{earlier, earliest};
ghost use Rattle.duplicate_rules.specs.steps.NamesBefore.{Hold, Adds, Has, Passes};

use spl_tree::{Attribute, CompositeParameter, Declaration, Placed, TypeDefinition, TypeExpr};
use spl_value::{Name, NoMemory};
use std::alloc::Global;
use std::collections::HashSet;

/// A name that repeats an earlier one, if one does.
pub(super) type Repeated<'u> = Result<Option<&'u Placed<Name>>, NoMemory>;

/// The names that come before a place of a row.
#[derive(Drop)]
pub(super) struct NamesBefore<'u> {
    names: HashSet<&'u [u8]>,
}

impl<'u> NamesBefore<'u> {
    pub(super) fn new(alloc: Global) -> NamesBefore<'u>
        ensures { Hold result [] }
    {
        NamesBefore {
            names: HashSet::new(alloc),
        }
    }

    /// Whether a name that is equal to this one comes before.
    pub(super) fn has(&self, name: &'u Placed<Name>) -> bool
        ensures { (before : List Name) → Hold self.now before → result ≡ Has name.now before }
    {
        self.names.contains(name.what.as_slice())
    }

    /// Adds the name that comes next, and answers whether it is new.
    pub(super) fn add(&mut self, name: &'u Placed<Name>) -> Result<bool, NoMemory>
        ensures { IfOk result (λ added. (before : List Name) → Hold self.old before → Adds before name.now added self.new) }
    {
        Ok(self.names.insert(name.what.as_slice())?)
    }

    /// Adds the name of the part that comes next, if it has one. Where an equal one comes before, it
    /// is answered.
    fn repeated<T: Declares>(&mut self, part: &'u T) -> Repeated<'u>
        ensures { IfOk result (λ found. Passes self.old (T.own part.now) (option_copied found) self.new) }
    {
        let Some(name) = part.own_name() else {
            return Ok(None);
        };
        let added = self.add(name)?;
        Ok(if added { None } else { Some(name) })
    }
}

/// A part of a row, which may have a name of the row's set.
pub(super) trait Declares {
    ghost use Rattle.std.specs.Prelude.{List, ℕ, Option};
    ghost use Rattle.spl_tree.specs.declared.expression.Placed.{Placed};

    ghost own: { Self → Option (Placed (List ℕ)) };

    fn own_name(&self) -> Option<&Placed<Name>>
        ensures { option_copied result ≡ own self.now };
}

impl Declares for Attribute<TypeExpr> {
    ghost use Rattle.std.specs.Prelude.{Some};

    ghost own = { λ attribute. Some attribute.name };

    fn own_name(&self) -> Option<&Placed<Name>> {
        Some(&self.name)
    }
}

impl Declares for Declaration {
    ghost use Rattle.std.specs.Prelude.{Some};

    ghost own = { λ declaration. Some declaration.name };

    fn own_name(&self) -> Option<&Placed<Name>> {
        Some(&self.name)
    }
}

impl Declares for TypeDefinition {
    ghost use Rattle.std.specs.Prelude.{Some};

    ghost own = { λ definition. Some definition.name };

    fn own_name(&self) -> Option<&Placed<Name>> {
        Some(&self.name)
    }
}

impl Declares for CompositeParameter {
    ghost use Rattle.std.specs.Prelude.{Some};

    ghost own = { λ parameter. Some parameter.name };

    fn own_name(&self) -> Option<&Placed<Name>> {
        Some(&self.name)
    }
}

/// The first name that repeats an earlier one in a row.
pub(super) fn first_repeated<'u, T: Declares>(alloc: Global, row: &'u [T]) -> Repeated<'u>
    ensures { IfOk result (λ found. option_copied found ≡ first_of (repeated_names (filter_map T.own row.now))) }
{
    let mut before = NamesBefore::new(alloc);
    first_behind(&mut before, row)
}

/// The same, where no name comes before the row.
fn first_behind<'u, T: Declares>(before: &mut NamesBefore<'u>, row: &'u [T]) -> Repeated<'u>
    requires { Hold before.old [] }
    ensures { IfOk result (λ found. option_copied found ≡ first_of (repeated_names (filter_map T.own row.now))) }
{
    for part in row {
        if let Some(name) = before.repeated(part)? {
            return Ok(Some(name));
        }
    }
    Ok(None)
}

/// Of a name and those that repeat an earlier one in a row, the one that comes first in the text.
pub(super) fn earliest_repeated<'u, T: Declares>(
    alloc: Global,
    best: Option<&'u Placed<Name>>,
    row: &'u [T],
) -> Repeated<'u>
    ensures { IfOk result (λ found. option_copied found ≡ earliest (option_copied best.entry) (repeated_names (filter_map T.own row.now))) }
{
    let mut before = NamesBefore::new(alloc);
    earliest_behind(&mut before, best, row)
}

/// The same, where no name comes before the row.
fn earliest_behind<'u, T: Declares>(
    before: &mut NamesBefore<'u>,
    best: Option<&'u Placed<Name>>,
    row: &'u [T],
) -> Repeated<'u>
    requires { Hold before.old [] }
    ensures { IfOk result (λ found. option_copied found ≡ earliest (option_copied best.entry) (repeated_names (filter_map T.own row.now))) }
{
    let mut found = best;
    for part in row {
        if let Some(name) = before.repeated(part)? {
            found = Some(earlier(found, name));
        }
    }
    Ok(found)
}

/// The name that comes first in the text; of two at one place, the first.
fn earlier<'u>(best: Option<&'u Placed<Name>>, name: &'u Placed<Name>) -> &'u Placed<Name>
    ensures { result.now ≡ earlier (option_copied best.entry) name.now }
{
    match best {
        Some(best) if best.at <= name.at => best,
        _ => name,
    }
}
