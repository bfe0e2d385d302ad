//! Tables of names, each with its first place in a list.
ghost use Rattle.std.specs.Prelude.{◌≡◌, ◌∷◌, ◌++◌, [], List, ℕ, IfOk, OnOk, map, flat_map};
ghost use Rattle.language_model.specs.Expansion.{place_of};
ghost use Rattle.language_model.specs.Names.{is_named};
ghost use Rattle.program_tables.specs.Names.{HoldsNames};

use spl_tree::{CompositeParameter, HeadPort, Invocation, OutputStream, TypeDefinition};
use spl_value::{Name, NoMemory};
use std::alloc::Global;
use std::collections::HashMap;

/// The first place of each name of a list, from 0.
pub struct Names<'n> {
    /// How many names there are.
    pub count: u32,
    places: HashMap<&'n [u8], u32>,
}

impl<'n> Drop for Names<'n> {
    fn drop(self) {
        let Names {
            count: _,
            places: _,
        } = self;
    }
}

impl<'n> Names<'n> {
    /// A table without names.
    pub fn new(alloc: Global) -> Names<'n>
        ensures { HoldsNames result [] }
    {
        Names {
            count: 0,
            places: HashMap::new(alloc),
        }
    }

    /// Adds one more name at the end of the list.
    pub fn add(&mut self, name: &'n [u8]) -> Result<(), NoMemory>
        ensures { OnOk result ((names : List (List ℕ)) → HoldsNames self.old names → HoldsNames self.new (names ++ name.now ∷ [])) }
    {
        let Some(count) = self.count.checked_add(1) else {
            return Err(NoMemory);
        };
        if !self.has(name) {
            self.places.insert(name, self.count)?;
        }
        self.count = count;
        Ok(())
    }

    /// The first place of a name.
    pub fn place(&self, name: &[u8]) -> Option<u32>
        ensures { (names : List (List ℕ)) → HoldsNames self.now names → result ≡ place_of name.now names }
    {
        self.places.get(name).copied()
    }

    /// Whether a name is there.
    pub fn has(&self, name: &[u8]) -> bool
        ensures { (names : List (List ℕ)) → HoldsNames self.now names → result ≡ is_named names name.now }
    {
        self.places.contains_key(name)
    }
}

/// A part of a program that has a name.
pub trait HasName {
    ghost use Rattle.std.specs.Prelude.{List, ℕ};

    ghost name_of: { Self → List ℕ };

    fn own_name(&self) -> &Name
        ensures { result.now ≡ name_of self.now };
}

impl HasName for OutputStream {
    ghost name_of = { λ stream. stream.name.what };

    fn own_name(&self) -> &Name {
        &self.name.what
    }
}

impl HasName for HeadPort {
    ghost name_of = { λ port. port.name.what };

    fn own_name(&self) -> &Name {
        &self.name.what
    }
}

impl HasName for CompositeParameter {
    ghost name_of = { λ parameter. parameter.name.what };

    fn own_name(&self) -> &Name {
        &self.name.what
    }
}

impl HasName for TypeDefinition {
    ghost name_of = { λ definition. definition.name.what };

    fn own_name(&self) -> &Name {
        &self.name.what
    }
}

/// Adds the names of a row.
fn add_all<'n, T: HasName>(names: &mut Names<'n>, row: &'n [T]) -> Result<(), NoMemory>
    ensures { OnOk result ((before : List (List ℕ)) → HoldsNames names.old before → HoldsNames names.new (before ++ map T.name_of row.now)) }
{
    for part in row {
        names.add(part.own_name().as_slice())?;
    }
    Ok(())
}

/// The table of the names of a row.
pub fn names_of<'n, T: HasName>(alloc: Global, row: &'n [T]) -> Result<Names<'n>, NoMemory>
    ensures { IfOk result (λ names. HoldsNames names (map T.name_of row.now)) }
{
    let mut names = Names::new(alloc);
    add_all(&mut names, row)?;
    Ok(names)
}

/// The table of the names of the streams that invocations make, in the order of the text.
pub fn names_of_streams<'n>(alloc: Global, graph: &'n [Invocation]) -> Result<Names<'n>, NoMemory>
    ensures { IfOk result (λ names. HoldsNames names (flat_map (λ i. map (λ o. o.name.what) i.outputs) graph.now)) }
{
    let mut names = Names::new(alloc);
    for invocation in graph {
        add_all(&mut names, invocation.outputs.as_slice())?;
    }
    Ok(names)
}
