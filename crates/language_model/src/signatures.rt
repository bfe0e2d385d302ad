//! Functions that can be called, which are looked up by their names.
use crate::scope::Signature;
use spl_value::{Items, Name, NoMemory};
use std::alloc::Global;
use std::collections::HashMap;
use std::marker::Model;

/// Functions in the order in which they were added, each found by its name without a look at the others.
pub struct Signatures {
    list: Items<Signature>,
    /// The first place of each name.
    places: HashMap<Name, u32>,
}

impl Drop for Signatures {
    fn drop(self) {
        let Signatures { list: _, places: _ } = self;
    }
}

impl Model for Signatures {
    ghost use Rattle.std.specs.Prelude.{List};
    ghost use Rattle.language_model.specs.declared.scope.Signature.{Signature};
    ghost use Rattle.spl_value.specs.contracts.types.SplType as t;
    ghost use Rattle.std.specs.Coded.{codes};
    ghost use Rattle.language_model.specs.steps.Signatures.{HasPlaces};

    ghost Value = { List Signature };

    ghost coded = { Prim.hlevel (codes, t.the_row.coded) };

    ghost view = { λ s. s.list };

    ghost invariant = { λ s. HasPlaces s.places s.list };
}

impl Signatures {
    ghost use Rattle.std.specs.Prelude.{◌≡◌, ◌++◌, ◌∷◌, [], OnOk};
    ghost use Rattle.std.specs.Str.{bytes_eq};
    ghost use Rattle.language_model.specs.Finds.{Points};
    ghost use Rattle.language_model.specs.Scopes.{first_from};

    /// No functions.
    pub fn new(alloc: Global) -> Signatures
        ensures { result ≡ [] }
    {
        Signatures {
            list: Items::new(alloc),
            places: HashMap::new(alloc),
        }
    }

    pub fn as_slice(&self) -> &[Signature]
        ensures { result.now ≡ self.now }
    {
        self.list.as_slice()
    }

    /// Adds a function at the end. `NoMemory` comes where there is none for it, or where there are functions whose number
    /// takes more than 32 bits; nothing is said of the functions then.
    pub fn push(&mut self, alloc: Global, signature: Signature) -> Result<(), NoMemory>
        ensures { OnOk result (self.new ≡ self.old ++ signature ∷ []) }
    {
        let count = self.list.len();
        let Ok(place) = u32::try_from(count) else {
            return Err(NoMemory);
        };
        let name = Items::from_slice(alloc, signature.name.as_slice())?;
        self.list.push(signature)?;
        if self.places.contains_key(&name) {
            return Ok(());
        }
        if self.places.insert(name, place).is_err() {
            self.list.truncate(count);
            return Err(NoMemory);
        }
        Ok(())
    }

    /// The first function of a name, with its place.
    pub fn named(&self, name: &Name) -> Option<(usize, &Signature)>
        ensures { Points (first_from (λ f. bytes_eq f.name name.now) 0 self.now) result }
    {
        let place = *self.places.get(name)? as usize;
        let found = self.list.get(place)?;
        Some((place, found))
    }
}
