//! A list that is filled in room that was made for it.
ghost use Rattle.std.specs.Prelude.{◌≡◌, [], ◌∷◌, ◌++◌, ◌<◌, ◌≤◌, length, IfOk};

use crate::Items;
use std::alloc::{AllocError, Global};
use std::marker::Model;

/// A list for which room was made, so that a push takes no memory. Contracts see the items, and how many
/// there is room for.
#[derive(Drop)]
pub struct Reserved<T> {
    items: Vec<T>,
}

impl<T> Model for Reserved<T> {
    ghost use Rattle.std.specs.Prelude.{vec_capacity};
    ghost use Rattle.spl_value.specs.Reserved.{Reserved as Room, reserved_code};

    ghost Value = { Room T };

    ghost coded = { reserved_code T.code };

    ghost view = { λ r. record { items = r.items.items; capacity = vec_capacity r.items } };
}

impl<T> Reserved<T> {
    /// An empty list with room for `capacity` items.
    pub fn with_capacity(alloc: Global, capacity: usize) -> Result<Reserved<T>, AllocError>
        ensures { IfOk result (λ r. r ≡ record { items = []; capacity = capacity }) }
    {
        Ok(Reserved {
            items: Vec::with_capacity(alloc, capacity)?,
        })
    }

    /// An empty list with room for `capacity` items, in the room of a list whose items are dropped. It takes
    /// no memory where that has enough.
    pub fn within(list: Items<T>, capacity: usize) -> Result<Reserved<T>, AllocError>
    where
        T: Drop,
        ensures empty { IfOk result (λ r. r.items ≡ []) }
        ensures room { IfOk result (λ r. capacity ≤ r.capacity) }
    {
        let mut items = list.into_vec();
        items.clear();
        items.reserve(capacity)?;
        Ok(Reserved { items })
    }

    pub fn len(&self) -> usize
        ensures { result ≡ length self.now.items }
    {
        self.items.len()
    }

    /// Adds an item, for which there is room.
    pub fn push(&mut self, item: T)
        requires { length self.old.items < self.old.capacity }
        ensures { self.new ≡ record { items = self.old.items ++ item ∷ []; capacity = self.old.capacity } }
    {
        self.items.push_reserved(item);
    }

    /// The list. It takes no memory.
    pub fn into_items(self) -> Items<T>
        ensures { result ≡ self.items }
    {
        let Reserved { items } = self;
        Items::from_vec(items)
    }
}
