ghost use Rattle.std.specs.Prelude.{◌≡◌, ◌<◌, [], length, slice_index_or};

use circular_buffer::HeapCircularBuffer;
use spl_value::Values;
use std::marker::Model;

/// What a window holds for a key: its tuples, the oldest first.
#[derive(Drop)]
pub struct Content<'a> {
    kept: Option<&'a HeapCircularBuffer<Values>>,
}

impl<'a> Model for Content<'a> {
    ghost use Rattle.spl_value.specs.declared.value.Value.{Value as V};
    ghost use Rattle.spl_value.specs.contracts.value.Value as value;
    ghost use Rattle.std.specs.Prelude.{List, [], Some, None};
    ghost use Rattle.std.specs.Coded.{codes};

    ghost Value = { List (List V) };

    ghost coded = { Prim.hlevel (codes, value.the_row.coded) };

    ghost view = { λ c. elim (c.kept) [ Some ring ↦ ring.now.items | None ↦ [] ] };
}

impl<'a> Content<'a> {
    /// The tuples of a ring.
    pub(crate) fn of(ring: &'a HeapCircularBuffer<Values>) -> Content<'a>
        ensures { result ≡ ring.now.items }
    {
        Content { kept: Some(ring) }
    }

    /// No tuples.
    pub(crate) fn empty() -> Content<'a>
        ensures { result ≡ [] }
    {
        Content { kept: None }
    }

    /// How many tuples the window holds.
    pub fn len(&self) -> u64
        ensures { result ≡ length self.now }
    {
        match self.kept {
            Some(ring) => ring.len() as u64,
            None => 0,
        }
    }

    /// The tuple at a place, from 0 for the oldest.
    pub fn at(&self, i: u64) -> &Values
        requires { i < length self.now }
        ensures { result.now ≡ slice_index_or self.now i result.now }
    {
        match self.kept {
            Some(ring) => match ring.get(i as usize) {
                Some(tuple) => tuple,
                None => unreachable!(),
            },
            None => unreachable!(),
        }
    }
}
