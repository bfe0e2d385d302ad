//! What an event causes.
ghost use Rattle.std.specs.Prelude.{◌≡◌, [], ◌∷◌, ◌++◌, ◌<◌, length, slice_get, None, ◌↔◌, IsTrue, IsOk, OnOk, OnErr, OnSome};
ghost use Rattle.std.specs.Option.{option_copied, option_to_list};

use spl_value::{Item, Items};
use std::alloc::{AllocError, Global};
use std::marker::Model;

/// An item on an output port, counted from 0.
#[derive(Drop)]
pub struct Output {
    pub port: u32,
    pub item: Item,
}

/// What one event causes, in its order. The first output takes no memory.
#[derive(Drop)]
pub struct Outs {
    first: Option<Output>,
    rest: Vec<Output>,
}

impl Model for Outs {
    ghost use Rattle.std.specs.Prelude.{◌≡◌, [], ◌++◌, List, None};
    ghost use Rattle.std.specs.Option.{option_to_list};
    ghost use Rattle.std.specs.Coded.{coded_list};
    ghost use Rattle.language_model.specs.declared.outs.Output.{Output};
    ghost use Rattle.language_model.specs.contracts.outs.Output as output_row;

    ghost Value = { List Output };

    ghost coded = { coded_list output_row.the_row.coded };

    ghost view = { λ outs. option_to_list outs.first ++ outs.rest.items };

    ghost invariant = { λ outs. outs.first ≡ None → outs.rest.items ≡ [] };
}

impl Outs {
    #[inline(always)]
    pub fn new(alloc: Global) -> Outs
        ensures { result ≡ [] }
    {
        Outs {
            first: None,
            rest: Vec::new(alloc),
        }
    }

    pub fn len(&self) -> usize
        ensures { result ≡ length self.now }
    {
        match self.first {
            Some(_) => 1 + self.rest.len(),
            None => 0,
        }
    }

    pub fn is_empty(&self) -> bool
        ensures { IsTrue result ↔ (self.now ≡ []) }
    {
        self.first.is_none()
    }

    pub fn get(&self, at: usize) -> Option<&Output>
        ensures value { option_copied result ≡ slice_get self.now at }
        ensures within { OnSome result (at < length self.now) }
    {
        match at.checked_sub(1) {
            Some(at) => self.rest.get(at),
            None => self.first.as_ref(),
        }
    }

    /// Adds an output after the others. Where there is none yet, it takes no memory.
    #[inline(always)]
    pub fn push(&mut self, output: Output) -> Result<(), AllocError>
        ensures ok { OnOk result (self.new ≡ self.old ++ output ∷ []) }
        ensures err { OnErr result (self.new ≡ self.old) }
        ensures first { self.old ≡ [] → IsOk result }
    {
        if self.first.is_none() {
            self.first = Some(output);
            return Ok(());
        }
        self.rest.push(output)?;
        Ok(())
    }

    /// Moves the outputs of `more` to the end.
    pub fn append(&mut self, more: Outs) -> Result<(), AllocError>
        ensures ok { OnOk result (self.new ≡ self.old ++ more) }
        ensures err { OnErr result (self.new ≡ self.old) }
    {
        if self.first.is_none() {
            *self = more;
            return Ok(());
        }
        let Outs { first, mut rest } = more;
        let Some(first) = first else {
            return Ok(());
        };
        self.rest.reserve(1 + rest.len())?;
        self.rest.push_reserved(first);
        self.rest.append(&mut rest)
    }

    /// Takes every output out. The room that there is stays.
    pub fn clear(&mut self)
        ensures { self.new ≡ [] }
    {
        self.first = None;
        self.rest.clear();
    }

    /// The outputs: the first one, where there is one, and the others, in their order. It takes no memory.
    #[inline(always)]
    pub fn into_parts(self) -> (Option<Output>, Items<Output>)
        ensures all { option_to_list result.0 ++ result.1 ≡ self }
        ensures none { result.0 ≡ None → self ≡ [] }
    {
        let Outs { first, rest } = self;
        (first, Items::from_vec(rest))
    }
}
