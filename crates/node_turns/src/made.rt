//! How a node is made and taken apart.
ghost use Rattle.std.specs.Prelude.{◌≡◌, List};
ghost use Rattle.network_model.specs.Networks.{Part};
ghost use Rattle.node_turns.specs.Made.{IsMadeFor, apart_of, number_of};
ghost use Rattle.node_turns.specs.Meets.{Runs};
ghost use Rattle.node_turns.specs.Placed.{InsPlaced, OutsPlaced};
ghost use Rattle.ordered_link.specs.declared.ends.Link.{Link};

use crate::ends::{Inlet, Outlet};
use crate::machine::Machine;
use crate::node::{Apart, Node};
use crate::note::Note;
use crate::outside::{Sink, Source};
use spl_value::Values;
use std::alloc::Global;
use std::snapshot::Snapshot;

impl<E: Machine, S: Source, K: Sink> Node<E, S, K> {
    /// A node of a new element, with the ends of its links in the order of its inputs and outputs, the reader of its
    /// FileSource and the writer of its FileSink, where it has them. It takes no memory.
    pub fn new(
        alloc: Global,
        number: u32,
        element: E,
        ins: Vec<Inlet>,
        outs: Vec<Outlet>,
        source: Option<S>,
        sink: Option<K>,
    ) -> Node<E, S, K>
        ensures number { number_of result ≡ number }
        ensures runs { (part : Part) (links : List Link) → InsPlaced links ins.items → OutsPlaced links outs.items
            → IsMadeFor E.stands S.gave S.over K.took part element ins.items outs.items source sink
            → Runs E.stands S.gave S.front S.over K.took K.began K.faults part links result }
    {
        let first = Snapshot::of(&source);
        let clean = Snapshot::of(&sink);
        Node {
            number,
            element,
            ins,
            outs,
            source,
            sink,
            tuple: Values::new(alloc),
            at: 0,
            puts: 0,
            note: Note::Nothing,
            first,
            clean,
        }
    }

    /// What a node has.
    pub fn into_parts(self) -> Apart<E, S, K>
        ensures { result ≡ apart_of self }
    {
        let Node {
            number,
            element,
            ins,
            outs,
            source,
            sink,
            tuple: _,
            at: _,
            puts: _,
            note,
            first: _,
            clean: _,
        } = self;
        Apart {
            number,
            element,
            ins,
            outs,
            source,
            sink,
            note,
        }
    }
}
