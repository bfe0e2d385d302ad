//! Graphs whose types and clauses fit.
use crate::CheckedClauses;
use spl_tree::{Functions, Graph};
use spl_value::{Items, Schema};
use std::marker::Model;

/// A graph whose types and clauses fit.
///
/// Contracts see it as a `CheckedGraph`, and its invariant is `Keeps`: the graph has an order and stays
/// within the limits, the functions fit, and so do the ports, the types and the clauses of each operator.
pub struct Checked {
    pub graph: Graph,
    /// The attributes of each stream.
    pub schemas: Items<Schema>,
    /// The functions of the program, in the order of the text.
    pub functions: Functions,
    /// The clauses of each operator, in the operators' order.
    pub parts: Items<CheckedClauses>,
}

impl Drop for Checked {
    fn drop(self) {
        let Checked {
            graph: _,
            schemas: _,
            functions: _,
            parts: _,
        } = self;
    }
}

impl Model for Checked {
    ghost use Rattle.std.specs.Coded.{codes};
    ghost use Rattle.spl_value.specs.contracts.types.SplType as kind_row;
    ghost use Rattle.spl_tree.specs.contracts.body.Function as function_row;
    ghost use Rattle.spl_tree.specs.contracts.graph.Graph as graph_row;
    ghost use Rattle.language_model.specs.contracts.checked.CheckedClauses as part_row;
    ghost use Rattle.language_model.specs.CheckedGraph.{CheckedGraph};
    ghost use Rattle.language_model.specs.Keeping.{Keeps};

    ghost Value = { CheckedGraph };

    ghost coded = { Prim.hlevel (codes, kind_row.the_row.coded, function_row.the_row.coded, graph_row.the_row.coded, part_row.the_row.coded) };

    ghost view = { λ c. record { graph = c.graph; schemas = c.schemas; functions = c.functions; parts = c.parts } };

    ghost invariant = { λ c. Keeps (record { graph = c.graph; schemas = c.schemas; functions = c.functions; parts = c.parts }) };
}
