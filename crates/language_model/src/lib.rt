//! The meaning of a unit of the language: its types, its flat graph, the checks of its clauses, and
//! what its expressions and bodies do.
#![tactic(auto)]

mod answer;
mod checked;
mod checked_graph;
mod env;
mod expansion;
mod flow;
mod kinds;
mod named;
mod outs;
mod refusal;
mod scope;
mod signatures;

pub use answer::{
    TypeAnswer, mismatch, narrow, refuse, refused, refused_name, unknown, wrong_call,
};
pub use checked::{
    CheckedClauses, CollectedAttribute, Collector, CollectorCall, Given, Handled, Handlers,
    ParameterValue, Policy, PortTypes, Position, StateVariable, WindowRule,
};
pub use checked_graph::Checked;
pub use env::{Env, Tuples};
pub use expansion::{ExpansionError, ExpansionRefusal, Operation, Source};
pub use flow::Flow;
pub use kinds::{
    KINDS, KindRules, OutputForm, ParameterRule, PortBounds, Presence, Role, WindowForm,
};
pub use named::{
    attribute_named, dollar_named, function_named, port_named, unresolved_named, variable_named,
};
pub use outs::{Output, Outs};
pub use refusal::{Code, Refusal, code_text, has_name};
pub use scope::{
    CheckError, CheckRefusal, Dollar, Port, Scope, Signature, Typed, Unresolved, Variable,
};
pub use signatures::Signatures;
