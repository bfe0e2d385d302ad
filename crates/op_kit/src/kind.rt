//! Operators by their kinds.
mod calls;

use crate::sink::Sink;
use aggregate_op::Aggregate;
use custom_logic::Custom;
use join_op::Join;
use relational_ops::{Filter, Functor, Punctor, Split};
use union_op::Union;

/// An operator of one of the kinds, in a box: else the layout of all kinds would be part of each proof about one
/// of them. A kind more is a variant here, with its line in each call.
#[derive(Drop)]
pub(crate) enum Kind<'c> {
    Sink(Box<Sink<'c>>),
    Filter(Box<Filter<'c>>),
    Functor(Box<Functor<'c>>),
    Punctor(Box<Punctor<'c>>),
    Split(Box<Split<'c>>),
    Union(Box<Union<'c>>),
    Custom(Box<Custom<'c>>),
    Aggregate(Box<Aggregate<'c>>),
    Join(Box<Join<'c>>),
}
