//! The attributes of operators and of chains that are copies.
ghost use Rattle.std.specs.Prelude.{◌≡◌, ◌<◌, ◌==◌, length, slice_get};
ghost use Rattle.std.specs.List.{list_any};
ghost use Rattle.std.specs.Option.{option_and_then};
ghost use Rattle.stream_model.specs.CheckedMeaning.{graph_of};
ghost use Rattle.stream_model.specs.Copies.{aggregate_source, attribute_alone, kept_source, picks, source_of};
ghost use Rattle.stream_model.specs.Meaning.{Graph};
ghost use Rattle.stream_model.specs.Operators.{Operator};
ghost use Rattle.attribute_flow.specs.Chains.{AreNumbers, traced};

use crate::codes::{attribute_alone, tuple_source};
use crate::submits::custom_source;
use language_model::{Checked, CheckedClauses, CollectedAttribute, Collector};
use spl_tree::{Code, Slot};
use spl_value::{Ids, Items, Places};

/// The attribute of its input, by its place, of which an attribute of the output of the operator with this
/// number is a copy by the operator's clauses. Of a Union with several ports it is that of the first port.
pub fn source_of(checked: &Checked, op: u32, attr: u32) -> Option<u32>
    requires number { op < length checked.now.parts }
    ensures source { (g : Graph) (o : Operator) → graph_of checked.now ≡ g → slice_get g.ops op ≡ Some o → result ≡ source_of o.clauses attr }
{
    match checked.parts.get(op as usize) {
        Some(part) => source_by(part, attr),
        None => unreachable!(),
    }
}

/// The same by these clauses.
fn source_by(part: &CheckedClauses, attribute: u32) -> Option<u32>
    ensures { result ≡ source_of part.now attribute }
{
    match part {
        CheckedClauses::Filter { .. }
        | CheckedClauses::Punctor { .. }
        | CheckedClauses::Split { .. } => Some(attribute),
        CheckedClauses::Union { places } => union_source(places, attribute),
        CheckedClauses::Functor { output, .. } => tuple_source(attribute, output),
        CheckedClauses::Custom { handlers } => custom_source(handlers, attribute),
        CheckedClauses::Aggregate {
            partition,
            output,
            ..
        } => aggregate_source(partition, output.as_slice(), attribute),
        CheckedClauses::Join { .. }
        | CheckedClauses::FileSource { .. }
        | CheckedClauses::FileSink { .. } => None,
    }
}

fn union_source(places: &Items<Places>, attribute: u32) -> Option<u32>
    ensures { result ≡ option_and_then (λ ps. slice_get ps attribute) (slice_get places.now 0) }
{
    match places.get(0) {
        Some(first) => first.get(attribute as usize).copied(),
        None => None,
    }
}

fn aggregate_source(
    partition: &Places,
    output: &[CollectedAttribute],
    attribute: u32,
) -> Option<u32>
    ensures { result ≡ aggregate_source partition.now output.now attribute }
{
    for x in output {
        if x.attribute == attribute {
            return kept_source(partition, x);
        }
    }
    None
}

/// An assignment gives an attribute of the partition where it is that attribute alone, of the first or the
/// last tuple.
fn kept_source(partition: &Places, x: &CollectedAttribute) -> Option<u32>
    ensures { result ≡ kept_source partition.now x.now }
{
    if !picks(x.collector) {
        return None;
    }
    let source = argument_source(&x.argument)?;
    if has_place(partition, source) {
        Some(source)
    } else {
        None
    }
}

fn argument_source(argument: &Option<Code<Slot>>) -> Option<u32>
    ensures { result ≡ option_and_then attribute_alone argument.now }
{
    match argument {
        Some(code) => attribute_alone(code),
        None => None,
    }
}

fn picks(collector: Collector) -> bool
    ensures { result ≡ picks collector }
{
    matches!(collector, Collector::First | Collector::Last)
}

fn has_place(places: &Places, place: u32) -> bool
    ensures { result ≡ list_any (λ p. p == place) places.now }
{
    for p in places.as_slice() {
        if *p == place {
            return true;
        }
    }
    false
}

/// The attribute of the stream that a chain of operators reads, by its place, of which an attribute of the
/// last operator's output is a copy. A chain has the numbers of operators each of which reads the stream of
/// the one before it: copies compose.
pub fn trace(checked: &Checked, chain: &Ids, attr: u32) -> Option<u32>
    requires numbers { (g : Graph) → graph_of checked.now ≡ g → AreNumbers g chain.now }
    ensures source { (g : Graph) → graph_of checked.now ≡ g → result ≡ traced g chain.now attr }
{
    let mut left = chain.len();
    let mut attribute = attr;
    'operators: while left > 0 {
        left -= 1;
        match source_of(checked, chain.as_slice()[left], attribute) {
            Some(source) => attribute = source,
            None => return None,
        }
    }
    Some(attribute)
}
