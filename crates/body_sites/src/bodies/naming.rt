//! What the names in a body mean.
ghost use Rattle.std.specs.Prelude.{◌≡◌};
ghost use Rattle.std.specs.Option.{option_copied, option_map};
ghost use Rattle.language_model.specs.Expansion.{place_of};
ghost use Rattle.language_model.specs.Invoking.{input_names, stream_names};
ghost use Rattle.language_model.specs.Scopes.{at_place};
ghost use Rattle.language_model.specs.StreamTypes.{kind_alone, named_stream, stream_in};
ghost use Rattle.language_model.specs.parts.StreamTypes.{input_stream, is_type, output_names, own_stream, stream_unless_type};
ghost use Rattle.language_model.specs.TypeNames.{composite_types};
ghost use Rattle.written_types.specs.TypeScopes.{types_in};
ghost use Rattle.body_sites.specs.Bodies.{body_seen};

use super::Body;
use crate::names::BodyNames;
use crate::sites::Sites;
use spl_tree::{Expansion, Shape, ShapeKind, TypeKind};
use spl_value::Name;
use written_types::TypeScope;

impl<'a> Body<'a> {
    pub(crate) fn new(number: u32, expansion: &'a Expansion, names: &'a BodyNames<'a>) -> Body<'a>
        ensures { body_seen result
            ≡ record { number = number; expansion = expansion.now; composite = names.now.composite.now } }
    {
        Body {
            number,
            expansion,
            composite: names.composite,
            names,
        }
    }

    /// The place of the first stream of the name among those that the graph makes.
    pub fn own_place(&self, name: &[u8]) -> Option<u32>
        ensures { result ≡ place_of name.now (stream_names self.now.composite.now) }
    {
        self.names.streams.place(name)
    }

    /// The first input of the head that has the name.
    pub fn input_place(&self, name: &[u8]) -> Option<u32>
        ensures { result ≡ place_of name.now (input_names self.now.composite.now) }
    {
        self.names.inputs.place(name)
    }

    /// The first output of the head that has the name.
    pub fn output_place(&self, name: &[u8]) -> Option<u32>
        ensures { result ≡ place_of name.now (output_names self.now.composite.now) }
    {
        self.names.outputs.place(name)
    }

    fn own_stream(&self, name: &[u8]) -> Option<u32>
        ensures { result ≡ own_stream (body_seen self.now) name.now }
    {
        let place = self.own_place(name)?;
        self.expansion.streams.get(place as usize).copied()
    }

    fn input_stream(&self, name: &[u8]) -> Option<u32>
        ensures { result ≡ input_stream (body_seen self.now) name.now }
    {
        let place = self.input_place(name)?;
        let input = self.expansion.inputs.get(place as usize)?;
        Some(input.first)
    }

    /// The stream that a name means.
    fn stream(&self, name: &[u8]) -> Option<u32>
        ensures { result ≡ stream_in (body_seen self.now) name.now }
    {
        match self.own_stream(name) {
            Some(stream) => Some(stream),
            None => self.input_stream(name),
        }
    }

    fn has_type(&self, sites: &Sites, name: &[u8]) -> bool
        ensures { result ≡ is_type sites.now.unit.now (body_seen self.now) name.now }
    {
        self.names.has_type(name) || sites.has_type(name)
    }

    /// What the names of types mean in the body.
    pub fn types<'t>(&self, sites: &'t Sites<'a>) -> TypeScope<'t, 'a>
    where
        'a: 't,
        ensures { types_in result ≡ composite_types sites.now.unit.now self.now.composite.now }
    {
        TypeScope::of_composite(&self.names.table, &sites.unit_types)
    }

    /// The stream that a name means, where it is no name of a type.
    fn stream_unless_type(&self, sites: &Sites, name: &[u8]) -> Option<u32>
        ensures { option_map (λ s. at_place s name.now) result ≡ stream_unless_type sites.now.unit.now (body_seen self.now) name.now }
    {
        if self.has_type(sites, name) {
            return None;
        }
        self.stream(name)
    }

    /// The stream whose name a shape is, with the name. The name of a type is no name of a stream.
    pub fn named_stream<'n>(&self, sites: &Sites, shape: &'n Shape) -> Option<(u32, &'n Name)>
        ensures { option_map (λ p. at_place p.0 p.1.now) result ≡ named_stream sites.now.unit.now (body_seen self.now) shape.now }
    {
        let name = alone(shape)?;
        let stream = self.stream_unless_type(sites, name.as_slice())?;
        Some((stream, name))
    }
}

/// The name that a shape is, where it is one alone.
fn alone(shape: &Shape) -> Option<&Name>
    ensures { option_copied result ≡ kind_alone shape.now.what }
{
    match &shape.what {
        ShapeKind::Type(written) => match written.what.get() {
            TypeKind::Name(name) => Some(name),
            TypeKind::Boolean
            | TypeKind::Rstring
            | TypeKind::Int(_)
            | TypeKind::LeftOut(_)
            | TypeKind::List(_)
            | TypeKind::Map(_, _)
            | TypeKind::Tuple(_) => None,
        },
        ShapeKind::Attributes(_) => None,
    }
}
