//! What the input ports of an invocation take, counted, and as inputs of the head that is invoked.
ghost use Rattle.std.specs.Prelude.{◌≡◌, ◌+◌, ◌^◌, ℕ, suc, min, [], ◌∷◌, ◌++◌, List, length, flat_map, slice_get, IfOk, MatchOption};
ghost use Rattle.std.specs.List.{sum_by};
ghost use Rattle.std.specs.Option.{option_or};
ghost use Rattle.composite_tables.specs.Inputs.{AreInputs, StandsFor, IsBody};
ghost use Rattle.composite_tables.specs.steps.Reading.{CountsSources};
ghost use Rattle.language_model.specs.Expansion.{Inlined, sources_of, port_names};
ghost use Rattle.language_model.specs.parts.Expansion.{ports_of};

use crate::made::{Input, Taken};
use crate::tables::Scope;
use language_model::Source;
use spl_tree::{Invocation, Placed, Site};
use spl_value::{Items, Name, NoMemory};
use std::alloc::Global;

/// No more streams than this are counted: no graph has as many connections.
const MOST_COUNTED: u32 = 1 << 30;

/// What a name takes in the body of that number: the stream that the graph makes, or else what the input
/// of that name does. The row is that of the body's inputs.
pub(crate) fn taken_by(scope: &Scope<'_>, number: u32, row: &[Input], name: &Name) -> Option<Input>
    ensures { (xs : List Inlined) → IsBody xs number scope.now.composite.now row.now
        → MatchOption result (sources_of xs number name.now ≡ []) (λ i. StandsFor xs number i (sources_of xs number name.now)) }
{
    let name = name.as_slice();
    if let Some(place) = scope.stream(name) {
        let source = Source {
            expansion: number,
            place,
        };
        return Some(Input {
            count: 1,
            first: Some(source),
            taken: Taken::One(source),
        });
    }
    let place = scope.input(name)?;
    row.get(place as usize).copied()
}

/// How many streams there are, of which no more than 2^30 are counted, and the first.
#[derive(Clone, Copy)]
struct Counted {
    count: u32,
    first: Option<Source>,
}

impl Counted {
    fn and(self, more: Counted) -> Counted
        ensures { (xs ys : List Source) → CountsSources self xs → CountsSources more ys → CountsSources result (xs ++ ys) }
    {
        Counted {
            count: self.count.saturating_add(more.count).min(MOST_COUNTED),
            first: self.first.or(more.first),
        }
    }
}

/// What the names of a port take, counted.
fn count_of(scope: &Scope<'_>, number: u32, row: &[Input], names: &[Placed<Name>]) -> Counted
    ensures { (xs : List Inlined) → IsBody xs number scope.now.composite.now row.now
        → CountsSources result (flat_map (λ n. sources_of xs number n.what) names.now) }
{
    let mut all = Counted {
        count: 0,
        first: None,
    };
    for name in names {
        if let Some(input) = taken_by(scope, number, row, &name.what) {
            all = all.and(Counted {
                count: input.count,
                first: input.first,
            });
        }
    }
    all
}

/// How many streams the ports of an invocation take in the body of that number.
pub fn connections(scope: &Scope<'_>, number: u32, row: &[Input], invocation: &Invocation) -> u32
    ensures { (xs : List Inlined) → IsBody xs number scope.now.composite.now row.now
        → result ≡ min (sum_by length (ports_of xs number invocation.now)) (2 ^ 30) }
{
    let mut count: u32 = 0;
    for port in invocation.inputs.as_slice() {
        let more = count_of(scope, number, row, port.streams.as_slice());
        count = count.saturating_add(more.count).min(MOST_COUNTED);
    }
    count
}

/// What an input of the head takes that is invoked at the site: what the names of that port do. A single
/// name passes on what it takes, so that what goes through many heads is followed in one step.
fn input_of(
    scope: &Scope<'_>,
    row: &[Input],
    site: Site,
    port: u32,
    names: &[Placed<Name>],
) -> Input
    ensures { (xs : List Inlined) → IsBody xs site.expansion scope.now.composite.now row.now → port_names xs site port ≡ names.now
        → StandsFor xs (suc site.expansion) result (flat_map (λ n. sources_of xs site.expansion n.what) names.now) }
{
    if let [name] = names {
        if let Some(input) = taken_by(scope, site.expansion, row, &name.what) {
            return input;
        }
    }
    let all = count_of(scope, site.expansion, row, names);
    Input {
        count: all.count,
        first: all.first,
        taken: Taken::Port { site, port },
    }
}

/// The inputs of the body that an invocation of a composite opens. The scope and the row are those of the
/// body in which it stands.
pub fn inputs_of(
    alloc: Global,
    scope: &Scope<'_>,
    row: &[Input],
    site: Site,
    invocation: &Invocation,
) -> Result<Items<Input>, NoMemory>
    ensures { IfOk result (λ inputs. (xs : List Inlined) → IsBody xs site.expansion scope.now.composite.now row.now
        → slice_get scope.now.composite.now.graph site.invocation ≡ Some invocation.now
        → (y : Inlined) → y.site ≡ Some site → length y.composite.what.inputs ≡ length invocation.now.inputs
        → AreInputs (xs ++ y ∷ []) (length xs) y inputs) }
{
    let mut inputs = Items::new(alloc);
    for (place, port) in invocation.inputs.as_slice().iter().enumerate() {
        let Ok(number) = u32::try_from(place) else {
            return Err(NoMemory);
        };
        inputs.push(input_of(scope, row, site, number, port.streams.as_slice()))?;
    }
    Ok(inputs)
}
