//! What an element may do.
ghost use Rattle.std.specs.Prelude.{◌≡◌, ◌<◌, ◌∷◌, [], ℕ, List, MatchOption, is_some};
ghost use Rattle.spl_value.specs.declared.value.Value.{Value};
ghost use Rattle.stream_model.specs.declared.outgoing.Outgoing.{Outgoing as OutgoingSpec};
ghost use Rattle.network_model.specs.Networks.{Part, inputs};
ghost use Rattle.network_model.specs.Picking.{front_for, may_pop, may_read};
ghost use Rattle.network_model.specs.States.{At};
ghost use Rattle.elements.specs.Standing.{IsAt};

use elements::{Element, Next};
use stream_model::React;

/// Whether it reads its source.
#[inline(always)]
pub(crate) fn reads<R: React>(element: &Element<R>) -> bool
    requires at { (part : Part) × (a : At) × (poured : List (List Value)) × IsAt R.spec R.stands part element.now a poured }
    ensures { (part : Part) (a : At) (poured : List (List Value)) → IsAt R.spec R.stands part element.now a poured → result ≡ may_read part a }
{
    match element.next() {
        Next::Read => true,
        Next::Take => false,
        Next::Put(_) => false,
        Next::Done => false,
    }
}

/// Whether it pops a packet from an input, where one waits.
#[inline(always)]
pub(crate) fn pops<R: React>(element: &Element<R>, input: u32) -> bool
    requires at { (part : Part) × (a : At) × (poured : List (List Value)) × IsAt R.spec R.stands part element.now a poured × (input < inputs part) }
    ensures { (part : Part) (a : At) (poured : List (List Value)) → IsAt R.spec R.stands part element.now a poured → input < inputs part
        → result ≡ may_pop part a input }
{
    match front(element) {
        Some(_) => false,
        None => element.wants(input),
    }
}

/// The output for which it owes a packet first.
#[inline(always)]
pub(crate) fn front<R: React>(element: &Element<R>) -> Option<u32>
    requires at { (part : Part) × (a : At) × (poured : List (List Value)) × IsAt R.spec R.stands part element.now a poured }
    ensures { (part : Part) (a : At) (poured : List (List Value)) → IsAt R.spec R.stands part element.now a poured
        → MatchOption result (a.outbox ≡ []) (λ o. (s : OutgoingSpec) × (rest : List OutgoingSpec) × (a.outbox ≡ s ∷ rest) × (s.output ≡ o)) }
{
    match element.next() {
        Next::Put(output) => Some(output),
        Next::Read => None,
        Next::Take => None,
        Next::Done => None,
    }
}

/// Whether it owes a packet for an output first.
#[inline(always)]
pub(crate) fn pushes<R: React>(element: &Element<R>, output: u32) -> bool
    requires at { (part : Part) × (a : At) × (poured : List (List Value)) × IsAt R.spec R.stands part element.now a poured }
    ensures { (part : Part) (a : At) (poured : List (List Value)) → IsAt R.spec R.stands part element.now a poured
        → result ≡ is_some (front_for output a.outbox) }
{
    match front(element) {
        Some(first) => first == output,
        None => false,
    }
}
