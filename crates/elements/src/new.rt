//! A new element.
ghost use Rattle.std.specs.Prelude.{◌≡◌, ◌<◌, ◌^◌, [], IfOk, length, replicate};
ghost use Rattle.network_model.specs.Networks.{Part};
ghost use Rattle.network_model.specs.States.{new_element};
ghost use Rattle.element_outboxes.specs.Waiting.{outputs_in};
ghost use Rattle.elements.specs.Inputs.{new_input};
ghost use Rattle.elements.specs.New.{HasNumbers, IsNew, last_by, new_output, places_for, recorded_by};
ghost use Rattle.elements.specs.Standing.{IsAt, schemas_of};

use crate::element::Element;
use crate::input::Input;
use crate::output::Output;
use crate::part::ElementPart;
use crate::work::Work;
use element_notes::Notes;
use element_outboxes::{Outbox, fans_of};
use element_works::Tuples;
use spl_value::{Ids, Items, NoMemory};
use std::alloc::Global;
use stream_model::React;

/// So many inputs from which nothing was taken.
fn new_inputs(alloc: Global, count: usize) -> Result<Items<Input>, NoMemory>
    ensures { IfOk result (λ inputs. inputs ≡ replicate count new_input) }
{
    let input = Input {
        low: 0,
        closed: false,
        ended: false,
    };
    let inputs = vec![in alloc; input; count]?;
    Ok(Items::from_vec(inputs))
}

/// So many outputs on which nothing was put.
fn new_outputs(alloc: Global, count: usize) -> Result<Items<Output>, NoMemory>
    ensures { IfOk result (λ outputs. outputs ≡ replicate count new_output) }
{
    let outputs = vec![in alloc; Output { ended: false }; count]?;
    Ok(Items::from_vec(outputs))
}

/// The number of all outputs.
fn count_outputs(counts: &[u32]) -> u32
    requires few { outputs_in counts.now < 2 ^ 32 }
    ensures { result ≡ outputs_in counts.now }
{
    let mut rest = counts;
    let mut all = 0u32;
    'counts: while let [count, behind @ ..] = rest {
        all += *count;
        rest = behind;
    }
    all
}

/// How many places the tuples of the work's operators need.
fn places_of<R: React>(work: &Work<R>) -> usize
    ensures { result ≡ places_for work.now }
{
    match work {
        Work::Chain(chain) => chain.places(),
        Work::Replica(chain) => chain.places(),
        Work::Splitter(_) => 0,
        Work::Turns(_) => 0,
        Work::Numbers(_) => 0,
        Work::Pulses(_) => 0,
    }
}

/// The operator whose ends are those of an element with this work. A splitter and a replica have none.
fn last_of<R>(work: &Work<R>, ids: &Ids) -> Option<u32>
    ensures { result ≡ last_by work.now ids.now }
{
    match work {
        Work::Chain(_) | Work::Turns(_) | Work::Numbers(_) | Work::Pulses(_) => {
            ids.as_slice().last().copied()
        }
        Work::Replica(_) | Work::Splitter(_) => None,
    }
}

/// Whether the arrivals at so many inputs are recorded.
fn is_recorded<R>(work: &Work<R>, inputs: usize) -> bool
    ensures { result ≡ recorded_by work.now inputs }
{
    match work {
        Work::Chain(_) => inputs > 1,
        Work::Replica(_) | Work::Splitter(_) => false,
        Work::Turns(_) | Work::Numbers(_) | Work::Pulses(_) => false,
    }
}

impl<R: React> Element<R> {
    /// An element of this part, which has taken and put nothing.
    pub fn new(alloc: Global, part: ElementPart<R>) -> Result<Element<R>, NoMemory>
        requires new { (p : Part) × IsNew R.spec R.stands p part × HasNumbers p part }
        requires ports { length part.fans < 2 ^ 32 }
        ensures begins { IfOk result (λ element. (p : Part) → IsNew R.spec R.stands p part → HasNumbers p part → IsAt R.spec R.stands p element new_element []) }
        ensures schemas { IfOk result (λ element. schemas_of element ≡ part.ins) }
    {
        let ElementPart {
            ids,
            ins,
            fans,
            source,
            work,
        } = part;
        let count = count_outputs(fans.as_slice()) as usize;
        let notes = Notes::new(
            alloc,
            is_recorded(&work, ins.len()),
            last_of(&work, &ids),
            fans.as_slice(),
            count,
        )?;
        Ok(Element {
            alloc,
            inputs: new_inputs(alloc, ins.len())?,
            ins,
            reads: source.is_some(),
            fans: fans_of(alloc, fans.as_slice())?,
            outbox: Outbox::new(alloc),
            outputs: new_outputs(alloc, count)?,
            was_ended: false,
            was_sent: 0,
            tuples: Tuples::new(alloc, places_of(&work))?,
            work,
            notes,
            cut: false,
        })
    }
}
