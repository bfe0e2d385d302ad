//! The workers of a run.
ghost use Rattle.std.specs.Prelude.{◌≡◌, IfOk, IfErr};
ghost use Rattle.group_drive.specs.Groups.{AllRun, Parts};
ghost use Rattle.group_drive.specs.Answers.{IsAnswer};

use crate::answer::{Answer, Back};
use crate::rounds::drive;
use crate::turns::{Links, Turns};
use feed_pour::Gate;
use std::snapshot::Snapshot;
use std::sync::Wait;
use std::sync::atomic::{AtomicBool, Ordering};
use std::thread::{Promise, PromisedHandle, Scope, Threads};

impl<N: Turns> Promise<Answer<N>> for Back<N> {
    ghost kept_by = { λ p r. IsAnswer N.number N.runs N.ended p.links.value.items p.was.value.items r };
}

// Drives the nodes, unless the flag is set.
fn work<W: Wait, G: Gate, N: Turns>(
    rt: &W,
    links: &Links,
    flag: &AtomicBool,
    nodes: Vec<N>,
    gate: &G,
) -> Answer<N>
    requires runs { (parts : Parts) × AllRun N.number N.runs parts links.now.items nodes.items }
    ensures { IsAnswer N.number N.runs N.ended links.now.items nodes.items result }
{
    if flag.load(Ordering::SeqCst) {
        return Answer {
            nodes,
            driven: false,
        };
    }
    let nodes = drive(rt, links, nodes, gate);
    Answer {
        nodes,
        driven: true,
    }
}

/// Starts a thread for a group. Where the system refuses it, its closure is called here with its flag set, and the
/// group comes back.
pub(crate) fn start<'s, E, W: Threads + Wait + Sync, G: Gate, N: Turns + Send + 's>(
    rt: &'s W,
    scope: &Scope<'s, E>,
    links: &'s Links,
    flag: &'s AtomicBool,
    nodes: Vec<N>,
    gate: &'s G,
) -> Result<PromisedHandle<Answer<N>, Back<N>>, Answer<N>>
    requires runs { (parts : Parts) × AllRun N.number N.runs parts links.now.items nodes.items }
    ensures ok { IfOk result (λ h. (h.promise.links.value ≡ links.now) × (h.promise.was.value ≡ nodes)) }
    ensures err { IfErr result (λ a. IsAnswer N.number N.runs N.ended links.now.items nodes.items a) }
{
    let promise = Back {
        links: Snapshot::of(links),
        was: Snapshot::of(&nodes),
    };
    match scope.spawn_with(
        promise,
        move || -> Answer<N>
            requires runs { (parts : Parts) × AllRun N.number N.runs parts links.now.items nodes.items }
            ensures { IsAnswer N.number N.runs N.ended links.entry.now.items nodes.items result }
        { work(rt, links, flag, nodes, gate) },
    ) {
        Ok(handle) => Ok(handle),
        Err(refused) => {
            flag.store(true, Ordering::SeqCst);
            Err((refused.value)())
        }
    }
}
