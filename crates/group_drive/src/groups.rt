//! A run of groups on threads and in the caller.
ghost use Rattle.std.specs.Prelude.{◌≡◌, ◌<◌, ◌≤◌, ◌+◌, ◌^◌, ℕ, [], map, vec_len, vec_capacity, IfOk, IfErr};
ghost use Rattle.group_drive.specs.Groups.{AllRun, GroupsRun, Parts, weigh, weigh_all};
ghost use Rattle.group_drive.specs.Answers.{AllAmong, OutRun, weigh_out};
ghost use Rattle.group_drive.specs.Rooms.{HasGroups, HasRoom};

use crate::answer::{Answer, Back};
use crate::deals::{add, deal};
use crate::room::Room;
use crate::rounds::drive;
use crate::turns::{Links, Turns};
use crate::workers::start;
use feed_pour::{Gate, Starter};
use std::sync::Wait;
use std::sync::atomic::AtomicBool;
use std::thread;
use std::thread::{PromisedHandle, Scope, Threads};

/// Starts a thread for the group, if it gets one. Else the group comes back.
fn offer<'s, E, W: Threads + Wait + Sync, G: Gate, N: Turns + Send + 's, S: Starter>(
    rt: &'s W,
    scope: &Scope<'s, E>,
    links: &'s Links,
    flag: &'s AtomicBool,
    number: u32,
    starter: &mut S,
    group: Vec<N>,
    gate: &'s G,
) -> Result<PromisedHandle<Answer<N>, Back<N>>, Vec<N>>
    requires runs { (parts : Parts) × AllRun N.number N.runs parts links.now.items group.items }
    ensures ok { IfOk result (λ h. (h.promise.links.value ≡ links.now) × (h.promise.was.value ≡ group)) }
    ensures numbers { IfErr result (λ ns. map N.number ns.items ≡ map N.number group.items) }
    ensures runs { IfErr result (λ ns. (parts : Parts) → AllRun N.number N.runs parts links.now.items group.items
        → AllRun N.number N.runs parts links.now.items ns.items) }
{
    if !starter.may_start(number) {
        return Err(group);
    }
    match start(rt, scope, links, flag, group, gate) {
        Ok(handle) => Ok(handle),
        Err(answer) => Err(answer.nodes),
    }
}

/// Starts a thread for each group that gets one. The rest comes back in one list.
fn launch<'s, E, W: Threads + Wait + Sync, G: Gate, N: Turns + Send + 's, S: Starter>(
    rt: &'s W,
    scope: &Scope<'s, E>,
    links: &'s Links,
    flags: &'s Vec<AtomicBool>,
    mut groups: Vec<Vec<N>>,
    starter: &mut S,
    mut handles: Vec<PromisedHandle<Answer<N>, Back<N>>>,
    mut left: Vec<N>,
    gate: &'s G,
) -> (Vec<PromisedHandle<Answer<N>, Back<N>>>, Vec<N>)
    requires flags { (vec_len groups ≤ vec_len flags.now) × (vec_len groups < 2 ^ 32) }
    requires runs { (parts : Parts) × GroupsRun N.number N.runs parts links.now.items groups.items
        × AllRun N.number N.runs parts links.now.items left.items }
    requires none { handles.items ≡ [] }
    requires room { (vec_len groups ≤ vec_capacity handles)
        × (weigh N.number (λ _. 1) left.items + weigh_all N.number (λ _. 1) groups.items ≤ vec_capacity left) }
    ensures kept { (h : ℕ → ℕ) → weigh_out N.number h result.0.items + weigh N.number h result.1.items
        ≡ weigh N.number h left.items + weigh_all N.number h groups.items }
    ensures among { AllAmong links.now.items result.0.items }
    ensures runs { (parts : Parts) → GroupsRun N.number N.runs parts links.now.items groups.items
        → AllRun N.number N.runs parts links.now.items left.items
        → OutRun N.number N.runs parts links.now.items result.0.items × AllRun N.number N.runs parts links.now.items result.1.items }
{
    'groups: while let Some(group) = groups.pop() {
        let number = groups.len();
        match offer(
            rt,
            scope,
            links,
            &flags[number],
            number as u32,
            starter,
            group,
            gate,
        ) {
            Ok(handle) => handles.push_reserved(handle),
            Err(rest) => left = add(left, rest),
        }
    }
    (handles, left)
}

/// Joins a thread. Its nodes are done.
fn finish<W: Threads + Wait, G: Gate, N: Turns>(
    rt: &W,
    links: &Links,
    handle: PromisedHandle<Answer<N>, Back<N>>,
    gate: &G,
) -> Vec<N>
    requires among { handle.promise.links.value.items ≡ links.now.items }
    requires runs { (parts : Parts) × AllRun N.number N.runs parts links.now.items handle.promise.was.value.items }
    ensures numbers { map N.number result.items ≡ map N.number handle.promise.was.value.items }
    ensures done { (parts : Parts) → AllRun N.number N.runs parts links.now.items handle.promise.was.value.items
        → AllRun N.number N.ended parts links.now.items result.items }
{
    let answer = handle.join(rt);
    if answer.driven {
        answer.nodes
    } else {
        drive(rt, links, answer.nodes, gate)
    }
}

/// Joins the threads, and puts their nodes behind those that are there.
fn collect<W: Threads + Wait, G: Gate, N: Turns>(
    rt: &W,
    links: &Links,
    mut handles: Vec<PromisedHandle<Answer<N>, Back<N>>>,
    mut all: Vec<N>,
    gate: &G,
) -> Vec<N>
    requires among { AllAmong links.now.items handles.items }
    requires runs { (parts : Parts) × OutRun N.number N.runs parts links.now.items handles.items }
    requires room { weigh N.number (λ _. 1) all.items + weigh_out N.number (λ _. 1) handles.items ≤ vec_capacity all }
    ensures kept { (h : ℕ → ℕ) → weigh N.number h result.items ≡ weigh N.number h all.items + weigh_out N.number h handles.items }
    ensures done { (parts : Parts) → AllRun N.number N.ended parts links.now.items all.items
        → OutRun N.number N.runs parts links.now.items handles.items
        → AllRun N.number N.ended parts links.now.items result.items }
{
    'handles: while let Some(handle) = handles.pop() {
        all = add(all, finish(rt, links, handle, gate));
    }
    all
}

// Runs the groups that get a thread on theirs, and the others in the caller.
fn run_groups<W: Threads + Wait + Sync, G: Gate, N: Turns + Send, S: Starter>(
    rt: &W,
    links: &Links,
    flags: &Vec<AtomicBool>,
    groups: Vec<Vec<N>>,
    starter: &mut S,
    handles: Vec<PromisedHandle<Answer<N>, Back<N>>>,
    left: Vec<N>,
    all: Vec<N>,
    gate: &G,
) -> Vec<N>
    requires flags { (vec_len groups ≤ vec_len flags.now) × (vec_len groups < 2 ^ 32) }
    requires runs { (parts : Parts) × GroupsRun N.number N.runs parts links.now.items groups.items
        × AllRun N.number N.runs parts links.now.items left.items }
    requires none { (handles.items ≡ []) × (all.items ≡ []) }
    requires handles { vec_len groups ≤ vec_capacity handles }
    requires room { weigh N.number (λ _. 1) left.items + weigh_all N.number (λ _. 1) groups.items ≤ vec_capacity left }
    requires all { weigh N.number (λ _. 1) left.items + weigh_all N.number (λ _. 1) groups.items ≤ vec_capacity all }
    ensures kept { (h : ℕ → ℕ) → weigh N.number h result.items ≡ weigh N.number h left.items + weigh_all N.number h groups.items }
    ensures done { (parts : Parts) → GroupsRun N.number N.runs parts links.now.items groups.items
        → AllRun N.number N.runs parts links.now.items left.items
        → AllRun N.number N.ended parts links.now.items result.items }
{
    thread::scope(
        thread::scope_env(),
        rt,
        move |scope| -> Vec<N>
            requires flags { (vec_len groups ≤ vec_len flags.now) × (vec_len groups < 2 ^ 32) }
            requires runs { (parts : Parts) × GroupsRun N.number N.runs parts links.now.items groups.items
                × AllRun N.number N.runs parts links.now.items left.items }
            requires none { (handles.items ≡ []) × (all.items ≡ []) }
            requires handles { vec_len groups ≤ vec_capacity handles }
            requires room { weigh N.number (λ _. 1) left.items + weigh_all N.number (λ _. 1) groups.items ≤ vec_capacity left }
            requires all { weigh N.number (λ _. 1) left.items + weigh_all N.number (λ _. 1) groups.items ≤ vec_capacity all }
            ensures kept { (h : ℕ → ℕ) → weigh N.number h result.items ≡ weigh N.number h left.items + weigh_all N.number h groups.items }
            ensures done { (parts : Parts) → GroupsRun N.number N.runs parts links.entry.now.items groups.items
                → AllRun N.number N.runs parts links.entry.now.items left.items
                → AllRun N.number N.ended parts links.entry.now.items result.items }
        {
            let (handles, left) = launch(
                rt, scope, links, flags, groups, starter, handles, left, gate,
            );
            let left = drive(rt, links, left, gate);
            collect(rt, links, handles, add(all, left), gate)
        },
    )
}

/// Runs the nodes in so many groups, by their numbers, until each node is done. A group that the starter lets start is
/// driven on a thread of its own; the others, and those whose thread the system refuses, are driven by the caller, turn
/// about.
pub fn run<W: Threads + Wait + Sync, G: Gate, N: Turns + Send, S: Starter>(
    rt: &W,
    links: &Links,
    nodes: Vec<N>,
    room: Room<N>,
    workers: u32,
    starter: &mut S,
    gate: &G,
) -> Vec<N>
    requires workers { 1 ≤ workers }
    requires groups { (most : ℕ) × (workers ≤ most) × (most < 2 ^ 32) × HasGroups room most }
    requires room { HasRoom room (vec_len nodes) }
    requires runs { (parts : Parts) × AllRun N.number N.runs parts links.now.items nodes.items }
    ensures kept { (h : ℕ → ℕ) → weigh N.number h result.items ≡ weigh N.number h nodes.items }
    ensures done { (parts : Parts) → AllRun N.number N.runs parts links.now.items nodes.items
        → AllRun N.number N.ended parts links.now.items result.items }
{
    let Room {
        flags,
        handles,
        mut groups,
        left,
        all,
    } = room;
    groups.truncate(workers as usize);
    let (groups, left) = deal(nodes, groups, left);
    run_groups(rt, links, &flags, groups, starter, handles, left, all, gate)
}
