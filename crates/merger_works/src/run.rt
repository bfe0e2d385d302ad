//! A merger takes a packet.
ghost use Rattle.std.specs.Prelude.{◌≡◌, ◌<◌, ◌^◌, ◌++◌, ◌∷◌, [], true, false, ℕ, List, IfOk};
ghost use Rattle.spl_value.specs.Numbered.{InOrder, is_cut};
ghost use Rattle.channel_heads.specs.Held.{wants, width_of};
ghost use Rattle.stream_model.specs.Fans.{ports_of_fans};
ghost use Rattle.network_model.specs.Networks.{RegionPart, Merger as MergerPart};
ghost use Rattle.network_model.specs.Receipts.{Receipt, Popped, popped};
ghost use Rattle.network_model.specs.Adds.{adds, merged_for};
ghost use Rattle.operator_chains.specs.Hows.{stream_how};
ghost use Rattle.element_outboxes.specs.Waiting.{fans_from, outputs_in, waits};
ghost use Rattle.merger_works.specs.Merging.{MergerAt};

use crate::merge::Merge;
use element_outboxes::{Fan, Outbox, send_output};
use language_model::Output;
use operator_chains::How;
use spl_value::{Items, NoMemory, Packet};
use std::alloc::Global;

/// Lets a merger take a packet but `Cut` on a channel that wants one, and sends all that is merged then besides. How the
/// merged stream stands then, where it stood so before. Only the outbox takes memory; where there is none, part of it may
/// have been sent.
#[inline(always)]
pub fn run_merger<M: Merge>(
    alloc: Global,
    merger: &mut M,
    fans: &Items<Fan>,
    outbox: &mut Outbox,
    channel: u32,
    packet: Packet,
    how: How,
) -> Result<How, NoMemory>
    requires within { channel < width_of (M.held merger.old) }
    requires wants { wants (M.held merger.old) channel ≡ true }
    requires uncut { is_cut packet ≡ false }
    requires fans { (counts : List ℕ) × (fans.now ≡ fans_from 0 counts) × (outputs_in counts < 2 ^ 32) }
    ensures takes { IfOk result (λ _. (region : RegionPart) (counts : List ℕ) (receipts : List Receipt) → region.rule ≡ M.rule
        → MergerAt M.held M.stands M.rule region.width counts receipts merger.old fans.now
        → InOrder region.rule region.width (λ c. popped c (receipts ++ Popped channel packet ∷ []))
        → MergerAt M.held M.stands M.rule region.width counts (receipts ++ Popped channel packet ∷ []) merger.new fans.now
        × (waits outbox.new ≡ waits outbox.old ++ adds (MergerPart region (ports_of_fans counts)) receipts (Popped channel packet))) }
    ensures how { IfOk result (λ now. (region : RegionPart) (counts : List ℕ) (receipts : List Receipt) → region.rule ≡ M.rule
        → MergerAt M.held M.stands M.rule region.width counts receipts merger.old fans.now
        → InOrder region.rule region.width (λ c. popped c (receipts ++ Popped channel packet ∷ []))
        → how ≡ stream_how (merged_for region receipts) → now ≡ stream_how (merged_for region (receipts ++ Popped channel packet ∷ []))) }
    ensures width { width_of (M.held merger.new) ≡ width_of (M.held merger.old) }
{
    let mut how = how;
    merger.take(channel, packet);
    'items: loop {
        match merger.emit() {
            Some(item) => {
                how = how.behind(&item);
                send_output(alloc, outbox, fans, Output { port: 0, item })?;
            }
            None => return Ok(how),
        }
    }
}
