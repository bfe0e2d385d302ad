//! The outputs of each port.
ghost use Rattle.std.specs.Prelude.{◌≡◌, ◌<◌, ◌+◌, ◌^◌, IfOk, List, ℕ};
ghost use Rattle.stream_model.specs.Fans.{outputs_of_port};
ghost use Rattle.element_outboxes.specs.Waiting.{fan_outputs, fans_from, outputs_in};

use spl_value::{Items, NoMemory};
use std::alloc::Global;

/// The outputs of one port: so many, from the first on.
#[derive(Clone, Copy)]
pub struct Fan {
    pub first: u32,
    pub count: u32,
}

/// The outputs of each port, by the number of its connections.
pub fn fans_of(alloc: Global, counts: &[u32]) -> Result<Items<Fan>, NoMemory>
    requires few { outputs_in counts.now < 2 ^ 32 }
    ensures { IfOk result (λ fans. fans ≡ fans_from 0 counts.now) }
{
    let mut fans = Items::with_capacity(alloc, counts.len())?;
    let mut first = 0;
    for count in counts {
        fans.push(Fan {
            first,
            count: *count,
        })?;
        first += *count;
    }
    Ok(fans)
}

/// The outputs of a port; none of one that there isn't.
#[inline(always)]
pub fn fan_of(fans: &Items<Fan>, port: u32) -> Fan
    ensures outputs { (counts : List ℕ) → fans.now ≡ fans_from 0 counts → fan_outputs result ≡ outputs_of_port counts port }
    ensures within { (counts : List ℕ) → fans.now ≡ fans_from 0 counts → outputs_in counts < 2 ^ 32 → result.first + result.count < 2 ^ 32 }
{
    match fans.get(port as usize) {
        Some(fan) => *fan,
        None => Fan { first: 0, count: 0 },
    }
}
