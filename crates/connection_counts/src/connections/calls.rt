//! Connections, counted.
ghost use Rattle.std.specs.Prelude.{◌≡◌, ◌≤◌, ◌<◌, ◌∷◌, ◌++◌, [], ℕ, List, false, IfOk, length, map};
ghost use Rattle.spl_value.specs.declared.item.Item.TheVariants as I;
ghost use Rattle.stream_model.specs.Operators.{Operator, ports};
ghost use Rattle.stream_model.specs.parts.Operators.{port_at};
ghost use Rattle.stream_model.specs.PortEvents.{is_over};
ghost use Rattle.stream_model.specs.Stream.{Event, came};
ghost use Rattle.connection_counts.specs.Counting.{Closes, CountsOpen};

use crate::connections::{Closing, Connections};
use spl_value::{Ids, Items, NoMemory};
use std::alloc::Global;

/// Adds a port for each of its connections.
fn add_port(ports: &mut Items<u32>, port: u32, streams: &[u32]) -> Result<(), NoMemory>
    ensures { IfOk result (λ _. ports.new ≡ ports.old ++ map (λ s. port) streams.now) }
{
    'streams: for _stream in streams {
        ports.push(port)?;
    }
    Ok(())
}

impl Connections {
    /// Those of the ports that take these streams, all open. An operator has at most 16 ports.
    pub fn new(alloc: Global, ins: &Items<Ids>) -> Result<Connections, NoMemory>
        requires { length ins.now ≤ 16 }
        ensures { IfOk result (λ c. (op : Operator) → op.ins ≡ ins.now → CountsOpen op [] c.ports c.open c.left) }
    {
        let mut ports = Items::new(alloc);
        let mut open = Items::with_capacity(alloc, ins.len())?;
        'ports: for port in 0..ins.len() as u32 {
            let Some(streams) = ins.get(port as usize) else {
                unreachable!()
            };
            add_port(&mut ports, port, streams.as_slice())?;
            open.push(streams.len())?;
        }
        let left = ports.len();
        Ok(Connections { ports, open, left })
    }

    /// The port of an input. There is such an input.
    pub fn port(&self, input: u32) -> u32
        requires { input < length self.now.ports }
        ensures { result ≡ port_at self.now.ports input }
    {
        let Some(port) = self.ports.get(input as usize) else {
            unreachable!()
        };
        *port
    }

    /// Takes the final marker of an input, which was open, and says what ends with it.
    pub fn close(&mut self, input: u32) -> Closing
        requires { (op : Operator) × (h : List Event) × CountsOpen op h self.old.ports self.old.open self.old.left × (input < length (ports op)) × (is_over h input ≡ false) }
        ensures closes { (op : Operator) (h : List Event) → CountsOpen op h self.old.ports self.old.open self.old.left → input < length (ports op)
            → is_over h input ≡ false → Closes op h input result }
        ensures counts { (op : Operator) (h : List Event) → CountsOpen op h self.old.ports self.old.open self.old.left → input < length (ports op)
            → is_over h input ≡ false → CountsOpen op (came input I.Final ∷ h) self.new.ports self.new.open self.new.left }
    {
        let port = self.port(input) as usize;
        let Some(open) = self.open.get(port) else {
            unreachable!()
        };
        let open = *open - 1;
        self.open.set(port, open);
        self.left -= 1;
        if open > 0 {
            Closing::Waiting
        } else if self.left > 0 {
            Closing::Port
        } else {
            Closing::Operator
        }
    }
}
