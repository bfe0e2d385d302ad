//! An operator without output ports, that gives its tuples to its writer.
use language_model::{Output, Outs};
use spl_value::Item;
use std::alloc::Global;
use stream_model::{React, Reply};

/// The sink of the worked graph. It keeps nothing.
#[derive(Drop)]
pub struct Writer {
    pub alloc: Global,
}

impl React for Writer {
    ghost use Rattle.std.specs.Prelude.{⊤};
    ghost use Rattle.graph_tests.specs.Copying.{writer};

    ghost spec = { λ w. writer };

    ghost stands = { λ w h. ⊤ };

    fn on_item(&mut self, _input: u32, item: Item) -> Reply {
        let mut outs = Outs::new(self.alloc);
        match item {
            Item::Tuple(values) => {
                let item = Item::Tuple(values);
                match outs.push(Output { port: 0, item }) {
                    Ok(()) => Reply::Out(outs),
                    Err(_) => Reply::Memory,
                }
            }
            Item::Window => Reply::Out(outs),
            Item::Final => Reply::Ended(outs, None),
            Item::Bad(fault) => Reply::Ended(outs, Some(fault)),
        }
    }
}
