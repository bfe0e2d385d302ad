//! The connections of an operator's ports.
mod calls;

use spl_value::Items;

/// The connections of an operator's input ports, with a count of those that haven't ended.
pub struct Connections {
    /// The port of each input.
    pub ports: Items<u32>,
    /// How many connections of each port are open.
    pub open: Items<usize>,
    /// How many are open in all.
    pub left: usize,
}

impl Drop for Connections {
    fn drop(self) {
        let Connections {
            ports: _,
            open: _,
            left: _,
        } = self;
    }
}

/// What the end of a connection ends besides.
#[derive(Clone, Copy)]
pub enum Closing {
    /// Nothing: another connection of the port is open.
    Waiting,
    /// The port.
    Port,
    /// The last port that was open.
    Operator,
}
