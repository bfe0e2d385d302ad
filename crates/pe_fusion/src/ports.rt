use spl_value::{Ids, Items, Schema};

/// The inputs and outputs of an element.
pub struct ElementPorts {
    /// The numbers of its operators in the order of the chain; those of the region for a splitter and a merger too.
    pub ids: Ids,
    /// The attributes at each input.
    pub ins: Items<Schema>,
    /// How many connections each output port of its last operator has. A splitter has a 1 for each channel, and a
    /// replica one 1.
    pub fans: Ids,
    /// The attributes of the FileSource with which a chain begins.
    pub source: Option<Schema>,
}

impl Drop for ElementPorts {
    fn drop(self) {
        let ElementPorts {
            ids: _,
            ins: _,
            fans: _,
            source: _,
        } = self;
    }
}
