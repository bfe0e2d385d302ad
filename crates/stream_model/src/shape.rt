use spl_value::{Ids, Items};

/// What an element of a network does.
#[derive(Clone, Copy)]
pub enum Role {
    /// Operators that are outside regions, one behind the other.
    Chain,
    /// It sends the items that enter a region to the region's replicas.
    Splitter,
    /// The operators of a region, for the items of one channel.
    Replica(u32),
    /// It puts what the replicas of a region give into one order.
    Merger,
}

/// An element of a network.
pub struct ShapeElement {
    pub role: Role,
    /// The place in the plan of the region of which it is a part; none of a chain.
    pub region: Option<u32>,
    /// The numbers of its operators in the order of the chain; those of the region for a splitter and a merger too.
    pub ids: Ids,
}

impl Drop for ShapeElement {
    fn drop(self) {
        let ShapeElement {
            role: _,
            region: _,
            ids: _,
        } = self;
    }
}

/// A link: an output of one element, and the input of another to which it leads.
#[derive(Clone, Copy)]
pub struct ShapeLink {
    pub from: u32,
    pub output: u32,
    pub to: u32,
    pub input: u32,
}

/// The elements of a network, by their numbers.
pub type Elements = Items<ShapeElement>;

/// The links of a network, by their numbers: by sender, and then by output.
pub type LinkEnds = Items<ShapeLink>;

/// The elements into which a graph is fused, and the links between them.
pub struct Shape {
    pub elements: Elements,
    pub links: LinkEnds,
}

impl Drop for Shape {
    fn drop(self) {
        let Shape {
            elements: _,
            links: _,
        } = self;
    }
}
