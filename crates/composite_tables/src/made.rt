//! What an expansion holds of the bodies that it opens.
use language_model::Source;
use spl_tree::Site;

/// The body of a composite, where it is invoked.
#[derive(Clone, Copy)]
pub struct Body {
    /// The place of the composite among those of the unit.
    pub composite: u32,
    /// None for the main composite.
    pub site: Option<Site>,
}

/// What an input of a head takes.
#[derive(Clone, Copy)]
pub enum Taken {
    One(Source),
    /// What the names of the port of that number do, at an invocation.
    Port { site: Site, port: u32 },
}

/// What an input of a head takes, and how many streams that is, of which no more than 2^30 are counted.
#[derive(Clone, Copy)]
pub struct Input {
    pub count: u32,
    pub first: Option<Source>,
    pub taken: Taken,
}
