use crate::Places;

/// Where a region's splitter sends the items that enter the region.
#[derive(Drop)]
pub enum Routing {
    /// In a region without a key: to the channels in turn.
    Turns,
    /// In a region with a key: a tuple by its values at these places, and any other item in turn.
    Key(Places),
}
