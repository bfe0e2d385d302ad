use language_model::Tuples;
use spl_value::{Items, Values};

/// Whether a window fires at an insertion, and with what.
#[derive(Drop)]
pub enum Fired {
    No,
    /// The content that fires. It has left the window.
    Whole(Tuples),
    /// The window fires with its content, which stays.
    Stays,
}

/// The content that a window marker flushes for a key.
#[derive(Drop)]
pub struct FlushedContent {
    pub key: Values,
    pub tuples: Tuples,
}

/// What a window marker flushes, by ascending key.
pub type Flushed = Items<FlushedContent>;
