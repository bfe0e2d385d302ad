use spl_value::{Items, Values};

/// What is made of a content: what each fold makes of the values of its argument, and the last tuple.
#[derive(Drop)]
pub struct Summed {
    pub answers: Values,
    pub last: Values,
}

/// What is made of the content that a window marker flushes for a key.
#[derive(Drop)]
pub struct SummedContent {
    pub key: Values,
    pub summed: Summed,
}

/// What is made of the contents that a window marker flushes, by ascending key.
pub type SummedList = Items<SummedContent>;
