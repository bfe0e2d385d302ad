use spl_value::Value;

/// Where a statement leads.
#[derive(Drop)]
pub enum Flow {
    /// The next statement follows.
    Next,
    /// The nearest loop around it ends.
    Broken,
    /// The nearest loop around it goes on with its next turn.
    Continued,
    /// The body ends, with the value that it returns where it returns one.
    Returned(Option<Value>),
}
