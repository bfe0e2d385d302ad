use spl_tree::Marker;
use spl_value::{Items, Values};

/// The tuples at the ports of a scope.
pub type Tuples = Items<Values>;

/// What an expression is evaluated in: the tuple at each port of its scope, the value of each
/// variable, by the places in the scope, and the marker that came where one did.
pub struct Env {
    pub inputs: Tuples,
    pub vars: Values,
    pub punct: Option<Marker>,
}

impl Drop for Env {
    fn drop(self) {
        let Env {
            inputs: _,
            vars: _,
            punct: _,
        } = self;
    }
}
