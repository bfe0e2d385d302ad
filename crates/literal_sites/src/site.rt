use crate::follow::Follow;
use language_model::Scope;

/// Where the expressions of an operator stand: what they may name, and the values of their `$`
/// parameters.
#[derive(Clone, Copy)]
pub struct ExpressionSite<'u> {
    pub scope: &'u Scope,
    pub follow: Follow<'u>,
}
