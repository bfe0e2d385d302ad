//! The expressions that are the values of `$` parameters.
ghost use Rattle.std.specs.Prelude.{◌≡◌, length};
ghost use Rattle.std.specs.Option.{option_copied};
ghost use Rattle.language_model.specs.DollarTargets.{arguments_of, expression_meant, heads_of, parameter_target, target};
ghost use Rattle.language_model.specs.parts.DollarTargets.{target_in};
ghost use Rattle.literal_sites.specs.steps.Following.{target_seen};
ghost use Rattle.literal_sites.specs.Sites.{followed_in};

use program_tables::{SiteTable, default_named, value_named};
use spl_tree::{CompositeParameter, Expansion, Expr, ExprKind, Parameter};

/// The body of the expansion at a number, whose `$` parameters have arguments and defaults as values.
#[derive(Clone, Copy)]
pub struct Follow<'u> {
    pub sites: &'u SiteTable<'u>,
    pub number: u32,
}

impl<'u> Follow<'u> {
    /// The body of the expansion at `number`. Nothing is copied.
    pub fn new(sites: &'u SiteTable<'u>, number: u32) -> Follow<'u>
        ensures { followed_in result ≡ expression_meant sites.now.unit.now sites.now.expansions.now number }
    {
        Follow { sites, number }
    }

    /// The value of a `$` parameter, or an expression itself that is none. An argument is meant
    /// where the composite is invoked, so this goes out through the expansions.
    pub fn target<'e>(&self, expr: &'e Expr) -> Option<&'e Expr>
    where
        'u: 'e,
        ensures { option_copied result ≡ expression_meant self.now.sites.now.unit.now self.now.sites.now.expansions.now self.now.number expr.now }
    {
        let mut number = self.number;
        let mut expr = expr;
        let mut left = self.sites.expansions.len();
        'expansions: while left > 0 {
            left -= 1;
            let expansion = self.sites.expansion(number)?;
            let argument = match self.target_in(expansion, expr) {
                Target::Here(found) => return Some(found),
                Target::Outside(argument) => argument,
                Target::Nowhere => return None,
            };
            let site = expansion.site?;
            number = site.expansion;
            expr = argument;
        }
        None
    }

    /// The value of a `$` parameter in an expansion, or an expression itself that is none.
    fn target_in<'e>(&self, expansion: &Expansion, expr: &'e Expr) -> Target<'e>
    where
        'u: 'e,
        ensures { target_seen result ≡ target_in self.now.sites.now.unit.now self.now.sites.now.expansions.now expansion.now expr.now }
    {
        match expr.what.get() {
            ExprKind::Dollar(name) => {
                parameter_target(
                    self.sites.heads(expansion),
                    self.sites.arguments(expansion),
                    name.as_slice(),
                )
            }
            _ => Target::Here(expr),
        }
    }
}

/// An expression that is no `$` parameter, or an argument, which is meant where the composite is
/// invoked.
enum Target<'e> {
    Here(&'e Expr),
    Outside(&'e Expr),
    Nowhere,
}

/// The value of a `$` parameter: its argument, or else its default, which may be a further one.
/// There are no more of them than parameters, unless they lead back to themselves.
fn parameter_target<'e>(
    heads: &'e [CompositeParameter],
    arguments: &'e [Parameter],
    name: &'e [u8],
) -> Target<'e>
    ensures { target_seen result ≡ parameter_target (length heads.now) heads.now arguments.now name.now }
{
    let mut name = name;
    let mut left = heads.len();
    'defaults: while left > 0 {
        left -= 1;
        if let Some(argument) = value_named(arguments, name) {
            return Target::Outside(argument);
        }
        let Some(default) = default_named(heads, name) else {
            return Target::Nowhere;
        };
        name = match default.what.get() {
            ExprKind::Dollar(other) => other.as_slice(),
            _ => return Target::Here(default),
        };
    }
    Target::Nowhere
}
