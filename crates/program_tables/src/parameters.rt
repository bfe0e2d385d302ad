//! The values and the defaults of parameters.
ghost use Rattle.std.specs.Prelude.{◌≡◌};
ghost use Rattle.std.specs.Option.{option_copied};
ghost use Rattle.language_model.specs.DollarTargets.{default_named, only_value, value_named};

use spl_tree::{CompositeParameter, Expr, Parameter};

/// The one value of the first parameter of the name.
pub fn value_named<'a>(parameters: &'a [Parameter], name: &[u8]) -> Option<&'a Expr>
    ensures { option_copied result ≡ value_named parameters.now name.now }
{
    for parameter in parameters {
        if parameter.name.what.as_slice() == name {
            return only(parameter.values.as_slice());
        }
    }
    None
}

fn only(values: &[Expr]) -> Option<&Expr>
    ensures { option_copied result ≡ only_value values.now }
{
    match values {
        [value] => Some(value),
        _ => None,
    }
}

/// The default of the first parameter of the name.
pub fn default_named<'a>(heads: &'a [CompositeParameter], name: &[u8]) -> Option<&'a Expr>
    ensures { option_copied result ≡ default_named heads.now name.now }
{
    for head in heads {
        if head.name.what.as_slice() == name {
            return head.default.as_ref();
        }
    }
    None
}
