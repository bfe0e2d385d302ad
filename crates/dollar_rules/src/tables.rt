//! The values of the `$` parameters of composites in each expansion.
ghost use Rattle.std.specs.Prelude.{◌≡◌, IfOk, map};
ghost use Rattle.language_model.specs.Parameters.{constant_scope, dollar_tables, expansion_dollars, tables_from};
ghost use Rattle.dollar_rules.specs.steps.Tables.{AreConstants, tables_of};

use crate::heads::Head;
use crate::settling::{no_names, settle_all};
use body_sites::Sites;
use language_model::{Dollar, Scope};
use spl_tree::{Expansion, Unit};
use spl_value::{Items, NoMemory};
use std::alloc::Global;

/// The values of the parameters of an expansion, after those of the expansions before it.
fn expansion_dollars(
    alloc: Global,
    sites: &Sites,
    before: &[Scope],
    expansion: &Expansion,
) -> Result<Scope, NoMemory>
    requires { AreConstants before.now }
    ensures { IfOk result (λ own. own
        ≡ constant_scope (expansion_dollars sites.now.unit.now sites.now.expansions.now (tables_of before.now) expansion.now)) }
{
    let nothing = no_names(alloc);
    let Some(composite) = sites.composite(expansion) else {
        return Ok(nothing);
    };
    let outer = match expansion.site {
        Some(site) => before.get(site.expansion as usize).unwrap_or(&nothing),
        None => &nothing,
    };
    let Some(types) = sites.types(expansion) else {
        return Ok(nothing);
    };
    let arguments = sites.arguments(expansion);
    let head = Head::new(
        alloc,
        types,
        outer,
        arguments,
        composite.parameters.as_slice(),
    )?;
    settle_all(alloc, &head)
}

/// The values of the `$` parameters of the composites, in each expansion. A parameter that is
/// refused is there with its refusal.
///
/// `NoMemory` is also the answer for defaults that mention each other in a row of more than 1,000, and for what
/// would have a code deeper than 1,000 or of more than 65,536 parts.
pub fn dollar_tables(
    alloc: Global,
    unit: &Unit,
    expansions: &[Expansion],
) -> Result<Items<Items<Dollar>>, NoMemory>
    ensures { IfOk result (λ tables. tables ≡ dollar_tables unit.now expansions.now) }
{
    let sites = Sites::new(alloc, unit, expansions)?;
    let scopes = each_scope(alloc, &sites, expansions)?;
    tables(alloc, scopes)
}

/// Where the parameters of each expansion can be named.
fn each_scope(
    alloc: Global,
    sites: &Sites,
    expansions: &[Expansion],
) -> Result<Vec<Scope>, NoMemory>
    requires { sites.now.expansions.now ≡ expansions.now }
    ensures { IfOk result (λ scopes. tables_of scopes.items ≡ dollar_tables sites.now.unit.now expansions.now) }
{
    let mut scopes = Vec::new(alloc);
    for expansion in expansions {
        let own = expansion_dollars(alloc, sites, scopes.as_slice(), expansion)?;
        scopes.push(own)?;
    }
    Ok(scopes)
}

fn tables(alloc: Global, scopes: Vec<Scope>) -> Result<Items<Items<Dollar>>, NoMemory>
    ensures { IfOk result (λ tables. tables ≡ tables_of scopes.items) }
{
    let mut tables = Items::new(alloc);
    for scope in scopes {
        tables.push(scope.into_dollars())?;
    }
    Ok(tables)
}
