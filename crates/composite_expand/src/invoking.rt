//! What an invocation names.
ghost use Rattle.std.specs.Prelude.{◌≡◌, ◌++◌, IfOk, flat_map};
ghost use Rattle.std.specs.Option.{option_copied};
ghost use Rattle.language_model.specs.Declarations.{first_of};
ghost use Rattle.language_model.specs.Invoking.{target_of, undeclared};
ghost use Rattle.language_model.specs.Mentions.{clause_mentions};
ghost use Rattle.composite_expand.specs.steps.Invocations.{seen, named, streams_read, undeclared_operator, undeclared_parameters, unreadable};

use composite_tables::{Composites, Scope};
use operator_kinds::kind_named;
use program_tables::{Mention, of_invocation};
use spl_tree::{Clauses, InputPort, Invocation, OpKind, Placed};
use spl_value::{Name, NoMemory};
use std::alloc::Global;

/// What is invoked by a name.
#[derive(Clone, Copy)]
pub(crate) enum Target<'c, 'u> {
    Operator(OpKind),
    /// A composite, with its place.
    Body(u32, &'c Scope<'u>),
    Nothing,
}

/// What is invoked by a name: a composite of the unit, or else an operator.
pub(crate) fn target_of<'c, 'u>(composites: &'c Composites<'u>, name: &[u8]) -> Target<'c, 'u>
    ensures { seen result ≡ target_of composites.now.unit.now name.now }
{
    match composites.named(name) {
        Some((place, scope)) => Target::Body(place, scope),
        None => match kind_named(name) {
            Some(kind) => Target::Operator(kind),
            None => Target::Nothing,
        },
    }
}

/// The first stream that a port names and that may not be read.
fn unreadable_of<'u>(scope: &Scope<'_>, port: &'u InputPort) -> Option<&'u Placed<Name>>
    ensures { option_copied result ≡ first_of (unreadable scope.now.composite.now port.now.streams) }
{
    for name in port.streams.as_slice() {
        if !scope.may_read(name.what.as_slice()) {
            return Some(name);
        }
    }
    None
}

/// The first such stream of an invocation.
fn first_unreadable<'u>(scope: &Scope<'_>, ports: &'u [InputPort]) -> Option<&'u Placed<Name>>
    ensures { option_copied result ≡ first_of (unreadable scope.now.composite.now (flat_map (λ p. p.streams) ports.now)) }
{
    for port in ports {
        if let Some(name) = unreadable_of(scope, port) {
            return Some(name);
        }
    }
    None
}

/// The first of the operator and the streams that an invocation names which isn't declared.
fn undeclared_operator_or_stream<'u>(
    composites: &Composites<'_>,
    scope: &Scope<'_>,
    invocation: &'u Invocation,
) -> Option<&'u Placed<Name>>
    ensures { option_copied result ≡ first_of (undeclared_operator composites.now.unit.now invocation.now ++ unreadable scope.now.composite.now (streams_read invocation.now)) }
{
    match target_of(composites, invocation.operator.what.as_slice()) {
        Target::Nothing => Some(&invocation.operator),
        _ => first_unreadable(scope, invocation.inputs.as_slice()),
    }
}

/// The first `$` parameter that clauses mention and that the composite doesn't have.
fn undeclared_parameter<'u>(
    alloc: Global,
    scope: &Scope<'_>,
    clauses: &'u Clauses,
) -> Result<Option<Placed<&'u Name>>, NoMemory>
    ensures { IfOk result (λ found. named found ≡ first_of (undeclared_parameters scope.now.composite.now (clause_mentions clauses.now))) }
{
    let mentions = of_invocation(alloc, clauses)?;
    for mention in mentions.as_slice() {
        if let Mention::Dollar(name) = mention.what {
            if !scope.has_parameter(name.as_slice()) {
                return Ok(Some(Placed {
                    at: mention.at,
                    what: name,
                }));
            }
        }
    }
    Ok(None)
}

/// The first name of an invocation that isn't declared: of its operator, the streams that it reads and
/// the `$` parameters in its clauses.
pub(crate) fn undeclared<'u>(
    alloc: Global,
    composites: &Composites<'_>,
    scope: &Scope<'_>,
    invocation: &'u Invocation,
) -> Result<Option<Placed<&'u Name>>, NoMemory>
    ensures { IfOk result (λ found. named found ≡ first_of (undeclared composites.now.unit.now scope.now.composite.now invocation.now)) }
{
    match undeclared_operator_or_stream(composites, scope, invocation) {
        Some(name) => Ok(Some(Placed {
            at: name.at,
            what: &name.what,
        })),
        None => undeclared_parameter(alloc, scope, &invocation.clauses),
    }
}
