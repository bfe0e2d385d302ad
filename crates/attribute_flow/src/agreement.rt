ghost use Rattle.std.specs.Prelude.{◌≡◌};
ghost use Rattle.attribute_flow.specs.steps.Agreements.{agreed_on, and_then, is_unseen, of_source};

/// What some tuples that are submitted have as the source of one attribute.
#[derive(Clone, Copy)]
pub(crate) enum Agreement {
    /// There is no tuple.
    Unseen,
    /// Each has that attribute of the input.
    On(u32),
    /// One has no source, or two have different ones.
    Failed,
}

/// That of one tuple with this source.
pub(crate) fn of_source(source: Option<u32>) -> Agreement
    ensures { result ≡ of_source source }
{
    match source {
        Some(attribute) => Agreement::On(attribute),
        None => Agreement::Failed,
    }
}

/// That of some tuples and of others.
pub(crate) fn and_then(first: Agreement, second: Agreement) -> Agreement
    ensures { result ≡ and_then first second }
{
    match (first, second) {
        (Agreement::Unseen, second) => second,
        (first, Agreement::Unseen) => first,
        (Agreement::On(b), Agreement::On(c)) if b == c => Agreement::On(b),
        _ => Agreement::Failed,
    }
}

/// The source that all have, where there is a tuple.
pub(crate) fn agreed_on(agreement: Agreement) -> Option<u32>
    ensures { result ≡ agreed_on agreement }
{
    match agreement {
        Agreement::On(attribute) => Some(attribute),
        Agreement::Unseen | Agreement::Failed => None,
    }
}

/// Whether there is no tuple.
pub(crate) fn is_unseen(agreement: Agreement) -> bool
    ensures { result ≡ is_unseen agreement }
{
    matches!(agreement, Agreement::Unseen)
}
