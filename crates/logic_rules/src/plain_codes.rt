//! Codes of literals alone.
ghost use Rattle.std.specs.Prelude.{◌≡◌, ◌&&◌};
ghost use Rattle.std.specs.List.{list_all};
ghost use Rattle.language_model.specs.LogicTyping.{is_minus};
ghost use Rattle.language_model.specs.parts.LogicTyping.{is_plain};

use spl_tree::{Code, Slot, UnaryCode};

fn is_minus(operator: UnaryCode) -> bool
    ensures { result ≡ is_minus operator }
{
    matches!(operator, UnaryCode::Negate(_))
}

fn are_minus(operators: &[UnaryCode]) -> bool
    ensures { result ≡ list_all is_minus operators.now }
{
    for operator in operators {
        if !is_minus(*operator) {
            return false;
        }
    }
    true
}

/// Whether a code is one of literals and `-`, and of lists, maps and tuples of such.
#[cycle(plain)]
#[tactic(auto, using(crate::proofs::PlainLaws::plain_laws, code_copies::proofs::CodeWeights::weight_laws))]
pub(crate) fn is_plain(code: &Code<Slot>) -> bool
    ensures { result ≡ is_plain code.now }
{
    match code {
        Code::Literal(_) => true,
        Code::List(codes) => are_plain(codes.as_slice()),
        Code::Map(entries) => are_plain_entries(entries.as_slice()),
        Code::Tuple(fields) => are_plain_fields(fields.as_slice()),
        Code::Unary(operators, operand) => {
            are_minus(operators.as_slice()) && is_plain(operand.get())
        }
        _ => false,
    }
}

#[cycle(plain)]
fn are_plain(codes: &[Code<Slot>]) -> bool
    ensures { result ≡ list_all is_plain codes.now }
{
    for code in codes {
        if !is_plain(code) {
            return false;
        }
    }
    true
}

#[cycle(plain)]
fn are_plain_entries(entries: &[(Code<Slot>, Code<Slot>)]) -> bool
    ensures { result ≡ list_all (λ e. is_plain e.0 && is_plain e.1) entries.now }
{
    for (key, value) in entries {
        if !is_plain(key) || !is_plain(value) {
            return false;
        }
    }
    true
}

#[cycle(plain)]
fn are_plain_fields(fields: &[(u32, Code<Slot>)]) -> bool
    ensures { result ≡ list_all (λ f. is_plain f.1) fields.now }
{
    for (_, value) in fields {
        if !is_plain(value) {
            return false;
        }
    }
    true
}
