//! How large the codes of values of `$` parameters are. Each use of a parameter copies its code, so a
//! row of them may grow to twice as much at each step.
ghost use Rattle.std.specs.Prelude.{◌≡◌, ◌+◌, ◌<◌, ◌≤◌, ◌&&◌, nat_le};
ghost use Rattle.std.specs.Bool.{OnFalse, OnTrue};
ghost use Rattle.spl_tree.specs.declared.depth.TheConstants.{MOST_HEIGHT};
ghost use Rattle.dollar_rules.specs.steps.Weights.{depth, depth_in, entry_codes, field_codes, parts, parts_in, selector_codes};

use spl_tree::{Code, MOST_HEIGHT, Selector, Slot};

/// How many parts the code of a parameter's value may have at most.
const MOST_PARTS: u32 = 65_536;

/// Whether a code is so small that it can be copied at each use.
pub(crate) fn is_small(code: &Code<Slot>) -> bool
    ensures { result ≡ (nat_le (depth code.now) MOST_HEIGHT && nat_le (parts code.now) MOST_PARTS) }
{
    let mut left = MOST_PARTS;
    fits(code, MOST_HEIGHT, &mut left)
}

/// Whether a code is no deeper than that many levels and has no more parts than are left, from which
/// its own are then taken. After `false` what is left means nothing.
#[cycle(fits)]
#[tactic(auto, using(crate::proofs::WeightLaws::weight_laws))]
fn fits(code: &Code<Slot>, levels: u32, left: &mut u32) -> bool
    ensures shallow { OnTrue result (depth code.now ≤ levels) }
    ensures counted { OnTrue result (left.old ≡ left.new + parts code.now) }
    ensures large { OnFalse result (depth code.now ≤ levels → left.old < parts code.now) }
{
    let (Some(inner), Some(fewer)) = (levels.checked_sub(1), left.checked_sub(1)) else {
        return false;
    };
    *left = fewer;
    match code {
        Code::Literal(_) | Code::Name(_) | Code::IsMarker(_) | Code::IsNotMarker(_) => true,
        Code::List(codes) | Code::BuiltIn(_, codes) | Code::Call(_, codes) => {
            all_fit(codes.as_slice(), inner, left)
        }
        Code::Map(entries) => entries_fit(entries.as_slice(), inner, left),
        Code::Tuple(fields) => fields_fit(fields.as_slice(), inner, left),
        Code::Select(base, takings) => {
            fits(base.get(), inner, left) && takings_fit(takings.as_slice(), inner, left)
        }
        Code::Unary(_, operand) => fits(operand.get(), inner, left),
        Code::Binary(_, first, second) => {
            fits(first.get(), inner, left) && fits(second.get(), inner, left)
        }
        Code::Conditional(condition, first, second) => {
            fits(condition.get(), inner, left)
                && fits(first.get(), inner, left)
                && fits(second.get(), inner, left)
        }
    }
}

#[cycle(fits)]
fn all_fit(codes: &[Code<Slot>], levels: u32, left: &mut u32) -> bool
    ensures shallow { OnTrue result (depth_in codes.now ≤ levels) }
    ensures counted { OnTrue result (left.old ≡ left.new + parts_in codes.now) }
    ensures large { OnFalse result (depth_in codes.now ≤ levels → left.old < parts_in codes.now) }
{
    for code in codes {
        if !fits(code, levels, left) {
            return false;
        }
    }
    true
}

#[cycle(fits)]
fn entries_fit(entries: &[(Code<Slot>, Code<Slot>)], levels: u32, left: &mut u32) -> bool
    ensures shallow { OnTrue result (depth_in (entry_codes entries.now) ≤ levels) }
    ensures counted { OnTrue result (left.old ≡ left.new + parts_in (entry_codes entries.now)) }
    ensures large { OnFalse result (depth_in (entry_codes entries.now) ≤ levels → left.old < parts_in (entry_codes entries.now)) }
{
    for entry in entries {
        if !fits(&entry.0, levels, left) || !fits(&entry.1, levels, left) {
            return false;
        }
    }
    true
}

#[cycle(fits)]
fn fields_fit(fields: &[(u32, Code<Slot>)], levels: u32, left: &mut u32) -> bool
    ensures shallow { OnTrue result (depth_in (field_codes fields.now) ≤ levels) }
    ensures counted { OnTrue result (left.old ≡ left.new + parts_in (field_codes fields.now)) }
    ensures large { OnFalse result (depth_in (field_codes fields.now) ≤ levels → left.old < parts_in (field_codes fields.now)) }
{
    for field in fields {
        if !fits(&field.1, levels, left) {
            return false;
        }
    }
    true
}

#[cycle(fits)]
fn takings_fit(takings: &[Selector<Code<Slot>>], levels: u32, left: &mut u32) -> bool
    ensures shallow { OnTrue result (depth_in (selector_codes takings.now) ≤ levels) }
    ensures counted { OnTrue result (left.old ≡ left.new + parts_in (selector_codes takings.now)) }
    ensures large { OnFalse result (depth_in (selector_codes takings.now) ≤ levels → left.old < parts_in (selector_codes takings.now)) }
{
    for taking in takings {
        if let Selector::Element(code) | Selector::AtKey(code) = taking
            && !fits(code, levels, left)
        {
            return false;
        }
    }
    true
}
