//! Operators and built-in calls as texts, with the integer type of those that have one.
use spl_tree::{BinaryCode, BuiltIn, IntegerOperator, Marker, OrderOperator, UnaryCode};
use spl_value::IntKind;
use test_texts::text::Text;
use test_texts::types::integer_word;

// Something, and an integer type after it.
fn add_at_kind(text: &mut Text, what: &str, kind: IntKind) {
    text.add(what);
    text.add(integer_word(kind));
}

pub(crate) fn add_unary(text: &mut Text, operator: UnaryCode) {
    match operator {
        UnaryCode::Not => text.add("!"),
        UnaryCode::Negate(kind) => add_at_kind(text, "-", kind),
        UnaryCode::Complement(kind) => add_at_kind(text, "~", kind),
        UnaryCode::ToInteger(kind) => add_at_kind(text, "as-", kind),
        UnaryCode::ToText => text.add("as-rstring"),
    }
}

fn integer_operator(operator: IntegerOperator) -> &'static str {
    match operator {
        IntegerOperator::Multiply => "*",
        IntegerOperator::Divide => "/",
        IntegerOperator::Remainder => "%",
        IntegerOperator::Add => "+",
        IntegerOperator::Subtract => "-",
        IntegerOperator::BitAnd => "&",
        IntegerOperator::BitXor => "^",
        IntegerOperator::BitOr => "|",
    }
}

fn order_operator(operator: OrderOperator) -> &'static str {
    match operator {
        OrderOperator::Less => "<",
        OrderOperator::LessOrEqual => "<=",
        OrderOperator::Greater => ">",
        OrderOperator::GreaterOrEqual => ">=",
    }
}

pub(crate) fn add_binary(text: &mut Text, operator: BinaryCode) {
    match operator {
        BinaryCode::Integers(operator, kind) => add_at_kind(text, integer_operator(operator), kind),
        BinaryCode::Join => text.add("join"),
        BinaryCode::Order(operator) => text.add(order_operator(operator)),
        BinaryCode::Equal => text.add("=="),
        BinaryCode::NotEqual => text.add("!="),
        BinaryCode::And => text.add("&&"),
        BinaryCode::Or => text.add("||"),
        BinaryCode::InList => text.add("in-list"),
        BinaryCode::InMap => text.add("in-map"),
    }
}

pub(crate) fn add_built_in(text: &mut Text, call: BuiltIn) {
    match call {
        BuiltIn::Length => text.add("(length"),
        BuiltIn::Size => text.add("(size"),
        BuiltIn::Has => text.add("(has"),
        BuiltIn::Abs(kind) => add_at_kind(text, "(abs-", kind),
        BuiltIn::Min => text.add("(min"),
        BuiltIn::Max => text.add("(max"),
        BuiltIn::Substring => text.add("(substring"),
    }
}

pub(crate) fn marker_word(marker: Marker) -> &'static str {
    match marker {
        Marker::Window => "window",
        Marker::Final => "final",
    }
}
