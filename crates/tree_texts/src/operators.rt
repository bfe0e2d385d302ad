//! Operators as texts.
use spl_tree::{BinaryOperator, CastTarget, Prefix, PrefixOperator};
use test_texts::text::Text;
use test_texts::types::integer_word;

/// The text of an operator.
pub fn operator_text(operator: BinaryOperator) -> &'static str {
    match operator {
        BinaryOperator::Multiply => "*",
        BinaryOperator::Divide => "/",
        BinaryOperator::Remainder => "%",
        BinaryOperator::Add => "+",
        BinaryOperator::Subtract => "-",
        BinaryOperator::Less => "<",
        BinaryOperator::LessOrEqual => "<=",
        BinaryOperator::Greater => ">",
        BinaryOperator::GreaterOrEqual => ">=",
        BinaryOperator::In => "in",
        BinaryOperator::Equal => "==",
        BinaryOperator::NotEqual => "!=",
        BinaryOperator::BitAnd => "&",
        BinaryOperator::BitXor => "^",
        BinaryOperator::BitOr => "|",
        BinaryOperator::And => "&&",
        BinaryOperator::Or => "||",
    }
}

fn add_prefix(text: &mut Text, prefix: &Prefix) {
    text.add_at(prefix.at);
    match prefix.what {
        PrefixOperator::Not => text.add("!"),
        PrefixOperator::Negate => text.add("-"),
        PrefixOperator::Complement => text.add("~"),
        PrefixOperator::Cast(CastTarget::Text) => text.add("(rstring)"),
        PrefixOperator::Cast(CastTarget::Int(kind)) => {
            text.add("(");
            text.add(integer_word(kind));
            text.add(")");
        }
    }
    text.add(" ");
}

/// Adds prefix operators and casts, each with a space after it.
pub fn add_prefixes(text: &mut Text, prefixes: &[Prefix]) {
    for prefix in prefixes {
        add_prefix(text, prefix);
    }
}
