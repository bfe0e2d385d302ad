//! Calls inside calls.
use spl_tree::MOST_EVALUATED;
use std::alloc::Global;
use test_texts::text::Text;

/// How many functions a chain has: 750, one more than may call each other. A call takes two of how deep
/// codes and statements may nest, itself and the `return` of its function, and the number at the end one.
const COUNT: u32 = MOST_EVALUATED / 2;

// Functions after the chain.
const BEHIND: &str = r#"
int32 less() { return -f747(); }
int32 least() { return -(-f747()); }
int32 more() { return -(-f746()); }
"#;

/// A unit whose first function gives 1, and in which each other one of a chain calls the one before it.
pub(crate) fn chain(alloc: Global) -> Text {
    let mut unit = Text::new(alloc);
    unit.add("int32 f0() { return 1; }");
    for number in 1..COUNT {
        unit.add_place(" int32 f", number);
        unit.add_place("() { return f", number - 1);
        unit.add("(); }");
    }
    unit.add(BEHIND);
    unit
}

pub(crate) const ROWS: &str = r#"
f499() @ 500 => 1 | 0
f499() @ 499 => Turns
# No more than 1,500 codes and statements may nest, those of called functions too.
f748() @ 749 => 1 | 0
f749() @ 750 => no memory
-f748() @ 749 => -1 | 0
--f748() @ 749 => 1 | 0
-(-f748()) @ 749 => no memory
less() @ 749 => -1 | 0
least() @ 749 => no memory
-less() @ 749 => no memory
-more() @ 748 => -1 | 0
-(-more()) @ 748 => no memory
"#;
