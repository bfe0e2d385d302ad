//! Windows as texts: `tumbling count 2`, `partitioned sliding delta 1 5 every 2`.
use language_model::{Policy, WindowRule};
use test_texts::text::Text;

fn add_count(text: &mut Text, words: &str, count: u64) {
    text.add(words);
    text.add_number(i128::from(count));
}

fn add_every(text: &mut Text, every: Option<u64>) {
    if let Some(every) = every {
        add_count(text, " every ", every);
    }
}

// The place of an attribute and the limit of its differences.
fn add_difference(text: &mut Text, words: &str, attribute: u32, limit: i128) {
    text.add_place(words, attribute);
    text.add(" ");
    text.add_number(limit);
}

/// Adds a window.
pub(crate) fn add_policy(text: &mut Text, policy: Policy) {
    if policy.partitioned {
        text.add("partitioned ");
    }
    match policy.rule {
        WindowRule::TumblingCount(count) => add_count(text, "tumbling count ", count),
        WindowRule::TumblingDelta { attr, limit } => {
            add_difference(text, "tumbling delta ", attr, limit);
        }
        WindowRule::TumblingPunct => text.add("tumbling punct"),
        WindowRule::SlidingCount { keep, every } => {
            add_count(text, "sliding count ", keep);
            add_every(text, every);
        }
        WindowRule::SlidingDelta { attr, limit, every } => {
            add_difference(text, "sliding delta ", attr, limit);
            add_every(text, every);
        }
    }
}
