//! What checked graphs keep of each operator and of each stream, as texts.
//!
//! | Text | What is kept |
//! |---|---|
//! | `FileSource a.csv strict`, `FileSink o.csv` | files, and how a source's is parsed |
//! | `Filter`, `Filter if` | without a condition, with one |
//! | `Functor if 1 0` | the places of the attributes in the order in which they get their values |
//! | `Punctor before`, `Split` | |
//! | `Union (1 0) (0 2)` | for each port, the places of the output's attributes in its tuples |
//! | `Custom k, mutable m (tuple punct) ()` | the state, and for each port what it handles |
//! | `Aggregate partitioned tumbling count 2 by 1 0 group 2 gives 1 First, 0 Sum int64` | the window, the places of keys and of groups, the outputs in order |
//! | `Join (sliding count 0) (sliding delta 1 5) if 0 1` | the windows of the left and of the right port |
use crate::windows::add_policy;
use language_model::{Checked, CheckedClauses, CollectedAttribute, Collector, Handlers, Position};
use spl_tree::{Code, Slot};
use test_texts::text::Text;
use test_texts::types::{add_attributes, integer_word};

// Places, each after a blank.
fn add_places(text: &mut Text, places: &[u32]) {
    for place in places {
        text.add_place(" ", *place);
    }
}

fn add_collector(text: &mut Text, collector: Collector) {
    match collector {
        Collector::Sum(kind) => {
            text.add(" Sum ");
            text.add(integer_word(kind));
        }
        Collector::Min => text.add(" Min"),
        Collector::Max => text.add(" Max"),
        Collector::First => text.add(" First"),
        Collector::Last => text.add(" Last"),
        Collector::Count => text.add(" Count"),
    }
}

fn add_collected(text: &mut Text, output: &[CollectedAttribute]) {
    for (at, collected) in output.iter().enumerate() {
        text.add_between(at, ",");
        text.add_place(" ", collected.attribute);
        add_collector(text, collected.collector);
    }
}

fn add_condition(text: &mut Text, condition: &Option<Code<Slot>>) {
    if condition.is_some() {
        text.add(" if");
    }
}

// The places of the fields of a tuple, in the order in which they are evaluated.
fn add_fields(text: &mut Text, output: &Code<Slot>) {
    if let Code::Tuple(fields) = output {
        for (place, _) in fields.as_slice() {
            text.add_place(" ", *place);
        }
    } else {
        text.add(" no tuple");
    }
}

fn add_state(text: &mut Text, handlers: &Handlers) {
    for (at, first) in handlers.state.as_slice().iter().enumerate() {
        text.add_between(at, ",");
        text.add(" ");
        if first.variable.mutable {
            text.add("mutable ");
        }
        text.add_bytes(first.variable.name.as_slice());
    }
}

fn handled(tuple: bool, punct: bool) -> &'static str {
    match (tuple, punct) {
        (true, true) => " (tuple punct)",
        (true, false) => " (tuple)",
        (false, true) => " (punct)",
        (false, false) => " ()",
    }
}

fn add_handlers(text: &mut Text, handlers: &Handlers) {
    for (port, tuple) in handlers.on_tuple.as_slice().iter().enumerate() {
        let punct = match handlers.on_punct.as_slice().get(port) {
            Some(punct) => punct.is_some(),
            None => false,
        };
        text.add(handled(tuple.is_some(), punct));
    }
}

fn add_part(text: &mut Text, part: &CheckedClauses) {
    match part {
        CheckedClauses::FileSource { file, strict } => {
            text.add("FileSource ");
            text.add_bytes(file.as_slice());
            text.add(if *strict { " strict" } else { " permissive" });
        }
        CheckedClauses::FileSink { file } => {
            text.add("FileSink ");
            text.add_bytes(file.as_slice());
        }
        CheckedClauses::Filter { condition } => {
            text.add("Filter");
            add_condition(text, condition);
        }
        CheckedClauses::Functor { condition, output } => {
            text.add("Functor");
            add_condition(text, condition);
            add_fields(text, output);
        }
        CheckedClauses::Punctor { position, .. } => text.add(match position {
            Position::Before => "Punctor before",
            Position::After => "Punctor after",
        }),
        CheckedClauses::Split { .. } => text.add("Split"),
        _ => add_further_part(text, part),
    }
}

// Those with several ports or with windows.
fn add_further_part(text: &mut Text, part: &CheckedClauses) {
    match part {
        CheckedClauses::Union { places } => {
            text.add("Union");
            for port in places.as_slice() {
                add_port(text, port.as_slice());
            }
        }
        CheckedClauses::Custom { handlers } => {
            text.add("Custom");
            add_state(text, handlers);
            add_handlers(text, handlers);
        }
        CheckedClauses::Aggregate {
            window,
            partition,
            group,
            output,
        } => {
            text.add("Aggregate ");
            add_policy(text, *window);
            text.add(" by");
            add_places(text, partition.as_slice());
            text.add(" group");
            add_places(text, group.as_slice());
            text.add(" gives");
            add_collected(text, output.as_slice());
        }
        CheckedClauses::Join {
            left,
            right,
            condition,
            output,
        } => {
            text.add("Join (");
            add_policy(text, *left);
            text.add(") (");
            add_policy(text, *right);
            text.add(")");
            add_condition(text, condition);
            add_fields(text, output);
        }
        _ => {}
    }
}

// The places of one port of a Union.
fn add_port(text: &mut Text, places: &[u32]) {
    text.add(" (");
    for (at, place) in places.iter().enumerate() {
        text.add_between(at, " ");
        text.add_number(i128::from(*place));
    }
    text.add(")");
}

/// Adds what is kept of each operator, with `; ` between them.
pub fn add_parts(text: &mut Text, checked: &Checked) {
    for (at, part) in checked.parts.as_slice().iter().enumerate() {
        text.add_between(at, "; ");
        add_part(text, part);
    }
}

/// Adds the attributes of each stream, with `; ` between the streams.
pub fn add_schemas(text: &mut Text, checked: &Checked) {
    for (at, schema) in checked.schemas.as_slice().iter().enumerate() {
        text.add_between(at, "; ");
        add_attributes(text, schema.as_slice());
    }
}
