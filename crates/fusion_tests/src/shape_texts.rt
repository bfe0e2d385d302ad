//! Shapes as texts: `chain T; splitter 0 F; replica 0.0 F; merger 0 F; 0.0 1.0; ..` has the elements, each with its
//! region and its operators, and then the links, each from an element and its output to an element and its input.
ghost use Rattle.std.specs.Prelude.{◌≤◌, length};

use language_model::Checked;
use pe_fusion::{ElementPorts, FuseAnswer, element_ports, fuse, groups};
use region_choice::choose;
use spl_value::{Ids, Schema};
use std::alloc::Global;
use stream_model::{Plan, Role, Shape, ShapeElement, ShapeLink};
use test_texts::text::Text;

fn add_role(text: &mut Text, role: Role, region: Option<u32>) {
    match role {
        Role::Chain => text.add("chain"),
        Role::Splitter => text.add("splitter"),
        Role::Replica(_) => text.add("replica"),
        Role::Merger => text.add("merger"),
    }
    if let Some(region) = region {
        text.add_place(" ", region);
    }
    if let Role::Replica(channel) = role {
        text.add_place(".", channel);
    }
}

fn add_element(text: &mut Text, checked: &Checked, element: &ShapeElement) {
    add_role(text, element.role, element.region);
    for number in element.ids.as_slice() {
        text.add(" ");
        match checked.graph.ops.get(*number as usize) {
            Some(op) => text.add_bytes(op.name.as_slice()),
            None => text.add("?"),
        }
    }
}

fn add_link(text: &mut Text, link: &ShapeLink) {
    text.add_place("; ", link.from);
    text.add_place(".", link.output);
    text.add_place(" ", link.to);
    text.add_place(".", link.input);
}

fn add_shape(text: &mut Text, checked: &Checked, shape: &Shape) {
    for (at, element) in shape.elements.as_slice().iter().enumerate() {
        text.add_between(at, "; ");
        add_element(text, checked, element);
    }
    for link in shape.links.as_slice() {
        add_link(text, link);
    }
}

fn add_size(text: &mut Text, shape: &Shape) {
    text.add_number(shape.elements.len() as i128);
    text.add(" elements ");
    text.add_number(shape.links.len() as i128);
    text.add(" links");
}

fn add_group(text: &mut Text, group: &Ids) {
    for element in group.as_slice() {
        text.add_place(" ", *element);
    }
}

fn add_groups(alloc: Global, text: &mut Text, shape: &Shape, workers: u32)
    requires { length shape.now.elements ≤ 2048 }
{
    if workers == 0 {
        return text.add("no groups");
    }
    match groups(alloc, shape, workers) {
        Ok(groups) => {
            for (at, group) in groups.as_slice().iter().enumerate() {
                text.add_between(at, ";");
                add_group(text, group);
            }
        }
        Err(_) => text.add("memory"),
    }
}

fn add_schema(text: &mut Text, word: &str, schema: &Schema) {
    text.add(word);
    for (at, attribute) in schema.as_slice().iter().enumerate() {
        text.add_between(at, ",");
        text.add_bytes(attribute.name.as_slice());
    }
}

/// The attributes of its source, of each input, and the connections of each output port.
fn add_own_ports(text: &mut Text, ports: &ElementPorts) {
    if let Some(source) = &ports.source {
        add_schema(text, "source ", source);
    }
    for schema in ports.ins.as_slice() {
        add_schema(text, " in ", schema);
    }
    for fan in ports.fans.as_slice() {
        text.add_place(" out ", *fan);
    }
}

fn add_ports(
    alloc: Global,
    text: &mut Text,
    checked: &Checked,
    plan: &Plan,
    width: u32,
    shape: &Shape,
) {
    match element_ports(alloc, checked, plan, width, shape) {
        Ok(all) => {
            for (at, ports) in all.as_slice().iter().enumerate() {
                text.add_between(at, ";");
                add_own_ports(text, ports);
            }
        }
        Err(_) => text.add("memory"),
    }
}

/// What is asked of a shape.
#[derive(Clone, Copy)]
pub(crate) enum Shown {
    All,
    /// How many elements and links it has.
    Size,
    /// The elements of each of so many workers.
    Groups(u32),
    /// The inputs and outputs of its elements.
    Ports,
}

/// Adds what is asked of the shape of a program at a width.
pub(crate) fn add_fused(
    alloc: Global,
    text: &mut Text,
    checked: &Checked,
    width: u32,
    shown: Shown,
) {
    if width > 16 {
        return text.add("no width");
    }
    let Ok(plan) = choose(alloc, checked) else {
        return text.add("memory");
    };
    match fuse(alloc, checked, &plan, width) {
        Ok(shape) => match shown {
            Shown::All => add_shape(text, checked, &shape),
            Shown::Size => add_size(text, &shape),
            Shown::Groups(workers) => add_groups(alloc, text, &shape, workers),
            Shown::Ports => add_ports(alloc, text, checked, &plan, width, &shape),
        },
        Err(FuseAnswer::TooWide(size)) => text.add_place("too wide ", size),
        Err(FuseAnswer::Memory) => text.add("memory"),
    }
}
