//! Which links lead to an element, and which lead away from it.
ghost use Rattle.std.specs.Prelude.{◌≡◌, ◌<◌, ◌^◌, ℕ, [], IfOk, length, replicate, slice_get, Some};
ghost use Rattle.stream_model.specs.declared.shape.ShapeLink.{ShapeLink as LinkSpec};
ghost use Rattle.link_queues.specs.Ends.{IsAmong, Lists, receiver, sender};

use spl_value::{Ids, Items, NoMemory};
use std::alloc::Global;
use stream_model::ShapeLink;

/// So many empty rows.
fn empty_rows(alloc: Global, count: u32) -> Result<Items<Ids>, NoMemory>
    ensures { IfOk result (λ rows. rows ≡ replicate count []) }
{
    let mut rows = Vec::with_capacity(alloc, count as usize)?;
    for _ in 0..count {
        rows.push(Ids::new(alloc))?;
    }
    Ok(Items::from_vec(rows))
}

/// By element, the links that lead to it.
pub(crate) fn entering_links(
    alloc: Global,
    links: &[ShapeLink],
    elements: u32,
) -> Result<Items<Ids>, NoMemory>
    requires few { length links.now < 2 ^ 32 }
    requires within { (l : ℕ) (x : LinkSpec) → slice_get links.now l ≡ Some x → x.to < elements }
    ensures lists { IfOk result (λ rows. Lists receiver links.now rows) }
    ensures many { IfOk result (λ rows. length rows ≡ elements) }
{
    let mut rows = empty_rows(alloc, elements)?;
    let mut number = 0u32;
    'links: for link in links {
        rows.item_mut(link.to as usize).push(number)?;
        number += 1;
    }
    Ok(rows)
}

/// By element, the links that lead away from it.
pub(crate) fn leading_links(
    alloc: Global,
    links: &[ShapeLink],
    elements: u32,
) -> Result<Items<Ids>, NoMemory>
    requires few { length links.now < 2 ^ 32 }
    requires within { (l : ℕ) (x : LinkSpec) → slice_get links.now l ≡ Some x → x.from < elements }
    ensures lists { IfOk result (λ rows. Lists sender links.now rows) }
    ensures many { IfOk result (λ rows. length rows ≡ elements) }
{
    let mut rows = empty_rows(alloc, elements)?;
    let mut number = 0u32;
    'links: for link in links {
        rows.item_mut(link.from as usize).push(number)?;
        number += 1;
    }
    Ok(rows)
}

/// One of these links whose output is this one.
fn search_output(links: &[ShapeLink], row: &[u32], output: u32) -> Option<u32>
    requires within { (j l : ℕ) → slice_get row.now j ≡ Some l → l < length links.now }
    ensures { IsAmong links.now row.now output result }
{
    'row: for link in row {
        if links[*link as usize].output == output {
            return Some(*link);
        }
    }
    None
}

/// The same, where it is looked for first at the place where it stands if the links stand in the order of their outputs.
pub(crate) fn find_output(links: &[ShapeLink], row: &[u32], output: u32) -> Option<u32>
    requires within { (j l : ℕ) → slice_get row.now j ≡ Some l → l < length links.now }
    ensures { IsAmong links.now row.now output result }
{
    if (output as usize) < row.len() {
        let link = row[output as usize];
        if links[link as usize].output == output {
            return Some(link);
        }
    }
    search_output(links, row, output)
}
