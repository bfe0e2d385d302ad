//! A source's whole stream as a list.
ghost use Rattle.std.specs.Prelude.{◌≡◌, ◌≤◌, ◌<◌, ◌^◌, ◌++◌, ◌∷◌, [], true, false, IfOk, IfSome, OnOk, vec_len};
ghost use Rattle.std.specs.List.{All};
ghost use Rattle.std.specs.Vec.{vec_capacity};
ghost use Rattle.feed_pour.specs.Counts.{Counted};
ghost use Rattle.spl_value.specs.Numbered;
ghost use Rattle.language_model.specs.Checking.{has_text_form};
ghost use Rattle.stream_model.specs.Rows.{rows};
ghost use Rattle.stream_model.specs.Stream.{TuplesFit, is_closed};
ghost use Rattle.row_reader.specs.Reading.{failed_rows, setting};
ghost use Rattle.stream_model.specs.SourceFaults.{NamesOperator};

use crate::rows::Rows;
use feed_pour::Feed;
use spl_value::{Item, Items, NoMemory, Schema};
use std::alloc::Global;

/// Whether nothing follows an item.
fn closes(item: &Item) -> bool
    ensures { result ≡ Numbered.closes item.now }
{
    match item {
        Item::Tuple(_) | Item::Window => false,
        Item::Final | Item::Bad(_) => true,
    }
}

/// Adds an item where there is room.
fn add(items: &mut Vec<Item>, item: Item)
    requires { vec_len items.old < vec_capacity items.old }
    ensures { items.new.items ≡ items.old.items ++ item ∷ [] }
{
    let Ok(()) = items.push(item) else {
        unreachable!()
    };
}

/// All items of a feed of which nothing was read, up to its end or the first fault. The schema has
/// integers, booleans and texts; `op` is the operator's number, and `limit` the most bytes of the
/// file.
pub fn read_rows<F: Feed>(
    alloc: Global,
    feed: &mut F,
    schema: &Schema,
    strict: bool,
    op: u32,
    limit: u64,
) -> Result<Items<Item>, NoMemory>
    requires limit { limit ≤ 2 ^ 40 }
    requires form { has_text_form schema.now ≡ true }
    ensures items { IfOk result (λ items. IfSome (F.script feed.old) (λ s. items
        ≡ rows (setting op schema.now strict limit) s.bytes s.ending)) }
    ensures closed { IfOk result (λ items. is_closed items ≡ true) }
    ensures fit { IfOk result (λ items. TuplesFit schema.now items) }
    ensures faults { IfOk result (λ items. All (NamesOperator op) items) }
    ensures cause { Counted (failed_rows result) (F.faults feed.old) (F.faults feed.new) }
{
    let mut rows = Rows::new(alloc, schema, strict, op, limit)?;
    let mut items = Vec::new(alloc);
    'items: loop {
        items.reserve(1)?;
        let item = rows.next(feed)?;
        let last = closes(&item);
        add(&mut items, item);
        if last {
            return Ok(Items::from_vec(items));
        }
    }
}
