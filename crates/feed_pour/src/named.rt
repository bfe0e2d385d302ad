// A named file of a shelf, read as a whole. The feed is given back.
ghost use Rattle.std.specs.Prelude.{◌≡◌, ◌<◌, ◌-◌, ◌^◌, IfSome};
ghost use Rattle.feed_pour.specs.Contents.{WhereTold, TellsSame};
ghost use Rattle.feed_pour.specs.Named.{FetchedOf, FetchedWithin, FetchCounted};

use crate::{Opened, ReadAll, Shelf, read_all};
use spl_value::{Bytes, Name};
use std::alloc::Global;

/// What a file of a shelf gave.
#[derive(Drop)]
pub enum Fetched {
    /// All of its bytes.
    Whole(Bytes),
    /// It gives more bytes than the limit.
    TooLong,
    /// It can't be opened.
    OpenFailed,
    /// A read failed, within the limit.
    ReadFailed,
    Memory,
}

/// Reads the file of this name, up to a limit of bytes, and gives its feed back.
pub fn fetch<H: Shelf>(alloc: Global, shelf: &mut H, name: &Name, limit: usize) -> Fetched
    ensures within { FetchedWithin result limit }
    ensures read { IfSome (H.told shelf.old) (λ t. FetchedOf (t.script name.now) result limit) }
    ensures told { WhereTold (H.told shelf.old) (H.told shelf.new) TellsSame }
    ensures cause { FetchCounted result (H.counts shelf.old) (H.counts shelf.new) name.now }
    ensures lent { H.lent shelf.old < 2 ^ 64 - 1 → H.lent shelf.new ≡ H.lent shelf.old }
{
    match shelf.open_in(name) {
        Opened::Failed => Fetched::OpenFailed,
        Opened::Memory => Fetched::Memory,
        Opened::Ok(mut feed) => {
            let read = read_all(alloc, &mut feed, limit);
            shelf.close_in(name, feed);
            match read {
                ReadAll::Whole(bytes) => Fetched::Whole(bytes),
                ReadAll::TooLong => Fetched::TooLong,
                ReadAll::Failed => Fetched::ReadFailed,
                ReadAll::Memory => Fetched::Memory,
            }
        }
    }
}
