// All that a feed gives, and all of some bytes into a pour.
ghost use Rattle.feed_pour.specs.Counts.{Counted};
ghost use Rattle.feed_pour.specs.Contents.{AllRead, ReadWithin, AllPoured, failed_read_all, failed_write};

use crate::{Feed, Pour, PourAnswer};
use spl_value::{Bytes, Items};
use std::alloc::Global;

const PIECE: usize = 8192;

/// What reading a feed to its end gave.
#[derive(Drop)]
pub enum ReadAll {
    /// All of its bytes.
    Whole(Bytes),
    /// It gives more bytes than the limit.
    TooLong,
    /// A read failed, within the limit.
    Failed,
    Memory,
}

/// Reads in pieces of 8,192 bytes up to the end, a fault, or more than `limit` bytes.
pub fn read_all<F: Feed>(alloc: Global, feed: &mut F, limit: usize) -> ReadAll
    ensures read { AllRead (F.script feed.old) result limit }
    ensures within { ReadWithin result limit }
    ensures cause { Counted (failed_read_all result) (F.faults feed.old) (F.faults feed.new) }
{
    let mut bytes = Vec::new(alloc);
    let mut piece = [0u8; PIECE];
    'pieces: while bytes.len() <= limit {
        match feed.read(&mut piece) {
            Ok(0) => return ReadAll::Whole(Items::from_vec(bytes)),
            Ok(n) => {
                if bytes.extend_from_slice(&piece[..n]).is_err() {
                    return ReadAll::Memory;
                }
            }
            Err(_) => return ReadAll::Failed,
        }
    }
    ReadAll::TooLong
}

/// Pours all of these bytes. After an `Err` a front of them is poured, which may be empty.
pub fn write_all<P: Pour>(pour: &mut P, bytes: &[u8]) -> Result<(), PourAnswer>
    ensures poured { AllPoured (P.poured pour.old) (P.poured pour.new) result bytes.now }
    ensures cause { Counted (failed_write result) (P.faults pour.old) (P.faults pour.new) }
{
    let mut at = 0;
    'fronts: while at < bytes.len() {
        match pour.write(&bytes[at..]) {
            Ok(n) => at += n,
            Err(e) => return Err(e),
        }
    }
    Ok(())
}
