//! Streams as the rows of several sinks' files, and a text as a file after them.
ghost use Rattle.std.specs.Prelude.{◌≡◌, ◌+◌, ◌-◌, ◌<◌, ◌≤◌, ◌^◌, [], ◌∷◌, ◌++◌, length, map, take, IfOk, IfSome, None, Some, vec_len};
ghost use Rattle.std.specs.List.{All, count_by};
ghost use Rattle.std.specs.Vec.{vec_capacity};
ghost use Rattle.feed_pour.specs.Counts.{Counted};
ghost use Rattle.feed_pour.specs.Contents.{AllPoured, KeepsNames, WhereTold, failed_read, failed_write};
ghost use Rattle.stream_model.specs.Rows.{text_of};
ghost use Rattle.stream_model.specs.Stream.{is_tuple};
ghost use Rattle.file_adapters.specs.Sinks.{AreDistinct, FilesCounted, FilesWritten, HasOwnFile, SinksCount, names_of, sink_names, sink_rows, stream_at};
ghost use Rattle.file_adapters.specs.steps.Steps.{AllCounted, CountedUnless, CreateCounted, CreatedCount, EachFinished, EachPoured, FinishCounted, IsAfter, IsFilled, SinksEmptied, LastCounted, LastFinished, LastGiven, TextPoured, first_failed, not_created, sunk_of, text_sunk};

use crate::text::TextFile;
use feed_pour::{Failed, Opened, Pour, PourAnswer, Shelf, write_all};
use row_writer::RowWriter;
use spl_value::{Item, Items, Name, NoMemory};
use std::alloc::Global;

/// A sink to be written: its file, and the place of what it writes among the streams that are given.
pub struct Sink {
    pub file: Name,
    pub stream: u32,
}

impl Drop for Sink {
    fn drop(self) {
        let Sink { file: _, stream: _ } = self;
    }
}

/// How the writing of sinks ended. `Done` has the number of rows of each, in order.
#[derive(Drop)]
pub enum Sunk {
    Done(Items<u64>),
    /// The file at this place couldn't be created. That of a text stands after those of the sinks.
    NotCreated(usize),
    /// The file at this place couldn't be written or finished. It is the first such.
    NotWritten(usize),
    Memory,
}

// Adds an item where there is room.
fn add<T: Drop>(items: &mut Vec<T>, item: T)
    requires { vec_len items.old < vec_capacity items.old }
    ensures items { items.new.items ≡ items.old.items ++ item ∷ [] }
    ensures room { vec_capacity items.old ≤ vec_capacity items.new }
{
    let Ok(()) = items.push(item) else {
        unreachable!()
    };
}

// The stream of a sink. One that isn't there has no items.
fn stream_of<'s>(streams: &'s Items<Items<Item>>, sink: &Sink) -> &'s [Item]
    ensures { result.now ≡ stream_at streams.now sink.now }
{
    match streams.get(sink.stream as usize) {
        Some(items) => items.as_slice(),
        None => &[],
    }
}

// Creates the files of sinks, in order, up to the first that isn't created.
fn create_each<H: Shelf>(
    shelf: &mut H,
    sinks: &[Sink],
    pours: &mut Vec<H::Writer>,
) -> Result<(), PourAnswer>
    requires empty { pours.old.items ≡ [] }
    requires room { length sinks.now ≤ vec_capacity pours.old }
    ensures count { CreatedCount result (length pours.new.items) sinks.now }
    ensures told { WhereTold (H.told shelf.old) (H.told shelf.new)
        (SinksEmptied (length pours.new.items) sinks.now) }
    ensures poured { IfSome (H.told shelf.old)
        (λ _. All (λ p. H.Writer.poured p ≡ Some []) pours.new.items) }
    ensures created { All (λ s. H.created shelf.new s.file)
        (take (length pours.new.items) sinks.now) }
    ensures cause { CreateCounted result (length pours.new.items) sinks.now (H.counts shelf.old)
        (H.counts shelf.new) }
    ensures lent { H.lent shelf.old + length sinks.now < 2 ^ 64
        → H.lent shelf.new ≡ H.lent shelf.old + length pours.new.items }
{
    for sink in sinks {
        match shelf.create(&sink.file) {
            Opened::Ok(pour) => add(pours, pour),
            Opened::Failed => return Err(PourAnswer::Failed),
            Opened::Memory => return Err(PourAnswer::Memory),
        }
    }
    Ok(())
}

// Pours the rows of a stream's tuples, and counts them. Where the pour fails, a front is poured, and
// 0 is answered.
fn write_stream<P: Pour>(
    writer: &mut RowWriter,
    pour: &mut P,
    items: &[Item],
) -> Result<u64, NoMemory>
    ensures poured { TextPoured result (P.poured pour.old) (P.poured pour.new) (P.faults pour.new)
        (text_of items.now) }
    ensures count { IfOk result (λ n. CountedUnless (P.faults pour.new) n
        (count_by is_tuple items.now)) }
    ensures small { IfOk result (λ n. n < 2 ^ 64) }
{
    match writer.put_all(pour, items) {
        Ok(tuples) => Ok(tuples),
        Err(PourAnswer::Failed) => Ok(0),
        Err(PourAnswer::Memory) => Err(NoMemory),
    }
}

// Writes each sink the rows of its stream, in order, and counts them. The others are written where
// the pour of one fails.
fn write_each<P: Pour>(
    alloc: Global,
    pours: &mut [P],
    sinks: &[Sink],
    streams: &Items<Items<Item>>,
) -> Result<Items<u64>, NoMemory>
    requires { length pours.old ≡ length sinks.now }
    ensures pours { length pours.new ≡ length pours.old }
    ensures poured { EachPoured P.poured P.faults result pours.old pours.new sinks.now streams.now }
    ensures count { IfOk result (λ ns. AllCounted P.faults pours.new ns
        (map (sink_rows streams.now) sinks.now)) }
    ensures small { IfOk result (λ ns. All (λ n. n < 2 ^ 64) ns) }
{
    let Ok(mut counts) = Vec::with_capacity(alloc, pours.len()) else {
        return Err(NoMemory);
    };
    let Ok(mut writer) = RowWriter::new(alloc) else {
        return Err(NoMemory);
    };
    'sinks: for at in 0..pours.len() {
        match write_stream(&mut writer, &mut pours[at], stream_of(streams, &sinks[at])) {
            Ok(tuples) => add(&mut counts, tuples),
            Err(e) => return Err(e),
        }
    }
    Ok(Items::from_vec(counts))
}

// The first place of a failure, with one more call at a later place.
fn first_failed(first: Option<usize>, finished: Result<(), Failed>, at: usize) -> Option<usize>
    ensures { result ≡ first_failed first (failed_read finished) at }
{
    match (first, finished) {
        (None, Err(_)) => Some(at),
        (None, Ok(())) => None,
        (Some(place), _) => Some(place),
    }
}

// Finishes the files of the first sinks, whose pours these are, in order, and answers the first
// place where it failed.
fn finish_each<H: Shelf>(shelf: &mut H, sinks: &[Sink], pours: Vec<H::Writer>) -> Option<usize>
    requires count { length pours.items ≤ length sinks.now }
    requires created { All (λ s. H.created shelf.old s.file) (take (length pours.items) sinks.now) }
    requires distinct { AreDistinct (map (λ s. s.file) sinks.now) }
    ensures told { WhereTold (H.told shelf.old) (H.told shelf.new)
        (EachFinished H.Writer.poured H.Writer.faults result (length pours.items) pours.items
        sinks.now (H.counts shelf.old) (H.counts shelf.new)) }
    ensures cause { FinishCounted result (length pours.items) sinks.now (H.counts shelf.old)
        (H.counts shelf.new) }
    ensures fault { result ≡ None → All (λ p. H.Writer.faults p ≡ 0) pours.items }
    ensures keeps { KeepsNames (H.created shelf.old) (H.created shelf.new) }
    ensures lent { length pours.items ≤ H.lent shelf.old
        → H.lent shelf.old ≡ H.lent shelf.new + length pours.items }
{
    let mut first = None;
    let mut at = 0;
    'pours: for pour in pours {
        let finished = shelf.finish(&sinks[at].file, pour);
        first = first_failed(first, finished, at);
        at += 1;
    }
    first
}

// How the writing of all ended, with what came up to the finishing and the first place where that failed.
fn ended(written: Result<Items<u64>, NoMemory>, first: Option<usize>) -> Sunk
    ensures { result ≡ sunk_of written first }
{
    match (written, first) {
        (Err(_), _) => Sunk::Memory,
        (Ok(counts), None) => Sunk::Done(counts),
        (Ok(_), Some(place)) => Sunk::NotWritten(place),
    }
}

// How it ended where the file at this place wasn't created.
fn not_created(answer: PourAnswer, place: usize) -> Sunk
    ensures { result ≡ not_created answer place }
{
    match answer {
        PourAnswer::Failed => Sunk::NotCreated(place),
        PourAnswer::Memory => Sunk::Memory,
    }
}

// Writes the sinks, whose files were created and are empty, and finishes their files.
fn fill_sinks<H: Shelf>(
    alloc: Global,
    shelf: &mut H,
    sinks: &Items<Sink>,
    streams: &Items<Items<Item>>,
    mut pours: Vec<H::Writer>,
) -> Sunk
    requires many { length pours.items ≡ length sinks.now }
    requires created { All (λ s. H.created shelf.old s.file) (take (length pours.items) sinks.now) }
    requires distinct { AreDistinct (sink_names sinks.now) }
    ensures told { All (λ p. H.Writer.poured p ≡ Some []) pours.items
        → WhereTold (H.told shelf.old) (H.told shelf.new)
        (FilesWritten result sinks.now streams.now None (H.counts shelf.old) (H.counts shelf.new)) }
    ensures count { SinksCount result sinks.now streams.now }
    ensures cause { FilesCounted result (sink_names sinks.now) (H.counts shelf.old)
        (H.counts shelf.new) }
    ensures filled { IsFilled result (length sinks.now) }
    ensures keeps { KeepsNames (H.created shelf.old) (H.created shelf.new) }
    ensures lent { length sinks.now ≤ H.lent shelf.old
        → H.lent shelf.old ≡ H.lent shelf.new + length sinks.now }
{
    let written = write_each(alloc, pours.as_mut_slice(), sinks.as_slice(), streams);
    let first = finish_each(shelf, sinks.as_slice(), pours);
    ended(written, first)
}

// How the writing of all ended, with what came up to the text, whether that was poured, and whether its file
// was finished. It stands at this place.
fn text_ended(
    sunk: Sunk,
    written: Result<(), PourAnswer>,
    finished: Result<(), Failed>,
    place: usize,
) -> Sunk
    ensures { result ≡ text_sunk sunk written (failed_read finished) place }
{
    match (sunk, written, finished) {
        (Sunk::Done(_), Err(PourAnswer::Memory), _) => Sunk::Memory,
        (Sunk::Done(_), Err(PourAnswer::Failed), _) => Sunk::NotWritten(place),
        (Sunk::Done(_), Ok(()), Err(_)) => Sunk::NotWritten(place),
        (sunk, _, _) => sunk,
    }
}

// Pours the text where the sinks before it were written.
fn pour_text<P: Pour>(sunk: &Sunk, pour: &mut P, text: &[u8]) -> Result<(), PourAnswer>
    ensures poured { LastGiven sunk.now (P.poured pour.old) (P.poured pour.new) result text.now }
    ensures cause { Counted (failed_write result) (P.faults pour.old) (P.faults pour.new) }
{
    match sunk {
        Sunk::Done(_) => write_all(pour, text),
        Sunk::NotCreated(_) | Sunk::NotWritten(_) | Sunk::Memory => Ok(()),
    }
}

// Writes the text where the sinks before it were written, and finishes its file, which was created and
// is empty.
fn finish_text<H: Shelf>(
    shelf: &mut H,
    last: &TextFile,
    mut pour: H::Writer,
    place: usize,
    sunk: Sunk,
) -> Sunk
    requires created { H.created shelf.old last.now.file }
    requires filled { IsFilled sunk place }
    ensures told { H.Writer.poured pour ≡ Some []
        → WhereTold (H.told shelf.old) (H.told shelf.new)
        (LastFinished sunk result place last.now) }
    ensures cause { LastCounted sunk result place last.now.file (H.counts shelf.old)
        (H.counts shelf.new) }
    ensures lent { 0 < H.lent shelf.old → H.lent shelf.old ≡ H.lent shelf.new + 1 }
{
    let written = pour_text(&sunk, &mut pour, last.text.as_slice());
    let finished = shelf.finish(&last.file, pour);
    text_ended(sunk, written, finished, place)
}

// Creates the file of a text after those of the sinks, which were created and are empty; then writes
// the sinks and the text, and finishes all.
fn write_before<H: Shelf>(
    alloc: Global,
    shelf: &mut H,
    sinks: &Items<Sink>,
    streams: &Items<Items<Item>>,
    last: &TextFile,
    pours: Vec<H::Writer>,
) -> Sunk
    requires many { length pours.items ≡ length sinks.now }
    requires created { All (λ s. H.created shelf.old s.file) (take (length pours.items) sinks.now) }
    requires distinct { AreDistinct (sink_names sinks.now) }
    requires free { HasOwnFile sinks.now (Some last.now) }
    ensures told { All (λ p. H.Writer.poured p ≡ Some []) pours.items
        → WhereTold (H.told shelf.old) (H.told shelf.new)
        (FilesWritten result sinks.now streams.now (Some last.now) (H.counts shelf.old) (H.counts shelf.new)) }
    ensures count { SinksCount result sinks.now streams.now }
    ensures cause { FilesCounted result (names_of sinks.now (Some last.now)) (H.counts shelf.old)
        (H.counts shelf.new) }
    ensures after { IsAfter result (length sinks.now) }
    ensures lent { length sinks.now ≤ H.lent shelf.old → H.lent shelf.old < 2 ^ 64 - 1
        → H.lent shelf.old ≡ H.lent shelf.new + length sinks.now }
{
    match shelf.create(&last.file) {
        Opened::Ok(pour) => {
            let sunk = fill_sinks(alloc, shelf, sinks, streams, pours);
            finish_text(shelf, last, pour, sinks.len(), sunk)
        }
        Opened::Failed => {
            finish_each(shelf, sinks.as_slice(), pours);
            Sunk::NotCreated(sinks.len())
        }
        Opened::Memory => {
            finish_each(shelf, sinks.as_slice(), pours);
            Sunk::Memory
        }
    }
}

/// Creates the files of all sinks, in order, and then that of the last text, where there is one; then writes
/// each sink the rows of its stream's tuples, in order; then finishes their files, in order, whatever came;
/// and then writes the text, where no sink failed, and finishes its file. After the first file that can't be
/// created no other is created, and nothing is written. Where a sink can't be written, the others are. No
/// file may stand twice.
pub fn write_sinks<H: Shelf>(
    alloc: Global,
    shelf: &mut H,
    sinks: &Items<Sink>,
    streams: &Items<Items<Item>>,
    last: &Option<TextFile>,
) -> Sunk
    requires distinct { AreDistinct (sink_names sinks.now) }
    requires free { HasOwnFile sinks.now last.now }
    ensures told { WhereTold (H.told shelf.old) (H.told shelf.new)
        (FilesWritten result sinks.now streams.now last.now (H.counts shelf.old) (H.counts shelf.new)) }
    ensures count { SinksCount result sinks.now streams.now }
    ensures cause { FilesCounted result (names_of sinks.now last.now) (H.counts shelf.old)
        (H.counts shelf.new) }
    ensures lent { H.lent shelf.old + length sinks.now + 1 < 2 ^ 64
        → H.lent shelf.new ≡ H.lent shelf.old }
{
    let Ok(mut pours) = Vec::with_capacity(alloc, sinks.len()) else {
        return Sunk::Memory;
    };
    match create_each(shelf, sinks.as_slice(), &mut pours) {
        Ok(()) => match last {
            None => fill_sinks(alloc, shelf, sinks, streams, pours),
            Some(last) => write_before(alloc, shelf, sinks, streams, last, pours),
        },
        Err(e) => {
            let place = pours.len();
            finish_each(shelf, sinks.as_slice(), pours);
            not_created(e, place)
        }
    }
}
