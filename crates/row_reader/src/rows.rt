//! A source's stream, one item at a time.
ghost use Rattle.std.specs.Prelude.{◌≡◌, ◌≤◌, ◌<◌, ◌+◌, ◌-◌, ◌++◌, ◌^◌, ◌==◌, [], true, false, length, take, drop, map, IfOk, IfSome, OnOk, OnErr, MatchOption, None, Some, Option};
ghost use Rattle.std.specs.List.{list_any};
ghost use Rattle.spl_value.specs.Script.{Script, End};
ghost use Rattle.spl_value.specs.declared.item.Item.TheVariants as I;
ghost use Rattle.feed_pour.specs.Counts.{Counted};
ghost use Rattle.feed_pour.specs.Contents.{PieceGiven, failed_read};
ghost use Rattle.language_model.specs.Checking.{has_text_form};
ghost use Rattle.stream_model.specs.Rows.{Setting, line_gives, rows, source_fault, too_long};
ghost use Rattle.stream_model.specs.Stream.{is_tuple};
ghost use Rattle.spl_value.specs.Numbered.{closes};
ghost use Rattle.row_reader.specs.declared.rows.Stage.TheVariants as S;
ghost use Rattle.row_reader.specs.Columns.{attributes};
ghost use Rattle.row_reader.specs.steps.Finding.{IsFirstAt};
ghost use Rattle.row_reader.specs.steps.Marked.{given_of};

use crate::came::Came;
use crate::columns::columns_of;
use crate::find::find;
use crate::lines::Lines;
use crate::marked::LineGives;
use feed_pour::{Failed, Feed};
use spl_value::{Fault, FaultKind, Item, Items, NoMemory, Schema, Values};
use std::alloc::Global;

const PIECE: usize = 8192;

/// What a source gives next.
#[derive(Clone, Copy)]
pub enum Stage {
    /// What its bytes give.
    Reading,
    /// The window marker.
    Ended,
    /// The final marker.
    Marked,
    /// Nothing.
    Done,
}

/// The rows of a source's file as its stream: a tuple for each row, and after the last one a window
/// marker and the final marker, or a fault in their place.
pub struct Rows {
    lines: Lines,
    op: u32,
    strict: bool,
    limit: u64,
    // The bytes that were read last, and which of them aren't given yet.
    piece: Vec<u8>,
    at: usize,
    filled: usize,
    // The front of a line that reaches past its piece.
    carry: Vec<u8>,
    // The number of the line, and how many bytes of the limit are left before it.
    line: u64,
    left: u64,
    stage: Stage,
    // A tuple that was given back, to be written over.
    spare: Option<Values>,
    ghost whole: { length piece.items ≡ 8192 },
    ghost within: { at ≤ filled },
    ghost inside: { filled ≤ 8192 },
    ghost held: { length carry.items + (filled - at) ≤ left + 8192 },
    ghost counted: { line + left ≤ 2 ^ 40 + 1 },
    ghost unbroken: { list_any (λ b. b == 10) carry.items ≡ false },
}

impl Drop for Rows {
    fn drop(self) {
        let Rows {
            lines: _,
            op: _,
            strict: _,
            limit: _,
            piece: _,
            at: _,
            filled: _,
            carry: _,
            line: _,
            left: _,
            stage: _,
            spare: _,
        } = self;
    }
}

/// The fault of a line that is too long.
fn long_fault(len: usize, size: usize, left: u64) -> Option<FaultKind>
    ensures { result ≡ too_long len size left }
{
    if 65536 < len && 65536 <= left {
        Some(FaultKind::LongRow)
    } else if left < size as u64 {
        Some(FaultKind::LongFile)
    } else {
        None
    }
}

fn length_of(bytes: &Vec<u8>) -> usize
    ensures { result ≡ length bytes.now.items }
{
    bytes.as_slice().len()
}

/// What a line gives whose first bytes are in `carry` and whose others are at `from..to`. The values of a row stand in the
/// tuple then.
#[inline(always)]
fn read_ended(
    lines: &mut Lines,
    tuple: &mut Values,
    carry: &mut Vec<u8>,
    piece: &Vec<u8>,
    from: usize,
    to: usize,
) -> Result<LineGives, NoMemory>
    requires start { from ≤ to }
    requires end { to ≤ length piece.now.items }
    ensures given { IfOk result (λ given. given_of given tuple.new
        ≡ line_gives (attributes lines.old.columns.items)
        (carry.old.items ++ take (to - from) (drop from piece.now.items))) }
    ensures columns { lines.new.columns.items ≡ lines.old.columns.items }
    ensures cleared { carry.new.items ≡ [] }
{
    let ended = &piece[from..to];
    if carry.is_empty() {
        return lines.read(tuple, ended);
    }
    read_carried(lines, tuple, carry, ended)
}

/// What a line gives whose first bytes are in `carry`.
#[cold]
#[inline(never)]
fn read_carried(
    lines: &mut Lines,
    tuple: &mut Values,
    carry: &mut Vec<u8>,
    ended: &[u8],
) -> Result<LineGives, NoMemory>
    ensures given { IfOk result (λ given. given_of given tuple.new
        ≡ line_gives (attributes lines.old.columns.items) (carry.old.items ++ ended.now)) }
    ensures columns { lines.new.columns.items ≡ lines.old.columns.items }
    ensures cleared { carry.new.items ≡ [] }
{
    if carry.extend_from_slice(ended).is_err() {
        carry.clear();
        return Err(NoMemory);
    }
    let given = lines.read(tuple, carry.as_slice());
    carry.clear();
    given
}

/// Adds the bytes at `from..to`.
fn keep(carry: &mut Vec<u8>, piece: &Vec<u8>, from: usize, to: usize) -> Result<(), NoMemory>
    requires start { from ≤ to }
    requires end { to ≤ length piece.now.items }
    ensures ok { OnOk result
        (carry.new.items ≡ carry.old.items ++ take (to - from) (drop from piece.now.items)) }
    ensures err { OnErr result (carry.new.items ≡ carry.old.items) }
{
    carry.extend_from_slice(&piece[from..to])?;
    Ok(())
}

/// Where the first line feed of the bytes at `from..to` stands, counted from `from`.
fn feed_at(piece: &Vec<u8>, from: usize, to: usize) -> Option<usize>
    requires start { from ≤ to }
    requires end { to ≤ length piece.now.items }
    ensures { MatchOption result
        (list_any (λ b. b == 10) (take (to - from) (drop from piece.now.items)) ≡ false)
        (IsFirstAt 10 (take (to - from) (drop from piece.now.items))) }
{
    find(b'\n', &piece[from..to])
}

/// A tuple that was given back, or an empty one with room for so many values.
fn room_in(spare: &mut Option<Values>, alloc: Global, count: usize) -> Result<Values, NoMemory> {
    match spare.take() {
        Some(tuple) => Ok(tuple),
        None => Ok(Items::with_capacity(alloc, count)?),
    }
}

impl Rows {
    ghost use Rattle.row_reader.specs.Came.{IsPlaced, failed_came, item_of};
    ghost use Rattle.row_reader.specs.Reading.{Gives, IsFor, FitsSetting, failed_next, is_over, most_left, setting, setting_of, to_come};
    ghost use Rattle.stream_model.specs.SourceFaults.{is_read_fault};
    ghost use Rattle.row_reader.specs.steps.Steps.{GaveItem, IsBehind, IsEnd, IsKept, IsLast, IsMark, IsRead, IsStop, Moves, Stepped, failed_step, item_in, placed, placed_in};

    /// A source that has read nothing. Its schema has integers, booleans and texts.
    pub fn new(
        alloc: Global,
        schema: &Schema,
        strict: bool,
        op: u32,
        limit: u64,
    ) -> Result<Rows, NoMemory>
        requires limit { limit ≤ 2 ^ 40 }
        requires form { has_text_form schema.now ≡ true }
        ensures made { IfOk result (λ r. IsFor r (setting op schema.now strict limit)) }
        ensures coming { IfOk result (λ r. (s : Script) → to_come r (Some s)
            ≡ Some (rows (setting op schema.now strict limit) s.bytes s.ending)) }
        ensures open { IfOk result (λ r. is_over r ≡ false) }
    {
        let columns = columns_of(alloc, schema.as_slice())?;
        let piece = vec![in alloc; 0u8; PIECE]?;
        Ok(Rows {
            lines: Lines {
                alloc,
                columns,
                field: Vec::new(alloc),
            },
            op,
            strict,
            limit,
            piece,
            at: 0,
            filled: 0,
            carry: Vec::new(alloc),
            line: 1,
            left: limit,
            stage: Stage::Reading,
            spare: None,
        })
    }

    /// Ends the stream with a fault at this line.
    #[cold]
    #[inline(never)]
    fn stop(&mut self, kind: FaultKind, line: u64) -> Item
        ensures item { result ≡ source_fault (setting_of self.old) kind line }
        ensures apart { is_tuple result ≡ false }
        ensures done { IsStop self.old self.new }
    {
        self.stage = Stage::Done;
        Item::Bad(Fault {
            op: self.op,
            kind,
            line,
        })
    }

    /// Reads the line whose line feed stands `i` bytes further on, and passes it. The values of a row stand in the tuple
    /// then.
    #[inline(always)]
    fn take_line(&mut self, tuple: &mut Values, i: usize) -> Result<LineGives, NoMemory>
        requires end { IsFirstAt 10 (take (self.old.filled - self.old.at)
            (drop self.old.at self.old.piece.items)) i }
        requires short { too_long (length self.old.carry.items + i)
            (length self.old.carry.items + i + 1) self.old.left ≡ None }
        ensures given { IfOk result (λ given. given_of given tuple.new
            ≡ line_gives (attributes self.old.lines.columns.items) (self.old.carry.items
            ++ take (self.old.at + i - self.old.at) (drop self.old.at self.old.piece.items))) }
        ensures behind { IfOk result (λ _.
            IsBehind self.old self.new (length self.old.carry.items + i) i) }
    {
        let len = length_of(&self.carry) + i;
        let from = self.at;
        let given = read_ended(
            &mut self.lines,
            tuple,
            &mut self.carry,
            &self.piece,
            from,
            from + i,
        )?;
        self.line += 1;
        self.left -= (len + 1) as u64;
        self.at = from + i + 1;
        Ok(given)
    }

    /// Gives the line whose line feed stands `i` bytes further on.
    #[inline(always)]
    fn end_line(&mut self, tuple: &mut Values, i: usize) -> Result<Option<Came>, NoMemory>
        requires reading { self.old.stage ≡ S.Reading }
        requires end { IsFirstAt 10 (take (self.old.filled - self.old.at)
            (drop self.old.at self.old.piece.items)) i }
        ensures step { IfOk result (λ o. Stepped self.old self.new (item_in o tuple.new)) }
        ensures coming { IfOk result (λ o. (s : Option Script)
            → Moves (to_come self.old s) (item_in o tuple.new) (to_come self.new s)) }
        ensures placed { IfOk result placed_in }
        ensures whole { failed_step result ≡ false }
    {
        let line = self.line;
        let len = length_of(&self.carry) + i;
        if let Some(kind) = long_fault(len, len + 1, self.left) {
            return Ok(Some(Came::Other(self.stop(kind, line))));
        }
        match self.take_line(tuple, i)? {
            LineGives::Row => Ok(Some(Came::Tuple)),
            LineGives::Nothing => Ok(None),
            LineGives::Bad => {
                if self.strict {
                    Ok(Some(Came::Other(self.stop(FaultKind::BadRow, line))))
                } else {
                    Ok(None)
                }
            }
        }
    }

    /// Keeps the bytes that are held, so that the piece is free.
    fn keep_held(&mut self) -> Result<(), NoMemory>
        requires none { list_any (λ b. b == 10) (take (self.old.filled - self.old.at)
            (drop self.old.at self.old.piece.items)) ≡ false }
        ensures { OnOk result (IsKept self.old self.new) }
    {
        keep(&mut self.carry, &self.piece, self.at, self.filled)?;
        self.at = 0;
        self.filled = 0;
        Ok(())
    }

    /// Reads into the free piece.
    fn read_piece<F: Feed>(&mut self, feed: &mut F) -> Result<usize, Failed>
        requires empty { self.old.filled ≡ 0 }
        requires room { length self.old.carry.items ≤ self.old.left }
        ensures read { IsRead self.old self.new (placed result) }
        ensures piece { PieceGiven (F.script feed.old) (F.script feed.new) result
            self.new.piece.items }
        ensures cause { Counted (failed_read result) (F.faults feed.old) (F.faults feed.new) }
    {
        let read = feed.read(self.piece.as_mut_slice())?;
        self.at = 0;
        self.filled = read;
        Ok(read)
    }

    /// Gives the window marker.
    fn mark(&mut self) -> Item
        ensures item { result ≡ I.Window }
        ensures marked { IsMark self.old self.new }
    {
        self.stage = Stage::Marked;
        Item::Window
    }

    /// Reads the line that is kept. The values of a row stand in the tuple then.
    fn read_last(&mut self, tuple: &mut Values) -> Result<LineGives, NoMemory>
        ensures given { IfOk result (λ given. given_of given tuple.new
            ≡ line_gives (attributes self.old.lines.columns.items) self.old.carry.items) }
        ensures same { IfOk result (λ _. IsLast self.old self.new) }
    {
        self.lines.read(tuple, self.carry.as_slice())
    }

    /// No more lines come.
    fn end(&mut self)
        ensures { IsEnd self.old self.new }
    {
        self.stage = Stage::Ended;
    }

    /// Gives the last line, or the window marker where it gives nothing.
    fn finish(&mut self, tuple: &mut Values) -> Result<Came, NoMemory>
        requires reading { self.old.stage ≡ S.Reading }
        requires empty { self.old.filled ≡ 0 }
        requires short { too_long (length self.old.carry.items) (length self.old.carry.items)
            self.old.left ≡ None }
        ensures step { IfOk result (λ came. GaveItem self.old self.new (item_of came tuple.new)) }
        ensures coming { IfOk result (λ came. (s after : Option Script)
            → IfSome s (λ s. s ≡ record { bytes = []; ending = End })
            → Gives (to_come self.old s) (item_of came tuple.new) (to_come self.new after)) }
        ensures placed { IfOk result IsPlaced }
        ensures whole { failed_came result ≡ false }
    {
        let line = self.line;
        if length_of(&self.carry) == 0 {
            return Ok(Came::Other(self.mark()));
        }
        match self.read_last(tuple)? {
            LineGives::Row => {
                self.end();
                Ok(Came::Tuple)
            }
            LineGives::Nothing => Ok(Came::Other(self.mark())),
            LineGives::Bad => {
                if self.strict {
                    Ok(Came::Other(self.stop(FaultKind::BadRow, line)))
                } else {
                    Ok(Came::Other(self.mark()))
                }
            }
        }
    }

    /// Reads the next piece.
    #[inline(never)]
    fn fill<F: Feed>(&mut self, feed: &mut F, tuple: &mut Values) -> Result<Option<Came>, NoMemory>
        requires reading { self.old.stage ≡ S.Reading }
        requires none { list_any (λ b. b == 10) (take (self.old.filled - self.old.at)
            (drop self.old.at self.old.piece.items)) ≡ false }
        ensures step { IfOk result (λ o. Stepped self.old self.new (item_in o tuple.new)) }
        ensures coming { IfOk result (λ o. Moves (to_come self.old (F.script feed.old)) (item_in o tuple.new)
            (to_come self.new (F.script feed.new))) }
        ensures placed { IfOk result placed_in }
        ensures cause { Counted (failed_step result) (F.faults feed.old) (F.faults feed.new) }
    {
        self.keep_held()?;
        let line = self.line;
        let len = length_of(&self.carry);
        if let Some(kind) = long_fault(len, len, self.left) {
            return Ok(Some(Came::Other(self.stop(kind, line))));
        }
        match self.read_piece(feed) {
            Ok(0) => Ok(Some(self.finish(tuple)?)),
            Ok(_) => Ok(None),
            Err(_) => Ok(Some(Came::Other(self.stop(FaultKind::ReadFailed, line)))),
        }
    }

    /// Gives the next line of the piece, or reads the next piece.
    #[inline(always)]
    fn step<F: Feed>(&mut self, feed: &mut F, tuple: &mut Values) -> Result<Option<Came>, NoMemory>
        requires { self.old.stage ≡ S.Reading }
        ensures step { IfOk result (λ o. Stepped self.old self.new (item_in o tuple.new)) }
        ensures coming { IfOk result (λ o. Moves (to_come self.old (F.script feed.old)) (item_in o tuple.new)
            (to_come self.new (F.script feed.new))) }
        ensures placed { IfOk result placed_in }
        ensures cause { Counted (failed_step result) (F.faults feed.old) (F.faults feed.new) }
    {
        match feed_at(&self.piece, self.at, self.filled) {
            Some(i) => self.end_line(tuple, i),
            None => self.fill(feed, tuple),
        }
    }

    /// Reads on to the next item.
    #[inline(always)]
    fn read_on<F: Feed>(&mut self, feed: &mut F, tuple: &mut Values) -> Result<Came, NoMemory>
        requires { self.old.stage ≡ S.Reading }
        ensures step { IfOk result (λ came. GaveItem self.old self.new (item_of came tuple.new)) }
        ensures coming { IfOk result (λ came. Gives (to_come self.old (F.script feed.old)) (item_of came tuple.new)
            (to_come self.new (F.script feed.new))) }
        ensures placed { IfOk result IsPlaced }
        ensures cause { Counted (failed_came result) (F.faults feed.old) (F.faults feed.new) }
    {
        'steps: loop {
            if let Some(came) = self.step(feed, tuple)? {
                return Ok(came);
            }
        }
    }

    /// Gives the final marker.
    fn close(&mut self) -> Item
        ensures item { result ≡ I.Final }
        ensures done { IsStop self.old self.new }
    {
        self.stage = Stage::Done;
        Item::Final
    }

    /// Gives the next item, as `Rows::next_over` does.
    #[inline(always)]
    fn next_item<F: Feed>(&mut self, feed: &mut F, tuple: &mut Values) -> Result<Came, NoMemory>
        requires { is_over self.old ≡ false }
        ensures step { IfOk result (λ came. GaveItem self.old self.new (item_of came tuple.new)) }
        ensures coming { IfOk result (λ came. Gives (to_come self.old (F.script feed.old)) (item_of came tuple.new)
            (to_come self.new (F.script feed.new))) }
        ensures placed { IfOk result IsPlaced }
        ensures cause { Counted (failed_came result) (F.faults feed.old) (F.faults feed.new) }
    {
        match self.stage {
            Stage::Reading => self.read_on(feed, tuple),
            Stage::Ended => Ok(Came::Other(self.mark())),
            Stage::Marked => Ok(Came::Other(self.close())),
            Stage::Done => unreachable!(),
        }
    }

    /// Reads the next item. The values of a tuple are written over those that stand in `tuple`, whose room is used again: a
    /// row of integers, booleans and texts takes no memory once there is room for it. Of any other item it is of no account
    /// what stands there then. The feed is the one whose bytes were read so far. An `Err` leaves the source spent.
    #[inline(always)]
    pub fn next_over<F: Feed>(&mut self, feed: &mut F, tuple: &mut Values) -> Result<Came, NoMemory>
        requires { is_over self.old ≡ false }
        ensures coming { IfOk result (λ came. Gives (to_come self.old (F.script feed.old)) (item_of came tuple.new)
            (to_come self.new (F.script feed.new))) }
        ensures placed { IfOk result IsPlaced }
        ensures over { IfOk result (λ came. is_over self.new ≡ closes (item_of came tuple.new)) }
        ensures has { IfOk result (λ came. (o : Setting) → IsFor self.old o → FitsSetting o (item_of came tuple.new)) }
        ensures kept { IfOk result (λ _. (o : Setting) → IsFor self.old o → IsFor self.new o) }
        ensures fewer { IfOk result (λ _. most_left self.new < most_left self.old) }
        ensures cause { Counted (failed_came result) (F.faults feed.old) (F.faults feed.new) }
    {
        self.next_item(feed, tuple)
    }

    /// The next item. The feed is the one whose bytes were read so far. An `Err` leaves the source
    /// spent.
    pub fn next<F: Feed>(&mut self, feed: &mut F) -> Result<Item, NoMemory>
        requires { is_over self.old ≡ false }
        ensures coming { IfOk result (λ item. Gives (to_come self.old (F.script feed.old)) item
            (to_come self.new (F.script feed.new))) }
        ensures over { IfOk result (λ item. is_over self.new ≡ closes item) }
        ensures has { IfOk result (λ item. (o : Setting) → IsFor self.old o → FitsSetting o item) }
        ensures kept { IfOk result (λ _. (o : Setting) → IsFor self.old o → IsFor self.new o) }
        ensures fewer { IfOk result (λ _. most_left self.new < most_left self.old) }
        ensures cause { Counted (failed_next result) (F.faults feed.old) (F.faults feed.new) }
    {
        let mut tuple = room_in(&mut self.spare, self.lines.alloc, self.lines.columns.len())?;
        match self.next_over(feed, &mut tuple)? {
            Came::Tuple => Ok(Item::Tuple(tuple)),
            Came::Other(item) => {
                self.spare = Some(tuple);
                Ok(item)
            }
        }
    }

    /// Hands a tuple back, whose room is used again.
    pub fn give_back(&mut self, values: Values)
        ensures coming { (s : Option Script) → to_come self.new s ≡ to_come self.old s }
        ensures over { is_over self.new ≡ is_over self.old }
        ensures left { most_left self.new ≡ most_left self.old }
        ensures kept { (o : Setting) → IsFor self.old o → IsFor self.new o }
    {
        self.spare = Some(values);
    }
}
