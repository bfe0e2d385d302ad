//! Reads the rows of a file, and writes them to another. The words are SHAPE, IN and OUT, where SHAPE has a letter
//! for each column: `i` for int64, `t` for rstring and `b` for boolean. How many rows were copied is printed.
ghost use Rattle.std.specs.Prelude.{◌≡◌, ◌∷◌, [], true, false, IfOk};
ghost use Rattle.language_model.specs.Checking.{has_text_form};
ghost use Rattle.row_reader.specs.Reading.{is_over};

use feed_pour::{Feed, FileShelf, Opened, Pour, Shelf};
use row_reader::Rows;
use row_writer::RowWriter;
use spl_value::{Attribute, IntKind, Item, Items, Name, NoMemory, Schema, SplType};
use std::alloc::Global;
use std::io;

// The most bytes of a file.
const LIMIT: u64 = 0x100_0000_0000;

fn attribute(alloc: Global, letter: u8) -> Attribute
    ensures { has_text_form (result ∷ []) ≡ true }
{
    Attribute {
        name: Items::new(alloc),
        kind: match letter {
            b't' => SplType::Text,
            b'b' => SplType::Bool,
            _ => SplType::Int(IntKind::I64),
        },
    }
}

fn schema_of(alloc: Global, shape: &[u8]) -> Result<Schema, NoMemory>
    ensures { IfOk result (λ schema. has_text_form schema ≡ true) }
{
    let mut schema = Items::new(alloc);
    for letter in shape {
        schema.push(attribute(alloc, *letter))?;
    }
    Ok(schema)
}

// Copies the rows that are left, and counts them.
fn copy_rows<F: Feed, P: Pour>(
    rows: &mut Rows,
    feed: &mut F,
    writer: &mut RowWriter,
    pour: &mut P,
) -> Result<u64, NoMemory>
    requires { is_over rows.old ≡ false }
{
    let mut copied = 0u64;
    'rows: loop {
        match rows.next(feed)? {
            Item::Tuple(values) => {
                if writer.put(pour, &values).is_err() {
                    return Err(NoMemory);
                }
                rows.give_back(values);
                copied = copied.wrapping_add(1);
            }
            Item::Window => {}
            Item::Final => return Ok(copied),
            Item::Bad(_) => return Err(NoMemory),
        }
    }
}

fn copy<F: Feed, P: Pour>(
    alloc: Global,
    shape: &[u8],
    feed: &mut F,
    pour: &mut P,
) -> Result<u64, NoMemory> {
    let schema = schema_of(alloc, shape)?;
    let mut rows = Rows::new(alloc, &schema, true, 0, LIMIT)?;
    let mut writer = RowWriter::new(alloc)?;
    copy_rows(&mut rows, feed, &mut writer, pour)
}

fn copy_file<H: Shelf>(
    alloc: Global,
    shelf: &mut H,
    shape: &[u8],
    from: &Name,
    to: &Name,
) -> Option<u64> {
    let Opened::Ok(mut feed) = shelf.open_in(from) else {
        return None;
    };
    let Opened::Ok(mut pour) = shelf.create(to) else {
        shelf.close_in(from, feed);
        return None;
    };
    let copied = copy(alloc, shape, &mut feed, &mut pour);
    shelf.close_in(from, feed);
    match shelf.finish(to, pour) {
        Ok(()) => copied.ok(),
        Err(_) => None,
    }
}

fn copy_named(rt: &HostRuntime, shape: &str, from: &str, to: &str) -> io::Result<()> {
    let alloc = rt.alloc();
    let from = Items::from_slice(alloc, from.as_bytes())?;
    let to = Items::from_slice(alloc, to.as_bytes())?;
    let mut shelf = FileShelf::new(rt.clone()?, alloc);
    match copy_file(alloc, &mut shelf, shape.as_bytes(), &from, &to) {
        Some(copied) => println!(rt; "{copied} rows"),
        None => println!(rt; "failed"),
    }
}

pub(crate) fn measured(rt: &HostRuntime, words: &[String]) -> io::Result<()> {
    match words {
        [shape, from, to] => copy_named(rt, shape.as_str(), from.as_str(), to.as_str()),
        _ => Ok(()),
    }
}
