//! The files of sources and sinks, and the first that a sink has together with another operator.
ghost use Rattle.std.specs.Prelude.{◌≡◌, [], map, flat_map, reverse, codes, List, ℕ, IfOk, ◌&&◌, ◌||◌};
ghost use Rattle.std.specs.List.{list_any};
ghost use Rattle.std.specs.Option.{option_copied, option_map, option_to_list};
ghost use Rattle.std.specs.Str.{bytes_eq};
ghost use Rattle.language_model.specs.Declarations.{first_of, repeated};
ghost use Rattle.language_model.specs.SinkFiles.{file_of, op_file, is_had};
ghost use Rattle.language_model.specs.parts.SinkFiles.{literal_text, text_in};
ghost use Rattle.duplicate_rules.specs.steps.Seen.{file_seen};

use literal_sites::Follow;
use operator_kinds::rules_of;
use program_tables::{SiteTable, value_named};
use spl_tree::{Expansion, Expr, ExprKind, Op, Placed, Unit};
use spl_value::{Items, Name, NoMemory};
use std::alloc::Global;

/// The first file that an operator may not have, at its invocation: of a sink one of the names of the
/// command line or the file of an operator before it, of a source the file of a sink before it.
///
/// Each file is compared with all before it, which are few: a program has at most some hundred
/// operators.
pub fn same_file(
    alloc: Global,
    unit: &Unit,
    names: &[Name],
    expansions: &[Expansion],
    ops: &[Op],
) -> Result<Option<Placed<Name>>, NoMemory>
    ensures { IfOk result (λ found. found ≡ first_of (map (λ f. f.file)
        (repeated (is_had names.now) (flat_map (op_file unit.now expansions.now) ops.now)))) }
{
    let sites = SiteTable::new(alloc, unit, expansions)?;
    let mut files = Vec::new(alloc);
    let found = first_had(&sites, names, ops, &mut files)?;
    copied(alloc, found)
}

/// The first such file. The files that come before it are added to those, of which there is none.
fn first_had<'a>(
    sites: &'a SiteTable<'_>,
    names: &[Name],
    ops: &[Op],
    files: &mut Vec<UsedFile<'a>>,
) -> Result<Option<UsedFile<'a>>, NoMemory>
    requires { files.old.items ≡ [] }
    ensures { IfOk result (λ found. option_map (λ f. (file_seen f).file) found ≡ first_of (map (λ f. f.file)
        (repeated (is_had names.now) (flat_map (op_file sites.now.unit.now sites.now.expansions.now) ops.now)))) }
{
    for op in ops {
        if let Some(file) = file_of_op(sites, op) {
            if is_had_already(names, files.as_slice(), &file) {
                return Ok(Some(file));
            }
            files.push(file)?;
        }
    }
    Ok(None)
}

/// A file with a copy of its name, at the invocation of its operator.
fn copied(alloc: Global, found: Option<UsedFile>) -> Result<Option<Placed<Name>>, NoMemory>
    ensures { IfOk result (λ copy. copy ≡ option_map (λ f. (file_seen f).file) found.entry) }
{
    match found {
        Some(file) => {
            let what = Items::from_slice(alloc, file.bytes)?;
            Ok(Some(Placed { at: file.at, what }))
        }
        None => Ok(None),
    }
}

/// The file of a source or sink, at its invocation.
#[derive(Clone, Copy)]
struct UsedFile<'a> {
    sink: bool,
    at: u32,
    bytes: &'a [u8],
}

/// Whether a file may not be used where those are used before it.
fn is_had_already(names: &[Name], files: &[UsedFile], file: &UsedFile) -> bool
    ensures { result ≡ is_had names.now (reverse (map file_seen files.now)) (file_seen file.now) }
{
    (file.sink && is_named(names, file.bytes)) || is_shared(files, file)
}

fn is_named(names: &[Name], file: &[u8]) -> bool
    ensures { result ≡ list_any (λ n. bytes_eq n file.now) names.now }
{
    names.iter().any(|name| name.as_slice() == file)
}

/// Whether one of these is the same file, and one of the two is a sink's.
fn is_shared(files: &[UsedFile], file: &UsedFile) -> bool
    ensures { result ≡ list_any (λ g. bytes_eq g.bytes.now file.now.bytes.now && (file.now.sink || g.sink)) files.now }
{
    for other in files {
        if other.bytes == file.bytes && (file.sink || other.sink) {
            return true;
        }
    }
    false
}

/// The file of an operator, where it is a source or sink that has one.
fn file_of_op<'a>(sites: &'a SiteTable<'_>, op: &Op) -> Option<UsedFile<'a>>
    ensures { option_to_list (option_map file_seen result) ≡ op_file sites.now.unit.now sites.now.expansions.now op.now }
{
    let rules = rules_of(op.kind);
    let sink = rules.outputs.most == 0;
    if !sink && rules.inputs.most != 0 {
        return None;
    }
    let bytes = file_of(sites, op)?;
    Some(UsedFile {
        sink,
        at: op.at,
        bytes,
    })
}

/// The text of its parameter `file`.
fn file_of<'a>(sites: &'a SiteTable<'_>, op: &Op) -> Option<&'a [u8]>
    ensures { option_copied result ≡ file_of sites.now.unit.now sites.now.expansions.now op.now }
{
    let invocation = sites.invocation(op.site)?;
    let value = value_named(invocation.clauses.parameters.as_slice(), b"file")?;
    text_of(sites, op.site.expansion, value)
}

/// The text that an expression gives in the expansion of a number.
fn text_of<'a>(sites: &'a SiteTable<'_>, number: u32, value: &'a Expr) -> Option<&'a [u8]>
    ensures { option_copied result ≡ text_in sites.now.unit.now sites.now.expansions.now number value.now }
{
    let found = Follow::new(sites, number).target(value)?;
    literal_text(found)
}

/// The text that an expression is.
fn literal_text(value: &Expr) -> Option<&[u8]>
    ensures { option_copied result ≡ literal_text value.now }
{
    match value.what.get() {
        ExprKind::Text(bytes) => Some(bytes.as_slice()),
        _ => None,
    }
}
