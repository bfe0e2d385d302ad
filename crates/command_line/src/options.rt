//! What is given among the arguments of a command.
ghost use Rattle.std.specs.Prelude.{◌≡◌};
ghost use Rattle.std.specs.List.{filter_map};
ghost use Rattle.std.specs.Option.{option_map, option_copied};
ghost use Rattle.command_line.specs.Options.{value_of, at_most_one, only_file, counts, optional, required, leads_with_zero, number_within};

use crate::arguments::{Argument, Arguments};
use spl_value::{Bytes, Name, read_natural};

/// The file name, if there is one and not several.
pub(crate) fn only_file(given: &Arguments) -> Option<&Name>
    ensures { option_copied result ≡ only_file given.now }
{
    let mut file = None;
    for argument in given.as_slice() {
        if let Argument::File(name) = argument {
            if file.is_some() {
                return None;
            }
            file = Some(name);
        }
    }
    file
}

fn value_of<'a>(option: &[u8], argument: &'a Argument) -> Option<&'a Bytes>
    ensures { option_copied result ≡ value_of option.now argument.now }
{
    match argument {
        Argument::Valued { name, value } if name.as_slice() == option => Some(value),
        _ => None,
    }
}

/// The value of an option, if it is given; `None` where it is given several times.
pub(crate) fn value_given<'a>(given: &'a Arguments, option: &[u8]) -> Option<Option<&'a Bytes>>
    ensures { option_map option_copied result
        ≡ at_most_one (filter_map (value_of option.now) given.now) }
{
    let mut found = None;
    for argument in given.as_slice() {
        if let Some(value) = value_of(option, argument) {
            if found.is_some() {
                return None;
            }
            found = Some(value);
        }
    }
    Some(found)
}

/// Whether `--counts` is given; `None` where it is given several times.
pub(crate) fn counts_given(given: &Arguments) -> Option<bool>
    ensures { result ≡ counts given.now }
{
    let mut found = false;
    for argument in given.as_slice() {
        if matches!(argument, Argument::Counts) {
            if found {
                return None;
            }
            found = true;
        }
    }
    Some(found)
}

fn leads_with_zero(text: &[u8]) -> bool
    ensures { result ≡ leads_with_zero text.now }
{
    matches!(text, [b'0', _, ..])
}

// The number within these limits that 1 to 19 digits without a leading zero spell. A number of
// more than 18 digits is above every limit.
fn number_within(least: u32, most: u32, text: &[u8]) -> Option<u32>
    ensures { result ≡ number_within least most text.now }
{
    if text.len() > 18 || leads_with_zero(text) {
        return None;
    }
    let n = read_natural(text)?;
    if u64::from(least) <= n && n <= u64::from(most) {
        Some(n as u32)
    } else {
        None
    }
}

/// The number of an option that may be left out. The outer `None` is no such option: it is given
/// several times, or its value isn't a number within the limits.
pub(crate) fn optional_number(
    given: &Arguments,
    option: &[u8],
    least: u32,
    most: u32,
) -> Option<Option<u32>>
    ensures { result ≡ optional (number_within least most) option.now given.now }
{
    match value_given(given, option)? {
        None => Some(None),
        Some(value) => Some(Some(number_within(least, most, value.as_slice())?)),
    }
}

/// The number of an option that must be given.
pub(crate) fn required_number(
    given: &Arguments,
    option: &[u8],
    least: u32,
    most: u32,
) -> Option<u32>
    ensures { result ≡ required (number_within least most) option.now given.now }
{
    optional_number(given, option, least, most).flatten()
}
