//! The arguments after the command: a file name, options with their values, and flags.
ghost use Rattle.std.specs.Prelude.{◌≡◌, ◌<◌, ◌≤◌, length, drop, position, IfOk, IfSome};

use spl_value::{Bytes, Items, Name, NoMemory};
use std::alloc::Global;

/// A file name, an option with its value, or `--counts`.
#[derive(Drop)]
pub(crate) enum Argument {
    File(Name),
    Valued { name: Name, value: Bytes },
    Counts,
}

/// What a word is by itself: an argument, where it is one, or `--name`, whose value is the next word.
#[derive(Drop)]
pub(crate) enum Word {
    Whole(Option<Argument>),
    Named(Name),
}

/// The arguments of a command, in their order.
pub(crate) type Arguments = Items<Argument>;

ghost use Rattle.command_line.specs.Arguments.{is_equals, is_plain, valued, option_of, word_of, arguments, texts};
ghost use Rattle.command_line.specs.steps.Steps.{begun};

// Whether a word may be a file name or a value.
fn is_plain(word: &[u8]) -> bool
    ensures { result ≡ is_plain word.now }
{
    !matches!(word, [] | [b'-', ..])
}

// An option with this value, where it may be a value.
fn valued(alloc: Global, name: &[u8], value: &[u8]) -> Result<Option<Argument>, NoMemory>
    ensures { IfOk result (λ argument. argument ≡ valued name.now value.now) }
{
    if !is_plain(value) {
        return Ok(None);
    }
    let name = Items::from_slice(alloc, name)?;
    let value = Items::from_slice(alloc, value)?;
    Ok(Some(Argument::Valued { name, value }))
}

// Where the name of an option ends and its value begins.
fn equals_sign(text: &[u8]) -> Option<usize>
    ensures value { result ≡ position is_equals text.now }
    ensures within { IfSome result (λ at. at < length text.now) }
{
    text.iter().position(|b| *b == b'=')
}

// What a word is whose text comes after `--`.
fn read_option(alloc: Global, text: &[u8]) -> Result<Word, NoMemory>
    ensures { IfOk result (λ word. word ≡ option_of text.now) }
{
    if text == b"counts".as_slice() {
        return Ok(Word::Whole(Some(Argument::Counts)));
    }
    match equals_sign(text) {
        None => Ok(Word::Named(Items::from_slice(alloc, text)?)),
        Some(at) => Ok(Word::Whole(valued(alloc, &text[..at], &text[at + 1..])?)),
    }
}

// What a word is by itself.
fn read_word(alloc: Global, word: &[u8]) -> Result<Word, NoMemory>
    ensures { IfOk result (λ found. found ≡ word_of word.now) }
{
    if is_plain(word) {
        let name = Items::from_slice(alloc, word)?;
        return Ok(Word::Whole(Some(Argument::File(name))));
    }
    match word.strip_prefix(b"--".as_slice()) {
        None => Ok(Word::Whole(None)),
        Some(text) => read_option(alloc, text),
    }
}

// What begins at a place of the words: an argument, where it is one, and the place after it.
fn argument_at(
    alloc: Global,
    words: &[String],
    at: usize,
) -> Result<(Option<Argument>, usize), NoMemory>
    requires { at < length words.now }
    ensures value { IfOk result (λ found.
        begun (texts words.now) found ≡ arguments (drop at (texts words.now))) }
    ensures behind { IfOk result (λ found. (at < found.1) × (found.1 ≤ length words.now)) }
{
    match read_word(alloc, words[at].as_bytes())? {
        Word::Whole(argument) => Ok((argument, at + 1)),
        Word::Named(name) => match words.get(at + 1) {
            None => Ok((None, at + 1)),
            Some(value) => Ok((valued(alloc, name.as_slice(), value.as_bytes())?, at + 2)),
        },
    }
}

/// The arguments that the words are, if each is one or belongs to one.
pub(crate) fn read_arguments(alloc: Global, words: &[String]) -> Result<Option<Arguments>, NoMemory>
    ensures { IfOk result (λ found. found ≡ arguments (texts words.now)) }
{
    let mut read = Items::new(alloc);
    let mut at = 0;
    while at < words.len() {
        let (argument, behind) = argument_at(alloc, words, at)?;
        let Some(argument) = argument else {
            return Ok(None);
        };
        read.push(argument)?;
        at = behind;
    }
    Ok(Some(read))
}
