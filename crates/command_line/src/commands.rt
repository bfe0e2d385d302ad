//! The commands, and the options that each has.
ghost use Rattle.std.specs.Prelude.{◌≡◌};
ghost use Rattle.std.specs.List.{list_all, list_any};
ghost use Rattle.std.specs.Str.{bytes_eq};

use crate::arguments::{Argument, Arguments};

/// The first word of the command line.
#[derive(Clone, Copy)]
pub(crate) enum Command {
    Check,
    Plan,
    Run,
    Replay,
    Simulate,
    Make,
}

ghost use Rattle.command_line.specs.Commands.{command_of, options_of, is_of};
ghost use Rattle.command_line.specs.declared.commands.Command.TheVariants.{Run, Simulate};

/// The command of this name.
pub(crate) fn command_of(word: &str) -> Option<Command>
    ensures { result ≡ command_of word.now }
{
    match word {
        "check" => Some(Command::Check),
        "plan" => Some(Command::Plan),
        "run" => Some(Command::Run),
        "replay" => Some(Command::Replay),
        "simulate" => Some(Command::Simulate),
        "make" => Some(Command::Make),
        _ => None,
    }
}

// Whether `run` has this option with a value.
fn is_of_run(name: &[u8]) -> bool
    ensures { result ≡ list_any (λ option. bytes_eq name.now option) (options_of Run) }
{
    name == b"width".as_slice()
        || name == b"workers".as_slice()
        || name == b"capacity".as_slice()
        || name == b"arrivals".as_slice()
}

// Whether `simulate` has this option with a value.
fn is_of_simulate(name: &[u8]) -> bool
    ensures { result ≡ list_any (λ option. bytes_eq name.now option) (options_of Simulate) }
{
    name == b"width".as_slice() || name == b"schedule".as_slice() || name == b"steps".as_slice()
}

// Whether a command has this option with a value.
fn has_option(command: Command, name: &[u8]) -> bool
    ensures { result ≡ list_any (λ option. bytes_eq name.now option) (options_of command) }
{
    match command {
        Command::Check | Command::Plan => false,
        Command::Run => is_of_run(name),
        Command::Replay => name == b"arrivals".as_slice(),
        Command::Simulate => is_of_simulate(name),
        Command::Make => name == b"rows".as_slice() || name == b"start".as_slice(),
    }
}

// Whether an argument is a file name or one of the command's options.
fn is_of(command: Command, argument: &Argument) -> bool
    ensures { result ≡ is_of command argument.now }
{
    match argument {
        Argument::File(_) => true,
        Argument::Valued { name, value: _ } => has_option(command, name.as_slice()),
        Argument::Counts => matches!(command, Command::Run),
    }
}

/// Whether each argument is a file name or one of the command's options.
pub(crate) fn are_of(command: Command, given: &Arguments) -> bool
    ensures { result ≡ list_all (λ argument. is_of command argument) given.now }
{
    given
        .as_slice()
        .iter()
        .all(|argument| is_of(command, argument))
}
