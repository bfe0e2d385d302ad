//! What the words of the command line ask for.
ghost use Rattle.std.specs.Prelude.{◌≡◌, ◌∷◌, codes, IfOk};
ghost use Rattle.std.specs.Option.{option_map, option_flatten, option_copied, option_to_list};

use crate::arguments::{Arguments, read_arguments};
use crate::commands::{Command, are_of, command_of};
use crate::options::{counts_given, only_file, optional_number, required_number, value_given};
use spl_value::{Items, Name, NoMemory};
use std::alloc::Global;

/// The options of a run, as they were given.
#[derive(Drop)]
pub struct RunOptions {
    pub width: Option<u32>,
    pub workers: Option<u32>,
    pub capacity: Option<u32>,
    pub arrivals: Option<Name>,
    pub counts: bool,
}

/// What the program is asked to do.
#[derive(Drop)]
pub enum Request {
    /// Compiles the program in the file of this name.
    Check(Name),
    /// Compiles the program and shows its regions.
    Plan(Name),
    /// Runs the program on workers.
    Run {
        program: Name,
        options: RunOptions,
    },
    /// Runs the program on one thread, in the order that the arrivals file records.
    Replay {
        program: Name,
        arrivals: Name,
    },
    /// Runs the program on one thread, where the number of the schedule picks each event. It takes at
    /// most `steps` events, 10,000,000 where no number is given.
    Simulate {
        program: Name,
        width: u32,
        schedule: u32,
        steps: u32,
    },
    /// Writes `rows` generated rows to the file of this name. The generator begins with the number `start`.
    Make {
        name: Name,
        rows: u32,
        start: u32,
    },
}

ghost use Rattle.command_line.specs.Arguments.{arguments};
ghost use Rattle.command_line.specs.Options.{optional};
ghost use Rattle.command_line.specs.Request.{other_than, run_of, simulate_of, make_of, request_with, request_given, request_of, file_names};

// The arrivals file, if it is given. The outer `None` is no such option: it is given several times,
// or it is the program.
fn arrivals_of(
    alloc: Global,
    given: &Arguments,
    program: &Name,
) -> Result<Option<Option<Name>>, NoMemory>
    ensures { IfOk result (λ found.
        found ≡ optional (other_than program.now) (codes "arrivals") given.now) }
{
    match value_given(given, b"arrivals") {
        None => Ok(None),
        Some(None) => Ok(Some(None)),
        Some(Some(name)) => {
            if name.as_slice() == program.as_slice() {
                return Ok(None);
            }
            let name = Items::from_slice(alloc, name.as_slice())?;
            Ok(Some(Some(name)))
        }
    }
}

fn run_of(
    program: Name,
    width: Option<Option<u32>>,
    workers: Option<Option<u32>>,
    capacity: Option<Option<u32>>,
    arrivals: Option<Option<Name>>,
    counts: Option<bool>,
) -> Option<Request>
    ensures { result ≡ run_of program width workers capacity arrivals counts }
{
    let options = RunOptions {
        width: width?,
        workers: workers?,
        capacity: capacity?,
        arrivals: arrivals?,
        counts: counts?,
    };
    Some(Request::Run { program, options })
}

fn replay_of(program: Name, arrivals: Option<Option<Name>>) -> Option<Request>
    ensures { result ≡ option_map (Request.Replay program) (option_flatten arrivals) }
{
    let arrivals = arrivals.flatten()?;
    Some(Request::Replay { program, arrivals })
}

fn simulate_of(
    program: Name,
    width: Option<u32>,
    schedule: Option<u32>,
    steps: Option<Option<u32>>,
) -> Option<Request>
    ensures { result ≡ simulate_of program width schedule steps }
{
    Some(Request::Simulate {
        program,
        width: width?,
        schedule: schedule?,
        steps: steps?.unwrap_or(10_000_000),
    })
}

fn make_of(name: Name, rows: Option<u32>, start: Option<u32>) -> Option<Request>
    ensures { result ≡ make_of name rows start }
{
    Some(Request::Make {
        name,
        rows: rows?,
        start: start?,
    })
}

// The request of a command, of its arguments and of the file name among them.
fn request_with(
    alloc: Global,
    command: Command,
    given: &Arguments,
    file: Name,
) -> Result<Option<Request>, NoMemory>
    ensures { IfOk result (λ request. request ≡ request_with command given.now file) }
{
    match command {
        Command::Check => Ok(Some(Request::Check(file))),
        Command::Plan => Ok(Some(Request::Plan(file))),
        Command::Run => {
            let width = optional_number(given, b"width", 1, 16);
            let workers = optional_number(given, b"workers", 1, 64);
            let capacity = optional_number(given, b"capacity", 18, 4096);
            let arrivals = arrivals_of(alloc, given, &file)?;
            let counts = counts_given(given);
            Ok(run_of(file, width, workers, capacity, arrivals, counts))
        }
        Command::Replay => {
            let arrivals = arrivals_of(alloc, given, &file)?;
            Ok(replay_of(file, arrivals))
        }
        Command::Simulate => {
            let width = required_number(given, b"width", 1, 16);
            let schedule = required_number(given, b"schedule", 0, 2_147_483_647);
            let steps = optional_number(given, b"steps", 1, 1_000_000_000);
            Ok(simulate_of(file, width, schedule, steps))
        }
        Command::Make => {
            let rows = required_number(given, b"rows", 0, 10_000_000);
            let start = required_number(given, b"start", 0, 2_147_483_647);
            Ok(make_of(file, rows, start))
        }
    }
}

// The request of a command and its arguments.
fn request_given(
    alloc: Global,
    command: Command,
    given: &Arguments,
) -> Result<Option<Request>, NoMemory>
    ensures { IfOk result (λ request. request ≡ request_given command given.now) }
{
    if !are_of(command, given) {
        return Ok(None);
    }
    match only_file(given) {
        None => Ok(None),
        Some(file) => {
            let file = Items::from_slice(alloc, file.as_slice())?;
            request_with(alloc, command, given, file)
        }
    }
}

/// The request that the words after the program's name are, if they are one.
pub fn read_request(alloc: Global, words: &[String]) -> Result<Option<Request>, NoMemory>
    ensures { IfOk result (λ request. request ≡ request_of words.now) }
{
    let [word, words @ ..] = words else {
        return Ok(None);
    };
    let Some(command) = command_of(word.as_str()) else {
        return Ok(None);
    };
    match read_arguments(alloc, words)? {
        None => Ok(None),
        Some(given) => request_given(alloc, command, &given),
    }
}

// One file name, and another where there is one.
fn names_of(alloc: Global, first: &Name, second: Option<&Name>) -> Result<Items<Name>, NoMemory>
    ensures { IfOk result (λ names. names ≡ first.now ∷ option_to_list (option_copied second.entry)) }
{
    let mut names = Items::new(alloc);
    names.push(Items::from_slice(alloc, first.as_slice())?)?;
    if let Some(second) = second {
        names.push(Items::from_slice(alloc, second.as_slice())?)?;
    }
    Ok(names)
}

/// The file names of the command line that no sink of the program may have: the program, and the
/// arrivals file where there is one.
pub fn file_names(alloc: Global, request: &Request) -> Result<Items<Name>, NoMemory>
    ensures { IfOk result (λ names. names ≡ file_names request.now) }
{
    match request {
        Request::Check(program) | Request::Plan(program) => names_of(alloc, program, None),
        Request::Run { program, options } => names_of(alloc, program, options.arrivals.as_ref()),
        Request::Replay { program, arrivals } => names_of(alloc, program, Some(arrivals)),
        Request::Simulate { program, .. } => names_of(alloc, program, None),
        Request::Make { .. } => Ok(Items::new(alloc)),
    }
}
