//! The program `spl`, over the system's files and its standard output.
#![tactic(auto)]

use feed_pour::{AllStart, FileShelf, OpenGate, StdoutPour};
use spl_driver::spl;
use std::process::ExitCode;
use std::{env, io};

// The status where there is no memory for the words of the command line.
const NO_MEMORY: u8 = 9;

// The words after the program's name; none where some word is no text, so that they are no request.
fn words(rt: &HostRuntime) -> io::Result<Vec<String>> {
    let mut words = Vec::new(rt.alloc());
    let all = match env::args(rt) {
        Ok(all) => all,
        Err(error) if error.kind() == io::ErrorKind::InvalidData => return Ok(words),
        Err(error) => return Err(error),
    };
    for word in all.skip(1) {
        words.push(word)?;
    }
    Ok(words)
}

fn main(rt: HostRuntime) -> ExitCode {
    let Ok(words) = words(&rt) else {
        return ExitCode::from(NO_MEMORY);
    };
    let Ok(files) = rt.clone() else {
        return ExitCode::from(NO_MEMORY);
    };
    let ended = spl(
        &rt,
        rt.alloc(),
        words.as_slice(),
        &mut FileShelf::new(files, rt.alloc()),
        &mut AllStart,
        &OpenGate,
        &mut StdoutPour::new(io::writer(&rt)),
    );
    ExitCode::from(ended.status)
}
