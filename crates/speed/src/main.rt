//! How long evaluations, windows and rows take.
//!
//! Usage: `speed evaluations KIND`, `speed windows KIND SIZE KEYS` or `speed rows SHAPE IN OUT`. The modules say
//! what these words are. Without words it does nothing.
#![tactic(auto)]

mod evaluations;
mod rows;
mod windows;

use std::{env, io};

fn main(rt: HostRuntime) -> io::Result<()> {
    let words: Vec<String> = env::args(&rt)?.collect(rt.alloc())?;
    let [_, what, rest @ ..] = words.as_slice() else {
        return Ok(());
    };
    match what.as_str() {
        "evaluations" => evaluations::measured(&rt, rest),
        "windows" => windows::measured(&rt, rest),
        "rows" => rows::measured(&rt, rest),
        _ => Ok(()),
    }
}
