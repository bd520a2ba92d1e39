//! `monocle`, a monitor of data-plane rules: the program.
//!
//! `replay SETTINGS TRACE` runs the sessions of a trace and writes what was put, and then the entries that the controller
//! should have on each switch. `plan TABLE` says for each rule of a table which packet shows it, or that none does, and
//! `check TABLE CERTIFICATES` checks such a plan. `main` makes the desk over files and the standard streams, and calls
//! `monocle`, whose contract is what is promised of a run.
#![tactic(auto)]

mod check;
#[cfg(test)]
mod flow_mod_tests;
mod plan;
#[cfg(test)]
mod planning_tests;
mod replay;
#[cfg(test)]
mod runs;
mod saying;
mod source;
mod standard;
mod tables;
#[cfg(test)]
mod tests;
mod words;

use crate::saying::out_of_memory;
use crate::standard::StdDesk;
use crate::words::monocle;
use mon_world::{OutOfMemory, Text};
use std::alloc::Global;
use std::process::ExitCode;
use std::rt::Env;
use std::{env, io};

/// The words of the command line. Where one is not text there are none, which is a wrong command line.
fn words_of<R: Env + Alloc<A = Global>>(rt: &R) -> Result<Vec<Text>, OutOfMemory> {
    let alloc = rt.alloc();
    let mut words = Vec::new(alloc);
    let all = match env::args(rt) {
        Ok(all) => all,
        Err(error) => {
            if error.kind() == io::ErrorKind::OutOfMemory {
                return Err(OutOfMemory);
            }
            return Ok(words);
        }
    };
    for word in all.skip(1) {
        let text = Text::new(alloc, word.as_str())?;
        words.push(text)?;
    }
    Ok(words)
}

fn main(rt: HostRuntime) -> ExitCode {
    let alloc = rt.alloc();
    let words = words_of(&rt);
    let mut desk = StdDesk::new(rt);
    match words {
        Ok(words) => ExitCode::from(monocle(&rt, alloc, &words, &mut desk)),
        Err(_) => ExitCode::from(out_of_memory(alloc, &mut desk)),
    }
}
