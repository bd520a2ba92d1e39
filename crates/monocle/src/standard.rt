//! The desk over files, standard output and standard error. It tells nothing.

ghost use Rattle.std.specs.Prelude.{None};

use mon_world::{Desk, DeskFault};
use std::alloc::Global;
use std::rt::Files;
use std::{fs, io};

/// Files by their paths, standard output and standard error.
#[derive(Drop)]
pub struct StdDesk<R> {
    rt: R,
    read_faults: u64,
    write_faults: u64,
}

impl<R> StdDesk<R> {
    /// A desk on which nothing has failed yet.
    pub fn new(rt: R) -> StdDesk<R> {
        StdDesk {
            rt,
            read_faults: 0,
            write_faults: 0,
        }
    }
}

impl<R: Files + Print + Eprint + Alloc<A = Global>> Desk for StdDesk<R> {
    ghost files = { λ _. None };

    ghost written = { λ _. None };

    ghost said = { λ _. None };

    ghost calls = { λ _. None };

    ghost read_faults = { λ d. d.read_faults };

    ghost write_faults = { λ d. d.write_faults };

    fn read(&mut self, _alloc: Global, name: &str) -> Result<Vec<u8>, DeskFault> {
        match fs::read(&self.rt, name) {
            Ok(bytes) => Ok(bytes),
            Err(error) => {
                if error.kind() == io::ErrorKind::OutOfMemory {
                    return Err(DeskFault::OutOfMemory);
                }
                self.read_faults = self.read_faults.saturating_add(1);
                Err(DeskFault::Failed)
            }
        }
    }

    fn write(&mut self, _alloc: Global, bytes: &[u8]) -> Result<(), DeskFault> {
        match Print::write_all(&self.rt, bytes) {
            Ok(()) => Ok(()),
            Err(_) => {
                self.write_faults = self.write_faults.saturating_add(1);
                Err(DeskFault::Failed)
            }
        }
    }

    fn say(&mut self, _alloc: Global, bytes: &[u8]) {
        if let Ok(text) = str::from_utf8(bytes) {
            let _ = self.rt.eprint(text);
        }
    }
}
