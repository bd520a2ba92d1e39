//! The words of the program, and the call that they ask for.

ghost use Rattle.std.specs.Prelude.{◌≡◌, ◌≢◌, ◌⊎◌};
ghost use Rattle.mon_world.specs.Causes.{Rose};
ghost use Rattle.mon_words.specs.declared.command.Command.{Command};
ghost use Rattle.mon_words.specs.Words.{Spells};
ghost use Rattle.monocle.specs.Running.{Does};
ghost use Rattle.monocle.specs.Calls.{Called};
ghost use Rattle.monocle.specs.Ending.{IsEndFor};

use crate::check::check;
use crate::plan::plan;
use crate::replay::replay;
use crate::saying::{out_of_memory, refused};
use mon_words::{Command, WordsFault, read_words};
use mon_world::{Desk, Text};
use std::alloc::Global;
use std::thread::Threads;

/// Reads the words and makes the call that they ask for; at words that spell no command it answers 2.
pub fn monocle<R: Threads + Sync, D: Desk>(
    rt: &R,
    alloc: Global,
    words: &[Text],
    desk: &mut D,
) -> u8
    ensures words { result ≡ 2 → (c : Command) → Spells c words.now → ⊥ }
    ensures bad_words { ((c : Command) → Spells c words.now → ⊥) → (result ≡ 2) ⊎ (result ≡ 7) }
    ensures runs { result ≢ 2 → result ≢ 7 → (c : Command) × Spells c words.now
        × Does c (D.files desk.old) result (D.written desk.old) (D.written desk.new) }
    ensures unwritten { result ≢ 0 → result ≢ 1 → result ≢ 6 → D.written desk.new ≡ D.written desk.old }
    ensures read { result ≡ 3 → Rose (D.read_faults desk.old) (D.read_faults desk.new) }
    ensures write { result ≡ 6 → Rose (D.write_faults desk.old) (D.write_faults desk.new) }
    ensures ended { Called (IsEndFor (D.files desk.old) words.now result) (D.said desk.old) (D.said desk.new) (D.calls desk.old) (D.calls desk.new) }
{
    match read_words(alloc, words) {
        Ok(Command::Replay { settings, trace }) => {
            replay(alloc, settings.as_str(), trace.as_str(), desk)
        }
        Ok(
            Command::Plan {
                source,
                workers,
                certificates,
            },
        ) => plan(rt, alloc, &source, workers, certificates, desk),
        Ok(
            Command::Check {
                source,
                certificates,
            },
        ) => check(alloc, &source, certificates.as_str(), desk),
        Err(WordsFault::Bad) => refused(alloc, desk, 2, b"monocle: bad words\n"),
        Err(WordsFault::OutOfMemory) => out_of_memory(alloc, desk),
    }
}
