//! Commands.

ghost use Rattle.std.specs.Prelude.{◌≡◌, Err, IfOk};
ghost use Rattle.mon_words.specs.declared.command.Command.{Command};
ghost use Rattle.mon_words.specs.Words.{Spells};
ghost use Rattle.mon_text.specs.Reads.{Reads};
ghost use Rattle.mon_words.specs.Reading.{plan_of, check_of, replay_of, command_of};

use crate::argument::{Argument, Kind};
use crate::given::{Given, asks_certificates, given_in, names_in, source_of, workers_of};
use crate::reading::arguments_of;
use mon_text::TextFault;
use mon_world::Text;
use std::alloc::Global;

/// Where a table comes from.
#[derive(Drop)]
pub enum Source {
    /// A file of this name.
    File(Text),
    /// The generator: `n` rules are added, 1 to 4096, from a seed of 0 to 65535.
    Generate { n: u32, seed: u32 },
}

/// What the program is asked to do.
#[derive(Drop)]
pub enum Command {
    /// Pass the session of a trace through.
    Replay {
        settings: Text,
        trace: Text,
    },
    /// Plan a table with 1 to 64 threads, and write the certificates where they are asked for, else a summary.
    Plan {
        source: Source,
        workers: u32,
        certificates: bool,
    },
    /// Check certificates of a table.
    Check {
        source: Source,
        certificates: Text,
    },
}

/// The replay that names and options ask for: two names alone.
fn replay_of(alloc: Global, arguments: &[Argument]) -> Result<Command, TextFault>
    ensures { Reads (λ command. command) result (replay_of arguments.now) }
{
    match arguments {
        [Argument::Name(settings), Argument::Name(trace)] => {
            let settings = Text::new(alloc, settings.as_str())?;
            let trace = Text::new(alloc, trace.as_str())?;
            Ok(Command::Replay { settings, trace })
        }
        _ => Err(TextFault::Bad),
    }
}

/// The plan that names and options ask for.
fn plan_of(alloc: Global, arguments: Vec<Argument>) -> Result<Command, TextFault>
    ensures { Reads (λ command. command) result (plan_of arguments.items) }
{
    let n = given_in(Kind::Generate, &arguments);
    let seed = given_in(Kind::Seed, &arguments);
    let workers = workers_of(given_in(Kind::Workers, &arguments));
    let certificates = asks_certificates(&arguments);
    let names = names_in(alloc, arguments)?;
    let source = source_of(names, n, seed);
    match (source, workers, certificates) {
        (Some(source), Some(workers), Some(certificates)) => Ok(Command::Plan {
            source,
            workers,
            certificates,
        }),
        _ => Err(TextFault::Bad),
    }
}

/// The check that names and options ask for.
fn check_of(alloc: Global, arguments: Vec<Argument>) -> Result<Command, TextFault>
    ensures { Reads (λ command. command) result (check_of arguments.items) }
{
    let n = given_in(Kind::Generate, &arguments);
    let seed = given_in(Kind::Seed, &arguments);
    let workers = given_in(Kind::Workers, &arguments);
    let asked = asks_certificates(&arguments);
    let mut names = names_in(alloc, arguments)?;
    let Some(certificates) = names.pop() else {
        return Err(TextFault::Bad);
    };
    match (workers, asked, source_of(names, n, seed)) {
        (Given::Never, Some(false), Some(source)) => Ok(Command::Check {
            source,
            certificates,
        }),
        _ => Err(TextFault::Bad),
    }
}

fn command_of(alloc: Global, words: &[Text]) -> Result<Command, TextFault>
    ensures { Reads (λ command. command) result (command_of words.now) }
{
    match words {
        [] => Err(TextFault::Bad),
        [word, rest @ ..] => match word.as_str() {
            "replay" => replay_of(alloc, &arguments_of(alloc, rest)?),
            "plan" => plan_of(alloc, arguments_of(alloc, rest)?),
            "check" => check_of(alloc, arguments_of(alloc, rest)?),
            _ => Err(TextFault::Bad),
        },
    }
}

/// The command that the words spell: the command, and then names and options in any order, each option at most once.
pub fn read_words(alloc: Global, words: &[Text]) -> Result<Command, TextFault>
    ensures spelled { IfOk result (λ command. Spells command words.now) }
    ensures alone { IfOk result (λ command. (other : Command) → Spells other words.now → other ≡ command) }
    ensures bad { result ≡ Err TextFault.Bad → (command : Command) → Spells command words.now → ⊥ }
{
    command_of(alloc, words)
}
