//! What the names and options of a line give.

ghost use Rattle.std.specs.Prelude.{◌≡◌, IfOk};
ghost use Rattle.mon_words.specs.Words.{names_in, certificates_in, given_in, source_of, workers_of, asked_of};

use crate::argument::{Argument, Kind};
use crate::command::Source;
use mon_list::OutOfMemory;
use mon_world::Text;
use std::alloc::Global;

/// How often an option is given, with its number where it is given once.
#[derive(Clone, Copy)]
pub enum Given {
    Never,
    Once(u32),
    Often,
}

/// What is given with an option.
pub(crate) fn given_in(kind: Kind, arguments: &[Argument]) -> Given
    ensures { result ≡ given_in kind arguments.now }
{
    let mut given = Given::Never;
    for argument in arguments {
        if let Argument::Number(other, n) = argument
            && *other == kind
        {
            given = match given {
                Given::Never => Given::Once(*n),
                Given::Once(_) | Given::Often => Given::Often,
            };
        }
    }
    given
}

/// Whether certificates are asked for, none where that is said twice.
pub(crate) fn asks_certificates(arguments: &[Argument]) -> Option<bool>
    ensures { result ≡ asked_of (certificates_in arguments.now) }
{
    let mut asked = false;
    for argument in arguments {
        if let Argument::Certificates = argument {
            if asked {
                return None;
            }
            asked = true;
        }
    }
    Some(asked)
}

/// The names, in order.
pub(crate) fn names_in(alloc: Global, arguments: Vec<Argument>) -> Result<Vec<Text>, OutOfMemory>
    ensures { IfOk result (λ names. names.items ≡ names_in arguments.items) }
{
    let mut names = Vec::new(alloc);
    for argument in arguments {
        if let Argument::Name(name) = argument {
            names.push(name)?;
        }
    }
    Ok(names)
}

/// How many threads plan.
pub(crate) fn workers_of(given: Given) -> Option<u32>
    ensures { result ≡ workers_of given }
{
    match given {
        Given::Never => Some(1),
        Given::Once(workers) => Some(workers),
        Given::Often => None,
    }
}

/// Where the table comes from.
pub(crate) fn source_of(names: Vec<Text>, n: Given, seed: Given) -> Option<Source>
    ensures { result ≡ source_of names.items n seed }
{
    let mut names = names;
    match (n, seed) {
        (Given::Never, Given::Never) => {
            let table = names.pop()?;
            if names.is_empty() {
                Some(Source::File(table))
            } else {
                None
            }
        }
        (Given::Once(n), Given::Once(seed)) => {
            if names.is_empty() {
                Some(Source::Generate { n, seed })
            } else {
                None
            }
        }
        _ => None,
    }
}
