//! Words read one after the other.

ghost use Rattle.std.specs.Prelude.{◌≡◌, ◌++◌, Some, OnOk};
ghost use Rattle.mon_words.specs.declared.argument.Argument.TheVariants.{Name};
ghost use Rattle.mon_words.specs.declared.reading.State.TheVariants.{Arguments};
ghost use Rattle.mon_words.specs.Words.{is_name};
ghost use Rattle.mon_text.specs.Reads.{Reads};
ghost use Rattle.mon_words.specs.Reading.{only, option_step, step_of, may_end, said_of, arguments_of};

use crate::argument::{Argument, Kind};
use crate::options::{joined_of, kind_of, number_of};
use mon_list::OutOfMemory;
use mon_text::TextFault;
use mon_world::Text;
use std::alloc::Global;

/// What the next word may be.
#[derive(Clone, Copy)]
pub enum State {
    /// A name or an option.
    Arguments,
    /// The number of an option.
    NumberOf(Kind),
    /// A name, since `--` stood before.
    Names,
}

/// What a word says, and what the next one may be.
#[derive(Drop)]
pub struct Step {
    pub says: Option<Argument>,
    pub state: State,
}

/// A name of a file, which may not begin with `-` unless it is `-`.
pub(crate) fn is_name(word: &str) -> bool
    ensures { result ≡ is_name word.now }
{
    word == "-" || !word.as_bytes().starts_with(b"-")
}

fn only(argument: Argument) -> Step
    ensures { result ≡ only argument }
{
    Step {
        says: Some(argument),
        state: State::Arguments,
    }
}

/// What a word says that is no name and stands before `--`.
fn option_step(word: &str) -> Option<Step>
    ensures { result ≡ option_step word.now }
{
    if word == "--" {
        return Some(Step {
            says: None,
            state: State::Names,
        });
    }
    if word == "--certificates" {
        return Some(only(Argument::Certificates));
    }
    if let Some(kind) = kind_of(word) {
        return Some(Step {
            says: None,
            state: State::NumberOf(kind),
        });
    }
    let argument = joined_of(word)?;
    Some(only(argument))
}

fn named(alloc: Global, word: &Text, state: State) -> Result<Step, TextFault>
    ensures { Reads (λ step. step) result (Some (record { says = Some (Name word.now); state = state })) }
{
    let name = Text::new(alloc, word.as_str())?;
    Ok(Step {
        says: Some(Argument::Name(name)),
        state,
    })
}

/// Reads the next word.
fn next_step(alloc: Global, from: State, word: &Text) -> Result<Step, TextFault>
    ensures { Reads (λ step. step) result (step_of from word.now) }
{
    match from {
        State::Names => named(alloc, word, State::Names),
        State::NumberOf(kind) => match number_of(kind, word.as_str()) {
            Some(n) => Ok(only(Argument::Number(kind, n))),
            None => Err(TextFault::Bad),
        },
        State::Arguments => {
            if is_name(word.as_str()) {
                return named(alloc, word, State::Arguments);
            }
            match option_step(word.as_str()) {
                Some(step) => Ok(step),
                None => Err(TextFault::Bad),
            }
        }
    }
}

/// Appends what a word says.
fn keep(arguments: &mut Vec<Argument>, says: Option<Argument>) -> Result<(), OutOfMemory>
    ensures { OnOk result (arguments.new.items ≡ arguments.old.items ++ said_of says) }
{
    if let Some(argument) = says {
        arguments.push(argument)?;
    }
    Ok(())
}

fn may_end(state: State) -> bool
    ensures { result ≡ may_end state }
{
    match state {
        State::Arguments | State::Names => true,
        State::NumberOf(_) => false,
    }
}

/// The names and options of the words after the command.
pub(crate) fn arguments_of(alloc: Global, words: &[Text]) -> Result<Vec<Argument>, TextFault>
    ensures { Reads (λ arguments. arguments.items) result (arguments_of Arguments words.now) }
{
    let mut arguments = Vec::new(alloc);
    let mut state = State::Arguments;
    for word in words {
        let Step { says, state: next } = next_step(alloc, state, word)?;
        keep(&mut arguments, says)?;
        state = next;
    }
    if may_end(state) {
        Ok(arguments)
    } else {
        Err(TextFault::Bad)
    }
}
