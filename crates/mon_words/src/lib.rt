//! The words of the command line.
//!
//! `read_words` gives the command that the words spell, by the grammar of `specs/Words.antt`: a command, then names and
//! options in any order, each option at most once, where `--` ends the options. It refuses exactly the words that spell
//! no command, and no words spell two.
//!
//! The words are read once, from the first to the last, as a list of names and options, and the command is what these
//! ask for. `replay` takes no options today, so a word that begins with `-` and is not `-` alone is refused there, unless
//! `--` stands before it: `replay -- -s -t` reads the files `-s` and `-t`.
#![tactic(auto)]

mod argument;
mod command;
mod given;
mod options;
mod reading;
#[cfg(test)]
mod tests;

pub use command::{Command, Source, read_words};
pub use mon_text::TextFault as WordsFault;
pub use mon_world::Text;
