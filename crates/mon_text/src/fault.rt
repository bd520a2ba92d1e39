//! Why a text was not read.

ghost use Rattle.std.specs.Prelude.{◌≡◌, ◌≤◌, length};
ghost use Rattle.mon_text.specs.declared.fault.TextFault.TheVariants as fault;
ghost use Rattle.mon_text.specs.declared.fault.FileFault.TheVariants as file;
ghost use Rattle.mon_text.specs.declared.fault.LineFault.TheVariants as line;
ghost use Rattle.mon_text.specs.Faults.{OnBadFrom, IsWithin};

use mon_list::OutOfMemory;
use std::alloc::{AllocError, AllocFailed};
use thiserror::Error;

/// Why a text was not read: a trace, the words of a command, or a single line. Each reader's contract says what a text in
/// form is.
#[derive(Clone, Copy, Debug, PartialEq, Eq, Error)]
pub enum TextFault {
    /// The text is in no form that the reader takes.
    #[error("not in form")]
    Bad,
    /// No memory was left.
    #[error("out of memory")]
    OutOfMemory,
}

impl From<OutOfMemory> for TextFault {
    ghost from_gives = { λ _ e. e ≡ fault.OutOfMemory };

    fn from(_: OutOfMemory) -> Self {
        TextFault::OutOfMemory
    }
}

impl From<AllocError> for TextFault {
    ghost from_gives = { λ _ e. e ≡ fault.OutOfMemory };

    fn from(_: AllocError) -> Self {
        TextFault::OutOfMemory
    }
}

impl<T: Drop> From<AllocFailed<T>> for TextFault {
    ghost from_gives = { λ _ e. e ≡ fault.OutOfMemory };

    fn from(_: AllocFailed<T>) -> Self {
        TextFault::OutOfMemory
    }
}

/// Why a file was not read: a table, certificates or a log. Each reader's contract says what a text in form is.
#[derive(Clone, Copy, Debug, PartialEq, Eq, Error)]
pub enum FileFault {
    /// The text is in no form that the reader takes. The first line for which no text in form has the same lines up to and
    /// with it begins at this byte. A last line without its line feed is such a line, and where each line is in order but
    /// lines are missing, the offset is the length of the text (`specs/BadLines.antt`).
    #[error("not in form")]
    Bad { offset: u64 },
    /// No memory was left.
    #[error("out of memory")]
    OutOfMemory,
}

impl From<OutOfMemory> for FileFault {
    ghost from_gives = { λ _ e. e ≡ file.OutOfMemory };

    fn from(_: OutOfMemory) -> Self {
        FileFault::OutOfMemory
    }
}

impl From<AllocError> for FileFault {
    ghost from_gives = { λ _ e. e ≡ file.OutOfMemory };

    fn from(_: AllocError) -> Self {
        FileFault::OutOfMemory
    }
}

impl<T: Drop> From<AllocFailed<T>> for FileFault {
    ghost from_gives = { λ _ e. e ≡ file.OutOfMemory };

    fn from(_: AllocFailed<T>) -> Self {
        FileFault::OutOfMemory
    }
}

/// Why lines at the front of a text were not read.
#[derive(Clone, Copy, Debug)]
pub enum LineFault<'a> {
    /// The lines are in no form that the reader takes. The text from the first bad line on.
    Bad(&'a [u8]),
    /// No memory was left.
    OutOfMemory,
}

impl<'a> From<OutOfMemory> for LineFault<'a> {
    ghost from_gives = { λ _ e. e ≡ line.OutOfMemory };

    fn from(_: OutOfMemory) -> Self {
        LineFault::OutOfMemory
    }
}

impl<'a> From<AllocError> for LineFault<'a> {
    ghost from_gives = { λ _ e. e ≡ line.OutOfMemory };

    fn from(_: AllocError) -> Self {
        LineFault::OutOfMemory
    }
}

impl<'a, T: Drop> From<AllocFailed<T>> for LineFault<'a> {
    ghost from_gives = { λ _ e. e ≡ line.OutOfMemory };

    fn from(_: AllocFailed<T>) -> Self {
        LineFault::OutOfMemory
    }
}

impl<'a> LineFault<'a> {
    /// The fault of a text whose end is what is bad.
    pub fn within(self, text: &[u8]) -> FileFault
        requires { OnBadFrom self (λ back. length back ≤ length text.now) }
        ensures { IsWithin self.entry result (length text.now) }
    {
        match self {
            LineFault::Bad(back) => FileFault::Bad {
                offset: (text.len() - back.len()) as u64,
            },
            LineFault::OutOfMemory => FileFault::OutOfMemory,
        }
    }
}
