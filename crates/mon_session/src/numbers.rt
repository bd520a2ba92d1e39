//! The numbers that a core gives out.

/// How many sessions were opened so far, and the serial and the job number that were used last.
#[derive(Clone, Copy, Debug, PartialEq, Eq, Drop)]
pub struct Numbers {
    pub session: u64,
    pub serial: u64,
    pub job: u64,
}
