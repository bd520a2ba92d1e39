//! Numbers that are used once.

/// How many sessions were opened, and the serial and the job number that were used last.
#[derive(Clone, Copy, Debug, PartialEq, Eq)]
pub struct Numbers {
    pub session: u64,
    pub serial: u64,
    pub job: u64,
}
