//! Types and codes of ERRORs (OpenFlow 1.0.0, error message): those that the proxy sends.

/// The type for a request that was not understood.
pub const BAD_REQUEST: u16 = 1;
/// The code of `BAD_REQUEST`: wrong length.
pub const BAD_REQUEST_BAD_LEN: u16 = 6;
/// The type for an action that was not understood.
pub const BAD_ACTION: u16 = 2;
/// The code of `BAD_ACTION`: wrong length.
pub const BAD_ACTION_BAD_LEN: u16 = 1;
/// The type for a FLOW_MOD that cannot be done.
pub const FLOW_MOD_FAILED: u16 = 3;
/// A code of `FLOW_MOD_FAILED`: the tables are full.
pub const ALL_TABLES_FULL: u16 = 0;
/// A code of `FLOW_MOD_FAILED`: an entry overlaps, and the message asked to look.
pub const OVERLAP: u16 = 1;
/// A code of `FLOW_MOD_FAILED`: not permitted.
pub const EPERM: u16 = 2;
/// A code of `FLOW_MOD_FAILED`: unknown command.
pub const BAD_COMMAND: u16 = 4;
