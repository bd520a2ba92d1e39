//! Flags of a FLOW_MOD (OpenFlow 1.0.0, modify flow entry message).

/// A FLOW_REMOVED is wanted when the entry goes.
pub const SEND_FLOW_REM: u16 = 1;
/// An overlapping entry of the same priority is an error.
pub const CHECK_OVERLAP: u16 = 2;
/// The entry is for the emergency table.
pub const EMERG: u16 = 4;
