//! Messages of OpenFlow 1.0.0 and their bytes.
//!
//! Each reader takes a frame and gives the fields of its layout, by their byte places (`specs/Layout.antt`,
//! `specs/FlowMods.antt`), or says that the frame is too short for it. None looks at the frame's type: the caller chose
//! the reader by it. A FLOW_MOD is read as a function of the bytes (`flow_mod_in` of `specs/ReadMods.antt`), which is all
//! that a reader can answer while there is memory. A FLOW_MOD or an ERROR that is written is read back; nothing here reads
//! a PACKET_OUT.
//!
//! A `FlowMod` keeps the message's own bytes of its match and its actions beside what they mean, so that what is passed
//! on is what came, unused wildcard bits and pads included.
#![tactic(auto)]

mod command;
mod error;
pub mod errors;
mod fault;
pub mod flags;
mod flow_mod;
mod laws;
mod packet;
pub mod ports;
mod reading;
pub mod reasons;
#[cfg(test)]
mod tests;
mod writing;

pub use command::Command;
pub use error::{ErrorMsg, error_frame, read_error};
pub use fault::ModFault;
pub use flow_mod::{FlowMod, RawActions};
pub use laws::{reading_is_a_function, what_was_read_is_written};
pub use mon_list::OutOfMemory;
pub use of_frame::kinds;
pub use packet::{NO_BUFFER, OWN_XID, PacketIn, packet_out, read_packet_in};
pub use reading::{read_features, read_flow_mod, read_miss_length};
pub use writing::write_flow_mod;
