//! What can be wrong with a header.

use thiserror::Error;

/// Why a stream can't be cut further.
#[derive(Clone, Copy, Debug, PartialEq, Eq, Error)]
pub enum FrameFault {
    /// The length field is below 8, the size of the header itself.
    #[error("a frame of less than 8 bytes")]
    BadLength,
    /// The version is not 1, and the type is not HELLO, which alone may offer another one.
    #[error("a frame of another version than OpenFlow 1.0")]
    BadVersion,
}
