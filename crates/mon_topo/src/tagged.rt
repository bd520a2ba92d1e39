//! A switch and its tag.

/// A switch, by its datapath id, and the tag that it was given.
#[derive(Clone, Copy, Debug, PartialEq, Eq)]
pub struct Tagged {
    pub switch: u64,
    pub tag: u16,
}
