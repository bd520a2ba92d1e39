//! Why switches get no tags.

use thiserror::Error;

/// Why switches get no tags. A `link` is the place of a link in its list, from 0.
#[derive(Clone, Copy, Debug, PartialEq, Eq, Error)]
pub enum TopoFault {
    /// An end of the link is at no listed switch.
    #[error("link {link} ends at an unknown switch")]
    UnknownEnd { link: u64 },
    /// The link has both ends at one switch, or uses a port that an earlier link uses.
    #[error("link {link} uses a switch or a port twice")]
    LinkTwice { link: u64 },
    /// Each tag of the list is taken by a switch that is linked to the one whose turn it is.
    #[error("too few tags")]
    TooFewTags,
    /// No memory was left.
    #[error("out of memory")]
    OutOfMemory,
}
