//! What goes out of the frame that was planned last.

use mon_table::Edit;
use mon_world::Side;
use of_frame::Frame;

/// The next output of a planned frame.
#[derive(Drop)]
pub enum Output {
    /// A frame that is no edit's goes to this side.
    Plain { to: Side, frame: Frame },
    /// This edit goes to the switch, in this frame.
    Edited { frame: Frame, edit: Edit },
}
