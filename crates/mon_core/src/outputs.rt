//! What a turn puts out.

ghost use Rattle.std.specs.Prelude.{◌≡◌, ◌∷◌, ◌++◌, [], OnOk};
ghost use Rattle.mon_core.specs.History.{sent};

use mon_world::{Out, OutOfMemory, Side};
use of_frame::{Frame, Frames};

/// Adds a frame, to be sent to a side.
pub fn push(number: u64, to: Side, frame: Frame, outs: &mut Vec<Out>) -> Result<(), OutOfMemory>
    ensures { OnOk result (outs.new.items ≡ outs.old.items ++ sent number to (frame ∷ [])) }
{
    outs.push(Out::Send {
        session: number,
        to,
        frame,
    })?;
    Ok(())
}

/// Adds each frame, to be sent to a side.
pub fn push_all(
    number: u64,
    to: Side,
    frames: Frames,
    outs: &mut Vec<Out>,
) -> Result<(), OutOfMemory>
    ensures { OnOk result (outs.new.items ≡ outs.old.items ++ sent number to frames) }
{
    for frame in frames.into_items() {
        push(number, to, frame, outs)?;
    }
    Ok(())
}
