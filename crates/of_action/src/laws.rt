//! What joins actions and their bytes, whatever the bytes.

ghost use Rattle.std.specs.Prelude.{◌≡◌, ◌↔◌, ℕ, List};
ghost use Rattle.mon_header.specs.declared.action.Action.{Action};
ghost use Rattle.mon_header.specs.Actions.{AllFit};
ghost use Rattle.of_action.specs.Layout.{spelled};
ghost use Rattle.of_action.specs.Reading.{actions_of, IsFirstFault};

/// What is written is read back: the same actions, in the same order.
pub fn written_is_read()
    ensures { (actions : List Action) → AllFit actions → actions_of (spelled actions) ≡ Ok actions }
{}

/// Bytes are refused at their first faulty place, and only there.
pub fn a_fault_is_the_first()
    ensures { (bytes : List ℕ) (place : ℕ) → (actions_of bytes ≡ Err place) ↔ IsFirstFault bytes place }
{}
