//! What a legal history means. The function does nothing: it is its law.

ghost use Rattle.std.specs.Prelude.{◌≡◌, List};
ghost use Rattle.mon_world.specs.declared.history.Entry.{Entry};
ghost use Rattle.mon_core.specs.Streams.{AtTurnEnds, IsPassed, armed_in};
ghost use Rattle.mon_core.specs.History.{Legal, Named, LegalSoFar, sessions, armed};

/// In a legal history, wherever a turn has ended, each frame of the controller's stream had its fate and no other, each
/// frame of the switch's stream was put to the controller, all in order and in the turn in which they came, nothing else
/// was put, and a session was ended exactly where a side's stream has a fault. A core that stands for the history shows
/// the expected tables of the sessions that have not ended.
pub fn legal_passes_frames()
    ensures frames { (h : List Entry) → Named h → Legal h → AtTurnEnds IsPassed h }
    ensures tables { (h : List Entry) → Named h → LegalSoFar h → armed (sessions h) ≡ armed_in h }
{}
