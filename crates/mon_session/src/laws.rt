//! That what a session keeps stands for its history. These functions do nothing: each is its law.

ghost use Rattle.mon_session.specs.Confirmed.{OthersStay, ConfirmationIsSound};
ghost use Rattle.mon_session.specs.Going.{StandingGoesOn};
ghost use Rattle.mon_session.specs.Offering.{UpdatesAreThere};
ghost use Rattle.mon_session.specs.Planning.{PlannedAtFirst, PlannedBehind, PlannedWithout};
ghost use Rattle.mon_session.specs.Standing.{Rejecting, StepsStand, FramesOwe, OpeningBegins, ReturnsOwe, AnswersOwe, TicksOwe, WantsStand};

/// What a session keeps is what its history says: one entry more is one step more.
pub fn a_step_is_an_entry()
    ensures { StepsStand }
{}

/// The table of the edits that are left, once one is rejected, is the current table with that edit taken back.
pub fn a_rejected_edit_is_taken_back()
    ensures { Rejecting }
{}

/// Edits that stand well do so after each entry, where an edit that goes out is passed well.
pub fn standing_goes_on()
    ensures { StandingGoesOn }
{}

/// The edits of a planned frame are what they were planned as until they pass: the old rule stands, or was unsure and vanished.
pub fn planned_edits_stay()
    ensures planned { PlannedAtFirst }
    ensures behind { PlannedBehind }
    ensures vanished { PlannedWithout }
{}

/// The update of each unsettled edit is in the table that the switch should have, so it can be asked of it by which probe the
/// update shows.
pub fn updates_are_there()
    ensures { UpdatesAreThere }
{}

/// What a session begins with is what its opening says.
pub fn an_opening_begins_a_session()
    ensures { OpeningBegins }
{}

/// What a frame of the switch makes due by what the session keeps is what the history says.
pub fn frames_of_the_switch_owe_what_the_history_says()
    ensures { FramesOwe }
{}

/// What a return, an answer and a tick make due by what the session keeps is what the history says, and so is the edit that
/// wants a job next.
pub fn probes_owe_what_the_history_says()
    ensures returns { ReturnsOwe }
    ensures answers { AnswersOwe }
    ensures ticks { TicksOwe }
    ensures wants { WantsStand }
{}

/// What a probe shows that separated the expected table from the one without its edit comes from no table that is possible and
/// lacks the edit, as long as that is unsettled, whatever was passed, rejected, settled or vanished since.
pub fn a_confirmation_is_sound()
    ensures others { OthersStay }
    ensures sound { ConfirmationIsSound }
{}
