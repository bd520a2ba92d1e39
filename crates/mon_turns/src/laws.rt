//! What the definitions of the core say, whatever the history. These functions do nothing: each is its law.

ghost use Rattle.mon_turns.specs.Laws.{OneLogOneState, GatesAreTheHistorys, ArmedAreTheHistorys, OpeningsStand, FreeSlotIsNext, OpenHaveSlots, OpenUntilTheEnd, TurnedAway, IdleStands, VersionsRise, ViewsAreTheHistorys, OthersAreTheHistorys, EventsAreLawful, WholeTurns, SessionsFollow, AnswersAreFollowed, EditsAreFollowed, BarriersFollow, UnmonitorableFollow, GivenStand, NothingStands, SettlingsFollow};

/// A log fixes the state of the core that stands for it.
pub fn one_log_gives_one_state()
    ensures { OneLogOneState }
{}

/// The sessions whose controller is not read are those that the history gates.
pub fn gates_are_those_of_the_history()
    ensures { GatesAreTheHistorys }
{}

/// The core shows the armed sessions of the history, and the entries that their controllers should have.
pub fn armed_sessions_are_those_of_the_history()
    ensures { ArmedAreTheHistorys }
{}

/// An opening in a free slot leaves the state with a session more, and ends its turn at once.
pub fn openings_stand()
    ensures { OpeningsStand }
{}

/// The least free slot of the core is the one that the history gives the next session.
pub fn the_free_slot_is_the_next()
    ensures { FreeSlotIsNext }
{}

/// Where a turn has ended each open session has a slot.
pub fn open_sessions_have_slots()
    ensures { OpenHaveSlots }
{}

/// A session that is open stays so until it is ended.
pub fn sessions_are_open_until_their_end()
    ensures { OpenUntilTheEnd }
{}

/// Where no slot is free the next session is ended at once, with its report, and only its number is used.
pub fn sessions_without_a_slot_are_turned_away()
    ensures { TurnedAway }
{}

/// Where nothing came the turn ends at once, and the state stays.
pub fn idle_stands()
    ensures { IdleStands }
{}

/// The version of a slot rises with the changes of the one open session that has it.
pub fn versions_rise_with_their_session()
    ensures { VersionsRise }
{}

/// The view of a session that the state gives is the history's.
pub fn views_are_those_of_the_history()
    ensures { ViewsAreTheHistorys }
{}

/// The datapath ids of the other open sessions are the history's.
pub fn others_are_those_of_the_history()
    ensures { OthersAreTheHistorys }
{}

/// An event behind a lawful whole history is lawful, whatever it is.
pub fn events_are_lawful()
    ensures { EventsAreLawful }
{}

/// Where nothing comes next the turn has ended by every line of legality, but for what a tick asks for.
pub fn turns_end_where_nothing_comes()
    ensures { WholeTurns }
{}

/// How sessions begin, are armed and end follows from the order of moments, where probes go to sessions that are open.
pub fn sessions_follow_from_the_order()
    ensures { SessionsFollow }
{}

/// Behind an answer comes its report exactly where one is due, and the note of its probe.
pub fn answers_are_followed()
    ensures { AnswersAreFollowed }
{}

/// Behind the frame of an edit comes its report, exactly where one is due.
pub fn edits_are_followed()
    ensures { EditsAreFollowed }
{}

/// Behind a report comes its own barrier.
pub fn barriers_follow()
    ensures { BarriersFollow }
{}

/// Which updates are reported as ones that no probe is to show follows from the order of moments, where probes go to sessions
/// that are open.
pub fn unmonitorable_updates_follow_from_the_order()
    ensures { UnmonitorableFollow }
{}

/// Where the core stood for all before an event, the log with the event is that of a lawful history.
pub fn events_stand_behind_turns()
    ensures { GivenStand }
{}

/// Where nothing came the core stands for the log as it is, by every line, with its jobs and its gates.
pub fn nothing_that_came_stands()
    ensures { NothingStands }
{}

/// Behind the reply to an own barrier comes that its edit is settled, exactly where it was not.
pub fn settlings_follow_from_the_order()
    ensures { SettlingsFollow }
{}
