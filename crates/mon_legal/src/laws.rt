//! What the definitions of legal histories say, whatever the history. These functions do nothing: each is its law.

ghost use Rattle.std.specs.Prelude.{◌≡◌, ◌≤◌, ℕ, List, false, length};
ghost use Rattle.std.specs.List.{AllByRecursion};
ghost use Rattle.mon_world.specs.declared.history.Entry.{Entry};
ghost use Rattle.mon_legal.specs.Runs.{Run};
ghost use Rattle.mon_legal.specs.Moments.{Moment, shown};
ghost use Rattle.mon_legal.specs.Legal.{Legal, LegalSoFar};
ghost use Rattle.mon_legal.specs.Passing.{FramesGoInOrder, NothingIsLeft};
ghost use Rattle.mon_legal.specs.Probing.{ProbesSeparate};
ghost use Rattle.mon_legal.specs.Replying.{RepliesWait};
ghost use Rattle.mon_legal.specs.Owns.{Own};
ghost use Rattle.mon_legal.specs.Sessions.{open_with_slot};
ghost use Rattle.mon_legal.specs.Sides.{AllFramesGoOn, AllFramesWentOn, IsProxys, is_controllers_own, own_frames};
ghost use Rattle.mon_legal.specs.Offering.{JobsAreOffered};
ghost use Rattle.mon_legal.specs.Truths.{AnswersAreTrue};
ghost use Rattle.mon_legal.specs.Stale.{StaleAreIgnored};
ghost use Rattle.mon_legal.specs.Story.{run, the_ordinary_use};

/// A legal history is one so far.
pub fn legal_is_legal_so_far()
    ensures { (run : Run) (h : List Entry) → Legal run h → LegalSoFar run h }
{}

/// Three switches are armed, an ADD is passed and probed, its probe comes back, and the reply to a barrier goes: that
/// history is legal, so the lines ask for nothing impossible.
pub fn the_ordinary_use_is_legal()
    ensures { Legal run (shown the_ordinary_use) }
{}

/// Where everything comes in its order, all frames of each side go on in their order: each is handled once, what the
/// controller and the switch get is what these frames lead to, and where a turn has ended nothing of it is missing.
pub fn all_frames_go_on()
    ensures so_far { (run : Run) (f : List Moment) → FramesGoInOrder run f → ProbesSeparate run f → AllFramesGoOn run f }
    ensures ended { (run : Run) (f : List Moment) → FramesGoInOrder run f → ProbesSeparate run f → NothingIsLeft run f → AllFramesWentOn run f }
{}

/// Where everything comes in its order, each barrier reply goes as soon as no edit before its request is unsettled, and never
/// before.
pub fn replies_follow_from_the_order()
    ensures { (run : Run) (f : List Moment) → FramesGoInOrder run f → RepliesWait run f }
{}

/// Where everything comes in its order, each offer is of the first session that wants a job and has room, at its slot's version
/// and with the next number, and where a turn has ended none wants one.
pub fn offers_follow_from_the_order()
    ensures { (run : Run) (f : List Moment) → FramesGoInOrder run f → JobsAreOffered run f }
{}

/// Where everything comes in its order and answers are true, a stale answer leads to offers alone, and a job that was skipped
/// is answered too late.
pub fn stale_answers_send_nothing()
    ensures { (run : Run) (f : List Moment) → FramesGoInOrder run f → AnswersAreTrue run f → StaleAreIgnored run f }
{}

/// A history of whole turns has one list of moments that shows it in order: what no entry shows is fixed by what they show.
pub fn one_history_has_one_witness()
    ensures { (run : Run) (f g : List Moment) → FramesGoInOrder run f → FramesGoInOrder run g → NothingIsLeft run f → NothingIsLeft run g
        → shown f ≡ shown g → f ≡ g }
{}

/// What the proxy sends to a switch of its own is its FEATURES_REQUEST, its barriers, the frames that arm a switch, and the
/// closings of stand-ins, and nothing else.
pub fn own_frames_are_the_proxys()
    ensures { (run : Run) (s : ℕ) (before : List Own) (o : Own) → is_controllers_own o ≡ false → AllByRecursion (IsProxys run o) (own_frames run s before o) }
{}

/// No more than 64 sessions are open with a slot.
pub fn at_most_64_sessions_have_a_slot()
    ensures { (run : Run) (f : List Moment) → length (open_with_slot run f) ≤ 64 }
{}
