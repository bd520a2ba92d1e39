//! What is left of the frame of the controller that was planned last.

ghost use Rattle.std.specs.Prelude.{◌≡◌, ◌&&◌, not, false, drop, option_copied, None, IfOk};
ghost use Rattle.mon_world.specs.declared.event.Side.TheVariants.{Switch, Controller};
ghost use Rattle.mon_edits.specs.Naming.{is_add, has_timeout, is_emergency, is_deletion};
ghost use Rattle.mon_edits.specs.Frames.{is_cut};
ghost use Rattle.mon_legal.specs.Owns.Act.{Step};
ghost use Rattle.mon_legal.specs.Postponing.{edit_frame};
ghost use Rattle.mon_session.specs.declared.under_way.UnderWay.TheVariants.{Changed};
ghost use Rattle.mon_session.specs.Ordered.{awaited_in, output_of};
ghost use Rattle.mon_session.specs.Outputs.{act_of, act_if, OutputHasItsOld};
ghost use Rattle.mon_legal.specs.Held.{is_empty, all_changed};
ghost use Rattle.mon_session.specs.UnderWay.{parts_of, Suits};

use crate::change::Output;
use crate::unsettled::copied;
use mon_edits::frame_of;
use mon_header::Match;
use mon_list::OutOfMemory;
use mon_table::Edit;
use mon_world::Side;
use of_frame::Frame;
use of_msgs::{Command, FlowMod};
use std::alloc::Global;
use std::collections::VecDeque;

/// What is still to be done of it.
#[derive(Drop)]
pub enum UnderWay {
    /// Nothing.
    Nothing,
    /// It goes on as it came.
    Whole(Frame),
    /// The controller gets this ERROR.
    Refused(Frame),
    /// These edits of it go on, the first of the message first.
    Changed {
        came: Frame,
        message: FlowMod,
        edits: VecDeque<Edit>,
        first: bool,
    },
}

impl UnderWay {
    /// Whether nothing is left.
    #[tactic(auto, using(crate::proofs::UnderWays::some_left))]
    pub fn is_nothing(&self) -> bool
        requires { Suits self.now }
        ensures { result ≡ is_empty (parts_of self.now) }
    {
        match self {
            UnderWay::Nothing => true,
            UnderWay::Whole(_) | UnderWay::Refused(_) => false,
            UnderWay::Changed { .. } => false,
        }
    }

    /// The match that the first part awaits: that of its edit.
    #[tactic(auto, using(crate::proofs::UnderWays::first_awaited))]
    pub fn awaited(&self) -> Option<&Match>
        requires { Suits self.now }
        ensures { option_copied result ≡ awaited_in (parts_of self.now) }
    {
        match self {
            UnderWay::Changed { edits, .. } => Some(&edits.front()?.rule().matching),
            _ => None,
        }
    }

    /// What goes out first, and what is left behind it.
    pub fn next(self, alloc: Global) -> Result<(Option<Output>, UnderWay), OutOfMemory>
        requires { Suits self }
        ensures output { IfOk result (λ found. act_if found.0 ≡ output_of (parts_of self)) }
        ensures rest { IfOk result (λ found. parts_of found.1 ≡ drop 1 (parts_of self)) }
        ensures old { IfOk result (λ found. OutputHasItsOld found.0) }
        ensures suits { IfOk result (λ found. Suits found.1) }
    {
        match self {
            UnderWay::Nothing => Ok((None, UnderWay::Nothing)),
            UnderWay::Whole(frame) => Ok((Some(plain(Side::Switch, frame)), UnderWay::Nothing)),
            UnderWay::Refused(error) => {
                Ok((Some(plain(Side::Controller, error)), UnderWay::Nothing))
            }
            UnderWay::Changed {
                came,
                message,
                edits,
                first,
            } => next_edit(alloc, came, message, edits, first),
        }
    }
}

/// A frame goes to a side, and is no edit's.
fn plain(to: Side, frame: Frame) -> Output
    ensures { act_of result ≡ Step to frame None }
{
    Output::Plain { to, frame }
}

/// Whether a message goes on as it came: it is an ADD without a timeout.
fn goes_as_it_came(m: &FlowMod) -> bool
    ensures { result ≡ (is_add m.now.command && not (has_timeout m.now)) }
{
    match m.command {
        Command::Add => m.idle == 0 && m.hard == 0,
        Command::Modify | Command::ModifyStrict => false,
        Command::Delete | Command::DeleteStrict => false,
    }
}

/// The frame in which an edit of a message goes out.
fn edit_frame(
    alloc: Global,
    came: &Frame,
    m: &FlowMod,
    edit: &Edit,
    first: bool,
) -> Result<Frame, OutOfMemory>
    requires calm { is_emergency m.now ≡ false }
    requires kind { is_cut edit.now ≡ is_deletion m.now.command }
    ensures { IfOk result (λ frame. frame ≡ edit_frame came.now m.now edit.now first) }
{
    if goes_as_it_came(m) {
        return copied(alloc, came);
    }
    frame_of(alloc, m, edit, first)
}

/// The first edit goes out, and the others are left.
#[tactic(auto, using(crate::proofs::UnderWays::first_goes))]
fn next_edit(
    alloc: Global,
    came: Frame,
    message: FlowMod,
    mut edits: VecDeque<Edit>,
    first: bool,
) -> Result<(Option<Output>, UnderWay), OutOfMemory>
    requires { Suits (Changed came message edits first) }
    ensures output { IfOk result (λ found. act_if found.0 ≡ output_of (all_changed came message first edits.items)) }
    ensures rest { IfOk result (λ found. parts_of found.1 ≡ drop 1 (all_changed came message first edits.items)) }
    ensures old { IfOk result (λ found. OutputHasItsOld found.0) }
    ensures suits { IfOk result (λ found. Suits found.1) }
{
    let Some(edit) = edits.pop_front() else {
        return Ok((None, UnderWay::Nothing));
    };
    let frame = edit_frame(alloc, &came, &message, &edit, first)?;
    let output = Output::Edited { frame, edit };
    if edits.is_empty() {
        return Ok((Some(output), UnderWay::Nothing));
    }
    Ok((
        Some(output),
        UnderWay::Changed {
            came,
            message,
            edits,
            first: false,
        },
    ))
}
