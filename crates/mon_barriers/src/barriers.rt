//! Who asked for a barrier, and what becomes of its reply.

ghost use Rattle.std.specs.Prelude.{◌≡◌, ◌++◌, ◌∷◌, [], drop, IfOk, OnOk, OnErr};
ghost use Rattle.mon_barriers.specs.Barriers.{asked_of, replies_with, may_go, released, replies_without};

use mon_list::OutOfMemory;
use of_frame::Frame;
use std::alloc::Global;
use std::collections::VecDeque;
use std::marker::Model;

/// Who sent a barrier request.
#[derive(Clone, Copy, Debug, PartialEq, Eq)]
pub enum Asker {
    /// The proxy, behind the frames with which it arms the switch.
    Arming,
    /// The proxy, behind this edit of the table.
    Own { edit: u64 },
    /// The controller. `edits` is the number of the last edit that was passed before its request.
    Controller { edits: u64 },
}

/// What a barrier reply of the switch is.
#[derive(Drop)]
pub enum Asked {
    /// The answer to a request of the proxy itself: `Arming` or `Own`.
    Own(Asker),
    /// The answer to a request of the controller. It is kept until `release` hands it out.
    Kept,
    /// The answer to no request.
    Stray(Frame),
}

/// A reply that the controller must wait for.
#[derive(Drop)]
struct Reply {
    edits: u64,
    frame: Frame,
}

/// The barriers of one switch.
#[derive(Drop)]
pub struct Barriers {
    askers: VecDeque<Asker>,
    replies: VecDeque<Reply>,
}

impl Model for Barriers {
    ghost use Rattle.mon_barriers.specs.Barriers.{Pending};

    ghost Value = { Pending };

    ghost view = { λ b. record { askers = b.askers.items; replies = b.replies.items } };
}

/// Whether a reply may go out: every edit that is unsettled was passed after its request.
fn may_go(oldest: Option<u64>, edits: u64) -> bool
    ensures { result ≡ may_go oldest edits }
{
    match oldest {
        None => true,
        Some(oldest) => edits < oldest,
    }
}

impl Barriers {
    /// No request was sent yet. It takes no memory.
    pub fn new(alloc: Global) -> Barriers
        ensures { result ≡ record { askers = []; replies = [] } }
    {
        Barriers {
            askers: VecDeque::new(alloc),
            replies: VecDeque::new(alloc),
        }
    }

    /// Notes that a request goes out, or changes nothing for want of memory.
    pub fn ask(&mut self, who: Asker) -> Result<(), OutOfMemory>
        ensures asked { OnOk result (self.new ≡ record self.old { askers = self.old.askers ++ who ∷ [] }) }
        ensures same { OnErr result (self.new ≡ self.old) }
    {
        self.askers.push_back(who)?;
        Ok(())
    }

    /// Takes a barrier reply of the switch: it answers the oldest request that has no answer yet. Want of memory
    /// changes nothing, and the frame is lost.
    pub fn reply(&mut self, frame: Frame) -> Result<Asked, OutOfMemory>
        ensures asked { IfOk result (λ asked. asked ≡ asked_of self.old.askers frame) }
        ensures answered { OnOk result (self.new ≡ record { askers = drop 1 self.old.askers; replies = replies_with self.old.askers frame self.old.replies }) }
        ensures same { OnErr result (self.new ≡ self.old) }
    {
        match self.askers.front() {
            None => Ok(Asked::Stray(frame)),
            Some(&Asker::Controller { edits }) => {
                self.replies.push_back(Reply { edits, frame })?;
                self.askers.pop_front();
                Ok(Asked::Kept)
            }
            Some(&who) => {
                self.askers.pop_front();
                Ok(Asked::Own(who))
            }
        }
    }

    /// Hands out the oldest reply that is kept, where there is one and nothing that it tells of is unsettled any more.
    /// `oldest` is the number of the oldest unsettled edit, None where all are settled.
    pub fn release(&mut self, oldest: Option<u64>) -> Option<Frame>
        ensures reply { result ≡ released oldest self.old.replies }
        ensures rest { self.new ≡ record self.old { replies = replies_without oldest self.old.replies } }
    {
        if !may_go(oldest, self.replies.front()?.edits) {
            return None;
        }
        let reply = self.replies.pop_front()?;
        Some(reply.frame)
    }
}
