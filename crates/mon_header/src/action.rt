//! Actions, without their bytes but for the unknown ones.

ghost use Rattle.std.specs.Prelude.{◌≡◌, ◌↔◌, ◌<◌, ◌^◌, ◌++◌, ◌∷◌, [], List, ℕ, OnOk, OnErr, IfOk, IsTrue};
ghost use Rattle.mon_header.specs.Raw.{IsRawAction};

use mon_list::OutOfMemory;
use std::alloc::Global;
use std::marker::Model;

/// The whole bytes of an action whose type is none of the standard's, as a vendor's. Its length field is right.
#[derive(Drop)]
pub struct RawAction {
    bytes: Vec<u8>,
}

impl Model for RawAction {
    ghost Value = { List ℕ };

    ghost view = { λ a. a.bytes.items };

    ghost invariant = { λ a. IsRawAction a.bytes.items };
}

impl RawAction {
    /// Keeps the bytes of such an action.
    pub fn new(alloc: Global, bytes: &[u8]) -> Result<RawAction, OutOfMemory>
        requires { IsRawAction bytes.now }
        ensures { IfOk result (λ a. a ≡ bytes.now) }
    {
        let bytes = Vec::from_slice(alloc, bytes)?;
        Ok(RawAction { bytes })
    }

    /// The bytes, header included.
    pub fn bytes(&self) -> &[u8]
        ensures value { result.now ≡ self.now }
        ensures unknown { IsRawAction self.now }
    {
        &self.bytes
    }

    /// The same bytes once more.
    pub fn copied(&self, alloc: Global) -> Result<RawAction, OutOfMemory>
        ensures { IfOk result (λ a. a ≡ self.now) }
    {
        RawAction::new(alloc, self.bytes())
    }
}

/// What a rule does to a packet (OpenFlow 1.0.0, flow action structures).
#[derive(Drop)]
pub enum Action {
    Output { port: u16, max_len: u16 },
    SetVlanVid(u16),
    SetVlanPcp(u8),
    StripVlan,
    SetDlSrc(u64),
    SetDlDst(u64),
    SetNwSrc(u32),
    SetNwDst(u32),
    SetNwTos(u8),
    SetTpSrc(u16),
    SetTpDst(u16),
    Enqueue { port: u16, queue: u32 },
    Unknown(RawAction),
}

impl Action {
    /// The same action once more. Only an unknown one takes memory.
    pub fn copied(&self, alloc: Global) -> Result<Action, OutOfMemory>
        ensures { IfOk result (λ a. a ≡ self.now) }
    {
        match self {
            Action::Output { port, max_len } => Ok(Action::Output {
                port: *port,
                max_len: *max_len,
            }),
            Action::SetVlanVid(vid) => Ok(Action::SetVlanVid(*vid)),
            Action::SetVlanPcp(pcp) => Ok(Action::SetVlanPcp(*pcp)),
            Action::StripVlan => Ok(Action::StripVlan),
            Action::SetDlSrc(address) => Ok(Action::SetDlSrc(*address)),
            Action::SetDlDst(address) => Ok(Action::SetDlDst(*address)),
            Action::SetNwSrc(address) => Ok(Action::SetNwSrc(*address)),
            Action::SetNwDst(address) => Ok(Action::SetNwDst(*address)),
            Action::SetNwTos(tos) => Ok(Action::SetNwTos(*tos)),
            Action::SetTpSrc(port) => Ok(Action::SetTpSrc(*port)),
            Action::SetTpDst(port) => Ok(Action::SetTpDst(*port)),
            Action::Enqueue { port, queue } => Ok(Action::Enqueue {
                port: *port,
                queue: *queue,
            }),
            Action::Unknown(raw) => Ok(Action::Unknown(raw.copied(alloc)?)),
        }
    }
}

/// Whether two unknown actions have the same bytes.
fn same_raw(a: &RawAction, b: &RawAction) -> bool
    ensures { IsTrue result ↔ (a.now ≡ b.now) }
{
    a.bytes() == b.bytes()
}

/// Whether two actions are equal.
pub fn same_action(a: &Action, b: &Action) -> bool
    ensures { IsTrue result ↔ (a.now ≡ b.now) }
{
    match (a, b) {
        (
            Action::Output { port, max_len },
            Action::Output {
                port: other,
                max_len: len,
            },
        ) => port == other && max_len == len,
        (Action::SetVlanVid(x), Action::SetVlanVid(y)) => x == y,
        (Action::SetVlanPcp(x), Action::SetVlanPcp(y)) => x == y,
        (Action::StripVlan, Action::StripVlan) => true,
        (Action::SetDlSrc(x), Action::SetDlSrc(y)) => x == y,
        (Action::SetDlDst(x), Action::SetDlDst(y)) => x == y,
        (Action::SetNwSrc(x), Action::SetNwSrc(y)) => x == y,
        (Action::SetNwDst(x), Action::SetNwDst(y)) => x == y,
        (Action::SetNwTos(x), Action::SetNwTos(y)) => x == y,
        (Action::SetTpSrc(x), Action::SetTpSrc(y)) => x == y,
        (Action::SetTpDst(x), Action::SetTpDst(y)) => x == y,
        (
            Action::Enqueue { port, queue },
            Action::Enqueue {
                port: other,
                queue: line,
            },
        ) => port == other && queue == line,
        (Action::Unknown(x), Action::Unknown(y)) => same_raw(x, y),
        _ => false,
    }
}
