//! FLOW_MODs.

ghost use Rattle.std.specs.Prelude.{◌≡◌, ◌≤◌, length};
ghost use Rattle.std.specs.Coded.{Coded-set};
ghost use Rattle.of_match.specs.Layout.{match_of};
ghost use Rattle.of_msgs.specs.Kept.{Means, means_once};

use crate::command::Command;
use mon_header::{Actions, Match};
use mon_list::Items;

/// The bytes of actions as a message had them.
pub type RawActions = Items<u8>;

/// A FLOW_MOD (OpenFlow 1.0.0, modify flow entry message).
///
/// The type keeps that `raw` has at most 65,463 bytes, so that the message fits a frame, that `matching` is what
/// `spelled` means, and that `actions` are what `raw` means.
#[derive(Drop)]
pub struct FlowMod {
    /// The transaction id.
    pub xid: u32,
    /// The match as the message has it, with unused wildcard bits and fields that are not compared.
    pub spelled: [u8; 40],
    /// The match in its normalised form.
    pub matching: Match,
    /// A number that the controller chose for the entry.
    pub cookie: u64,
    /// What is done.
    pub command: Command,
    /// Seconds without a matching packet after which the entry goes; 0 means never.
    pub idle: u16,
    /// Seconds after which the entry goes; 0 means never.
    pub hard: u16,
    /// The priority field. It says nothing of an entry without wildcards.
    pub priority: u16,
    /// A buffered packet to which the actions apply, or `NO_BUFFER`.
    pub buffer: u32,
    /// A port to which an entry must output to be deleted, or `ports::NONE`.
    pub out_port: u16,
    /// Flags of the module `flags`.
    pub flags: u16,
    /// The actions.
    pub actions: Actions,
    /// The actions as the message has them, pads included.
    pub raw: RawActions,
    ghost short: { length raw ≤ 65463 },
    ghost matched: { matching ≡ match_of spelled } by { Coded-set matching-code matching (match_of spelled) },
    ghost meant: { Means raw actions } by { means_once actions-code raw actions },
}
