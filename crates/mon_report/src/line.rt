//! What a line tells.

/// One line of the report. `session` counts the switches' connections from 0.
#[derive(Clone, Copy, Debug, PartialEq, Eq)]
pub enum Line {
    /// The session is armed: the switch has this datapath id, and its probes bear this VLAN id as their tag.
    Armed {
        session: u64,
        datapath: u64,
        tag: u16,
    },
    /// The session came to its end.
    Closed {
        session: u64,
        cause: Cause,
    },
    /// The probe of this serial shows that the edit is in the flow table.
    Confirmed {
        session: u64,
        edit: u64,
        serial: u64,
    },
    /// What else is known of an edit.
    Fact {
        session: u64,
        edit: u64,
        what: What,
    },
    /// What became of a rule that is watched: the bytes of its match (OpenFlow 1.0.0, flow match structures) and its
    /// priority. `serial` is there exactly with `Seen`.
    Watch {
        session: u64,
        matching: [u8; 40],
        priority: u16,
        serial: Option<u64>,
        what: WatchWhat,
    },
}

/// What is known of an edit, other than that it is confirmed.
#[derive(Clone, Copy, Debug, PartialEq, Eq)]
pub enum What {
    /// It leaves the flow table as it was.
    NoChange,
    /// Another rule of its effective priority overlaps its match, whatever the two rules do, so lookups in the overlap are
    /// unsure.
    Overlap,
    /// No packet tells whether it is there.
    Indistinguishable,
    /// It puts the true rule in the place of its stand-in.
    Closing,
    /// The switch answered the barrier behind it.
    Settled,
    /// The switch refused it.
    Rejected,
    /// It was not confirmed within the ticks of the alarm.
    Silent,
}

/// What became of a rule that is watched.
#[derive(Clone, Copy, Debug, PartialEq, Eq)]
pub enum WatchWhat {
    /// A probe of it came back.
    Seen,
    /// No probe of it came back in time.
    Missing,
    /// No packet tells whether it is there.
    Unwatchable,
}

/// Why a session came to its end.
#[derive(Clone, Copy, Debug, PartialEq, Eq)]
pub enum Cause {
    /// A peer closed its connection.
    Peer,
    /// A header names a length below its own.
    BadLength,
    /// A header names another version.
    BadVersion,
    /// An output was lost.
    Lost,
    /// As many sessions are open as may be.
    TooMany,
    /// The switch's FEATURES_REPLY is too short.
    Features,
    /// The switch's datapath id is not in the settings.
    UnknownSwitch,
    /// Another open session has the switch's datapath id.
    SameSwitch,
    /// The switch refused a frame with which it was to be armed.
    NotArmed,
}
