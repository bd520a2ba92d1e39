//! Texts that are traces and texts that are none, and the lines of a run.

ghost use Rattle.std.specs.Prelude.{◌≤◌, length};

use crate::{Trace, TraceFault, TraceHub, read_trace};
use mon_report::{Cause, Line};
use mon_world::{Event, Gates, Hub, HubFault, Kind, Note, Out, OutOfMemory, PutFault, Side};
use of_frame::Frame;
use std::alloc::Global;
use std::test::Fail;

const HEADER: &[u8] = b"monocle-trace 1 00000000000000ff\n";

/// A trace of these records.
fn with_records(alloc: Global, records: &[u8]) -> Result<Trace, TraceFault> {
    let mut text = Vec::from_slice(alloc, HEADER)?;
    text.extend_from_slice(records)?;
    read_trace(alloc, &text)
}

/// A trace with one piece of so many zero bytes.
fn with_piece(alloc: Global, size: usize) -> Result<Trace, TraceFault> {
    let mut records = Vec::from_slice(alloc, b"open\nfrom switch 0 ")?;
    for _ in 0..size {
        records.extend_from_slice(b"00")?;
    }
    records.push(b'\n')?;
    with_records(alloc, &records)
}

const RECORDS: &[u8] =
    b"open\nopen\nfrom controller 1 09af\nlose\nfrom switch 0 00\ntick\nanswer 4294967295\nclose 1\n";

#[test]
fn reads_a_trace(rt: HostRuntime) -> Result<(), Fail> {
    let alloc = rt.alloc();
    let trace = with_records(alloc, RECORDS)?;
    assert_eq!(rt; trace.key(), 255);
    assert_eq!(rt; trace.records(), 8);
    assert_eq!(rt; trace.first_other(), Some(71));
    assert_eq!(rt; with_records(alloc, b"")?.records(), 0);
    assert_eq!(rt; with_piece(alloc, 4096)?.first_other(), None);
    assert_eq!(rt;
        read_trace(alloc, b"monocle-trace 1 fedcba9876543210\n")?.key(),
        0xfedc_ba98_7654_3210
    );
    Ok(())
}

/// First lines that are none.
const NAMES: [&[u8]; 5] = [
    b"",
    b"monocle-trace 1 00000000000000ff",
    b"monocle-trace 1 0000000000000ff\n",
    b"monocle-trace 1 00000000000000FF\n",
    b"monocle-trace 2 00000000000000ff\n",
];

/// Records, and where the first one that is none begins in the text.
const BROKEN: [(&[u8], u64); 15] = [
    (b"open", 33),
    (b"open\r\n", 33),
    (b"\n", 33),
    (b"from switch 0 00\n", 33),
    (b"tick \n", 33),
    (b"answer 4294967296\n", 33),
    (b"loses\n", 33),
    (b"open\nfrom controller 0 0\n", 38),
    (b"open\nfrom controller 0 0A\n", 38),
    (b"open\nfrom controller 0 \n", 38),
    (b"open\nfrom controller 1 00\n", 38),
    (b"open\nfrom controller 00 00\n", 38),
    (b"open\nfrom switch 0 00 \n", 38),
    (b"open\nclose 1\n", 38),
    (b"open\nclose 0", 38),
];

/// Whether what was read is bad from this byte on.
fn is_bad_at(read: Result<Trace, TraceFault>, offset: u64) -> bool {
    read.err() == Some(TraceFault::Bad { offset })
}

#[test]
fn says_where_a_text_is_no_trace(rt: HostRuntime) -> Result<(), Fail> {
    let alloc = rt.alloc();
    for name in NAMES {
        assert!(rt; is_bad_at(read_trace(alloc, name), 0));
    }
    for (records, offset) in BROKEN {
        assert!(rt; is_bad_at(with_records(alloc, records), offset));
    }
    assert!(rt; is_bad_at(with_piece(alloc, 4097), 38));
    Ok(())
}

/// Takes so many events of a hub, and says whether the last one was Stop.
fn stops(alloc: Global, hub: &mut TraceHub, count: u64) -> bool {
    let gates = Gates::new(alloc);
    let mut stopped = false;
    for _ in 0..count {
        stopped = matches!(hub.next(alloc, &gates), Ok(Event::Stop));
    }
    stopped
}

/// Whether the text of the hub's history is this one.
fn writes(hub: TraceHub, text: &[u8]) -> bool {
    hub.text().as_slice() == text
}

fn send(alloc: Global, to: Side, kind: u8, xid: u32, body: &[u8]) -> Result<Out, OutOfMemory>
    requires { length body.now ≤ 65527 }
{
    Ok(Out::Send {
        session: 0,
        to,
        frame: Frame::make(alloc, kind, xid, body)?,
    })
}

#[test]
fn writes_a_line_for_each_output(rt: HostRuntime) -> Result<(), Fail> {
    let alloc = rt.alloc();
    let mut records = Vec::from_slice(alloc, b"open\n")?;
    for byte in b"01000008000000010102000800000002".chunks(2) {
        records.extend_from_slice(b"from controller 0 ")?;
        records.extend_from_slice(byte)?;
        records.push(b'\n')?;
    }
    let mut hub = TraceHub::new(alloc, with_records(alloc, &records)?)?;
    assert!(rt; !stops(alloc, &mut hub, 9));
    hub.put(alloc, &send(alloc, Side::Switch, 0, 1, b"")?)?;
    assert!(rt; !stops(alloc, &mut hub, 8));
    hub.put(alloc, &send(alloc, Side::Switch, 2, 2, b"")?)?;
    assert!(rt; stops(alloc, &mut hub, 1));
    assert!(rt; stops(alloc, &mut hub, 1));
    let text = b"9 put 0 switch 0100000800000001\n17 put 0 switch 0102000800000002\n";
    assert!(rt; writes(hub, text));
    Ok(())
}

#[test]
fn loses_what_the_trace_says(rt: HostRuntime) -> Result<(), Fail> {
    let alloc = rt.alloc();
    let trace = with_records(alloc, b"open\nlose\nfrom switch 0 00\nlose\n")?;
    let mut hub = TraceHub::new(alloc, trace)?;
    assert!(rt; !stops(alloc, &mut hub, 2));
    let out = send(alloc, Side::Controller, 10, 0, b"\xab\xcd\xef")?;
    hub.put(alloc, &Out::Close { session: 0 })?;
    assert_eq!(rt; hub.put(alloc, &out), Err(PutFault::Lost));
    hub.put(alloc, &out)?;
    let text =
        b"3 end 0\n3 lost 0 controller 010a000b00000000abcdef\n3 put 0 controller 010a000b00000000abcdef\n";
    assert!(rt; writes(hub, text));
    Ok(())
}

#[test]
fn gives_no_answer_of_a_job_that_is_not_there(rt: HostRuntime) -> Result<(), Fail> {
    let alloc = rt.alloc();
    let mut hub = TraceHub::new(alloc, with_records(alloc, b"open\nanswer 0\n")?)?;
    let gates = Gates::new(alloc);
    assert!(rt; !stops(alloc, &mut hub, 1));
    assert!(rt; matches!(hub.next(alloc, &gates), Err(HubFault::Failed)));
    assert_eq!(rt; hub.bad(), Some(38));
    hub.mark(
        alloc,
        &Note::Offer {
            job: 1,
            session: 0,
            edit: 2,
            version: 3,
        },
    )?;
    assert!(rt; matches!(hub.next(alloc, &gates), Ok(Event::Answer { index: 0 })));
    hub.mark(
        alloc,
        &Note::Verdict {
            job: 1,
            kind: Kind::Skipped,
        },
    )?;
    hub.mark(
        alloc,
        &Note::Report(Line::Closed {
            session: 0,
            cause: Cause::Peer,
        }),
    )?;
    let text =
        b"1 offer 1 0 2 3\n2 verdict 1 skipped\n2 line {\"cause\":\"peer\",\"event\":\"closed\",\"session\":0}\n";
    assert!(rt; writes(hub, text));
    Ok(())
}

#[test]
fn gives_no_piece_of_a_gated_controller(rt: HostRuntime) -> Result<(), Fail> {
    let alloc = rt.alloc();
    let trace = with_records(alloc, b"open\nfrom controller 0 00\nfrom switch 0 00\n")?;
    let mut hub = TraceHub::new(alloc, trace)?;
    let mut gates = Gates::new(alloc);
    gates.push(0)?;
    assert!(rt; matches!(hub.next(alloc, &gates), Ok(Event::Opened)));
    assert!(rt; matches!(hub.next(alloc, &gates), Err(HubFault::Failed)));
    assert_eq!(rt; hub.bad(), Some(38));
    assert!(rt; !stops(alloc, &mut hub, 1));
    assert!(rt; matches!(hub.next(alloc, &gates), Ok(Event::Piece { .. })));
    Ok(())
}
