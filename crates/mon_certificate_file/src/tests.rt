//! Files that were written by hand.

use super::*;
use mon_header::{DATAGRAM, Header, same_header};
use mon_outcome::{Emission, same_emission};
use mon_refute::Logs;
use std::alloc::Global;
use std::test::Fail;

/// A datagram from 10.0.0.1 to 10.0.0.2 that came in at port 1 with the tag 100.
const BEFORE: Header = Header {
    dl_vlan_pcp: 3,
    tp_src: 1000,
    tp_dst: 2000,
    ..DATAGRAM
};

const AFTER: Header = Header {
    dl_vlan: 101,
    ..BEFORE
};

const BEFORE_DIGITS: &str = "0001020000000001020000000002006403080000110a0000010a00000203e807d0";

const AFTER_DIGITS: &str = "0001020000000001020000000002006503080000110a0000010a00000203e807d0";

fn is_probe(c: &Certificate, h: &Header, e: &Emission) -> bool {
    match c {
        Certificate::Probe(header, emission) => {
            same_header(header, h) && same_emission(emission, e)
        }
        _ => false,
    }
}

/// Two logs, the first without lines, the second with one line of no literal and the hint 3.
fn are_logs(logs: &Logs) -> bool {
    match logs.items() {
        [first, second] => match second.items() {
            [line] => {
                first.items().is_empty()
                    && line.literals.items().is_empty()
                    && line.hints.items() == [3].as_slice()
            }
            _ => false,
        },
        _ => false,
    }
}

fn is_refuted(c: &Certificate) -> bool {
    match c {
        Certificate::Nothing(logs) => are_logs(logs),
        _ => false,
    }
}

fn is_tied(c: &Certificate) -> bool {
    match c {
        Certificate::Overlap => true,
        _ => false,
    }
}

/// Where the first bad line begins, if the text is bad.
fn bad_at(alloc: Global, text: &[u8]) -> Option<u64> {
    match read_certificates(alloc, text) {
        Err(FileFault::Bad { offset }) => Some(offset),
        _ => None,
    }
}

#[test]
fn tied_rules_are_read_and_written(rt: HostRuntime) -> Result<(), Fail> {
    let text = b"monocle-certificates 1\nrules 2\noverlap 0\noverlap 1\n".as_slice();
    let read = read_certificates(rt.alloc(), text)?;
    assert!(rt; read.items().len() == 2 && is_tied(&read.items()[0]) && is_tied(&read.items()[1]));
    assert_eq!(rt; write_certificates(rt.alloc(), &read)?.as_slice(), text);
    let none = b"monocle-certificates 1\nrules 0\n".as_slice();
    let empty = read_certificates(rt.alloc(), none)?;
    assert!(rt; empty.items().is_empty());
    assert_eq!(rt; write_certificates(rt.alloc(), &empty)?.as_slice(), none);
    Ok(())
}

#[test]
fn each_kind_is_read_and_written(rt: HostRuntime) -> Result<(), Fail> {
    let (h, k) = (BEFORE_DIGITS, AFTER_DIGITS);
    let text = format!(in rt.alloc();
        "monocle-certificates 1\nrules 5\nprobe 0 {h} port 65535 {k}\nprobe 1 {h} controller {k}\nprobe 2 {h} miss {h}\nnone 3 2\nlog 0\nlog 1\nl 0 3 0\noverlap 4\n"
    )?;
    let read = read_certificates(rt.alloc(), text.as_bytes())?;
    let cs = read.items();
    assert!(rt; cs.len() == 5);
    assert!(rt; is_probe(&cs[0], &BEFORE, &Emission::Port(65535, AFTER)));
    assert!(rt; is_probe(&cs[1], &BEFORE, &Emission::Controller(AFTER)));
    assert!(rt; is_probe(&cs[2], &BEFORE, &Emission::Miss(BEFORE)));
    assert!(rt; is_refuted(&cs[3]) && is_tied(&cs[4]));
    assert_eq!(rt;
        write_certificates(rt.alloc(), &read)?.as_slice(),
        text.as_bytes()
    );
    Ok(())
}

/// Texts of no certificates, and where the first bad line begins.
const BAD: [(&str, u64); 18] = [
    ("", 0),
    ("monocle-certificates 2\nrules 0\n", 0),
    ("monocle-certificates 1\n", 23),
    // Rules out of order, or too many or too few.
    (
        "monocle-certificates 1\nrules 2\noverlap 1\noverlap 0\n",
        31,
    ),
    ("monocle-certificates 1\nrules 1\noverlap 1\n", 31),
    (
        "monocle-certificates 1\nrules 3\noverlap 0\noverlap 1\n",
        51,
    ),
    ("monocle-certificates 1\nrules 2\noverlap 0\n", 41),
    (
        "monocle-certificates 1\nrules 1\noverlap 0\noverlap 1\n",
        41,
    ),
    ("monocle-certificates 1\nrules 01\noverlap 0\n", 23),
    // The end of the last line, and text behind it.
    ("monocle-certificates 1\nrules 1\noverlap 0", 31),
    ("monocle-certificates 1\nrules 1\noverlap 0\n\n", 41),
    ("monocle-certificates 1\nrules 1\noverlap 0 \n", 31),
    // Another word, or two spaces.
    ("monocle-certificates 1\nrules 1\ntied 0\n", 31),
    ("monocle-certificates 1\nrules 1\noverlap  0\n", 31),
    // A log more or less, and one that is none.
    ("monocle-certificates 1\nrules 1\nnone 0 2\nlog 0\n", 46),
    ("monocle-certificates 1\nrules 1\nnone 0 0\nlog 0\n", 40),
    (
        "monocle-certificates 1\nrules 1\nnone 0 1\nlog 1\nl 0 0 0\n",
        46,
    ),
    // A hint beyond 64 bits, whose low ones say 3.
    (
        "monocle-certificates 1\nrules 1\nnone 0 1\nlog 1\nl 0 18446744073709551619 0\n",
        46,
    ),
];

#[test]
fn other_texts_are_refused(rt: HostRuntime) {
    for (text, at) in BAD {
        assert!(rt; bad_at(rt.alloc(), text.as_bytes()) == Some(at), "{text}");
    }
}

/// A file of one probe, with this header and this emission.
fn file_of(alloc: Global, header: &str, emission: &str, digits: &str) -> Result<String, Fail> {
    Ok(format!(in alloc;
        "monocle-certificates 1\nrules 1\nprobe 0 {header} {emission} {digits}\n"
    )?)
}

#[test]
fn other_probes_are_refused(rt: HostRuntime) -> Result<(), Fail> {
    let h = BEFORE_DIGITS;
    let upper = "0001020000000001020000000002006403080000110A0000010a00000203e807d0";
    let short = "0001020000000001020000000002006403080000110a0000010a00000203e807d";
    let cases = [
        (h, "miss", h, false),
        (upper, "miss", h, true),
        (h, "miss", upper, true),
        (short, "miss", h, true),
        (h, "miss", short, true),
        (h, "port", h, true),
        (h, "port 65536", h, true),
        (h, "port 02", h, true),
        (h, "drop", h, true),
    ];
    for (header, emission, digits, bad) in cases {
        let text = file_of(rt.alloc(), header, emission, digits)?;
        assert!(rt;
            bad_at(rt.alloc(), text.as_bytes()).is_some() == bad,
            "{text}"
        );
    }
    Ok(())
}
