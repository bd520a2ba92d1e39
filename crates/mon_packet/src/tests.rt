//! Frames that were written by hand.

use crate::nonce::Nonce;
use crate::reading::parse;
use crate::writing::render;
use mon_header::{BLANK, DATAGRAM, Header, in_class, same_header};
use std::alloc::Global;
use std::test::Fail;

/// A frame without IPv4, with the tag 100.
const PLAIN: Header = Header {
    dl_src: 0x020000000001,
    dl_dst: 0x020000000002,
    dl_vlan: 100,
    dl_type: 0x88b5,
    ..BLANK
};

/// A segment with another tag, and a type of service.
const SEGMENT: Header = Header {
    dl_vlan_pcp: 5,
    nw_tos: 0x28,
    nw_proto: 6,
    tp_src: 0x3039,
    tp_dst: 0x0050,
    ..DATAGRAM
};

/// An echo request with the code 1, untagged.
const ECHO: Header = Header {
    dl_vlan: 0xffff,
    nw_proto: 1,
    tp_src: 8,
    tp_dst: 1,
    ..DATAGRAM
};

/// A packet of the protocol GRE.
const TUNNEL: Header = Header {
    nw_proto: 47,
    tp_src: 0,
    tp_dst: 0,
    ..DATAGRAM
};

/// A packet of ARP from 10.0.0.1 to 10.0.0.2, of the operation 1.
const ARP: Header = Header {
    dl_type: 0x0806,
    nw_proto: 1,
    nw_src: 0x0a000001,
    nw_dst: 0x0a000002,
    ..PLAIN
};

/// The bytes of hexadecimal digits; what is no digit is skipped.
fn bytes(alloc: Global, text: &str) -> Result<Vec<u8>, Fail> {
    let mut out = Vec::new(alloc);
    let mut high = None;
    for digit in text.chars().filter_map(|c| c.to_digit(16)) {
        let digit = (digit % 16) as u8;
        match high {
            None => high = Some(digit),
            Some(first) => {
                out.push(first % 16 * 16 + digit)?;
                high = None;
            }
        }
    }
    Ok(out)
}

/// The frame of a header, or none where it is in no class.
fn frame_of(alloc: Global, h: &Header, n: Nonce) -> Result<Vec<u8>, Fail> {
    if in_class(h) {
        Ok(render(alloc, h, n)?)
    } else {
        Ok(Vec::new(alloc))
    }
}

/// Whether the bytes are read as this header but for its port, and this nonce.
fn reads(bytes: &[u8], h: &Header, n: Option<Nonce>) -> bool {
    let portless = Header { in_port: 0, ..*h };
    match parse(bytes) {
        Some((header, nonce)) => same_header(&header, &portless) && nonce == n,
        None => false,
    }
}

#[test]
fn frames_are_as_by_hand(rt: HostRuntime) -> Result<(), Fail> {
    let alloc = rt.alloc();
    let plain =
        "020000000002 020000000001 81000064 88b5 4d4f4e4f434c4531 0000000000000001 0000000000000001
        00000000000000000000000000000000000000000000";
    let datagram = "020000000002 020000000001 81000064 0800
        4500 0034 00000000 4011 66b7 0a000001 0a000002
        0001 0002 0020 c789 4d4f4e4f434c4531 0000000000000001 0000000000000002";
    let segment = "020000000002 020000000001 8100a064 0800
        4528 0040 00000000 4006 668e 0a000001 0a000002
        3039 0050 00000000 00000000 5010 0000 4711 0000 4d4f4e4f434c4531 0000000000000001 0000000000000003";
    let echo = "020000000002 020000000001 0800
        4500 0034 00000000 4001 66c7 0a000001 0a000002
        0801 d3dd 00000000 4d4f4e4f434c4531 0000000000000001 0000000000000004";
    let tunnel = "020000000002 020000000001 81000064 0800
        4500 002c 00000000 402f 66a1 0a000001 0a000002
        4d4f4e4f434c4531 0000000000000001 0000000000000005 0000";
    let arp = "020000000002 020000000001 81000064 0806
        0001 0800 06 04 0001 000000000000 0a000001 000000000000 0a000002
        4d4f4e4f434c4531 0000000000000001 0000000000000001";
    let cases = [
        (PLAIN, 1, plain),
        (ARP, 1, arp),
        (DATAGRAM, 2, datagram),
        (SEGMENT, 3, segment),
        (ECHO, 4, echo),
        (TUNNEL, 5, tunnel),
    ];
    for (h, serial, text) in cases {
        let n = Nonce { key: 1, serial };
        let wanted = bytes(alloc, text)?;
        let frame = frame_of(alloc, &h, n)?;
        assert!(rt; frame[..] == wanted[..], "{serial}");
        assert!(rt; reads(&frame, &h, Some(n)), "{serial}");
    }
    Ok(())
}

#[test]
fn a_cut_frame_is_read_as_far_as_it_goes(rt: HostRuntime) -> Result<(), Fail> {
    let alloc = rt.alloc();
    let n = Nonce { key: 1, serial: 1 };
    let plain = frame_of(alloc, &PLAIN, n)?;
    for (len, _) in plain.iter().enumerate() {
        let cut = &plain[..len];
        assert!(rt; parse(cut).is_some() == (len >= 18), "{len}");
        let nonce = if len >= 42 { Some(n) } else { None };
        assert!(rt; len < 18 || reads(cut, &PLAIN, nonce), "{len}");
    }
    let datagram = frame_of(alloc, &DATAGRAM, n)?;
    for (len, _) in datagram.iter().enumerate() {
        assert!(rt; parse(&datagram[..len]).is_none(), "{len}");
    }
    Ok(())
}

/// Whether the header's frame with this byte at a place is read, with a nonce or without.
fn read_with(
    alloc: Global,
    h: &Header,
    n: Nonce,
    place: usize,
    byte: u8,
) -> Result<Option<bool>, Fail> {
    let mut frame = frame_of(alloc, h, n)?;
    if place < frame.len() {
        frame[place] = byte;
    }
    Ok(match parse(&frame) {
        Some((_, nonce)) => Some(nonce.is_some()),
        None => None,
    })
}

#[test]
fn what_is_no_probe_is_told_apart(rt: HostRuntime) -> Result<(), Fail> {
    let alloc = rt.alloc();
    let n = Nonce { key: 1, serial: 2 };
    // Where a byte of the datagram's frame is changed to this, the frame is read (with a nonce or without) or not.
    let cases = [
        (12, 0x88, Some(false)),
        (14, 0x10, Some(true)),
        (16, 0x05, None),
        (16, 0x81, None),
        (18, 0x46, None),
        (19, 0x03, Some(true)),
        (21, 0x35, None),
        (21, 0x33, None),
        (24, 0x20, None),
        (24, 0x40, Some(true)),
        (25, 0x01, None),
        (28, 0x00, Some(true)),
        (43, 0x21, None),
        (44, 0x00, Some(true)),
        (46, 0x00, Some(false)),
    ];
    for (place, byte, read) in cases {
        assert!(rt;
            read_with(alloc, &DATAGRAM, n, place, byte)? == read,
            "{place}"
        );
    }
    Ok(())
}

#[test]
fn arp_is_told_by_its_first_six_bytes(rt: HostRuntime) -> Result<(), Fail> {
    let alloc = rt.alloc();
    let n = Nonce { key: 1, serial: 1 };
    for (place, byte, read) in [
        (18, 0x01, None),
        (19, 0x06, None),
        (20, 0x86, None),
        (21, 0xdd, None),
        (22, 0x08, None),
        (23, 0x10, None),
        (24, 0x01, Some(true)),
        (46, 0x00, Some(false)),
    ] {
        assert!(rt; read_with(alloc, &ARP, n, place, byte)? == read, "{place}");
    }
    let mut frame = frame_of(alloc, &ARP, n)?;
    assert!(rt; frame.len() == 70);
    frame.truncate(46);
    assert!(rt; reads(&frame, &ARP, None));
    frame.truncate(45);
    assert!(rt; parse(&frame).is_none());
    Ok(())
}
