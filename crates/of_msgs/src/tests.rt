//! Frames that were written by hand.

use crate::{
    Command, ModFault, error_frame, errors, packet_out, read_error, read_features, read_flow_mod,
    read_miss_length, read_packet_in, reasons, write_flow_mod,
};
use of_frame::{Cutter, Frame};
use std::alloc::Global;
use std::test::Fail;

/// An ADD for IPv4 to 10.0.0.0/24, priority 100, with an output to port 2.
const ADD: &str = "010e005000000011
    003220ef 0000 000000000000 000000000000 0000 00 00 0800 00 00 0000 00000000 0a000000 0000 0000
    0000000000000000 0000 0000 0000 0064 ffffffff ffff 0000 0000000800020000";

/// A PACKET_OUT of a probe at port 1.
const PROBE: &str = "010d005e4d6f6e6f ffffffffffff0008 0000000800010000
    020000000002 020000000001 81000064 0800
    45000034 00000000 401166b7 0a000001 0a000002
    00010002 0020c789 4d4f4e4f434c4531 0000000000000001 0000000000000002";

/// The bytes of hexadecimal digits; what is no digit is skipped.
fn bytes(alloc: Global, text: &str) -> Result<Vec<u8>, Fail> {
    let mut bytes = Vec::new(alloc);
    let mut high = None;
    for digit in text.chars().filter_map(|c| c.to_digit(16)) {
        let digit = (digit % 16) as u8;
        high = match high {
            None => Some(digit),
            Some(first) => {
                bytes.push((first % 16) * 16 + digit)?;
                None
            }
        };
    }
    Ok(bytes)
}

/// The frame of hexadecimal digits.
fn frame(alloc: Global, text: &str) -> Result<Frame, Fail> {
    let found = Cutter::new(alloc).feed(alloc, &bytes(alloc, text)?)?;
    let frame = found.frames.into_items().pop();
    Ok(frame.ok_or("no frame")?)
}

#[test]
fn flow_mods_are_written_back(rt: HostRuntime) -> Result<(), Fail> {
    let alloc = rt.alloc();
    let cases = [
        ADD,
        // A drop as a MODIFY_STRICT.
        "010e004800000011
            003220ef 0000 000000000000 000000000000 0000 00 00 0800 00 00 0000 00000000 0a000000 0000 0000
            0000000000000000 0002 0000 0000 0064 ffffffff ffff 0000",
        // A vendor's action; pads, unused wildcards and fields that are not compared are not 0.
        "010e005000000011
            ff3220ef 0001 000000000002 000000000003 0004 05 06 0800 00 00 0708 00000009 0a0000ff 0000 0000
            0102030405060708 0004 000a 001e 0064 00000102 0003 0001 ffff000800000000",
    ];
    for text in cases {
        let given = frame(alloc, text)?;
        let m = read_flow_mod(alloc, &given)?;
        assert_eq!(rt; write_flow_mod(alloc, &m)?.bytes(), given.bytes(), "{text}");
    }
    Ok(())
}

#[test]
fn fields_of_a_flow_mod(rt: HostRuntime) -> Result<(), Fail> {
    let alloc = rt.alloc();
    let m = read_flow_mod(
        alloc,
        &frame(
            alloc,
            "010e005000000011
            003220ef 0000 000000000000 000000000000 0000 00 00 0800 00 00 0000 00000000 0a000000 0000 0000
            0102030405060708 0004 000a 001e 0064 00000102 0003 0001 ffff000800000000",
        )?,
    )?;
    assert_eq!(rt; m.command, Command::DeleteStrict);
    assert_eq!(rt; (m.xid, m.buffer), (0x11, 0x102));
    assert_eq!(rt; (m.idle, m.hard, m.priority), (10, 30, 100));
    assert_eq!(rt; (m.out_port, m.flags), (3, 1));
    assert_eq!(rt; m.cookie, 0x0102_0304_0506_0708);
    assert_eq!(rt; m.matching.wildcards(), 0x0032_20ef);
    assert_eq!(rt; m.actions.items().len(), 1);
    Ok(())
}

#[test]
fn refused_flow_mods(rt: HostRuntime) -> Result<(), Fail> {
    let alloc = rt.alloc();
    let cases = [
        // 71 bytes, and an unknown command as well.
        (
            "010e004700000011
            003220ef 0000 000000000000 000000000000 0000 00 00 0800 00 00 0000 00000000 0a000000 0000 0000
            0000000000000000 0005 0000 0000 0064 ffffffff ffff 00",
            ModFault::ModLength,
        ),
        // Command 5, and an action of 4 bytes as well.
        (
            "010e005000000011
            003220ef 0000 000000000000 000000000000 0000 00 00 0800 00 00 0000 00000000 0a000000 0000 0000
            0000000000000000 0005 0000 0000 0064 ffffffff ffff 0000 0000000400020000",
            ModFault::ModCommand,
        ),
        // An action of 4 bytes behind one of 8.
        (
            "010e005800000011
            003220ef 0000 000000000000 000000000000 0000 00 00 0800 00 00 0000 00000000 0a000000 0000 0000
            0000000000000000 0000 0000 0000 0064 ffffffff ffff 0000 0000000800020000 0000000400020000",
            ModFault::ActionLength { place: 8 },
        ),
    ];
    for (text, fault) in cases {
        let given = frame(alloc, text)?;
        assert_eq!(rt; read_flow_mod(alloc, &given).err(), Some(fault), "{text}");
    }
    Ok(())
}

#[test]
fn errors_bear_what_failed(rt: HostRuntime) -> Result<(), Fail> {
    let alloc = rt.alloc();
    let cases = [
        (
            ADD,
            errors::FLOW_MOD_FAILED,
            errors::ALL_TABLES_FULL,
            "0101004c00000011 0003 0000 010e005000000011
            003220ef 0000 000000000000 000000000000 0000 00 00 0800 00 00 0000 00000000 0a000000 0000 0000
            0000000000000000 0000 0000 0000 0064",
        ),
        (
            "0112000800000012",
            errors::BAD_REQUEST,
            errors::BAD_REQUEST_BAD_LEN,
            "0101001400000012 0001 0006 0112000800000012",
        ),
    ];
    for (failed, kind, code, wanted) in cases {
        let made = error_frame(alloc, kind, code, &frame(alloc, failed)?)?;
        assert_eq!(rt; made.bytes(), frame(alloc, wanted)?.bytes());
    }
    Ok(())
}

#[test]
fn a_probe_goes_out(rt: HostRuntime) -> Result<(), Fail> {
    let alloc = rt.alloc();
    let whole = bytes(alloc, PROBE)?;
    assert_eq!(rt; whole.len(), 94);
    let made = packet_out(alloc, 1, &whole[24..])?;
    assert_eq!(rt; made.bytes(), whole.as_slice());
    Ok(())
}

#[test]
fn readers_without_memory(rt: HostRuntime) -> Result<(), Fail> {
    let alloc = rt.alloc();
    let packet = frame(alloc, "010a001400000000 ffffffff 0002 0007 01 00 abcd")?;
    let packet = read_packet_in(&packet).ok_or("a PACKET_IN")?;
    assert_eq!(rt; (packet.in_port, packet.reason), (7, reasons::ACTION));
    assert_eq!(rt; packet.content, [0xab, 0xcd].as_slice());
    let error = frame(alloc, "0101000d00000000 0003 0004 ab")?;
    let error = read_error(&error).ok_or("an ERROR")?;
    assert_eq!(rt; (error.kind, error.code), (3, errors::BAD_COMMAND));
    let features = "010600204d6f6e6f 0000000000000002 00000100 01000000 00000000 00000fff";
    assert_eq!(rt; read_features(&frame(alloc, features)?), Some(2));
    let config = frame(alloc, "0109000c4d6f6e6f 00000080")?;
    assert_eq!(rt; read_miss_length(&config), Some(128));
    Ok(())
}
