//! FLOW_MODs over small tables, written by hand.

ghost use Rattle.std.specs.Prelude.{◌≡◌, false, IfOk};
ghost use Rattle.std.specs.List.{AllByRecursion};
ghost use Rattle.mon_edits.specs.Naming.{is_emergency, is_deletion};
ghost use Rattle.mon_edits.specs.Frames.{is_cut};

use crate::{Edits, ModRefusal, edits_suit_the_command, frames_of, is_emergency, plan_mod};
use mon_table::{Rule, Table};
use of_frame::{Cutter, Frame};
use of_msgs::{FlowMod, read_flow_mod};
use std::alloc::Global;
use std::test::Fail;

/// To 10.0.0.0/24, priority 100, to port 2.
const ADD: &str = "010e005000000011
    003220ef 0000 000000000000 000000000000 0000 00 00 0800 00 00 0000 00000000 0a000000 0000 0000
    0000000000000000 0000 0000 0000 0064 ffffffff ffff 0000 0000000800020000";

/// The same with a hard timeout.
const TIMED: &str = "010e005000000011
    003220ef 0000 000000000000 000000000000 0000 00 00 0800 00 00 0000 00000000 0a000000 0000 0000
    0000000000000000 0000 0000 000a 0064 ffffffff ffff 0000 0000000800020000";

/// All IPv4, priority 50, to the queue 7 of port 2.
const QUEUED: &str = "010e005800000012
    003820ef 0000 000000000000 000000000000 0000 00 00 0800 00 00 0000 00000000 00000000 0000 0000
    0000000000000000 0000 0000 0000 0032 ffffffff ffff 0000 000b0010000200000000000000000007";

/// From 10.0.0.0/8, priority 100, to port 3.
const FROM: &str = "010e005000000013
    003818ef 0000 000000000000 000000000000 0000 00 00 0800 00 00 0000 0a000000 00000000 0000 0000
    0000000000000000 0000 0000 0000 0064 ffffffff ffff 0000 0000000800030000";

/// No wildcards, priority field 9, to port 2.
const EXACT: &str = "010e005000000014
    00000000 0001 020000000001 020000000002 0064 00 00 0800 00 11 0000 0a000001 0a000002 0001 0002
    0000000000000000 0000 0000 0000 0009 ffffffff ffff 0000 0000000800020000";

/// The entries of the proxy: VLAN 101 at 65535, and the drop mark at 65534.
const CATCHING: &str = "010e00504d6f6e6f
    003820fd 0000 000000000000 000000000000 0065 00 00 0000 00 00 0000 00000000 00000000 0000 0000
    0000000000000000 0000 0000 0000 ffff ffffffff ffff 0000 00000008fffdffff
    010e00484d6f6e6f
    003820f7 0000 000000000000 024d4f4e4f00 0000 00 00 0000 00 00 0000 00000000 00000000 0000 0000
    0000000000000000 0000 0000 0000 fffe ffffffff ffff 0000";

/// The bytes of hexadecimal digits; what is no digit is skipped.
fn bytes(alloc: Global, text: &str) -> Result<Vec<u8>, Fail> {
    let mut bytes = Vec::new(alloc);
    let mut high = None;
    for digit in text.chars().filter_map(|c| c.to_digit(16)) {
        let digit = (digit % 16) as u8;
        high = match high {
            None => Some(digit),
            Some(first) => {
                bytes.push((first % 16) * 16 + digit)?;
                None
            }
        };
    }
    Ok(bytes)
}

/// The frames of hexadecimal digits.
fn frames(alloc: Global, text: &str) -> Result<Vec<Frame>, Fail> {
    let found = Cutter::new(alloc).feed(alloc, &bytes(alloc, text)?)?;
    Ok(found.frames.into_items())
}

/// The last message of hexadecimal digits.
fn message(alloc: Global, text: &str) -> Result<FlowMod, Fail> {
    let frame = frames(alloc, text)?.pop().ok_or("no frame")?;
    Ok(read_flow_mod(alloc, &frame)?)
}

/// The table that ADDs leave.
fn table(alloc: Global, text: &str) -> Result<Table, Fail> {
    let mut table = Table::new(alloc);
    for frame in &frames(alloc, text)? {
        let m = read_flow_mod(alloc, frame)?;
        let _ = table.put(Rule {
            matching: m.matching,
            priority: m.priority,
            actions: m.actions,
            unsure: m.idle != 0 || m.hard != 0,
        })?;
    }
    Ok(table)
}

/// The edits of a message over a table.
fn planned(alloc: Global, table: &Table, m: &FlowMod) -> Result<Edits, Fail>
    requires { is_emergency m.now ≡ false }
    ensures { IfOk result (λ edits. AllByRecursion (λ e. is_cut e ≡ is_deletion m.now.command) edits) }
{
    let edits = plan_mod(alloc, table, &Table::new(alloc), 0, m)?;
    edits_suit_the_command();
    Ok(edits)
}

/// The bytes of the frames in which the message of some digits goes to the switch.
fn passed(alloc: Global, table: &Table, text: &str) -> Result<Vec<u8>, Fail> {
    let frame = frames(alloc, text)?.pop().ok_or("no frame")?;
    let m = read_flow_mod(alloc, &frame)?;
    let mut bytes = Vec::new(alloc);
    if is_emergency(&m) {
        return Ok(bytes);
    }
    let edits = planned(alloc, table, &m)?;
    for frame in frames_of(alloc, &m, edits.items(), frame)?.items() {
        bytes.extend_from_slice(frame.bytes())?;
    }
    Ok(bytes)
}

#[test]
fn edits_pass_one_by_one(rt: HostRuntime) -> Result<(), Fail> {
    let alloc = rt.alloc();
    let all = format!(in alloc; "{ADD}{QUEUED}{FROM}{EXACT}")?;
    let cases = [
        // A DELETE of everything over one entry.
        (
            ADD,
            "010e004800000011
            003820ff 0000 000000000000 000000000000 0000 00 00 0000 00 00 0000 00000000 00000000 0000 0000
            0000000000000000 0003 0000 0000 8000 ffffffff ffff 0000",
            "010e004800000011
            003220ef 0000 000000000000 000000000000 0000 00 00 0800 00 00 0000 00000000 0a000000 0000 0000
            0000000000000000 0004 0000 0000 0064 ffffffff ffff 0000",
        ),
        // An ADD as it came, pads and unused wildcards included.
        (
            ADD,
            "010e005000000021
            ff3220ef 0001 000000000002 000000000003 0004 05 06 0800 00 00 0708 00000009 0a0000ff 0000 0000
            0102030405060708 0000 0000 0000 0064 00000102 0003 0001 ffff000800000000",
            "010e005000000021
            ff3220ef 0001 000000000002 000000000003 0004 05 06 0800 00 00 0708 00000009 0a0000ff 0000 0000
            0102030405060708 0000 0000 0000 0064 00000102 0003 0001 ffff000800000000",
        ),
        // A MODIFY of IPv4 from port 1 on: it covers the entry without wildcards alone, and keeps its priority field.
        (
            &all,
            "010e005000000022
            003820ee 0001 000000000000 000000000000 0000 00 00 0800 00 00 0000 00000000 00000000 0000 0000
            0102030405060708 0001 0000 0000 0007 00000102 0003 0001 0000000800040000",
            "010e005000000022
            00000000 0001 020000000001 020000000002 0064 00 00 0800 00 11 0000 0a000001 0a000002 0001 0002
            0102030405060708 0002 0000 0000 0009 00000102 ffff 0001 0000000800040000",
        ),
        // An ADD with an idle timeout asks to be told when its entry goes, and is else as it came.
        (
            ADD,
            "010e005000000027
            ff3220ef 0001 000000000002 000000000003 0004 05 06 0800 00 00 0708 00000009 0a0000ff 0000 0000
            0102030405060708 0000 000a 0000 0064 00000102 0003 0008 ffff000800000000",
            "010e005000000027
            ff3220ef 0001 000000000002 000000000003 0004 05 06 0800 00 00 0708 00000009 0a0000ff 0000 0000
            0102030405060708 0000 000a 0000 0064 00000102 0003 0009 ffff000800000000",
        ),
        // A MODIFY of an entry that may vanish asks so too.
        (
            TIMED,
            "010e005000000028
            003820ff 0000 000000000000 000000000000 0000 00 00 0000 00 00 0000 00000000 00000000 0000 0000
            0000000000000000 0001 0000 0000 8000 ffffffff ffff 0000 0000000800040000",
            "010e005000000028
            003220ef 0000 000000000000 000000000000 0000 00 00 0800 00 00 0000 00000000 0a000000 0000 0000
            0000000000000000 0002 0000 0000 0064 ffffffff ffff 0001 0000000800040000",
        ),
        // A MODIFY that names nothing.
        (
            ADD,
            "010e005000000023
            ff3220ef 0001 000000000002 000000000003 0004 05 06 0800 00 00 0708 00000009 0b0000ff 0000 0000
            0000000000000000 0001 0000 0000 0007 00000102 0003 0000 0000000800040000",
            "010e005000000023
            003220ef 0000 000000000000 000000000000 0000 00 00 0800 00 00 0000 00000000 0b000000 0000 0000
            0000000000000000 0000 0000 0000 0007 00000102 ffff 0000 0000000800040000",
        ),
        // A MODIFY_STRICT of another priority names nothing, however many its match covers.
        (
            ADD,
            "010e005000000024
            003820ff 0000 000000000000 000000000000 0000 00 00 0000 00 00 0000 00000000 00000000 0000 0000
            0000000000000000 0002 0000 0000 0064 ffffffff ffff 0000 0000000800040000",
            "010e005000000024
            003820ff 0000 000000000000 000000000000 0000 00 00 0000 00 00 0000 00000000 00000000 0000 0000
            0000000000000000 0000 0000 0000 0064 ffffffff ffff 0000 0000000800040000",
        ),
        // A DELETE with out_port 2, a timeout and a buffer: an ENQUEUE is no OUTPUT, and only the first frame bears the buffer.
        (
            &all,
            "010e005000000025
            003820ff 0000 000000000000 000000000000 0000 00 00 0000 00 00 0000 00000000 00000000 0000 0000
            0000000000000000 0003 000a 0000 8000 00000102 0002 0000 0000000800040000",
            "010e004800000025
            00000000 0001 020000000001 020000000002 0064 00 00 0800 00 11 0000 0a000001 0a000002 0001 0002
            0000000000000000 0004 000a 0000 0009 00000102 ffff 0000
            010e004800000025
            003220ef 0000 000000000000 000000000000 0000 00 00 0800 00 00 0000 00000000 0a000000 0000 0000
            0000000000000000 0004 000a 0000 0064 ffffffff ffff 0000",
        ),
        // A DELETE_STRICT of an entry without an OUTPUT to its out_port.
        (
            &all,
            "010e004800000026
            003220ef 0000 000000000000 000000000000 0000 00 00 0800 00 00 0000 00000000 0a000000 0000 0000
            0000000000000000 0004 0000 0000 0064 ffffffff 0003 0000",
            "",
        ),
    ];
    for (given, text, wanted) in cases {
        let passed = passed(alloc, &table(alloc, given)?, text)?;
        assert_eq!(rt;
            passed.as_slice(),
            bytes(alloc, wanted)?.as_slice(),
            "{text}"
        );
    }
    Ok(())
}

/// An ADD of so many outputs that its actions have 520 bytes. It is at a reserved priority, too.
fn crowded(alloc: Global) -> Result<FlowMod, Fail> {
    let mut text = bytes(
        alloc,
        "010e025000000031
        003820ff 0000 000000000000 000000000000 0000 00 00 0000 00 00 0000 00000000 00000000 0000 0000
        0000000000000000 0000 000a 0000 ffff ffffffff ffff 0000",
    )?;
    for _ in 0..65 {
        text.extend_from_slice(&[0, 0, 0, 8, 0, 2, 0, 0])?;
    }
    let found = Cutter::new(alloc).feed(alloc, &text)?;
    let frame = found.frames.into_items().pop().ok_or("no frame")?;
    Ok(read_flow_mod(alloc, &frame)?)
}

#[test]
fn the_first_refusal_is_said(rt: HostRuntime) -> Result<(), Fail> {
    let alloc = rt.alloc();
    let table = table(alloc, FROM)?;
    let catching = self::table(alloc, CATCHING)?;
    // All at a reserved priority, with CHECK_OVERLAP.
    let reserved = "010e004800000033
        003820ff 0000 000000000000 000000000000 0000 00 00 0000 00 00 0000 00000000 00000000 0000 0000
        0000000000000000 0000 0000 0000 fffe ffffffff ffff 0002";
    // A DELETE_STRICT that names nothing, at a reserved priority.
    let strict = "010e004800000034
        003820ff 0000 000000000000 000000000000 0000 00 00 0000 00 00 0000 00000000 00000000 0000 0000
        0000000000000000 0004 0000 0000 ffff ffffffff ffff 0000";
    // A DELETE of everything at that priority is not refused.
    let loose = "010e004800000035
        003820ff 0000 000000000000 000000000000 0000 00 00 0000 00 00 0000 00000000 00000000 0000 0000
        0000000000000000 0003 0000 0000 ffff ffffffff ffff 0000";
    // To 10.0.0.0/8 with CHECK_OVERLAP; the table is full as well.
    let overlapping = "010e005000000036
        003620ef 0000 000000000000 000000000000 0000 00 00 0800 00 00 0000 00000000 0a000000 0000 0000
        0000000000000000 0000 0000 0000 0064 ffffffff ffff 0002 0000000800020000";
    // The match and priority of an entry, with CHECK_OVERLAP.
    let equal = "010e005000000037
        003818ef 0000 000000000000 000000000000 0000 00 00 0800 00 00 0000 0a000000 00000000 0000 0000
        0000000000000000 0000 0000 0000 0064 ffffffff ffff 0002 0000000800020000";
    let cases = [
        (reserved, 4096, Some(ModRefusal::Reserved)),
        (strict, 0, Some(ModRefusal::Reserved)),
        (loose, 4096, None),
        (overlapping, 4096, Some(ModRefusal::OverlapFlag)),
        (equal, 0, Some(ModRefusal::OverlapFlag)),
        (ADD, 4095, Some(ModRefusal::TableFull)),
        (ADD, 4094, None),
        // A timeout is no reason.
        (TIMED, 4094, None),
        // It replaces an entry.
        (FROM, 4096, None),
    ];
    for (text, cuts, wanted) in cases {
        let m = message(alloc, text)?;
        assert!(rt; !is_emergency(&m));
        if !is_emergency(&m) {
            let planned = plan_mod(alloc, &table, &catching, cuts, &m);
            assert_eq!(rt; planned.err(), wanted, "{text}");
        }
    }
    let m = crowded(alloc)?;
    if !is_emergency(&m) {
        let planned = plan_mod(alloc, &table, &catching, 4096, &m);
        assert_eq!(rt; planned.err(), Some(ModRefusal::TooManyActions));
    }
    assert_eq!(rt;
        format!(in alloc; "{}", ModRefusal::TableFull)?.as_str(),
        "the table is full"
    );
    Ok(())
}
