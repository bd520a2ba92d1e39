//! Lines of a table, byte for byte.

use crate::table_line;
use mon_table::Rule;
use of_action::read_actions;
use of_match::read_match;
use std::test::Fail;

#[test]
fn writes_a_line_for_a_rule(rt: HostRuntime) -> Result<(), Fail> {
    let alloc = rt.alloc();
    // IPv4 to 10.0.0.0/24.
    let network = [
        0, 0x32, 0x20, 0xef, 0, 0, 0, 0, 0, 0, 0, 0, 0, 0, 0, 0, 0, 0, 0, 0, 0, 0, 8, 0, 0, 0, 0,
        0, 0, 0, 0, 0, 10, 0, 0, 0, 0, 0, 0, 0,
    ];
    // One UDP packet from 10.0.0.1 to 10.0.0.2.
    let packet = [
        0, 0, 0, 0, 0, 1, 2, 0, 0, 0, 0, 1, 2, 0, 0, 0, 0, 2, 0, 0x64, 0, 0, 8, 0, 0, 0x11, 0, 0,
        10, 0, 0, 1, 10, 0, 0, 2, 0, 1, 0, 2,
    ];
    let to_port_2: [u8; 8] = [0, 0, 0, 8, 0, 2, 0, 0];
    let cases: [(u64, [u8; 40], u16, &[u8], bool, &str); 4] = [
        (
            0,
            network,
            100,
            &to_port_2,
            false,
            "table 0 100 003220ef000000000000000000000000000000000000080000000000000000000a00000000000000 0000000800020000\n",
        ),
        (
            63,
            network,
            65535,
            b"",
            false,
            "table 63 65535 003220ef000000000000000000000000000000000000080000000000000000000a00000000000000 -\n",
        ),
        (
            18_446_744_073_709_551_615,
            packet,
            0,
            &to_port_2,
            false,
            "table 18446744073709551615 0 000000000001020000000001020000000002006400000800001100000a0000010a00000200010002 0000000800020000\n",
        ),
        (
            7,
            network,
            100,
            &to_port_2,
            true,
            "table 7 100 003220ef000000000000000000000000000000000000080000000000000000000a00000000000000 0000000800020000 unsure\n",
        ),
    ];
    for (session, matching, priority, actions, unsure, line) in cases {
        let rule = Rule {
            matching: read_match(&matching),
            priority,
            actions: read_actions(alloc, actions)?,
            unsure,
        };
        assert_eq!(rt; table_line(alloc, session, &rule)?.as_str(), line);
    }
    Ok(())
}
