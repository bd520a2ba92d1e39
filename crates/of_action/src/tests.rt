//! Bytes of the standard's layout, there and back.

use super::*;
use mon_header::{Action, Actions};
use std::test::*;

const TO_PORT_2: [u8; 8] = [0, 0, 0, 8, 0, 2, 0, 0];

const TO_CONTROLLER: [u8; 8] = [0, 0, 0, 8, 0xff, 0xfd, 0xff, 0xff];

const VENDOR: [u8; 8] = [0xff, 0xff, 0, 8, 0, 0, 0, 0];

const MARKED_TO_PORT_1: [u8; 24] = [
    0, 5, 0, 16, 2, 0x4d, 0x4f, 0x4e, 0x4f, 0, 0, 0, 0, 0, 0, 0, 0, 0, 0, 8, 0, 1, 0, 0,
];

#[test]
fn read_and_written_back(rt: HostRuntime) -> Result<(), Fail> {
    let nothing: [u8; 0] = [];
    let cases: [&[u8]; 5] = [
        &nothing,
        &TO_PORT_2,
        &TO_CONTROLLER,
        &VENDOR,
        &MARKED_TO_PORT_1,
    ];
    for bytes in cases {
        let actions = read_actions(rt.alloc(), bytes)?;
        let written = write_actions(rt.alloc(), &actions)?;
        assert_eq!(rt; written.as_slice(), bytes);
    }
    Ok(())
}

#[test]
fn meanings(rt: HostRuntime) -> Result<(), Fail> {
    let actions = read_actions(rt.alloc(), &MARKED_TO_PORT_1)?;
    assert!(rt;
        matches!(
            actions.items(),
            [
                Action::SetDlDst(0x024d_4f4e_4f00),
                Action::Output {
                    port: 1,
                    max_len: 0
                }
            ]
        )
    );
    let vendor = read_actions(rt.alloc(), &VENDOR)?;
    for action in vendor.items() {
        assert!(rt; matches!(action, Action::Unknown(raw) if raw.bytes().len() == 8));
    }
    Ok(())
}

#[test]
fn first_fault(rt: HostRuntime) {
    let cases: [(&[u8], u64); 6] = [
        (&[0, 0, 0], 0),
        (&[0, 0, 0, 4], 0),
        (&[0, 0, 0, 0, 0, 2, 0, 0], 0),
        (&[0, 0, 0, 16, 0, 2, 0, 0], 0),
        (&[0, 4, 0, 8, 0, 2, 0, 0], 0),
        (&[0xff, 0xff, 0, 8, 0, 0, 0, 0, 0, 0, 0, 4], 8),
    ];
    for (bytes, place) in cases {
        let fault = read_actions(rt.alloc(), bytes).err();
        assert_eq!(rt; fault, Some(ActionFault::ActionLength { place }));
    }
}
