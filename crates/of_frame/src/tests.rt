//! Frames made, cut and refused.

use crate::{Cutter, Frame, FrameFault};
use std::test::Fail;

#[test]
fn makes_and_cuts(rt: HostRuntime) -> Result<(), Fail> {
    let alloc = rt.alloc();
    let made = Frame::make(alloc, 2, 0x4d6f_6e6f, b"ab")?;
    assert_eq!(rt; made.bytes(), b"\x01\x02\x00\x0aMonoab".as_slice());
    assert_eq!(rt; made.kind(), 2);
    assert_eq!(rt; made.xid(), 0x4d6f_6e6f);
    let mut cutter = Cutter::new(alloc);
    let first = cutter.feed(alloc, b"\x01\x02\x00\x0aMonoa")?;
    assert_eq!(rt; first.frames.items().len(), 0);
    let second = cutter.feed(alloc, b"b\x05\x00\x00\x08\x00\x00\x00\x01\x01")?;
    assert_eq!(rt; second.frames.items().len(), 2);
    assert_eq!(rt; second.frames.items()[0].bytes(), made.bytes());
    assert_eq!(rt; second.frames.items()[1].kind(), 0);
    assert_eq!(rt; second.fault, None);
    Ok(())
}

#[test]
fn refuses(rt: HostRuntime) -> Result<(), Fail> {
    let alloc = rt.alloc();
    let cases = [
        (
            b"\x01\x00\x00\x07\x00\x00\x00\x01",
            Some(FrameFault::BadLength),
        ),
        (b"\x04\x00\x00\x08\x00\x00\x00\x01", None),
        (
            b"\x04\x02\x00\x08\x00\x00\x00\x01",
            Some(FrameFault::BadVersion),
        ),
        (
            b"\x04\x02\x00\x07\x00\x00\x00\x01",
            Some(FrameFault::BadLength),
        ),
    ];
    for (header, fault) in cases {
        let mut cutter = Cutter::new(alloc);
        assert_eq!(rt; cutter.feed(alloc, &header[..7])?.fault, None);
        assert_eq!(rt; cutter.feed(alloc, &header[7..])?.fault, fault);
    }
    Ok(())
}
