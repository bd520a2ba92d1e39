//! Frames held back and let go, and edits that may pass others.

use crate::{Queue, apart};
use mon_header::{BLANK, Header, Match, Matches};
use of_frame::Frame;
use std::test::Fail;

#[test]
fn frames_leave_in_the_order_in_which_they_came(rt: HostRuntime) -> Result<(), Fail> {
    let alloc = rt.alloc();
    let mut queue = Queue::new(alloc);
    assert!(rt; queue.head().is_none());
    queue.push(Frame::make(alloc, 18, 18, b"")?)?;
    queue.push(Frame::make(alloc, 2, 17, b"echo")?)?;
    queue.push(Frame::make(alloc, 18, 19, b"")?)?;
    assert_eq!(rt; queue.head().map(Frame::xid), Some(18));
    for (bytes, xid) in [
        (28, Some(18)),
        (20, Some(17)),
        (8, Some(19)),
        (0, None),
        (0, None),
    ] {
        assert_eq!(rt; queue.bytes(), bytes);
        assert_eq!(rt; queue.pop().map(|frame| frame.xid()), xid);
    }
    Ok(())
}

/// IPv4 packets from and to these addresses, with so many low bits ignored.
fn between(source: (u32, u32), destination: (u32, u32)) -> Match {
    let (nw_src, src_ignored) = source;
    let (nw_dst, dst_ignored) = destination;
    let wildcards = 0x0030_00ef | (src_ignored & 63) << 8 | (dst_ignored & 63) << 14;
    let fields = Header {
        dl_type: 0x0800,
        nw_src,
        nw_dst,
        ..BLANK
    };
    Match::normal(wildcards, fields)
}

#[test]
fn only_edits_of_other_headers_are_apart(rt: HostRuntime) -> Result<(), Fail> {
    let alloc = rt.alloc();
    let any = (0, 32);
    let mut unsettled = Matches::new(alloc);
    let to_ten = between(any, (0x0a00_0000, 8));
    assert!(rt; apart(&to_ten, &unsettled));
    unsettled.push(to_ten)?;
    unsettled.push(between((0x0c00_0000, 24), any))?;
    let from_eleven = (0x0b00_0000, 24);
    for (source, destination, is_apart) in [
        (from_eleven, (0x0a00_0000, 8), false),
        (from_eleven, (0x0a00_0000, 24), false),
        (from_eleven, (0x0a00_0100, 8), true),
        (any, (0x0a00_0100, 8), false),
    ] {
        let m = between(source, destination);
        assert_eq!(rt; apart(&m, &unsettled), is_apart);
    }
    Ok(())
}
