//! Barriers asked and answered, in the order of a session.

use crate::{Asked, Asker, Barriers};
use of_frame::Frame;
use std::alloc::Global;
use std::test::Fail;

/// What a barrier reply with this xid is taken for.
#[derive(Clone, Copy, Debug, PartialEq, Eq)]
enum Taken {
    Own(Asker),
    Kept,
    Stray(u32),
}

fn answer(
    alloc: Global,
    barriers: &mut Barriers,
    xid: u32,
) -> Result<Taken, mon_list::OutOfMemory> {
    let frame = Frame::make(alloc, 19, xid, b"")?;
    let taken = match barriers.reply(frame)? {
        Asked::Own(who) => Taken::Own(who),
        Asked::Kept => Taken::Kept,
        Asked::Stray(frame) => Taken::Stray(frame.xid()),
    };
    Ok(taken)
}

#[test]
fn replies_go_to_the_oldest_asker(rt: HostRuntime) -> Result<(), Fail> {
    let alloc = rt.alloc();
    let mut barriers = Barriers::new(alloc);
    assert_eq!(rt; answer(alloc, &mut barriers, 1)?, Taken::Stray(1));
    for who in [
        Asker::Arming,
        Asker::Controller { edits: 0 },
        Asker::Own { edit: 1 },
        Asker::Own { edit: 2 },
        Asker::Controller { edits: 2 },
    ] {
        barriers.ask(who)?;
    }
    for (xid, taken) in [
        (2, Taken::Own(Asker::Arming)),
        (3, Taken::Kept),
        (4, Taken::Own(Asker::Own { edit: 1 })),
        (5, Taken::Own(Asker::Own { edit: 2 })),
        (6, Taken::Kept),
        (7, Taken::Stray(7)),
    ] {
        assert_eq!(rt; answer(alloc, &mut barriers, xid)?, taken);
    }
    for (oldest, released) in [
        (Some(1), Some(3)),
        (Some(1), None),
        (Some(2), None),
        (Some(3), Some(6)),
        (None, None),
    ] {
        assert_eq!(rt; barriers.release(oldest).map(|frame| frame.xid()), released);
    }
    Ok(())
}
