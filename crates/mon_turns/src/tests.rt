//! A core over three switches, and one that gets no tags.

use crate::{Core, CoreFault, Numbers, OutOfMemory};
use mon_settings::{Settings, read_settings};
use mon_topo::{TopoFault, Vids};
use std::alloc::Global;
use std::test::Fail;

/// Three switches, the first linked to both others.
const STAR: &[u8] =
    b"{\"alarm_ticks\":3,\"controller\":\"127.0.0.1:6633\",\"links\":[[\"0000000000000001\",1,\"0000000000000002\",1],[\"0000000000000001\",2,\"0000000000000003\",1]],\"listen\":\"127.0.0.1:6634\",\"retry_ticks\":2,\"sessions\":0,\"switches\":[\"0000000000000001\",\"0000000000000002\",\"0000000000000003\"],\"tags\":[100,101,102],\"tick_ms\":100,\"watch_ticks\":0,\"workers\":2}";

const NOTHING_USED: Numbers = Numbers {
    session: 0,
    serial: 0,
    job: 0,
};

fn star(alloc: Global) -> Result<Settings, OutOfMemory> {
    match read_settings(alloc, STAR) {
        Ok(settings) => Ok(settings),
        Err(_) => Err(OutOfMemory),
    }
}

/// Whether a core is made of these settings, and shows no session.
fn is_made(alloc: Global, settings: Settings) -> bool {
    match Core::new(alloc, settings, 1, NOTHING_USED) {
        Ok(core) => core.armed(0).is_none(),
        Err(_) => false,
    }
}

/// Why none is made.
fn refusal(alloc: Global, settings: Settings) -> Option<CoreFault> {
    Core::new(alloc, settings, 1, NOTHING_USED).err()
}

#[test]
fn a_core_is_made_where_the_switches_get_tags(rt: HostRuntime) -> Result<(), Fail> {
    let alloc = rt.alloc();
    assert!(rt; is_made(alloc, star(alloc)?));
    let mut untagged = star(alloc)?;
    untagged.tags = Vids::new(alloc);
    assert_eq!(rt;
        refusal(alloc, untagged),
        Some(CoreFault::Topo(TopoFault::TooFewTags))
    );
    Ok(())
}
