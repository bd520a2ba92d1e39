//! Texts of settings, and the first wrong member of those that are none.

use crate::{PathBytes, Settings, SettingsFault, read_settings};
use mon_topo::{OutOfMemory, colour};
use std::alloc::{AllocError, Global};
use std::test::Fail;

/// Three switches, the first linked to both others, but for the last brace.
const STAR: &str =
    "{\"alarm_ticks\":3,\"controller\":\"127.0.0.1:6633\",\"links\":[[\"0000000000000001\",1,\"0000000000000002\",1],[\"0000000000000001\",2,\"0000000000000003\",1]],\"listen\":\"127.0.0.1:6634\",\"retry_ticks\":2,\"sessions\":0,\"switches\":[\"0000000000000001\",\"0000000000000002\",\"0000000000000003\"],\"tags\":[100,101,102],\"tick_ms\":100,\"watch_ticks\":0,\"workers\":2";

/// The star with one member more, which counts in place of an earlier one of its name.
fn with(alloc: Global, name: &str, value: &str) -> Result<String, AllocError> {
    format!(in alloc; "{STAR},\"{name}\":{value}}}")
}

/// The path of the first wrong member, empty where none is wrong.
fn wrong_path(alloc: Global, text: &[u8]) -> Result<PathBytes, OutOfMemory> {
    match read_settings(alloc, text) {
        Ok(_) => Ok(PathBytes::new(alloc)),
        Err(SettingsFault::BadSettings { path }) => Ok(path),
        Err(SettingsFault::OutOfMemory) => Err(OutOfMemory),
    }
}

fn settings(alloc: Global, text: &str) -> Result<Settings, OutOfMemory> {
    match read_settings(alloc, text.as_bytes()) {
        Ok(settings) => Ok(settings),
        Err(_) => Err(OutOfMemory),
    }
}

#[test]
fn reads_what_the_text_says(rt: HostRuntime) -> Result<(), Fail> {
    let alloc = rt.alloc();
    let read = settings(alloc, &with(alloc, "controller", "\"10.1.2.3:6653\"")?)?;
    assert_eq!(rt; read.alarm_ticks, 3);
    assert_eq!(rt;
        (read.controller.ip, read.controller.port),
        (0x0a01_0203, 6653)
    );
    assert_eq!(rt; (read.listen.ip, read.listen.port), (0x7f00_0001, 6634));
    assert_eq!(rt; read.retry_ticks, 2);
    assert_eq!(rt; read.sessions, 0);
    assert_eq!(rt; read.tags.items(), [100, 101, 102].as_slice());
    assert_eq!(rt; read.tick_ms, 100);
    assert_eq!(rt; read.watch_ticks, 0);
    assert_eq!(rt; read.workers, 2);
    assert_eq!(rt; read.topology.switches.items(), [1, 2, 3].as_slice());
    let links = read.topology.links.items();
    assert_eq!(rt; links.len(), 2);
    assert_eq!(rt;
        (links[1].a, links[1].a_port, links[1].b, links[1].b_port),
        (1, 2, 3, 1)
    );
    let tags = colour(alloc, &read.topology, read.tags.items())?;
    assert_eq!(rt;
        (tags.tag_of(1), tags.tag_of(2), tags.tag_of(3)),
        (Some(100), Some(101), Some(101))
    );
    Ok(())
}

/// The path of the first wrong member of the star with one member more.
fn wrong_with(alloc: Global, name: &str, value: &str) -> Result<PathBytes, OutOfMemory> {
    let text = with(alloc, name, value)?;
    wrong_path(alloc, text.as_bytes())
}

/// Whether the star with one member more has its first wrong member at this path, or none where the path is empty.
fn judges(alloc: Global, name: &str, value: &str, path: &str) -> Result<bool, OutOfMemory> {
    let found = wrong_with(alloc, name, value)?;
    Ok(found.items() == path.as_bytes())
}

/// The value of the first of these members whose judgement is another one.
fn misjudged<'a>(
    alloc: Global,
    cases: &[(&str, &'a str, &str)],
) -> Result<Option<&'a str>, OutOfMemory> {
    for (name, value, path) in cases {
        if !judges(alloc, name, value, path)? {
            return Ok(Some(*value));
        }
    }
    Ok(None)
}

const LISTS: [(&str, &str, &str); 13] = [
    ("switches", "[]", "switches"),
    ("switches", "[1]", "switches/0"),
    ("switches", "[\"000000000000000A\"]", "switches/0"),
    (
        "switches",
        "[\"0000000000000001\",\"0000000000000001\"]",
        "switches/1",
    ),
    ("links", "{}", "links"),
    ("links", "[[]]", "links/0"),
    (
        "links",
        "[[\"0000000000000001\",1,\"0000000000000002\",65280]]",
        "",
    ),
    (
        "links",
        "[[\"0000000000000001\",1,\"0000000000000002\",65281]]",
        "links/0",
    ),
    (
        "links",
        "[[\"0000000000000001\",1,\"0000000000000004\",1],0]",
        "links/0",
    ),
    ("tags", "[100]", "tags"),
    ("tags", "[1,4094]", ""),
    ("tags", "[1,4095]", "tags/1"),
    ("tags", "[101,100]", "tags/1"),
];

const MEMBERS: [(&str, &str, &str); 22] = [
    ("alarm_ticks", "0", "alarm_ticks"),
    ("alarm_ticks", "1000000", ""),
    ("alarm_ticks", "1000001", "alarm_ticks"),
    ("alarm_ticks", "3.0", "alarm_ticks"),
    ("retry_ticks", "1000001", "retry_ticks"),
    ("sessions", "4294967295", ""),
    ("sessions", "4294967296", "sessions"),
    ("tick_ms", "60001", "tick_ms"),
    ("watch_ticks", "0", ""),
    ("watch_ticks", "-0", "watch_ticks"),
    ("watch_ticks", "18446744073709551616", "watch_ticks"),
    ("watch_ticks", "1e400", "."),
    ("workers", "64", ""),
    ("workers", "65", "workers"),
    ("zone\":0,\"name\":0,\"zero", "0", "name"),
    ("controller", "\"255.255.255.255:65535\"", ""),
    ("controller", "\"127.0.0.1:0\"", "controller"),
    ("controller", "\"127.0.0.1:65536\"", "controller"),
    ("controller", "\"127.0.0.256:1\"", "controller"),
    ("controller", "\"127.0.0.01:1\"", "controller"),
    ("controller", "\"127.0.0.1.1:1\"", "controller"),
    ("controller", "\"127.0.0.1:1 \"", "controller"),
];

#[test]
fn judges_each_member(rt: HostRuntime) -> Result<(), Fail> {
    assert_eq!(rt; misjudged(rt.alloc(), &MEMBERS)?, None);
    assert_eq!(rt; misjudged(rt.alloc(), &LISTS)?, None);
    Ok(())
}

#[test]
fn names_the_first_wrong_member(rt: HostRuntime) -> Result<(), Fail> {
    let cases = [
        ("{\"zone\":0}", "alarm_ticks"),
        (
            "{\"alarm_ticks\":1,\"controller\":0,\"listen\":0}",
            "controller",
        ),
        ("{} {}", "."),
        ("[]", "."),
    ];
    for (text, path) in cases {
        let found = wrong_path(rt.alloc(), text.as_bytes())?;
        assert!(rt; found.items() == path.as_bytes(), "{text}");
    }
    Ok(())
}

/// The star with a member of this many elements, which `element` writes.
fn with_many(alloc: Global, name: &str, count: u32) -> Result<String, AllocError> {
    let mut value = String::new(alloc);
    for i in 1..=count {
        let element = match name {
            "tags" => format!(in alloc; "{i}")?,
            "links" => format!(in alloc; "[\"0000000000000001\",{i},\"0000000000000002\",{i}]")?,
            _ => format!(in alloc; "\"{i:016x}\"")?,
        };
        let comma = if i == 1 { "[" } else { "," };
        value.push_str(comma)?;
        value.push_str(&element)?;
    }
    value.push_str("]")?;
    with(alloc, name, &value)
}

#[test]
fn counts_elements(rt: HostRuntime) -> Result<(), Fail> {
    let alloc = rt.alloc();
    let cases = [("switches", 64), ("links", 1024), ("tags", 64)];
    for (name, most) in cases {
        let text = with_many(alloc, name, most)?;
        assert_eq!(rt;
            wrong_path(alloc, text.as_bytes())?.items(),
            b"".as_slice(),
            "{name}"
        );
        let text = with_many(alloc, name, most + 1)?;
        assert_eq!(rt;
            wrong_path(alloc, text.as_bytes())?.items(),
            name.as_bytes()
        );
    }
    Ok(())
}

/// The star with an unknown member that nests so deep.
fn nested(alloc: Global, depth: u32) -> Result<String, AllocError> {
    let mut value = String::new(alloc);
    for _ in 0..depth {
        value.push_str("[")?;
    }
    for _ in 0..depth {
        value.push_str("]")?;
    }
    with(alloc, "deep", &value)
}

#[test]
fn nests_127_deep(rt: HostRuntime) -> Result<(), Fail> {
    let alloc = rt.alloc();
    let text = nested(alloc, 126)?;
    assert_eq!(rt;
        wrong_path(alloc, text.as_bytes())?.items(),
        b"deep".as_slice()
    );
    let text = nested(alloc, 127)?;
    assert_eq!(rt;
        wrong_path(alloc, text.as_bytes())?.items(),
        b".".as_slice()
    );
    Ok(())
}
