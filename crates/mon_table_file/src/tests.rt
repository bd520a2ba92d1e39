//! Files written by hand, texts that are no such file and where they are bad, and the first generated rules.

use crate::{FileFault, OutOfMemory, generate, read_table};
use mon_header::Action;
use mon_shows::View;
use mon_table::{Rule, Table};
use std::alloc::Global;
use std::test::Fail;

const HEAD: &str = "monocle-table 1\nswitch 0000000000000001 100\ntags 100 101\nmiss 128\n";

const LINKS: &str = "link 1 0000000000000002 1 101\nlink 2 0000000000000003 1 101\n";

/// All packets of IPv4 are dropped, and those to 10.0.0.0/24 leave by port 2.
const RULES: &str =
    "rule 50 003820ef000000000000000000000000000000000000080000000000000000000000000000000000 -\nrule 100 003220ef000000000000000000000000000000000000080000000000000000000a00000000000000 0000000800020000\n";

/// The text of these parts.
fn joined(alloc: Global, parts: &[&str]) -> Result<Vec<u8>, OutOfMemory> {
    let mut text = Vec::new(alloc);
    for part in parts {
        text.extend_from_slice(part.as_bytes())?;
    }
    Ok(text)
}

fn read(alloc: Global, head: &str, links: &str, rules: &str) -> Result<(View, Table), FileFault> {
    read_table(alloc, &joined(alloc, &[head, links, rules])?)
}

/// The offset at which such a file is bad.
fn bad_at(alloc: Global, head: &str, links: &str, rules: &str) -> Option<u64> {
    match read(alloc, head, links, rules) {
        Err(FileFault::Bad { offset }) => Some(offset),
        _ => None,
    }
}

/// Whether the outputs of a rule go to these ports, and nothing else is done.
fn sends_to(rule: &Rule, ports: &[u16]) -> bool {
    let actions = rule.actions.items();
    if actions.len() != ports.len() {
        return false;
    }
    for (place, action) in actions.iter().enumerate() {
        let sends = match action {
            Action::Output { port, max_len: 0 } => *port == ports[place],
            _ => false,
        };
        if !sends {
            return false;
        }
    }
    true
}

#[test]
fn reads_a_table(rt: HostRuntime) -> Result<(), Fail> {
    let alloc = rt.alloc();
    let (view, table) = read(alloc, HEAD, LINKS, RULES)?;
    assert!(rt; view.switch == 1 && view.tag == 100 && view.miss == 128);
    assert_eq!(rt; view.tags.items(), [100, 101].as_slice());
    let [first, second] = view.links.items() else {
        return Err(Fail::new("two links"));
    };
    assert!(rt; first.port == 1 && first.switch == 2 && first.far_port == 1 && first.tag == 101);
    assert!(rt; second.port == 2 && second.switch == 3);
    assert_eq!(rt; table.len(), 2);
    let (upper, lower) = (table.rule(0), table.rule(1));
    assert!(rt; upper.priority == 100 && sends_to(upper, &[2]));
    assert!(rt;
        upper.matching.wildcards() == 0x0032_20ef && upper.matching.fields().nw_dst == 0x0a00_0000
    );
    assert!(rt; lower.priority == 50 && sends_to(lower, &[]));
    let (_, none) = read(alloc, HEAD, "", "")?;
    assert_eq!(rt; none.len(), 0);
    Ok(())
}

#[test]
fn reads_rules_that_a_timeout_may_take(rt: HostRuntime) -> Result<(), Fail> {
    let head = "monocle-table 2\nswitch 0000000000000001 100\ntags 100 101\nmiss 128\n";
    let rules =
        "rule 50 003820ef000000000000000000000000000000000000080000000000000000000000000000000000 - unsure\nrule 100 003220ef000000000000000000000000000000000000080000000000000000000a00000000000000 0000000800020000\nrule 7 003220ef000000000000000000000000000000000000080000000000000000000a00000000000000 0000000800020000 unsure\n";
    let (_, table) = read(rt.alloc(), head, LINKS, rules)?;
    assert_eq!(rt; table.len(), 3);
    assert!(rt; !table.rule(0).unsure && table.rule(0).priority == 100);
    assert!(rt; table.rule(1).unsure && sends_to(table.rule(1), &[]));
    assert!(rt; table.rule(2).unsure && sends_to(table.rule(2), &[2]));
    Ok(())
}

#[test]
fn refuses_other_heads(rt: HostRuntime) {
    let heads: [(&str, u64); 9] = [
        ("", 0),
        ("monocle-table 3\n", 0),
        // Lines are missing.
        ("monocle-table 1\n", 16),
        (
            "monocle-table 1\nswitch 0000000000000001 100\ntags 100 101\nmiss 128",
            57,
        ),
        (
            "monocle-table 1\nswitch 000000000000000A 100\ntags 100 101\nmiss 128\n",
            16,
        ),
        (
            "monocle-table 1\nswitch 0000000000000001 102\ntags 100 101\nmiss 128\n",
            44,
        ),
        (
            "monocle-table 1\nswitch 0000000000000001 100\ntags 101 100\nmiss 128\n",
            44,
        ),
        (
            "monocle-table 1\nswitch 0000000000000001 100\ntags 100 101\nmiss 0128\n",
            57,
        ),
        (
            "monocle-table 2\nswitch 0000000000000001 100\ntags 100 101\nmiss 65536\n",
            57,
        ),
    ];
    for (head, offset) in heads {
        assert_eq!(rt; bad_at(rt.alloc(), head, "", ""), Some(offset));
    }
}

#[test]
fn refuses_other_links(rt: HostRuntime) {
    let links: [(&str, u64); 5] = [
        (
            "link 2 0000000000000002 1 101\nlink 1 0000000000000003 1 101\n",
            96,
        ),
        (
            "link 1 0000000000000002 1 101\nlink 1 0000000000000003 1 101\n",
            96,
        ),
        ("link 1 0000000000000002 1 102\n", 66),
        ("link 1 0000000000000002 1 100\n", 66),
        ("link 0 0000000000000002 1 101\n", 66),
    ];
    for (text, offset) in links {
        assert_eq!(rt; bad_at(rt.alloc(), HEAD, text, RULES), Some(offset));
    }
}

#[test]
fn refuses_other_rules(rt: HostRuntime) {
    let rules: [(&str, u64); 7] = [
        // One identity, in two forms of the match.
        (
            "rule 7 003220ef000000000000000000000000000000000000080000000000000000000a00000000000000 -\nrule 7 003228efffffffffffffffffffffffffffffffffffff0800ffffffffffffffff0a0000ffffffffff -\n",
            156,
        ),
        (
            "rule 7 003220ef000000000000000000000000000000000000080000000000000000000a00000000000000 -\nrule 65536 003220ef000000000000000000000000000000000000080000000000000000000a00000000000000 -\n",
            156,
        ),
        (
            "rule 7 003220ef000000000000000000000000000000000000080000000000000000000a00000000000000 0000000400020000\n",
            66,
        ),
        (
            "rule 7 003220ef000000000000000000000000000000000000080000000000000000000a00000000000000 -",
            66,
        ),
        (
            "rule 7 003220ef000000000000000000000000000000000000080000000000000000000a00000000000000 -\nlink 1 0000000000000002 1 101\n",
            156,
        ),
        // A word of the second version in a file of the first.
        (
            "rule 7 003220ef000000000000000000000000000000000000080000000000000000000a00000000000000 -\nrule 8 003220ef000000000000000000000000000000000000080000000000000000000a00000000000000 - unsure\n",
            156,
        ),
        ("\n", 66),
    ];
    for (text, offset) in rules {
        assert_eq!(rt; bad_at(rt.alloc(), HEAD, "", text), Some(offset));
    }
}

#[test]
fn reads_what_is_as_long_as_it_may_be(rt: HostRuntime) -> Result<(), Fail> {
    let alloc = rt.alloc();
    let mut text = joined(
        alloc,
        &[
            HEAD,
            "rule 7 003220ef000000000000000000000000000000000000080000000000000000000a00000000000000 ",
        ],
    )?;
    for _ in 0..64 {
        text.extend_from_slice(b"0000000800020000")?;
    }
    let mut longer = joined(alloc, &[])?;
    longer.extend_from_slice(&text)?;
    longer.extend_from_slice(b"0000000800020000\n")?;
    text.extend_from_slice(b"\n")?;
    let (_, table) = read_table(alloc, &text)?;
    assert_eq!(rt; table.len(), 1);
    assert_eq!(rt; table.rule(0).actions.items().len(), 64);
    assert_eq!(rt;
        read_table(alloc, &longer).err(),
        Some(FileFault::Bad { offset: 66 })
    );
    Ok(())
}

/// Whether a rule has this priority, takes IPv4 with these wildcards to this address, and sends to these ports.
fn is_made(rule: &Rule, priority: u16, wildcards: u32, address: u32, ports: &[u16]) -> bool {
    let fields = rule.matching.fields();
    rule.priority == priority
        && rule.matching.wildcards() == wildcards
        && fields.dl_type == 0x0800
        && fields.nw_dst == address
        && sends_to(rule, ports)
}

#[test]
fn makes_the_first_rules(rt: HostRuntime) -> Result<(), Fail> {
    let (view, table) = generate(rt.alloc(), 4, 7)?;
    assert!(rt;
        view.switch == 1 && view.tag == 100 && view.miss == 128 && view.links.items().len() == 4
    );
    assert_eq!(rt; table.len(), 4);
    assert!(rt; is_made(table.rule(0), 4000, 0x0030_20ef, 0x0a00_0700, &[1, 2]));
    assert!(rt; is_made(table.rule(1), 3003, 0x0032_20cf, 0x0a9e_3e00, &[]));
    assert!(rt; table.rule(1).matching.fields().nw_proto == 17);
    assert!(rt; is_made(table.rule(2), 2003, 0x0034_20ef, 0x0a3c_0000, &[2, 3]));
    assert!(rt; is_made(table.rule(3), 1002, 0x0036_20cf, 0x0a00_0000, &[]));
    Ok(())
}

#[test]
fn rules_of_one_identity_replace_each_other(rt: HostRuntime) -> Result<(), Fail> {
    let (_, twenty) = generate(rt.alloc(), 20, 7)?;
    assert_eq!(rt; twenty.len(), 19);
    let (_, many) = generate(rt.alloc(), 500, 7)?;
    assert_eq!(rt; many.len(), 383);
    Ok(())
}
