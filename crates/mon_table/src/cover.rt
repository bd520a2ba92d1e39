//! Covers: the match that takes what two others take.

ghost use Rattle.std.specs.Prelude.{◌≡◌, ◌<◌, ◌≤◌, ◌*◌, ◌/◌, ◌^◌};
ghost use Rattle.mon_header.specs.Matching.{IsNormal, normal};
ghost use Rattle.mon_header.specs.Wild.{flag, packed};
ghost use Rattle.mon_table.specs.Covers.{TakesAll, is_apart, BitsApart, AreApart};

use mon_header::{Match, Wildcards, covers};

/// Whether a plain field is to be ignored: one of two matches does not compare it, or they differ there.
fn is_apart(a: bool, b: bool, x: u64, y: u64) -> bool
    ensures { result ≡ is_apart a b x y }
{
    a || b || x != y
}

/// The fewest low bits of two addresses, from a number of them up, without which they are equal.
fn bits_from(count: u8, x: u32, y: u32) -> u8
    requires { count ≤ 32 }
    ensures least { count ≤ result }
    ensures most { result ≤ 32 }
    ensures agree { x / 2 ^ result ≡ y / 2 ^ result }
{
    for bits in count..32 {
        if u64::from(x) >> bits == u64::from(y) >> bits {
            return bits;
        }
    }
    32
}

/// How many low bits of an address are to be ignored.
fn bits_apart(a: u8, b: u8, x: u32, y: u32) -> u8
    requires first { a ≤ 32 }
    requires second { b ≤ 32 }
    ensures apart { BitsApart a b x y result }
    ensures most { result ≤ 32 }
{
    bits_from(a.max(b), x, y)
}

/// What the match that takes what two others take does not compare.
fn apart(a: &Match, b: &Match) -> Wildcards
    ensures { AreApart a.now b.now result }
{
    let (v, w) = (a.wild(), b.wild());
    let (f, g) = (a.fields(), b.fields());
    Wildcards {
        in_port: is_apart(
            v.in_port,
            w.in_port,
            u64::from(f.in_port),
            u64::from(g.in_port),
        ),
        dl_vlan: is_apart(
            v.dl_vlan,
            w.dl_vlan,
            u64::from(f.dl_vlan),
            u64::from(g.dl_vlan),
        ),
        dl_src: is_apart(v.dl_src, w.dl_src, f.dl_src, g.dl_src),
        dl_dst: is_apart(v.dl_dst, w.dl_dst, f.dl_dst, g.dl_dst),
        dl_type: is_apart(
            v.dl_type,
            w.dl_type,
            u64::from(f.dl_type),
            u64::from(g.dl_type),
        ),
        nw_proto: is_apart(
            v.nw_proto,
            w.nw_proto,
            u64::from(f.nw_proto),
            u64::from(g.nw_proto),
        ),
        tp_src: is_apart(v.tp_src, w.tp_src, u64::from(f.tp_src), u64::from(g.tp_src)),
        tp_dst: is_apart(v.tp_dst, w.tp_dst, u64::from(f.tp_dst), u64::from(g.tp_dst)),
        nw_src: bits_apart(v.nw_src, w.nw_src, f.nw_src, g.nw_src),
        nw_dst: bits_apart(v.nw_dst, w.nw_dst, f.nw_dst, g.nw_dst),
        dl_vlan_pcp: is_apart(
            v.dl_vlan_pcp,
            w.dl_vlan_pcp,
            u64::from(f.dl_vlan_pcp),
            u64::from(g.dl_vlan_pcp),
        ),
        nw_tos: is_apart(v.nw_tos, w.nw_tos, u64::from(f.nw_tos), u64::from(g.nw_tos)),
    }
}

fn placed(b: bool, place: u32) -> u32
    requires { place < 24 }
    ensures value { result ≡ flag b * 2 ^ place }
    ensures small { result ≤ 2 ^ place }
{
    if b { 1 << place } else { 0 }
}

/// The wildcards in one number.
#[tactic(auto, unfolding(mon_header::specs::Wild::packed))]
fn pack(w: &Wildcards) -> u32
    requires src { w.now.nw_src ≤ 32 }
    requires dst { w.now.nw_dst ≤ 32 }
    ensures { result ≡ packed w.now }
{
    placed(w.in_port, 0)
        + placed(w.dl_vlan, 1)
        + placed(w.dl_src, 2)
        + placed(w.dl_dst, 3)
        + placed(w.dl_type, 4)
        + placed(w.nw_proto, 5)
        + placed(w.tp_src, 6)
        + placed(w.tp_dst, 7)
        + (u32::from(w.nw_src) << 8)
        + (u32::from(w.nw_dst) << 14)
        + placed(w.dl_vlan_pcp, 20)
        + placed(w.nw_tos, 21)
}

/// The first match with each field ignored in which the second one differs.
fn widened(a: &Match, b: &Match) -> Match
    ensures first { TakesAll result a.now }
    ensures second { TakesAll result b.now }
{
    a.keeps();
    b.keeps();
    Match::normal(pack(&apart(a, b)), *a.fields())
}

/// A match that takes what either of two takes.
#[tactic(auto, using(crate::proofs::Covering::covering))]
pub(crate) fn joined(a: &Match, b: &Match) -> Match
    ensures first { TakesAll result a.now }
    ensures second { TakesAll result b.now }
{
    if covers(a, b) { *a } else { widened(a, b) }
}
