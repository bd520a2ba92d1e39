//! Which fields a match compares.

ghost use Rattle.std.specs.Prelude.{◌≡◌, ◌≤◌, ◌<◌, ◌*◌, ◌^◌};
ghost use Rattle.mon_header.specs.Wild.{packed, unpacked, flag, bit, is_exact};

/// The fields that are not compared, and how many low bits of the `nw_` addresses are not.
#[derive(Clone, Copy, Debug, PartialEq, Eq)]
pub struct Wildcards {
    pub in_port: bool,
    pub dl_vlan: bool,
    pub dl_src: bool,
    pub dl_dst: bool,
    pub dl_type: bool,
    pub nw_proto: bool,
    pub tp_src: bool,
    pub tp_dst: bool,
    pub nw_src: u8,
    pub nw_dst: u8,
    pub dl_vlan_pcp: bool,
    pub nw_tos: bool,
}

fn placed(b: bool, place: u32) -> u32
    requires { place < 24 }
    ensures value { result ≡ flag b * 2 ^ place }
    ensures small { result ≤ 2 ^ place }
{
    if b { 1 << place } else { 0 }
}

/// The wildcards in one number.
#[tactic(auto, unfolding(crate::specs::Wild::packed))]
pub(crate) fn pack(w: &Wildcards) -> u32
    requires src { w.now.nw_src ≤ 32 }
    requires dst { w.now.nw_dst ≤ 32 }
    ensures { result ≡ packed w.now }
{
    placed(w.in_port, 0)
        + placed(w.dl_vlan, 1)
        + placed(w.dl_src, 2)
        + placed(w.dl_dst, 3)
        + placed(w.dl_type, 4)
        + placed(w.nw_proto, 5)
        + placed(w.tp_src, 6)
        + placed(w.tp_dst, 7)
        + (u32::from(w.nw_src) << 8)
        + (u32::from(w.nw_dst) << 14)
        + placed(w.dl_vlan_pcp, 20)
        + placed(w.nw_tos, 21)
}

fn bit(n: u32, place: u32) -> bool
    requires { place < 32 }
    ensures { result ≡ bit n place }
{
    (n >> place) & 1 == 1
}

/// What a number wildcards.
#[tactic(auto, unfolding(crate::specs::Wild::unpacked))]
pub(crate) fn unpack(n: u32) -> Wildcards
    ensures value { result ≡ unpacked n }
    ensures src { result.nw_src ≤ 32 }
    ensures dst { result.nw_dst ≤ 32 }
{
    Wildcards {
        in_port: bit(n, 0),
        dl_vlan: bit(n, 1),
        dl_src: bit(n, 2),
        dl_dst: bit(n, 3),
        dl_type: bit(n, 4),
        nw_proto: bit(n, 5),
        tp_src: bit(n, 6),
        tp_dst: bit(n, 7),
        nw_src: ((n >> 8) % 64).min(32) as u8,
        nw_dst: ((n >> 14) % 64).min(32) as u8,
        dl_vlan_pcp: bit(n, 20),
        nw_tos: bit(n, 21),
    }
}

/// Whether every field and every bit is compared.
#[tactic(auto, unfolding(crate::specs::Wild::is_exact))]
pub(crate) fn is_exact(w: &Wildcards) -> bool
    ensures { result ≡ is_exact w.now }
{
    !w.in_port
        && !w.dl_vlan
        && !w.dl_src
        && !w.dl_dst
        && !w.dl_type
        && !w.nw_proto
        && !w.tp_src
        && !w.tp_dst
        && !w.dl_vlan_pcp
        && !w.nw_tos
        && w.nw_src == 0
        && w.nw_dst == 0
}
