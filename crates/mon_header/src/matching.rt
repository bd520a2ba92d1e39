//! Matches, field by field.

ghost use Rattle.std.specs.Prelude.{◌≡◌, ◌<◌, ◌≤◌, ◌^◌, ◌↔◌, true, ℕ};
ghost use Rattle.mon_header.specs.Wild.{packed, unpacked};
ghost use Rattle.mon_header.specs.Matching.{Matching, IsNormal, InRange, normal, kept, kept_above, agree_above, takes, covers_field, overlaps_field, covers_address, overlaps_address, matches, covers, overlaps, effective};

use crate::header::Header;
use crate::wild::{Wildcards, is_exact, pack, unpack};
use mon_list::Items;
use std::marker::Model;

/// Which headers a rule takes (OpenFlow 1.0.0, flow match structures), always in its normalised form.
#[derive(Clone, Copy)]
pub struct Match {
    wild: Wildcards,
    fields: Header,
}

impl Model for Match {
    ghost use Rattle.mon_header.specs.Matching.{Matching, IsNormal};

    ghost Value = { Matching };

    ghost view = { λ m. record { wild = m.wild; fields = m.fields } };

    ghost invariant = { λ m. IsNormal (record { wild = m.wild; fields = m.fields }) };

    ghost inverse = { λ m. record { wild = m.wild; fields = m.fields } };
}

/// Matches in order.
pub type Matches = Items<Match>;

fn keep16(wild: bool, x: u16) -> u16
    ensures { result ≡ kept wild x }
{
    if wild { 0 } else { x }
}

fn keep8(wild: bool, x: u8) -> u8
    ensures { result ≡ kept wild x }
{
    if wild { 0 } else { x }
}

fn keep48(wild: bool, x: u64) -> u64
    requires { x < 2 ^ 48 }
    ensures value { result ≡ kept wild x }
    ensures small { result < 2 ^ 48 }
{
    if wild { 0 } else { x }
}

fn keep_above(count: u8, x: u32) -> u32
    requires { count ≤ 32 }
    ensures { result ≡ kept_above count x }
{
    let x = u64::from(x);
    (x >> count << count) as u32
}

/// The fields as they are kept.
#[tactic(auto, unfolding(crate::specs::Matching::normal))]
fn kept_fields(w: &Wildcards, fields: &Header) -> Header
    requires src { w.now.nw_src ≤ 32 }
    requires dst { w.now.nw_dst ≤ 32 }
    requires dl_src { fields.now.dl_src < 2 ^ 48 }
    requires dl_dst { fields.now.dl_dst < 2 ^ 48 }
    ensures value { result ≡ (normal w.now fields.now).fields }
    ensures range { InRange result }
{
    Header {
        in_port: keep16(w.in_port, fields.in_port),
        dl_src: keep48(w.dl_src, fields.dl_src),
        dl_dst: keep48(w.dl_dst, fields.dl_dst),
        dl_vlan: keep16(w.dl_vlan, fields.dl_vlan),
        dl_vlan_pcp: keep8(w.dl_vlan_pcp, fields.dl_vlan_pcp),
        dl_type: keep16(w.dl_type, fields.dl_type),
        nw_tos: keep8(w.nw_tos, fields.nw_tos / 4 * 4),
        nw_proto: keep8(w.nw_proto, fields.nw_proto),
        nw_src: keep_above(w.nw_src, fields.nw_src),
        nw_dst: keep_above(w.nw_dst, fields.nw_dst),
        tp_src: keep16(w.tp_src, fields.tp_src),
        tp_dst: keep16(w.tp_dst, fields.tp_dst),
    }
}

impl Match {
    /// The normalised form: unused wildcard bits become 0, counts above 32 become 32, fields that are not compared
    /// and ignored address bits become 0, and `nw_tos` keeps its upper six bits.
    pub fn normal(wildcards: u32, fields: Header) -> Match
        requires dl_src { fields.dl_src < 2 ^ 48 }
        requires dl_dst { fields.dl_dst < 2 ^ 48 }
        ensures value { result ≡ normal (unpacked wildcards) fields }
        ensures normal { IsNormal result }
    {
        let wild = unpack(wildcards);
        let fields = kept_fields(&wild, &fields);
        Match { wild, fields }
    }

    /// Does nothing: its clause is what the type keeps.
    pub fn keeps(&self)
        ensures { IsNormal self.now }
    {
        let _ = &self.wild;
    }

    /// The wildcards as the number that stands on the wire.
    pub fn wildcards(&self) -> u32
        ensures value { result ≡ packed self.now.wild }
        ensures normal { IsNormal self.now }
    {
        pack(&self.wild)
    }

    /// What is not compared, as bools and counts.
    pub fn wild(&self) -> &Wildcards
        ensures value { result.now ≡ self.now.wild }
        ensures normal { IsNormal self.now }
    {
        &self.wild
    }

    /// The fields; one that is not compared is 0.
    pub fn fields(&self) -> &Header
        ensures value { result.now ≡ self.now.fields }
        ensures normal { IsNormal self.now }
    {
        &self.fields
    }
}

fn agree_above(count: u8, x: u32, y: u32) -> bool
    requires { count ≤ 32 }
    ensures { result ≡ agree_above count x y }
{
    u64::from(x) >> count == u64::from(y) >> count
}

#[tactic(auto, unfolding(crate::specs::Matching::takes))]
fn takes(wild: bool, x: u64, y: u64) -> bool
    ensures { result ≡ takes wild x y }
{
    wild || x == y
}

#[tactic(auto, unfolding(crate::specs::Matching::covers_field))]
fn covers_field(wide: bool, narrow: bool, x: u64, y: u64) -> bool
    ensures { result ≡ covers_field wide narrow x y }
{
    wide || !narrow && x == y
}

#[tactic(auto, unfolding(crate::specs::Matching::overlaps_field))]
fn overlaps_field(a: bool, b: bool, x: u64, y: u64) -> bool
    ensures { result ≡ overlaps_field a b x y }
{
    a || b || x == y
}

#[tactic(auto, unfolding(crate::specs::Matching::covers_address))]
fn covers_address(wide: u8, narrow: u8, x: u32, y: u32) -> bool
    requires { wide ≤ 32 }
    ensures { result ≡ covers_address wide narrow x y }
{
    narrow <= wide && agree_above(wide, x, y)
}

#[tactic(auto, unfolding(crate::specs::Matching::overlaps_address))]
fn overlaps_address(a: u8, b: u8, x: u32, y: u32) -> bool
    requires a { a ≤ 32 }
    requires b { b ≤ 32 }
    ensures { result ≡ overlaps_address a b x y }
{
    agree_above(a.max(b), x, y)
}

/// Whether the match takes the header.
#[tactic(auto, unfolding(crate::specs::Matching::matches))]
pub fn matches(m: &Match, h: &Header) -> bool
    ensures { result ≡ matches m.now h.now }
{
    let w = &m.wild;
    let f = &m.fields;
    takes(w.in_port, u64::from(f.in_port), u64::from(h.in_port))
        && takes(w.dl_src, f.dl_src, h.dl_src)
        && takes(w.dl_dst, f.dl_dst, h.dl_dst)
        && takes(w.dl_vlan, u64::from(f.dl_vlan), u64::from(h.dl_vlan))
        && takes(
            w.dl_vlan_pcp,
            u64::from(f.dl_vlan_pcp),
            u64::from(h.dl_vlan_pcp),
        )
        && takes(w.dl_type, u64::from(f.dl_type), u64::from(h.dl_type))
        && takes(w.nw_tos, u64::from(f.nw_tos), u64::from(h.nw_tos))
        && takes(w.nw_proto, u64::from(f.nw_proto), u64::from(h.nw_proto))
        && agree_above(w.nw_src, f.nw_src, h.nw_src)
        && agree_above(w.nw_dst, f.nw_dst, h.nw_dst)
        && takes(w.tp_src, u64::from(f.tp_src), u64::from(h.tp_src))
        && takes(w.tp_dst, u64::from(f.tp_dst), u64::from(h.tp_dst))
}

/// A test of each plain field and of each address of two matches.
macro_rules! each_field {
    ($plain:ident, $address:ident, $a:expr, $b:expr) => {{
        let (v, w) = (&$a.wild, &$b.wild);
        let (f, g) = (&$a.fields, &$b.fields);
        $plain(
            v.in_port,
            w.in_port,
            u64::from(f.in_port),
            u64::from(g.in_port),
        ) && $plain(v.dl_src, w.dl_src, f.dl_src, g.dl_src)
            && $plain(v.dl_dst, w.dl_dst, f.dl_dst, g.dl_dst)
            && $plain(
                v.dl_vlan,
                w.dl_vlan,
                u64::from(f.dl_vlan),
                u64::from(g.dl_vlan),
            )
            && $plain(
                v.dl_vlan_pcp,
                w.dl_vlan_pcp,
                u64::from(f.dl_vlan_pcp),
                u64::from(g.dl_vlan_pcp),
            )
            && $plain(
                v.dl_type,
                w.dl_type,
                u64::from(f.dl_type),
                u64::from(g.dl_type),
            )
            && $plain(v.nw_tos, w.nw_tos, u64::from(f.nw_tos), u64::from(g.nw_tos))
            && $plain(
                v.nw_proto,
                w.nw_proto,
                u64::from(f.nw_proto),
                u64::from(g.nw_proto),
            )
            && $address(v.nw_src, w.nw_src, f.nw_src, g.nw_src)
            && $address(v.nw_dst, w.nw_dst, f.nw_dst, g.nw_dst)
            && $plain(v.tp_src, w.tp_src, u64::from(f.tp_src), u64::from(g.tp_src))
            && $plain(v.tp_dst, w.tp_dst, u64::from(f.tp_dst), u64::from(g.tp_dst))
    }};
}

/// Whether the wide match takes each header that the narrow one takes.
#[tactic(auto, unfolding(crate::specs::Matching::covers, crate::specs::Matching::each_field))]
pub fn covers(wide: &Match, narrow: &Match) -> bool
    ensures { result ≡ covers wide.now narrow.now }
{
    each_field!(covers_field, covers_address, wide, narrow)
}

/// Whether some header is taken by both.
#[tactic(auto, unfolding(crate::specs::Matching::overlaps, crate::specs::Matching::each_field))]
pub fn overlaps(a: &Match, b: &Match) -> bool
    ensures { result ≡ overlaps a.now b.now }
{
    each_field!(overlaps_field, overlaps_address, a, b)
}

/// The rank of an entry: 65536 where every field and every bit is compared, else its priority.
pub fn effective(m: &Match, priority: u16) -> u32
    ensures { result ≡ effective m.now priority }
{
    if is_exact(&m.wild) {
        65536
    } else {
        u32::from(priority)
    }
}
