//! The order of matches, and their equality.

ghost use Rattle.std.specs.Prelude.{◌≡◌, ◌↔◌, IsTrue, length};
ghost use Rattle.mon_header.specs.Order.{key, is_less, match_before};
ghost use Rattle.mon_header.specs.Same.{same_header};

use crate::header::Header;
use crate::matching::Match;

/// The numbers of a match in the order of its layout.
#[tactic(auto, unfolding(crate::specs::Order::key))]
fn key(m: &Match) -> [u64; 13]
    ensures { result ≡ key m.now }
{
    let f = m.fields();
    [
        u64::from(m.wildcards()),
        u64::from(f.in_port),
        f.dl_src,
        f.dl_dst,
        u64::from(f.dl_vlan),
        u64::from(f.dl_vlan_pcp),
        u64::from(f.dl_type),
        u64::from(f.nw_tos),
        u64::from(f.nw_proto),
        u64::from(f.nw_src),
        u64::from(f.nw_dst),
        u64::from(f.tp_src),
        u64::from(f.tp_dst),
    ]
}

/// Whether the first number that differs is less in the first list.
fn is_less(xs: &[u64], ys: &[u64]) -> bool
    requires { length xs.now ≡ length ys.now }
    ensures { result ≡ is_less xs.now ys.now }
{
    for (i, x) in xs.iter().enumerate() {
        let y = ys[i];
        if *x < y {
            return true;
        }
        if y < *x {
            return false;
        }
    }
    false
}

/// Whether one match stands before another: the order of the 40 bytes in which they are written.
pub fn match_before(a: &Match, b: &Match) -> bool
    ensures { result ≡ match_before a.now b.now }
{
    is_less(&key(a), &key(b))
}

/// Whether two headers are equal.
#[tactic(auto, unfolding(crate::specs::Same::same_header))]
pub fn same_header(a: &Header, b: &Header) -> bool
    ensures value { result ≡ same_header a.now b.now }
    ensures equal { IsTrue result ↔ (a.now ≡ b.now) }
{
    a == b
}

/// Whether two matches are equal.
pub fn same_match(a: &Match, b: &Match) -> bool
    ensures { IsTrue result ↔ (a.now ≡ b.now) }
{
    let wild = a.wildcards() == b.wildcards();
    let fields = same_header(a.fields(), b.fields());
    wild && fields
}
