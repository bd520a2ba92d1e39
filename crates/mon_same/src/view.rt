//! Views.

ghost use Rattle.std.specs.Prelude.{◌≡◌, ◌↔◌, IsTrue};

use mon_shows::{Near, View};

/// Whether two links are equal.
fn same_link(a: &Near, b: &Near) -> bool
    ensures { IsTrue result ↔ (a.now ≡ b.now) }
{
    a.port == b.port && a.switch == b.switch && a.far_port == b.far_port && a.tag == b.tag
}

/// Whether two runs of links are equal, place by place.
fn same_links(xs: &[Near], ys: &[Near]) -> bool
    ensures { IsTrue result ↔ (xs.now ≡ ys.now) }
{
    if xs.len() != ys.len() {
        return false;
    }
    for (i, x) in xs.iter().enumerate() {
        if !same_link(x, &ys[i]) {
            return false;
        }
    }
    true
}

/// Whether two runs of tags are equal.
fn same_tags(xs: &[u16], ys: &[u16]) -> bool
    ensures { IsTrue result ↔ (xs.now ≡ ys.now) }
{
    xs == ys
}

/// Whether two views are equal.
pub fn same_view(a: &View, b: &View) -> bool
    ensures { IsTrue result ↔ (a.now ≡ b.now) }
{
    a.switch == b.switch
        && a.tag == b.tag
        && a.miss == b.miss
        && same_tags(a.tags.items(), b.tags.items())
        && same_links(a.links.items(), b.links.items())
}
