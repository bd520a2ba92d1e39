//! Emissions, and their equality.

ghost use Rattle.std.specs.Prelude.{◌≡◌, ◌↔◌, IsTrue};
ghost use Rattle.mon_outcome.specs.Emitting.{same_emission};

use mon_header::{Header, same_header};

/// What a switch does with a packet: it sends it out of a port, to the controller by an action, or to the controller
/// because no rule matched. The header is the packet's as it leaves, with the `in_port` at which it came in.
#[derive(Clone, Copy, Debug)]
pub enum Emission {
    Port(u16, Header),
    Controller(Header),
    Miss(Header),
}

/// Whether two emissions are equal.
pub fn same_emission(a: &Emission, b: &Emission) -> bool
    ensures value { result ≡ same_emission a.now b.now }
    ensures equal { IsTrue result ↔ (a.now ≡ b.now) }
{
    match (a, b) {
        (Emission::Port(p, h), Emission::Port(q, k)) => p == q && same_header(h, k),
        (Emission::Controller(h), Emission::Controller(k)) => same_header(h, k),
        (Emission::Miss(h), Emission::Miss(k)) => same_header(h, k),
        _ => false,
    }
}
