//! Probes that a switch hands back in a PACKET_IN (OpenFlow 1.0.0, packet-in message).

ghost use Rattle.std.specs.Prelude.{◌≡◌, ◌≤◌, length};
ghost use Rattle.mon_legal.specs.Messages.{carried_in};
ghost use Rattle.mon_legal.specs.Sessions.{seen_at};
ghost use Rattle.mon_session.specs.Returning.{own_with, own_in};

use mon_fields::u16_at;
use mon_header::Header;
use mon_packet::{Nonce, parse};
use mon_shows::Seen;
use of_frame::{Frame, kinds};

/// What a PACKET_IN bears, where that is a packet that a probe can come back as.
fn carried_in(frame: &Frame) -> Option<(Header, Option<Nonce>)>
    ensures { result ≡ carried_in frame.now }
{
    let bytes = frame.bytes();
    if frame.kind() != kinds::PACKET_IN || bytes.len() < 18 {
        return None;
    }
    parse(&bytes[18..])
}

/// The serial and the header of a probe of the run with this key.
fn own_of(key: u64, header: Header, nonce: Option<Nonce>) -> Option<(u64, Header)>
    ensures { result ≡ own_with key header nonce }
{
    let nonce = nonce?;
    if nonce.key == key {
        Some((nonce.serial, header))
    } else {
        None
    }
}

/// The serial and the header of the probe of this run that a frame bears, where it bears one.
pub fn own_probe(key: u64, frame: &Frame) -> Option<(u64, Header)>
    ensures { result ≡ own_in key (carried_in frame.now) }
{
    let (header, nonce) = carried_in(frame)?;
    own_of(key, header, nonce)
}

/// What such a frame shows of its switch.
pub fn seen_at(datapath: u64, frame: &Frame, header: Header) -> Seen
    requires { 18 ≤ length frame.now }
    ensures { result ≡ seen_at datapath frame.now header }
{
    let bytes = frame.bytes();
    let port = u16_at(bytes, 14);
    Seen {
        switch: datapath,
        port,
        reason: bytes[16],
        header: Header {
            in_port: port,
            ..header
        },
    }
}
