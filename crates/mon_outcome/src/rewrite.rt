//! Rewrites: headers of which some fields are fixed and the others copied.

ghost use Rattle.std.specs.Prelude.{◌≡◌, ◌<◌};
ghost use Rattle.mon_header.specs.Places.{header_size};
ghost use Rattle.mon_header.specs.Wild.{bit};
ghost use Rattle.mon_outcome.specs.Filling.{laid, field_bit, bit_of, filled_field, filled};

use mon_header::Header;

/// What actions make of a header, whatever it is: each field is fixed to a value, or copied where there is none. The
/// value fits the field.
#[derive(Clone, Copy, Debug)]
pub struct Rewrite {
    pub in_port: Option<u16>,
    pub dl_src: Option<u64>,
    pub dl_dst: Option<u64>,
    pub dl_vlan: Option<u16>,
    pub dl_vlan_pcp: Option<u8>,
    pub dl_type: Option<u16>,
    pub nw_tos: Option<u8>,
    pub nw_proto: Option<u8>,
    pub nw_src: Option<u32>,
    pub nw_dst: Option<u32>,
    pub tp_src: Option<u16>,
    pub tp_dst: Option<u16>,
}

/// A bit of a rewrite: of this value, or the header's.
#[derive(Clone, Copy, Debug)]
pub enum Bit {
    Fixed(bool),
    Copied,
}

fn wide_u8(field: Option<u8>) -> Option<u64>
    ensures { result ≡ field }
{
    match field {
        Some(value) => Some(u64::from(value)),
        None => None,
    }
}

fn wide_u16(field: Option<u16>) -> Option<u64>
    ensures { result ≡ field }
{
    match field {
        Some(value) => Some(u64::from(value)),
        None => None,
    }
}

fn wide_u32(field: Option<u32>) -> Option<u64>
    ensures { result ≡ field }
{
    match field {
        Some(value) => Some(u64::from(value)),
        None => None,
    }
}

fn has_bit(n: u64, place: u16) -> bool
    ensures { result ≡ bit n place }
{
    place < 64 && (n >> place) & 1 == 1
}

/// A bit of a field, counted from the lowest.
fn field_bit(field: Option<u64>, place: u16) -> Bit
    ensures { result ≡ field_bit field place }
{
    match field {
        Some(value) => Bit::Fixed(has_bit(value, place)),
        None => Bit::Copied,
    }
}

impl Rewrite {
    /// The fields in the order of a header's bits, each with its count of bits.
    #[tactic(auto, unfolding(crate::specs::Filling::laid))]
    pub fn laid(&self) -> [(u16, Option<u64>); 12]
        ensures { result ≡ laid self.now }
    {
        [
            (16, wide_u16(self.in_port)),
            (48, self.dl_src),
            (48, self.dl_dst),
            (16, wide_u16(self.dl_vlan)),
            (8, wide_u8(self.dl_vlan_pcp)),
            (16, wide_u16(self.dl_type)),
            (8, wide_u8(self.nw_tos)),
            (8, wide_u8(self.nw_proto)),
            (32, wide_u32(self.nw_src)),
            (32, wide_u32(self.nw_dst)),
            (16, wide_u16(self.tp_src)),
            (16, wide_u16(self.tp_dst)),
        ]
    }

    /// The bit at a place below `HEADER_BITS`, in the order of a header's bits.
    pub fn bit(&self, place: u16) -> Bit
        requires { place < header_size }
        ensures { result ≡ bit_of self.now place }
    {
        let mut left = place;
        for (count, field) in self.laid() {
            if left < count {
                return field_bit(field, count - 1 - left);
            }
            left -= count;
        }
        Bit::Copied
    }

    /// The header that the rewrite makes of one.
    pub fn filled(&self, h: &Header) -> Header
        ensures { result ≡ filled self.now h.now }
    {
        Header {
            in_port: self.in_port.unwrap_or(h.in_port),
            dl_src: self.dl_src.unwrap_or(h.dl_src),
            dl_dst: self.dl_dst.unwrap_or(h.dl_dst),
            dl_vlan: self.dl_vlan.unwrap_or(h.dl_vlan),
            dl_vlan_pcp: self.dl_vlan_pcp.unwrap_or(h.dl_vlan_pcp),
            dl_type: self.dl_type.unwrap_or(h.dl_type),
            nw_tos: self.nw_tos.unwrap_or(h.nw_tos),
            nw_proto: self.nw_proto.unwrap_or(h.nw_proto),
            nw_src: self.nw_src.unwrap_or(h.nw_src),
            nw_dst: self.nw_dst.unwrap_or(h.nw_dst),
            tp_src: self.tp_src.unwrap_or(h.tp_src),
            tp_dst: self.tp_dst.unwrap_or(h.tp_dst),
        }
    }
}
