//! What joins `render` and `parse`, whatever the header. These functions do nothing: each is its law.

ghost use Rattle.mon_header.specs.declared.header.Header.{Header};
ghost use Rattle.mon_packet.specs.declared.nonce.Nonce.{Nonce};
ghost use Rattle.mon_packet.specs.Laws.{ReadsBack, IsChecked};

/// What is read of a rendered frame is its header, but for the port, and its nonce.
pub fn written_is_read()
    ensures { (h : Header) (n : Nonce) → ReadsBack h n }
{}

/// The checksums of a frame of IPv4 are right: those of IPv4, TCP, UDP and ICMP, by the sums that a receiver makes.
pub fn checksums_are_right()
    ensures { (h : Header) (n : Nonce) → IsChecked h n }
{}
