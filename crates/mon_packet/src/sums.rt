//! The Internet checksum.

ghost use Rattle.std.specs.Prelude.{◌≡◌};
ghost use Rattle.mon_packet.specs.Sums.{plus, sum_from, not_zero};

/// The one's complement sum of two words.
fn plus(a: u16, b: u16) -> u16
    ensures { result ≡ plus a b }
{
    let sum = u32::from(a) + u32::from(b);
    if sum < 65536 {
        sum as u16
    } else {
        (sum - 65535) as u16
    }
}

/// The one's complement sum of a sum and the words of bytes.
pub fn sum_from(sum: u16, bytes: &[u8]) -> u16
    ensures { result ≡ sum_from sum bytes.now }
{
    match bytes {
        [] => sum,
        [high] => plus(sum, 256 * u16::from(*high)),
        [high, low, rest @ ..] => sum_from(
            plus(sum, 256 * u16::from(*high) + u16::from(*low)),
            rest,
        ),
    }
}

/// The other zero for 0.
pub fn not_zero(sum: u16) -> u16
    ensures { result ≡ not_zero sum }
{
    if sum == 0 { 65535 } else { sum }
}
