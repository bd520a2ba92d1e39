//! Fields of ten bytes.

use super::*;
use std::test::*;

const BYTES: [u8; 10] = [0, 1, 2, 3, 4, 5, 6, 7, 8, 9];

#[test]
fn fields_are_read_from_the_high_end(rt: HostRuntime) {
    assert!(rt; u16_at(&BYTES, 1) == 0x0102);
    assert!(rt; u32_at(&BYTES, 2) == 0x02030405);
    assert!(rt; u48_at(&BYTES, 3) == 0x030405060708);
    assert!(rt; u64_at(&BYTES, 2) == 0x0203040506070809);
}
