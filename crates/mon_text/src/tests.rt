//! Numbers and digits as they are written by hand.

use super::*;
use std::test::Fail;

#[test]
fn numbers_have_one_spelling(rt: HostRuntime) {
    assert_eq!(rt; number_at(b"0 1"), Some((0, b" 1".as_slice())));
    assert_eq!(rt;
        number_at(b"18446744073709551615"),
        Some((u64::MAX, b"".as_slice()))
    );
    assert!(rt; number_at(b"18446744073709551616").is_none());
    assert!(rt;
        number_at(b"01").is_none() && number_at(b"-1").is_none() && number_at(b"").is_none()
    );
    assert_eq!(rt;
        number_within(1, 65280, b"65280\n"),
        Some((65280, b"\n".as_slice()))
    );
    assert!(rt;
        number_within(1, 65280, b"65281\n").is_none() && number_within(1, 65280, b"0").is_none()
    );
}

#[test]
fn digits_are_lower(rt: HostRuntime) -> Result<(), Fail> {
    let alloc = rt.alloc();
    assert_eq!(rt; byte_of(b'a', b'0'), Some(0xa0));
    assert!(rt; byte_of(b'A', b'0').is_none() && byte_of(b'0', b'g').is_none());
    assert_eq!(rt;
        datapath_at(b"00000000000000fe 1"),
        Some((0xfe, b" 1".as_slice()))
    );
    assert!(rt;
        datapath_at(b"00000000000000f 1").is_none() && datapath_at(b"00000000000000FE").is_none()
    );
    let mut room = [0; 2];
    assert_eq!(rt; read_digits(b"09af01", &mut room), Some(b"01".as_slice()));
    assert!(rt; room == [0x09, 0xaf]);
    let (bytes, rest) = take_run(alloc, b"09af0\n")?;
    assert_eq!(rt; bytes.as_slice(), [0x09, 0xaf].as_slice());
    assert_eq!(rt; rest, b"0\n".as_slice());
    let mut out = Vec::new(alloc);
    push_digits(&bytes, &mut out)?;
    assert_eq!(rt; out.as_slice(), b"09af".as_slice());
    assert_eq!(rt; digits(alloc, &bytes)?.as_str(), "09af");
    Ok(())
}

#[test]
fn what_stands_behind_a_word(rt: HostRuntime) {
    assert_eq!(rt; behind(b"miss ", b"miss 128"), Some(b"128".as_slice()));
    assert!(rt; behind(b"miss ", b"miss").is_none() && behind(b"miss ", b"mist 1").is_none());
}
