use sdb_scale::{ScaleFault, byte_string, compact, put_bytes, put_compact};
use std::test::*;

// The first and the last number of each mode, and its spelling.
const NUMBERS: [(u32, &[u8]); 6] = [
    (0, b"\x00"),
    (63, b"\xfc"),
    (64, b"\x01\x01"),
    (16383, b"\xfd\xff"),
    (16384, b"\x02\x00\x01\x00"),
    (1073741823, b"\xfe\xff\xff\xff"),
];

// Bytes with no number in front, and why.
const REFUSED: [(&[u8], ScaleFault); 8] = [
    (b"", ScaleFault::Short),
    (b"\x01", ScaleFault::Short),
    (b"\x02\x00", ScaleFault::Short),
    (b"\x02\x00\x01", ScaleFault::Short),
    (b"\x01\x00", ScaleFault::NotShortest),
    (b"\xfd\x00", ScaleFault::NotShortest),
    (b"\x02\x00\x00\x00", ScaleFault::NotShortest),
    (b"\x03", ScaleFault::TooLarge),
];

// A string, and its spelling.
const STRINGS: [(&[u8], &[u8]); 3] = [
    (b"", b"\x00"),
    (b"dog", b"\x0cdog"),
    (
        b"0123456789abcdef0123456789abcdef0123456789abcdef0123456789abcdef",
        b"\x01\x010123456789abcdef0123456789abcdef0123456789abcdef0123456789abcdef",
    ),
];

#[test]
fn numbers(rt: HostRuntime) -> Result<(), Fail> {
    for (n, spelling) in NUMBERS {
        let mut out = Vec::new(rt.alloc());
        assert_eq!(rt; put_compact(&mut out, n), Ok(()), "at {n}");
        assert_eq!(rt; out.as_slice(), spelling, "at {n}");
        out.extend_from_slice(b"\x07\x08")?;
        assert_eq!(rt; compact(&out), Ok((n, b"\x07\x08".as_slice())), "at {n}");
    }
    for (bytes, why) in REFUSED {
        assert_eq!(rt; compact(bytes), Err(why));
        assert_eq!(rt; byte_string(bytes), Err(why));
    }
    let mut out = Vec::new(rt.alloc());
    assert_eq!(rt; put_compact(&mut out, 1 << 30), Err(ScaleFault::TooLarge));
    assert_eq!(rt; out.len(), 0);
    Ok(())
}

#[test]
fn strings(rt: HostRuntime) -> Result<(), Fail> {
    for (string, spelling) in STRINGS {
        let mut out = Vec::new(rt.alloc());
        assert_eq!(rt; put_bytes(&mut out, string), Ok(()));
        assert_eq!(rt; out.as_slice(), spelling);
        out.extend_from_slice(b"\x07\x08")?;
        assert_eq!(rt; byte_string(&out), Ok((string, b"\x07\x08".as_slice())));
    }
    assert_eq!(rt; byte_string(b"\x0cdo"), Err(ScaleFault::Short));
    Ok(())
}
