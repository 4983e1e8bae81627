use pdb_index::{
    ChunkFull, address, chunk_bytes, chunk_of, clear, entry, matches, put, read_chunk,
};
use pdb_model::Address;
use std::test::*;

#[test]
fn entries_have_the_bits_of_their_keys(rt: HostRuntime) -> Result<(), Fail> {
    let mut key = [0u8; 32];
    key[..4].copy_from_slice(&[0x12, 0x34, 0x56, 0x78]);
    let at = Address { tier: 2, slot: 5 };
    for (base, want) in [
        (0, 0x1234_5602_0000_0005),
        (4, 0x2345_6702_0000_0005),
        (16, 0x5678_0002_0000_0005),
    ] {
        assert_eq!(rt; entry(base, &key, at), want);
        assert!(rt; matches(base, &key, want));
        assert_eq!(rt; address(want), at);
    }
    // the bits from base on are compared, no more and no fewer
    for (front, want) in [
        ([0xf2, 0x34, 0x56, 0x7f], true),
        ([0x1a, 0x34, 0x56, 0x78], false),
        ([0x12, 0x34, 0x56, 0x88], false),
    ] {
        let mut other = [0u8; 32];
        other[..4].copy_from_slice(front.as_slice());
        assert_eq!(rt; matches(4, &other, 0x2345_6702_0000_0005), want);
    }
    for (bits, want) in [(0, 0), (1, 0), (4, 1), (16, 0x1234), (30, 0x48d_159e)] {
        assert_eq!(rt; chunk_of(bits, &key), want);
    }
    Ok(())
}

#[test]
fn a_chunk_fills_from_the_front(rt: HostRuntime) -> Result<(), Fail> {
    let mut chunk = read_chunk(&[0; 512]);
    put(&mut chunk, 0x2345_6702_0000_0005)?;
    let bytes = chunk_bytes(&chunk);
    assert_eq!(rt;
        &bytes[..9],
        [5, 0, 0, 0, 2, 0x67, 0x45, 0x23, 0].as_slice()
    );
    let mut chunk = read_chunk(&[1; 512]);
    assert_eq!(rt; put(&mut chunk, 9), Err(ChunkFull));
    clear(&mut chunk, 63);
    clear(&mut chunk, 7);
    put(&mut chunk, 0x0203_0405_0607_0809)?;
    put(&mut chunk, 10)?;
    assert_eq!(rt; put(&mut chunk, 11), Err(ChunkFull));
    let bytes = chunk_bytes(&chunk);
    let wanted = [1, 1, 9, 8, 7, 6, 5, 4, 3, 2, 1, 1];
    assert_eq!(rt; &bytes[54..66], wanted.as_slice());
    let wanted = [1, 1, 10, 0, 0, 0, 0, 0, 0, 0];
    assert_eq!(rt; &bytes[502..], wanted.as_slice());
    Ok(())
}
