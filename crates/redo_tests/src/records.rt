use pdb_cells::{CellBytes, CellName, Put, Puts};
use pdb_record::{GateSlot, Head, Scan, Scanner, encode, gate_bytes, header, put_name, read_gate};
use sdb_blake2::hash256;
use std::alloc::Global;
use std::process::Abort;
use std::test::*;

// Record 5 without puts, after 9 commits; its checksums by Python's hashlib.blake2b.
const NO_PUTS: [u8; 56] = [
    0x53, 0x44, 0x42, 0x52, 0x00, 0x00, 0x00, 0x00, 0x05, 0x00, 0x00, 0x00, 0x00, 0x00, 0x00, 0x00,
    0x09, 0x00, 0x00, 0x00, 0x00, 0x00, 0x00, 0x00, 0x00, 0x00, 0x00, 0x00, 0x00, 0x00, 0x00, 0x00,
    0x00, 0x00, 0x00, 0x00, 0x00, 0x00, 0x00, 0x00, 0xd5, 0x6d, 0x7c, 0xd9, 0x02, 0x99, 0x8f, 0xd1,
    0x5e, 0xc9, 0xcf, 0xdf, 0x2c, 0xa0, 0x64, 0x0e,
];

// Record 1 with slot 7 of file 18, 64 bytes 0xab, after 1 commit; its checksums by Python's hashlib.blake2b.
const ONE_SLOT: [u8; 130] = [
    0x53, 0x44, 0x42, 0x52, 0x00, 0x00, 0x00, 0x00, 0x01, 0x00, 0x00, 0x00, 0x00, 0x00, 0x00, 0x00,
    0x01, 0x00, 0x00, 0x00, 0x00, 0x00, 0x00, 0x00, 0x4a, 0x00, 0x00, 0x00, 0x00, 0x00, 0x00, 0x00,
    0x01, 0x00, 0x00, 0x00, 0x00, 0x00, 0x00, 0x00, 0xfb, 0x90, 0xbd, 0x2e, 0x72, 0xf9, 0xf1, 0xb0,
    0x12, 0x00, 0x07, 0x00, 0x00, 0x00, 0x00, 0x00, 0x00, 0x00, 0xab, 0xab, 0xab, 0xab, 0xab, 0xab,
    0xab, 0xab, 0xab, 0xab, 0xab, 0xab, 0xab, 0xab, 0xab, 0xab, 0xab, 0xab, 0xab, 0xab, 0xab, 0xab,
    0xab, 0xab, 0xab, 0xab, 0xab, 0xab, 0xab, 0xab, 0xab, 0xab, 0xab, 0xab, 0xab, 0xab, 0xab, 0xab,
    0xab, 0xab, 0xab, 0xab, 0xab, 0xab, 0xab, 0xab, 0xab, 0xab, 0xab, 0xab, 0xab, 0xab, 0xab, 0xab,
    0xab, 0xab, 0xab, 0xab, 0xab, 0xab, 0xab, 0xab, 0xab, 0xab, 0x1e, 0x62, 0x80, 0x0e, 0x51, 0xb8,
    0xf8, 0xca,
];

// The gate of sequence 3 at record 0x0102030405060708, after 6 commits; its checksum by Python's hashlib.blake2b.
const GATE: [u8; 64] = [
    0x53, 0x44, 0x42, 0x47, 0x41, 0x54, 0x45, 0x31, 0x03, 0x00, 0x00, 0x00, 0x00, 0x00, 0x00, 0x00,
    0x08, 0x07, 0x06, 0x05, 0x04, 0x03, 0x02, 0x01, 0x06, 0x00, 0x00, 0x00, 0x00, 0x00, 0x00, 0x00,
    0x00, 0x00, 0x00, 0x00, 0x00, 0x00, 0x00, 0x00, 0x00, 0x00, 0x00, 0x00, 0x00, 0x00, 0x00, 0x00,
    0x00, 0x00, 0x00, 0x00, 0x00, 0x00, 0x00, 0x00, 0x12, 0xe5, 0x46, 0x10, 0xe1, 0xcb, 0x98, 0xd0,
];

// what a scanner finds: how many bytes a record takes, or none
#[derive(Clone, Copy, Debug, PartialEq, Eq)]
enum Found {
    Whole(usize),
    End,
    Torn,
}

fn look(bytes: &[u8]) -> Found {
    match Scanner::new(bytes, 0).next() {
        Scan::Whole(record) => Found::Whole(record.len()),
        Scan::End => Found::End,
        Scan::Torn => Found::Torn,
    }
}

#[test]
fn records_have_their_bytes(rt: HostRuntime) -> Result<(), Fail> {
    let none = encode(rt.alloc(), 5, 9, &Puts::new(rt.alloc()))?;
    assert_eq!(rt; none.as_slice(), NO_PUTS.as_slice());
    assert_eq!(rt; look(none.as_slice()), Found::Whole(56));
    let mut puts = Puts::new(rt.alloc());
    puts.push(Put {
        name: CellName { file: 18, index: 7 },
        bytes: CellBytes::from_slice(rt.alloc(), &[0xab; 64])?,
    })?;
    let one = encode(rt.alloc(), 1, 1, &puts)?;
    assert_eq!(rt; one.as_slice(), ONE_SLOT.as_slice());
    let mut puts = Puts::new(rt.alloc());
    puts.push(Put {
        name: CellName { file: 16, index: 7 },
        bytes: CellBytes::from_slice(rt.alloc(), &[0; 512])?,
    })?;
    assert_eq!(rt; encode(rt.alloc(), 1, 1, &puts)?.len(), 578);
    Ok(())
}

#[test]
fn a_scanner_goes_from_record_to_record(rt: HostRuntime) -> Result<(), Fail> {
    let mut log = Vec::from_slice(rt.alloc(), &ONE_SLOT)?;
    log.extend_from_slice(&NO_PUTS)?;
    log.extend_from_slice(&[0; 47])?;
    let mut scanner = Scanner::new(log.as_slice(), 0);
    let Scan::Whole(first) = scanner.next() else {
        return Err(Fail::new("the first record"));
    };
    assert_eq!(rt;
        (first.number(), first.commits(), first.put_count()),
        (1, 1, 1)
    );
    let mut puts = first.puts();
    let Some(put) = puts.next() else {
        return Err(Fail::new("its put"));
    };
    assert_eq!(rt; put.name, CellName { file: 18, index: 7 });
    assert_eq!(rt; put.bytes, [0xab; 64].as_slice());
    assert!(rt; puts.next().is_none());
    let Scan::Whole(second) = scanner.next() else {
        return Err(Fail::new("the second record"));
    };
    assert_eq!(rt;
        (second.number(), second.commits(), second.put_count()),
        (5, 9, 0)
    );
    assert!(rt; matches!(scanner.next(), Scan::End));
    assert!(rt; matches!(scanner.next(), Scan::End));
    Ok(())
}

#[test]
fn the_log_ends_at_zeros(rt: HostRuntime) -> Result<(), Fail> {
    let mut bytes = [0u8; 96];
    bytes[48] = 1;
    for (front, end, want) in [
        (0, 0, Found::End),
        (96, 96, Found::End),
        (0, 47, Found::End),
        (0, 48, Found::End),
        (0, 96, Found::End),
        (1, 96, Found::Torn),
        (2, 49, Found::Torn),
        (49, 96, Found::End),
        (48, 96, Found::Torn),
    ] {
        assert!(rt; front <= end && end <= 96);
        assert_eq!(rt; look(&bytes[front..end]), want, "{front} to {end}");
    }
    Ok(())
}

// the first eight bytes of the digest of 32
fn checksum(bytes: &[u8]) -> [u8; 8] {
    let digest = hash256(bytes);
    let mut sum = [0; 8];
    sum.copy_from_slice(&digest[..8]);
    sum
}

// a record with the checksum of its header right
fn head_sealed(bytes: &[u8; 130]) -> [u8; 130] {
    let head = checksum(&bytes[..40]);
    let mut sealed = *bytes;
    sealed[40..48].copy_from_slice(&head);
    sealed
}

// a record with its last checksum right
fn end_sealed(bytes: &[u8; 130]) -> [u8; 130] {
    let end = checksum(&bytes[..122]);
    let mut sealed = *bytes;
    sealed[122..].copy_from_slice(&end);
    sealed
}

// the record of one slot with a byte changed, and with its checksums right again where `resealed`
fn changed(rt: &impl Abort, at: usize, byte: u8, resealed: bool) -> [u8; 130] {
    let mut bytes = ONE_SLOT;
    assert!(rt; at < 130);
    bytes[at] = byte;
    if resealed {
        end_sealed(&head_sealed(&bytes))
    } else {
        bytes
    }
}

#[test]
fn each_broken_rule_is_torn(rt: HostRuntime) -> Result<(), Fail> {
    for (at, byte, resealed, want) in [
        (8, 2, true, Found::Whole(130)),
        (16, 0, true, Found::Whole(130)),
        (53, 0xff, true, Found::Whole(130)),
        (0, 0x54, true, Found::Torn),
        (4, 1, true, Found::Torn),
        (7, 1, true, Found::Torn),
        (8, 0, true, Found::Torn),
        (24, 0x49, true, Found::Torn),
        (24, 0x4b, true, Found::Torn),
        (31, 0x40, true, Found::Torn),
        (32, 0, true, Found::Torn),
        (32, 2, true, Found::Torn),
        (48, 10, true, Found::Torn),
        (54, 1, true, Found::Torn),
        (47, 0, false, Found::Torn),
        (100, 0, false, Found::Torn),
        (129, 0, false, Found::Torn),
    ] {
        assert_eq!(rt; look(&changed(&rt, at, byte, resealed)), want, "byte {at}");
    }
    assert_eq!(rt; look(&ONE_SLOT[..129]), Found::Torn);
    assert_eq!(rt; look(&ONE_SLOT[..47]), Found::Torn);
    Ok(())
}

// a record of puts of slots of file 18
fn record_of(alloc: Global, indexes: &[u64]) -> Result<Vec<u8>, Fail> {
    let mut body = Vec::new(alloc);
    for index in indexes {
        body.extend_from_slice(&[18, 0])?;
        body.extend_from_slice(&index.to_le_bytes())?;
        body.extend_from_slice(&[0; 64])?;
    }
    let mut bytes = Vec::from_slice(alloc, &NO_PUTS[..8])?;
    for number in [1, 1, body.len() as u64, indexes.len() as u64] {
        bytes.extend_from_slice(&number.to_le_bytes())?;
    }
    let front = checksum(bytes.as_slice());
    bytes.extend_from_slice(&front)?;
    bytes.extend_from_slice(body.as_slice())?;
    let end = checksum(bytes.as_slice());
    bytes.extend_from_slice(&end)?;
    Ok(bytes)
}

#[test]
fn a_cell_twice_is_torn(rt: HostRuntime) -> Result<(), Fail> {
    for (indexes, want) in [
        ([1, 2, 3], Found::Whole(278)),
        ([3, 1, 2], Found::Whole(278)),
        ([1, 1, 2], Found::Torn),
        ([2, 1, 2], Found::Torn),
        ([1, 2, 1], Found::Torn),
    ] {
        let bytes = record_of(rt.alloc(), &indexes)?;
        assert_eq!(rt; look(bytes.as_slice()), want, "{indexes:?}");
    }
    // over more than one block of names
    for again in [0, 1, 1500, 2000] {
        let mut indexes = Vec::new(rt.alloc());
        for index in 0..2000u64 {
            indexes.push(2000 - index)?;
        }
        indexes.push(again)?;
        let bytes = record_of(rt.alloc(), indexes.as_slice())?;
        let torn = look(bytes.as_slice()) == Found::Torn;
        assert_eq!(rt; torn, again > 0, "{again} again");
    }
    Ok(())
}

#[test]
fn gates_are_whole_at_their_place(rt: HostRuntime) -> Result<(), Fail> {
    let gate = GateSlot {
        sequence: 3,
        number: 0x0102_0304_0506_0708,
        commits: 6,
    };
    assert_eq!(rt; gate_bytes(&gate), GATE);
    let even = GateSlot {
        sequence: 4,
        ..gate
    };
    assert_eq!(rt; read_gate(&gate_bytes(&even), 0), Some(even));
    assert_eq!(rt; read_gate(&gate_bytes(&even), 1), None);
    assert_eq!(rt; read_gate(&GATE, 1), Some(gate));
    assert_eq!(rt; read_gate(&GATE, 0), None);
    for at in [0, 8, 16, 24, 32, 55, 56, 63] {
        let mut bytes = GATE;
        bytes[at] = bytes[at].wrapping_add(2);
        assert_eq!(rt; read_gate(&bytes, 1), None, "byte {at}");
    }
    Ok(())
}

#[test]
fn heads_and_names_are_read(rt: HostRuntime) -> Result<(), Fail> {
    let Some(front) = ONE_SLOT.first_chunk::<48>() else {
        return Err(Fail::new("48 bytes"));
    };
    let head = Head {
        number: 1,
        commits: 1,
        body: 74,
        puts: 1,
    };
    assert_eq!(rt; header(front), Some(head));
    let name = put_name(&[0x12, 1, 7, 0, 0, 0, 0, 0, 0, 2]);
    let wanted = CellName {
        file: 0x112,
        index: 0x0200_0000_0000_0007,
    };
    assert_eq!(rt; name, wanted);
    Ok(())
}
