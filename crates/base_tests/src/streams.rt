use sdb_io::{MemSink, MemSource, Sink, SinkFault, Source, SourceFault};
use std::test::*;

#[test]
fn a_source_gives_its_bytes_and_ends(rt: HostRuntime) -> Result<(), Fail> {
    let mut source = MemSource::new(rt.alloc(), b"abcde")?;
    source.fail_at(1)?;
    source.fail_at(4)?;
    // a call that fails moves no byte, and the next one goes on
    for (want, faults) in [
        (Ok(b"ab".as_slice()), 0),
        (Err(SourceFault), 1),
        (Ok(b"cd".as_slice()), 1),
        (Ok(b"e".as_slice()), 1),
        (Err(SourceFault), 2),
        (Ok(b"".as_slice()), 2),
        (Ok(b"".as_slice()), 2),
    ] {
        let mut into = [0u8; 2];
        let taken = source.take(&mut into);
        assert_eq!(rt; taken, want.map(|bytes| bytes.len()));
        if let (Ok(count), Ok(bytes)) = (taken, want) {
            assert_eq!(rt; &into[..count], bytes);
        }
        assert_eq!(rt; source.faults(), faults);
    }
    Ok(())
}

#[test]
fn a_sink_keeps_what_it_gets(rt: HostRuntime) -> Result<(), Fail> {
    let mut sink = MemSink::new(rt.alloc());
    assert_eq!(rt; sink.bytes(), b"".as_slice());
    sink.fail_at(1)?;
    sink.fail_at(3)?;
    for (piece, want, faults, got) in [
        (b"ab".as_slice(), Ok(()), 0, b"ab".as_slice()),
        (b"cd", Err(SinkFault), 1, b"ab"),
        (b"e", Ok(()), 1, b"abe"),
        (b"", Err(SinkFault), 2, b"abe"),
        (b"fgh", Ok(()), 2, b"abefgh"),
        (b"", Ok(()), 2, b"abefgh"),
    ] {
        assert_eq!(rt; sink.put(piece), want);
        assert_eq!(rt; sink.faults(), faults);
        assert_eq!(rt; sink.bytes(), got);
    }
    assert_eq!(rt; sink.lengths(), [2, 1, 3, 0].as_slice());
    Ok(())
}
