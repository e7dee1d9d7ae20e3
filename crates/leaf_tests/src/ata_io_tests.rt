use ata_io::*;
use std::test::Fail;

#[test]
fn all_is_read_or_a_refusal_is_named(rt: HostRuntime) -> Result<(), Fail> {
    let alloc = rt.alloc();
    for (fail, limit, want) in [
        (9, 5, Ok(5)),
        (9, 4, Err(ReadError::TooLong)),
        (3, 5, Err(ReadError::Fault)),
    ] {
        let mut source = MemSource::new(b"hello".to_vec(alloc)?, 2, vec![in alloc; fail]?);
        let read = read_all(alloc, &mut source, limit).map(|bytes| bytes.len());
        assert_eq!(rt; read, want, "call {fail} fails, limit {limit}");
    }
    let mut sure = SureSource::new(b"hello".to_vec(alloc)?);
    assert_eq!(rt;
        read_all(alloc, &mut sure, 5)?.as_slice(),
        b"hello".as_slice()
    );
    Ok(())
}

#[test]
fn pieces_are_put_or_a_fault_is_counted(rt: HostRuntime) -> Result<(), Fail> {
    let alloc = rt.alloc();
    let mut sink = MemSink::new(alloc, 8, vec![in alloc; 2]?)?;
    for (piece, want) in [
        ("hello", Ok(())),
        ("you", Err(WriteFault)),
        ("you", Ok(())),
        ("!", Err(WriteFault)),
    ] {
        assert_eq!(rt; put_all(&mut sink, piece.as_bytes()), want, "{piece}");
    }
    assert_eq!(rt; sink.bytes(), b"helloyou".as_slice());
    assert_eq!(rt; sink.faults(), 2);
    assert_eq!(rt; put_all(&mut SureSink::new(), b"hello"), Ok(()));
    Ok(())
}

#[test]
fn a_full_writer_is_noticed_at_the_flush(rt: HostRuntime) -> Result<(), Fail> {
    let alloc = rt.alloc();
    let mut source = StdSource::new(alloc, b"hello".as_slice())?;
    let bytes = read_all(alloc, &mut source, 5)?;
    let mut room = [0u8; 4];
    let mut sink = StdSink::new(alloc, room.as_mut_slice())?;
    assert_eq!(rt; put_all(&mut sink, &bytes), Ok(()));
    assert_eq!(rt; sink.flush(), Err(Failed));
    assert_eq!(rt; sink.faults(), 1);
    Ok(())
}
