use ata_base::{Identity, Name8, Name20, Name40};
use ata_ident::*;
use std::test::Fail;

#[test]
fn pages_of_a_drive(rt: HostRuntime) -> Result<(), Fail> {
    let identity = Identity {
        model: Name40::new(b"ALPHA").ok_or("model")?,
        serial: Name20::new(b"S1").ok_or("serial")?,
        firmware: Name8::new(b"ATAHOST1").ok_or("firmware")?,
        sectors: 4096,
        depth: 32,
        gen_no: 3,
        udma: 0x7f,
    };
    let page = build(&identity);

    // ACS-3, IDENTIFY DEVICE data: words 10, 27 to 29, 75, 76, 83, 88, 100 and the low byte of word 255.
    for (at, bytes) in [
        (20, [b'1', b'S', b' ', b' ', b' ', b' ']),
        (54, [b'L', b'A', b'H', b'P', b' ', b'A']),
        (150, [31, 0, 0x0e, 0x01, 0, 0]),
        (166, [0x00, 0x44, 0, 0, 0, 0]),
        (176, [0x7f, 0, 0, 0, 0, 0]),
        (200, [0x00, 0x10, 0, 0, 0, 0]),
    ] {
        assert!(rt; at <= 506);
        assert_eq!(rt; &page[at..at + 6], bytes.as_slice(), "byte {at}");
    }
    assert_eq!(rt; page[510], 0xa5);
    assert!(rt; same(&identity, &read(&page)?));

    let mut unreadable = page;
    unreadable[54] = 0x01;
    unreadable[510] = 0;
    assert_eq!(rt; read(&unreadable)?.model.bytes(), b"A?PHA".as_slice());

    for (changes, want) in [
        ([(54, b'X'), (54, b'X')], Some(IdentError::BadSum)),
        ([(54, b'X'), (510, 0)], None),
        ([(167, 0), (510, 0)], Some(IdentError::NoLba48)),
        ([(201, 0), (510, 0)], Some(IdentError::NoSectors)),
    ] {
        let mut changed = page;
        for (at, byte) in changes {
            assert!(rt; at < 512);
            changed[at] = byte;
        }
        assert_eq!(rt; read(&changed).err(), want, "{changes:?}");
    }
    Ok(())
}
