use ata_base::{Regs, Tag};
use ata_log::*;
use std::test::Fail;

#[test]
fn pages_of_a_failed_command(rt: HostRuntime) -> Result<(), Fail> {
    let tag = Tag::new(3).ok_or("tag")?;
    let regs = Regs {
        status: 0x41,
        error: 0x40,
        lba: 0x0605_0403_0201,
        device: 0x40,
        count: 0x0807,
    };
    let page = build(tag, &regs);

    // ACS-3, NCQ Command Error log: bytes 0 to 13.
    let head = [3, 0, 0x41, 0x40, 1, 2, 3, 0x40, 4, 5, 6, 0, 7, 8];
    assert_eq!(rt; &page[..14], head.as_slice());
    let (found, told) = read(&page)?;
    assert!(rt; found == tag && told == regs);

    let mut wrong = page;
    wrong[2] = 0x40;
    assert_eq!(rt; read(&wrong).err(), Some(LogError::BadSum));
    let mut not_queued = page;
    not_queued[0] = 0x83;
    assert_eq!(rt; read(&not_queued).err(), Some(LogError::BadSum));
    not_queued[14] = 0x80;
    assert_eq!(rt; read(&not_queued).err(), Some(LogError::NotQueued));
    assert_eq!(rt; read(&[0xff; 512]).err(), Some(LogError::NotQueued));
    Ok(())
}
