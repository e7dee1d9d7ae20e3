use ata_base::*;
use bitflags::Flags;

#[test]
fn numbers_end_at_their_limits(rt: HostRuntime) {
    let last = [
        PortNo::new(7).is_some(),
        Place::new(14).is_some(),
        DriveNo::new(31).is_some(),
        Tag::new(31).is_some(),
        ActorNo::new(31).is_some(),
        Pick::new(31).is_some(),
        CmdId::new(1).is_some(),
        CmdId::new(65535).is_some(),
        Allowance::new(100).is_some(),
        Wait::new(1).is_some(),
        Wait::new(1_000_000).is_some(),
        Tick::new(1_000_000).is_some(),
        Ready::new(60_000).is_some(),
        Name40::new(&[b'A'; 40]).is_some(),
        Name20::new(&[b'A'; 20]).is_some(),
        Name8::new(&[0x7f]).is_some(),
    ];
    assert_eq!(rt; last, [true; 16]);
    let past = [
        PortNo::new(8).is_some(),
        Place::new(15).is_some(),
        DriveNo::new(32).is_some(),
        Tag::new(32).is_some(),
        ActorNo::new(32).is_some(),
        Pick::new(32).is_some(),
        CmdId::new(0).is_some(),
        Allowance::new(101).is_some(),
        Wait::new(0).is_some(),
        Wait::new(1_000_001).is_some(),
        Tick::new(1_000_001).is_some(),
        Ready::new(60_001).is_some(),
        Name40::new(&[b'A'; 41]).is_some(),
        Name20::new(&[b'A'; 21]).is_some(),
        Name8::new(&[0x80]).is_some(),
    ];
    assert_eq!(rt; past, [false; 15]);
}

#[test]
fn stamps_end_at_sixteen(rt: HostRuntime) {
    let mut stamps = Stamps::new();
    for stamp in 0..20 {
        if stamps.items().len() < 16 {
            stamps.push(stamp);
        }
    }
    assert_eq!(rt; stamps.copy().items().last(), Some(&15));
}

#[test]
fn kinds_stand_at_their_bits(rt: HostRuntime) {
    let joined = ErrMask::MEDIA.union(ErrMask::ATA_BUS).union(ErrMask::NCQ);
    assert_eq!(rt; joined.bits(), 0x418);
    let kinds = Kinds::none().union(Kinds::at(joined));
    assert_eq!(rt; kinds.without(ErrMask::MEDIA).mask().bits(), 0x410);
}

/// Bit k stands for the element k, and an empty list has no bit.
#[test]
fn masks_of_lists(rt: HostRuntime) {
    let numbers = [3, 0, 5, 0, 9];
    assert_eq!(rt; mask_of(&numbers, |n| *n > 4), 0b10100);
    assert_eq!(rt; mask_of(&[true; 32], |passes| *passes), 0xffff_ffff);
    assert_eq!(rt; mask_of(&numbers[..0], |n| *n > 4), 0);
}
