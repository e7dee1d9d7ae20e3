use ata_base::DriveNo;
use link_model::*;
use std::test::Fail;

/// A drive is plugged, linked by a reset, and unplugged.
#[test]
fn a_drive_comes_and_goes(rt: HostRuntime) -> Result<(), Fail> {
    let first = DriveNo::new(0).ok_or("first")?;
    let second = DriveNo::new(31).ok_or("second")?;
    let mut link = Link::new();
    assert!(rt; link.unplug().is_none() && link.serror() == 0);
    assert!(rt; link.plug(first));
    assert!(rt; !link.plug(second), "the place is taken");
    assert!(rt; link.plugged() == Some(first) && link.linked().is_none());
    assert_eq!(rt; link.take_serror(), 0x0001_0000);
    link.begin_reset();
    assert!(rt; link.linked() == Some(first) && link.serror() == 0);
    link.set_serror(26);
    assert!(rt; link.unplug() == Some(first));
    assert!(rt; link.plugged().is_none() && link.linked().is_none());
    assert_eq!(rt; link.take_serror(), 0x0401_0000);
    Ok(())
}

/// A drive's generation, the limit, and what SStatus is: no device without a link, and else DET 3, the
/// lesser as SPD, and IPM 1.
#[test]
fn speeds_and_limits(rt: HostRuntime) -> Result<(), Fail> {
    let mut link = Link::new();
    assert_eq!(rt; (link.limit(), link.sstatus(3)), (3, 0));
    assert!(rt; link.plug(DriveNo::new(7).ok_or("drive")?));
    assert_eq!(rt; link.sstatus(3), 0, "plugged and not linked");
    link.begin_reset();
    for (generation, want) in [(1, 0x113), (2, 0x123), (3, 0x133)] {
        assert!(rt; generation >= 1 && generation <= 3);
        assert_eq!(rt; link.sstatus(generation), want, "{generation}");
    }
    link.set_limit(2);
    assert_eq!(rt; (link.sstatus(1), link.sstatus(3)), (0x113, 0x123));
    link.set_limit(1);
    assert_eq!(rt; (link.sstatus(2), link.sstatus(3)), (0x113, 0x113));
    Ok(())
}
