use ata_base::{CmdId, ErrMask, IssueNo, Kinds, LinkAction, Ms, Place, Regs, SpeedAction, Tag};
use eh_autopsy::*;
use host_tags::{InFlight, Slots};
use std::test::Fail;

const NONE: SpeedAction = SpeedAction::NoChange;

fn regs(status: u8, error: u8) -> Regs {
    Regs {
        status,
        error,
        lba: 0,
        device: 0x40,
        count: 0,
    }
}

// Each row: the status and the error of a command that ended, and the kinds that stay.
#[test]
fn kinds_of_ended_commands(rt: HostRuntime) {
    let dev = Kinds::at(ErrMask::DEV);
    for (status, error, want) in [
        (0x40, 0x00, Kinds::none()),
        (0x41, 0x04, dev),
        (0x41, 0x10, dev.union(Kinds::at(ErrMask::INVALID))),
        (0x41, 0x40, dev.union(Kinds::at(ErrMask::MEDIA))),
        (0x41, 0x84, Kinds::at(ErrMask::ATA_BUS)),
        (0x60, 0x00, dev),
        (0x80, 0x00, Kinds::at(ErrMask::HSM)),
    ] {
        assert_eq!(rt;
            reduce(analyse_regs(&regs(status, error))),
            want,
            "{status} {error}"
        );
    }
    let other = Kinds::at(ErrMask::OTHER);
    assert_eq!(rt; reduce(other), other);
    assert_eq!(rt; reduce(other.union(dev)), dev);
}

// Each row: the SError bits of a place without a device, whether it is one of a multiplier, the kinds, hotplug.
#[test]
fn kinds_of_the_link(rt: HostRuntime) {
    for (bits, pmp, kinds, hot) in [
        (1 << 9, false, Kinds::at(ErrMask::ATA_BUS), false),
        (1 << 10, false, Kinds::at(ErrMask::HSM), false),
        (1 << 11, false, Kinds::at(ErrMask::SYSTEM), false),
        (1 << 16, true, Kinds::none(), true),
        (1 << 26, false, Kinds::none(), true),
        (1 << 26, true, Kinds::none(), false),
    ] {
        assert_eq!(rt;
            analyse_serror(bits, false, pmp),
            (kinds, hot),
            "bits {bits}"
        );
    }
}

// An issue of place 0 that recovery owns.
fn owned(id: CmdId, place: Place, number: u64, queued: bool) -> InFlight {
    InFlight {
        id,
        number: IssueNo { n: number },
        place,
        queued,
        deadline: Ms { n: 30_000 },
        expired: false,
        owned: true,
        kinds: Kinds::none(),
    }
}

// Two queued issues and an unqueued one of place 0 are owned; each row: the tag that the log's page names, and the kinds
// that it gives to the two queued ones.
#[test]
fn whom_the_log_blames(rt: HostRuntime) -> Result<(), Fail> {
    let (id, place) = (CmdId::at(1), Place::at(0));
    let mut slots = Slots::new();
    let first = slots.claim(32, owned(id, place, 1, true)).ok_or("first")?;
    let second = slots.claim(32, owned(id, place, 2, true)).ok_or("second")?;
    let third = slots.claim(32, owned(id, place, 3, false)).ok_or("third")?;
    let none = Kinds::none();
    let hsm = Kinds::at(ErrMask::HSM);
    let named = Kinds::at(ErrMask::DEV)
        .union(Kinds::at(ErrMask::MEDIA))
        .union(Kinds::at(ErrMask::NCQ));
    for (tag, of_first, of_second) in [
        (second, none, named),
        (first, named, none),
        (third, hsm, hsm),
        (Tag::at(9), hsm, hsm),
    ] {
        let page = Some((tag, regs(0x41, 0x40)));
        assert_eq!(rt; blame(&slots, place, first, &page), of_first, "{tag:?}");
        assert_eq!(rt; blame(&slots, place, second, &page), of_second, "{tag:?}");
    }
    assert_eq!(rt; blame(&slots, place, first, &None), hsm);
    Ok(())
}

// Each row: the issue's number and whether it is queued, beside a noted failure of issue 1, the kinds of the link, those
// by the log, and the final ones.
#[test]
fn final_kinds_of_issues(rt: HostRuntime) {
    let (id, place) = (CmdId::at(1), Place::at(0));
    let noted = Some(FailedIssue {
        number: IssueNo { n: 1 },
        regs: regs(0x41, 0x04),
    });
    let none = Kinds::none();
    let dev = Kinds::at(ErrMask::DEV);
    let hsm = Kinds::at(ErrMask::HSM);
    let bus = Kinds::at(ErrMask::ATA_BUS);
    for (number, queued, link, blamed, want) in [
        (1, false, none, none, dev),
        (1, true, none, none, none),
        (2, false, none, none, none),
        (2, true, none, hsm, hsm),
        (1, false, bus, none, bus),
        (1, false, bus, hsm, bus.union(hsm)),
    ] {
        let issue = owned(id, place, number, queued);
        assert_eq!(rt;
            final_kinds(&issue, link, &noted, blamed),
            want,
            "{number} {queued}"
        );
    }
    let condemned = InFlight {
        kinds: Kinds::at(ErrMask::TIMEOUT),
        ..owned(id, place, 2, true)
    };
    assert_eq!(rt;
        final_kinds(&condemned, none, &None, none),
        Kinds::at(ErrMask::TIMEOUT)
    );
}

#[test]
fn what_recovery_does(rt: HostRuntime) {
    let dev = Kinds::at(ErrMask::DEV);
    let slower = SpeedAction::Mode { udma: 5 };
    assert_eq!(rt;
        action(false, false, dev, false, &NONE),
        LinkAction::NoAction
    );
    assert_eq!(rt;
        action(false, false, dev, true, &SpeedAction::NcqOff),
        LinkAction::Revalidate
    );
    assert_eq!(rt; action(false, false, dev, true, &slower), LinkAction::Reset);
    assert!(rt; worth_retry(true, dev) && !worth_retry(false, dev));
}
