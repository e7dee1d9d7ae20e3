use ata_base::{Place, Regs, Tag};
use hba_model::*;

/// Tags of the first and of the last place are issued, end well or fail, and are cleared.
#[test]
fn tags_from_issue_to_clearing(rt: HostRuntime) {
    let (first_place, last_place) = (Place::at(0), Place::at(14));
    let (first, last) = (Tag::at(0), Tag::at(31));
    let regs = Regs {
        status: 0x41,
        error: 0x40,
        lba: 5,
        device: 0x40,
        count: 0,
    };
    let mut hba = Hba::new();
    hba.issue(first, first_place);
    hba.issue(last, last_place);
    assert_eq!(rt; (hba.active(), hba.done()), (0x8000_0001, 0));
    hba.finish(first);
    hba.fail(last, last_place, regs);
    assert_eq!(rt; (hba.active(), hba.done()), (0x8000_0000, 1));
    assert!(rt; hba.failed(first_place).is_none());
    assert!(rt; hba.failed(last_place) == Some((last, regs)));
    hba.clear_link(Some(last_place));
    assert_eq!(rt; (hba.active(), hba.done()), (0, 1));
    assert!(rt; hba.failed(last_place).is_none());
    hba.issue(last, last_place);
    hba.clear_link(Some(first_place));
    assert_eq!(rt; (hba.active(), hba.done()), (0x8000_0000, 0));
    hba.clear_link(None);
    assert_eq!(rt; (hba.active(), hba.done()), (0, 0));
}

/// A cause, and the causes that stand once it alone was set.
#[test]
fn causes_until_they_are_taken(rt: HostRuntime) {
    let place = Place::at(14);
    let none = Causes {
        done: false,
        tferr: 0,
        iferr: false,
        connect: false,
        notify: false,
    };
    let rows = [
        (Cause::Done, Causes { done: true, ..none }),
        (
            Cause::Tferr { place },
            Causes {
                tferr: 0x4000,
                ..none
            },
        ),
        (
            Cause::Iferr,
            Causes {
                iferr: true,
                ..none
            },
        ),
        (
            Cause::Connect,
            Causes {
                connect: true,
                ..none
            },
        ),
        (
            Cause::Notify,
            Causes {
                notify: true,
                ..none
            },
        ),
    ];
    for (cause, want) in rows {
        let mut hba = Hba::new();
        hba.set_cause(cause);
        assert_eq!(rt; hba.causes(), want);
        assert_eq!(rt; hba.take_causes(), want);
        assert_eq!(rt; hba.causes(), none);
    }
}

/// The line goes up once and down once, whatever the hint.
#[test]
fn the_line_up_and_down(rt: HostRuntime) {
    let mut hba = Hba::new();
    let told = [
        hba.lower(),
        hba.raise(None),
        hba.raise(Some(Tag::at(3))),
        hba.line(),
        hba.lower(),
        hba.lower(),
        hba.line(),
    ];
    assert_eq!(rt; told, [false, true, false, true, true, false, false]);
}
