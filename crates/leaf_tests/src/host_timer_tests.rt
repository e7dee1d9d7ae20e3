use ata_base::{CmdId, IssueNo, Kinds, Ms, Place};
use host_tags::{InFlight, Slots};
use host_timer::*;

/// Tags 0 to 2 end at 2,000, 1,000 and 3,000 ms, and recovery owns the one that ends first.
fn three_issues() -> Slots {
    let mut slots = Slots::new();
    for (n, deadline, owned) in [(1, 2_000, false), (2, 1_000, true), (3, 3_000, false)] {
        let flight = InFlight {
            id: CmdId::at(1),
            number: IssueNo { n },
            place: Place::at(0),
            queued: true,
            deadline: Ms { n: deadline },
            expired: false,
            owned,
            kinds: Kinds::none(),
        };
        let _ = slots.claim(32, flight);
    }
    slots
}

/// A time, the tags that are due then, and the deadline that comes next.
#[test]
fn deadlines(rt: HostRuntime) {
    let slots = three_issues();
    for (now, tags, next) in [
        (0, 0, Some(Ms { n: 2_000 })),
        (1_999, 0, Some(Ms { n: 2_000 })),
        (2_000, 1, Some(Ms { n: 3_000 })),
        (2_999, 1, Some(Ms { n: 3_000 })),
        (3_000, 5, None),
    ] {
        assert_eq!(rt; due(&slots, Ms { n: now }, false), tags, "due at {now}");
        assert_eq!(rt;
            coming(&slots, Ms { n: now }, None),
            next,
            "coming at {now}"
        );
    }
}

/// A port that is quiet since 500 ms gives up at 3,500 ms: then all that recovery doesn't own is due.
#[test]
fn a_quiet_port_gives_up(rt: HostRuntime) {
    let slots = three_issues();
    let quiet = Ms { n: 500 };
    assert_eq!(rt; due(&slots, Ms { n: 0 }, true), 5);
    assert_eq!(rt;
        coming(&slots, Ms { n: 3_000 }, Some(quiet)),
        Some(Ms { n: 3_500 })
    );
    assert_eq!(rt;
        coming(&slots, Ms { n: 2_999 }, Some(quiet)),
        Some(Ms { n: 3_000 })
    );
    assert_eq!(rt; coming(&slots, Ms { n: 3_500 }, Some(quiet)), None);
    assert!(rt; !drain_now(quiet, Ms { n: 3_499 }));
    assert!(rt; drain_now(quiet, Ms { n: 3_500 }));
}

/// A time above now, and the lesser of two of which either may be missing.
#[test]
fn times(rt: HostRuntime) {
    let now = Ms { n: 5 };
    assert_eq!(rt;
        (time_above(Some(6), now), time_above(Some(5), now)),
        (Some(6), None)
    );
    for (a, b, want) in [
        (Some(3), Some(2), Some(2)),
        (Some(3), None, Some(3)),
        (None, Some(2), Some(2)),
        (None, None, None),
    ] {
        assert_eq!(rt; lesser(a, b), want);
    }
}
