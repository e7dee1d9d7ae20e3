use ata_base::{ErrMask, Kinds, Ms, SpeedAction};
use eh_ring::{Ring, RingEntry};
use eh_verdict::*;
use std::test::Fail;

// An entry told by plain values: whether it is a timeout and not an error of the wire, dubious, old, and its time.
fn entry(told: (bool, bool, bool, u64)) -> RingEntry {
    let (is_timeout, dubious, stale, at) = told;
    let kinds = if is_timeout {
        Kinds::at(ErrMask::TIMEOUT)
    } else {
        Kinds::at(ErrMask::ATA_BUS)
    };
    RingEntry {
        io: true,
        dubious,
        stale,
        kinds,
        at: Ms { n: at },
    }
}

fn words(ncq_off: bool, speed_down: bool, pio: bool, keep: bool) -> Verdict {
    Verdict {
        ncq_off,
        speed_down,
        pio,
        keep,
    }
}

// Each row: the ring, the newest entry first, the time, the verdict.
#[test]
fn verdicts(rt: HostRuntime) -> Result<(), Fail> {
    let bus = (false, false, false, 0);
    let dubious_bus = (false, true, false, 0);
    let timeout = (true, false, false, 0);
    let dubious_timeout = (true, true, false, 0);
    let old_timeout = (true, true, true, 0);
    let timeout_at = (true, true, false, 300_000);
    let late_timeout = (true, true, false, 300_001);
    for (entries, now, want) in [
        (
            [bus; 7].as_slice(),
            300_000,
            words(false, true, true, false),
        ),
        (
            [bus; 7].as_slice(),
            300_001,
            words(false, true, false, false),
        ),
        (
            [timeout; 4].as_slice(),
            300_001,
            words(true, true, false, false),
        ),
        (
            [dubious_bus, bus, dubious_timeout].as_slice(),
            0,
            words(false, false, false, false),
        ),
        (
            [dubious_timeout, old_timeout].as_slice(),
            0,
            words(false, false, false, false),
        ),
        (
            [timeout_at, dubious_timeout].as_slice(),
            300_000,
            words(true, true, true, true),
        ),
        (
            [late_timeout, dubious_timeout].as_slice(),
            300_001,
            words(false, false, false, false),
        ),
    ] {
        let mut ring = Ring::new(rt.alloc())?;
        let now = Ms { n: now };
        for told in entries.iter().rev() {
            let newest = entry(*told);
            let with_it = verdict_with(&ring, &newest, now);
            ring.note(newest);
            assert_eq!(rt; with_it, verdict(&ring, now), "{entries:?}");
        }
        assert_eq!(rt; verdict(&ring, now), want, "{entries:?}");
    }
    Ok(())
}

#[test]
fn actions(rt: HostRuntime) {
    let slower = words(false, true, false, false);
    for (current, lowered, want) in [
        (2, 0, SpeedAction::Speed { generation: 1 }),
        (1, 0, SpeedAction::Mode { udma: 5 }),
        (1, 1, SpeedAction::Mode { udma: 4 }),
        (1, 2, SpeedAction::NoChange),
    ] {
        assert_eq!(rt; decide(&slower, true, current, lowered), want);
    }
    let both = words(true, true, false, false);
    assert_eq!(rt; decide(&both, true, 2, 0), SpeedAction::NcqOff);
    assert_eq!(rt;
        decide(&both, false, 2, 0),
        SpeedAction::Speed { generation: 1 }
    );
    assert_eq!(rt; (down_speed(3), down_speed(1)), (Some(2), None));
    assert_eq!(rt; (down_mode(1), down_mode(2)), (Some(2), None));
}
