use ata_base::{Cmd, CmdId, ErrMask, Kinds, Ms, Op, Place, Tag};
use eh_flow::*;
use std::test::Fail;

// A port at 1,000 ms that isn't frozen, and of which nothing else is to be seen.
const CALM: Observation = Observation {
    time: Ms { n: 1_000 },
    asked: false,
    waiting: None,
    log: None,
    frozen: false,
    linked: false,
    ready: Ms { n: 0 },
    answered: false,
};

// The state before the tasks: whether recovery is asked for, the tag that is waited for, the place whose log is owed,
// the row.
#[test]
fn from_idle_to_the_autopsy(rt: HostRuntime) -> Result<(), Fail> {
    let tag = Tag::new(7).ok_or("tag")?;
    let place = Place::new(3).ok_or("place")?;
    let deadline = Ms { n: 11_000 };
    let rows = [
        (Phase::Idle, false, None, None, Row::Nothing),
        (Phase::Idle, true, Some(tag), None, Row::WaitTag { tag }),
        (Phase::Idle, true, None, None, Row::Begin),
        (Phase::Logs, false, None, Some(place), Row::Log { place }),
        (Phase::Logs, false, None, None, Row::Autopsy),
        (
            Phase::HostOwed,
            false,
            None,
            None,
            Row::HostBegin { deadline },
        ),
        (Phase::HostOpen, false, None, None, Row::HostEnd),
        (Phase::Through, false, None, None, Row::Finish),
    ];
    for (phase, asked, waiting, log, want) in rows {
        let seen = Observation {
            asked,
            waiting,
            log,
            ..CALM
        };
        assert_eq!(rt; next(&phase, &seen), want, "{phase:?}");
    }
    Ok(())
}

// The tries of a reset at 1,000 ms, each with its deadline.
#[test]
fn resets_that_begin(rt: HostRuntime) -> Result<(), Fail> {
    let place = Place::new(3).ok_or("place")?;
    for (attempt, until) in [(1, 11_000), (2, 11_000), (3, 36_000), (4, 6_000)] {
        let owed = Phase::ResetOwed {
            place,
            attempt,
            ident: 2,
        };
        let begun = Row::ResetBegin {
            place,
            attempt,
            ident: 2,
            deadline: Ms { n: until },
        };
        assert_eq!(rt; next(&owed, &CALM), begun, "try {attempt}");
    }
    Ok(())
}

// An open reset at 1,000 ms: whether a drive is linked, its ready time, the try, the deadline, the row.
#[test]
fn resets_that_are_open(rt: HostRuntime) -> Result<(), Fail> {
    let place = Place::new(3).ok_or("place")?;
    let again = Row::ResetLate { place, again: true };
    let last = Row::ResetLate {
        place,
        again: false,
    };
    let rows = [
        (false, 0, 1, 1_000, Row::ResetGone { place }),
        (true, 1_000, 1, 1_000, Row::ResetReady { place }),
        (true, 1_001, 3, 1_000, again),
        (true, 1_001, 4, 1_000, last),
        (true, 1_001, 4, 1_001, Row::ResetWait { place }),
    ];
    for (linked, ready, attempt, deadline, want) in &rows {
        let open = Phase::ResetOpen {
            place,
            attempt: *attempt,
            ident: 1,
            deadline: Ms { n: *deadline },
        };
        let seen = Observation {
            linked: *linked,
            ready: Ms { n: *ready },
            ..CALM
        };
        assert_eq!(rt; next(&open, &seen), *want, "try {attempt} until {deadline}");
    }
    Ok(())
}

// The tries of an identity at 1,000 ms, each with its deadline; on a frozen port a reset comes first.
#[test]
fn identities_that_are_owed(rt: HostRuntime) -> Result<(), Fail> {
    let place = Place::new(3).ok_or("place")?;
    let frozen = Observation {
        frozen: true,
        ..CALM
    };
    for (attempt, until) in [(1, 6_000), (2, 11_000), (3, 31_000)] {
        let owed = Phase::IdentOwed { place, attempt };
        let asked = Row::IdentAsk {
            place,
            attempt,
            deadline: Ms { n: until },
        };
        let reset = Row::ResetBegin {
            place,
            attempt: 1,
            ident: attempt,
            deadline: Ms { n: 11_000 },
        };
        assert_eq!(rt; next(&owed, &CALM), asked, "try {attempt}");
        assert_eq!(rt; next(&owed, &frozen), reset, "try {attempt}, frozen");
    }
    Ok(())
}

// An open identity at 1,000 ms: whether the port is frozen, whether the drive answered, the try, the deadline, the row.
#[test]
fn identities_that_are_open(rt: HostRuntime) -> Result<(), Fail> {
    let place = Place::new(3).ok_or("place")?;
    let reset = Row::ResetBegin {
        place,
        attempt: 1,
        ident: 2,
        deadline: Ms { n: 11_000 },
    };
    let again = Row::IdentLate { place, again: true };
    let last = Row::IdentLate {
        place,
        again: false,
    };
    let rows = [
        (true, true, 2, 1_000, reset),
        (false, true, 3, 1_000, Row::IdentRead { place }),
        (false, false, 2, 1_000, again),
        (false, false, 3, 1_000, last),
        (false, false, 3, 1_001, Row::IdentWait { place }),
    ];
    for (frozen, answered, attempt, deadline, want) in &rows {
        let open = Phase::IdentOpen {
            place,
            attempt: *attempt,
            deadline: Ms { n: *deadline },
        };
        let seen = Observation {
            frozen: *frozen,
            answered: *answered,
            ..CALM
        };
        assert_eq!(rt; next(&open, &seen), *want, "try {attempt} until {deadline}");
    }
    Ok(())
}

// Each row: whether it is a read or a power command, the allowance, the retries, the kinds, whether the device is gone,
// the finish.
#[test]
fn finishes(rt: HostRuntime) -> Result<(), Fail> {
    let id = CmdId::new(1).ok_or("id")?;
    let place = Place::new(0).ok_or("place")?;
    let none = Kinds::none();
    let wire = Kinds::at(ErrMask::ATA_BUS);
    let media = Kinds::at(ErrMask::MEDIA);
    let dev = Kinds::at(ErrMask::DEV);
    let free = Finish::Retry { raised: true };
    let paid = Finish::Retry { raised: false };
    let rows = [
        (true, 5, 0, none, true, Finish::NoDev),
        (true, 0, 0, none, false, free),
        (true, 5, 5, none, false, free),
        (true, 1, 0, wire, false, paid),
        (true, 1, 1, wire, false, Finish::Fail),
        (true, 5, 0, media, false, Finish::Fail),
        (true, 5, 0, dev, false, paid),
        (false, 5, 0, dev, false, Finish::Fail),
    ];
    for (reads, allow, retries, kinds, gone, want) in rows {
        let cmd = Cmd {
            id,
            place,
            op: if reads {
                Op::Read { lba: 0, count: 8 }
            } else {
                Op::Power
            },
            allow,
            retries,
            wait: Ms { n: 30_000 },
            attachment: 1,
        };
        assert_eq!(rt;
            finish(&cmd, kinds, gone),
            want,
            "{allow} {retries} {kinds:?}"
        );
    }
    Ok(())
}
