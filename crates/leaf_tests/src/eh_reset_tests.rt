use ata_base::Ms;
use eh_reset::*;

#[test]
fn waits_of_the_tries(rt: HostRuntime) {
    for (attempt, want) in [
        (0, None),
        (1, Some(Ms { n: 10_000 })),
        (2, Some(Ms { n: 10_000 })),
        (3, Some(Ms { n: 35_000 })),
        (4, Some(Ms { n: 5_000 })),
        (5, None),
        (255, None),
    ] {
        assert_eq!(rt; reset_wait(attempt), want, "try {attempt}");
    }
}

// Each row: whether a drive is linked, its ready time, the deadline, the time, what is seen.
#[test]
fn looks_in_their_order(rt: HostRuntime) {
    for (linked, ready, deadline, now, want) in [
        (false, 0, 0, 10_000, ResetLook::Gone),
        (true, 10_000, 10_000, 10_000, ResetLook::Ready),
        (true, 10_001, 10_000, 10_000, ResetLook::Late),
        (true, 10_001, 10_001, 10_000, ResetLook::Open_),
        (true, 9_000, 10_000, 8_999, ResetLook::Open_),
        (true, 9_000, 10_000, 9_000, ResetLook::Ready),
    ] {
        let look = reset_look(linked, Ms { n: ready }, Ms { n: deadline }, Ms { n: now });
        assert_eq!(rt; look, want, "{ready} {deadline} at {now}");
    }
}
