use ata_base::{Identity, Ms, Name8, Name20, Name40};
use eh_reval::*;
use std::test::Fail;

#[test]
fn waits_of_the_tries(rt: HostRuntime) {
    for (attempt, want) in [
        (0, None),
        (1, Some(Ms { n: 5_000 })),
        (2, Some(Ms { n: 10_000 })),
        (3, Some(Ms { n: 30_000 })),
        (4, None),
    ] {
        assert_eq!(rt; ident_wait(attempt), want, "try {attempt}");
    }
}

fn drive(serial: &[u8], firmware: &[u8], depth: u8) -> Option<Identity> {
    Some(Identity {
        model: Name40::new(b"ALPHA")?,
        serial: Name20::new(serial)?,
        firmware: Name8::new(firmware)?,
        sectors: 4096,
        depth,
        gen_no: 3,
        udma: 0x7f,
    })
}

#[test]
fn drives_compared(rt: HostRuntime) -> Result<(), Fail> {
    let known = drive(b"S1", b"ATAHOST1", 32).ok_or("known")?;
    let newer = drive(b"S1", b"ATAHOST2", 0).ok_or("newer")?;
    let other = drive(b"S2", b"ATAHOST1", 32).ok_or("other")?;
    assert_eq!(rt; compare(None, &known), Found::New);
    assert_eq!(rt; compare(Some(&known), &newer), Found::Same);
    assert_eq!(rt; compare(Some(&known), &other), Found::Different);
    Ok(())
}

// Three hotplugs within a minute, and one more at its end and a millisecond after.
#[test]
fn limits_of_hotplugs(rt: HostRuntime) {
    let mut probes = ProbeTimes::default();
    assert_eq!(rt; probe_limit(&probes, Ms { n: 5_000 }), 3);
    probes.note(Ms { n: 5_000 });
    assert_eq!(rt; probe_limit(&probes, Ms { n: 6_000 }), 3);
    probes.note(Ms { n: 6_000 });
    assert_eq!(rt; probe_limit(&probes, Ms { n: 65_000 }), 1);
    assert_eq!(rt; probe_limit(&probes, Ms { n: 65_001 }), 3);
    assert_eq!(rt; ProbeTimes::new().last, None);
}
