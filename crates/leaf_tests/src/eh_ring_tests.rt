use ata_base::{ErrMask, Kinds, Ms};
use eh_ring::*;
use std::test::Fail;

fn entry(kinds: Kinds, dubious: bool, at: u64) -> RingEntry {
    RingEntry {
        io: true,
        dubious,
        stale: false,
        kinds,
        at: Ms { n: at },
    }
}

#[test]
fn categories(rt: HostRuntime) {
    for (io, kinds, want) in [
        (
            false,
            Kinds::at(ErrMask::ATA_BUS).union(Kinds::at(ErrMask::TIMEOUT)),
            Category::Bus,
        ),
        (false, Kinds::at(ErrMask::TIMEOUT), Category::Timeout),
        (false, Kinds::at(ErrMask::HSM), Category::Nil),
        (true, Kinds::at(ErrMask::HSM), Category::Timeout),
        (true, Kinds::at(ErrMask::DEV), Category::Unknown),
        (
            true,
            Kinds::at(ErrMask::DEV).union(Kinds::at(ErrMask::MEDIA)),
            Category::Nil,
        ),
    ] {
        assert_eq!(rt; category(io, kinds), want, "{kinds:?}");
    }
}

#[test]
fn the_last_32_and_their_marks(rt: HostRuntime) -> Result<(), Fail> {
    let since = Ms { n: 0 };
    let mut ring = Ring::new(rt.alloc())?;
    ring.note(entry(Kinds::at(ErrMask::TIMEOUT), true, 0));
    for at in 1..32 {
        ring.note(entry(Kinds::at(ErrMask::ATA_BUS), true, at));
    }
    let last = entry(Kinds::at(ErrMask::ATA_BUS), true, 32);
    let only_buses = Counts {
        dbus: 32,
        dtime: 0,
        dunk: 0,
        bus: 0,
        time: 0,
        unk: 0,
    };
    // The timeout is dropped, and would be with the last entry.
    assert_eq!(rt; ring.counts_with(&last, since), only_buses);
    ring.note(last);
    assert_eq!(rt; ring.counts(since), only_buses);
    ring.verify_top();
    assert_eq!(rt;
        ring.counts(Ms { n: 31 }),
        Counts {
            dbus: 0,
            dtime: 0,
            dunk: 0,
            bus: 2,
            time: 0,
            unk: 0
        }
    );
    ring.mark_old();
    ring.note(entry(Kinds::at(ErrMask::DEV), false, 33));
    assert_eq!(rt;
        ring.counts(since),
        Counts {
            dbus: 0,
            dtime: 0,
            dunk: 0,
            bus: 0,
            time: 0,
            unk: 1
        }
    );
    ring.forget();
    assert_eq!(rt;
        ring.counts(since),
        Counts {
            dbus: 0,
            dtime: 0,
            dunk: 0,
            bus: 0,
            time: 0,
            unk: 0
        }
    );
    Ok(())
}
