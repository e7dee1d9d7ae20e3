use ata_base::{Deferral, Place};
use host_defer::*;
use std::test::Fail;

// Whether the port is frozen, is recovering, has a multiplier, and switches by frames; the place that has it to
// itself; and the place of the issue under tag 0, and whether that is queued.
fn view(
    frozen: bool,
    recovering: bool,
    pmp: bool,
    fbs: bool,
    exclusive: Option<Place>,
    issue: Option<(Place, bool)>,
) -> View {
    let mut slots = [None; 32];
    slots[0] = issue;
    View {
        frozen,
        recovering,
        pmp,
        fbs,
        exclusive,
        slots,
    }
}

// A direct port, its issue.
fn direct(issue: Option<(Place, bool)>) -> View {
    view(false, false, false, false, None, issue)
}

// A port with a multiplier: whether it switches by frames, its exclusive place, its issue.
fn multiplier(fbs: bool, exclusive: Option<Place>, issue: Option<(Place, bool)>) -> View {
    view(false, false, true, fbs, exclusive, issue)
}

// Each row: a view, the place of a command, whether it is queued, the depth of its device, and what is told.
#[test]
fn reasons_to_defer(rt: HostRuntime) -> Result<(), Fail> {
    let a = Place::new(0).ok_or("place 0")?;
    let b = Place::new(1).ok_or("place 1")?;
    let rows = [
        ("quiet", direct(None), a, true, 1, Ok(())),
        (
            "frozen",
            view(true, true, false, false, None, None),
            a,
            true,
            32,
            Err(Deferral::Frozen),
        ),
        (
            "recovering",
            view(false, true, false, false, None, Some((a, false))),
            a,
            true,
            32,
            Err(Deferral::Recovering),
        ),
        (
            "queued beside queued",
            direct(Some((a, true))),
            a,
            true,
            32,
            Ok(()),
        ),
        (
            "queued beside unqueued",
            multiplier(false, None, Some((a, false))),
            a,
            true,
            32,
            Err(Deferral::LinkBusy),
        ),
        (
            "unqueued beside queued",
            multiplier(true, None, Some((a, true))),
            a,
            false,
            32,
            Err(Deferral::LinkBusy),
        ),
        ("direct port", direct(Some((a, true))), b, false, 32, Ok(())),
        (
            "another place's issue",
            multiplier(false, None, Some((a, true))),
            b,
            true,
            32,
            Err(Deferral::PortBusy),
        ),
        (
            "another place's issue, FIS-based",
            multiplier(true, None, Some((a, true))),
            b,
            true,
            32,
            Ok(()),
        ),
        (
            "another place's port",
            multiplier(false, Some(b), None),
            a,
            true,
            32,
            Err(Deferral::PortBusy),
        ),
        (
            "another place's port, FIS-based",
            multiplier(true, Some(b), None),
            a,
            true,
            32,
            Ok(()),
        ),
        (
            "this place's port",
            multiplier(false, Some(b), None),
            b,
            true,
            32,
            Ok(()),
        ),
        (
            "no tag below the depth",
            direct(Some((a, true))),
            a,
            true,
            1,
            Err(Deferral::NoTag),
        ),
        (
            "queued without depth",
            direct(None),
            a,
            true,
            0,
            Err(Deferral::NoTag),
        ),
        ("unqueued without depth", direct(None), a, false, 0, Ok(())),
    ];
    for (name, view, place, queued, limit, want) in rows {
        assert!(rt; may_issue(&view, place, queued, limit) == want, "{name}");
    }
    Ok(())
}
