ghost use Rattle.std.specs.Prelude.{◌≡◌};
ghost use Rattle.ata_base.specs.declared.op.Op.TheVariants.{Read};

use ata_base::{Cmd, CmdId, Identity, IssueNo, Kinds, Ms, Name8, Name20, Name40, Op, Place, Tag};
use drive_model::Drive;
use hba_model::Hba;
use host_issue::*;
use host_tags::{InFlight, Slots};
use std::test::Fail;

const NOW: Ms = Ms { n: 1_000 };

fn read(id: CmdId, place: Place, lba: u64) -> Cmd
    ensures op { result.op ≡ Read lba 8 }
    ensures wait { result.wait.n ≡ 30000 }
{
    Cmd {
        id,
        place,
        op: Op::Read { lba, count: 8 },
        allow: 5,
        retries: 0,
        wait: Ms { n: 30_000 },
        attachment: 1,
    }
}

// A queued read of place 1 under tag 0, without a drive, and an unqueued one of place 0 under tag 1.
#[test]
fn issues_under_the_lowest_tags(rt: HostRuntime) -> Result<(), Fail> {
    let mut slots = Slots::new();
    let mut hba = Hba::new();
    let first = read(CmdId::at(1), Place::at(1), 8);
    let second = read(CmdId::at(2), Place::at(0), 0);
    let one = IssueNo { n: 1 };
    let two = IssueNo { n: 2 };
    let frame = [
        0x27, 0x81, 0x60, 8, 8, 0, 0, 0x40, 0, 0, 0, 0, 0, 0, 0, 0, 0, 0, 0, 0,
    ];
    let told = issue(&mut slots, &mut hba, None, &first, true, 1, NOW, one);
    assert!(rt; told == Some((Tag::at(0), frame)));
    let refused = issue(&mut slots, &mut hba, None, &second, true, 1, NOW, two);
    assert!(rt; refused.is_none());
    assert_eq!(rt; (slots.busy(), hba.active()), (1, 1));
    let frame = [
        0x27, 0x80, 0x25, 0, 0, 0, 0, 0x40, 0, 0, 0, 0, 8, 0, 0, 0, 0, 0, 0, 0,
    ];
    let told = issue(&mut slots, &mut hba, None, &second, false, 32, NOW, two);
    assert!(rt; told == Some((Tag::at(1), frame)));
    let flight = slots.get(Tag::at(1)).ok_or("flight")?;
    let want = InFlight {
        id: CmdId::at(2),
        number: two,
        place: Place::at(0),
        queued: false,
        deadline: Ms { n: 31_000 },
        expired: false,
        owned: false,
        kinds: Kinds::none(),
    };
    assert_eq!(rt; flight, want);
    assert_eq!(rt; (slots.busy(), hba.active()), (3, 3));
    Ok(())
}

// A drive that is handed in holds the issue under its tag.
#[test]
fn drives_take_issues(rt: HostRuntime) -> Result<(), Fail> {
    let identity = Identity {
        model: Name40::new(b"ALPHA").ok_or("model")?,
        serial: Name20::new(b"S1").ok_or("serial")?,
        firmware: Name8::new(b"ATAHOST1").ok_or("firmware")?,
        sectors: 64,
        depth: 32,
        gen_no: 3,
        udma: 0x7f,
    };
    let mut drive = Drive::new(rt.alloc(), identity, Ms { n: 0 })?;
    let mut slots = Slots::new();
    let mut hba = Hba::new();
    let cmd = read(CmdId::at(1), Place::at(0), 0);
    let told = issue(
        &mut slots,
        &mut hba,
        Some(&mut drive),
        &cmd,
        true,
        32,
        NOW,
        IssueNo { n: 1 },
    );
    assert!(rt; told.is_some());
    assert_eq!(rt; drive.held(), 1);
    Ok(())
}

// Of three issues the second and the third are done, and the second is owned; at 1,000 ms the first is due.
#[test]
fn issues_found(rt: HostRuntime) -> Result<(), Fail> {
    let mut slots = Slots::new();
    let mut hba = Hba::new();
    for (tag, deadline, owned) in [(0, 1_000, false), (1, 9_000, true), (2, 1_001, false)] {
        slots.put(Tag::at(tag), flight(Place::at(0), deadline, owned));
        hba.issue(Tag::at(tag), Place::at(0));
    }
    assert_eq!(rt; next_done(&slots, &hba), None);
    hba.finish(Tag::at(1));
    hba.finish(Tag::at(2));
    hba.finish(Tag::at(3));
    assert_eq!(rt; next_done(&slots, &hba), Some(Tag::at(2)));
    assert_eq!(rt;
        next_waiting(&slots, Ms { n: 999 }, false),
        Some(Tag::at(0))
    );
    assert_eq!(rt; next_waiting(&slots, NOW, false), Some(Tag::at(2)));
    assert_eq!(rt; next_waiting(&slots, NOW, true), None);
    Ok(())
}

fn flight(place: Place, deadline: u64, owned: bool) -> InFlight {
    InFlight {
        id: CmdId::at(1),
        number: IssueNo { n: 1 },
        place,
        queued: true,
        deadline: Ms { n: deadline },
        expired: false,
        owned,
        kinds: Kinds::none(),
    }
}

// Issues of place 0 under the tags 0 and 2, of which the second is owned, and one of place 1 under tag 1.
#[test]
fn issues_given_to_recovery(rt: HostRuntime) {
    let mut slots = Slots::new();
    for (tag, place, owned) in [(0, 0, false), (1, 1, false), (2, 0, true)] {
        slots.put(Tag::at(tag), flight(Place::at(place), 0, owned));
    }
    let mut all = slots;
    assert_eq!(rt; abort_link(&mut slots, Place::at(0)), 1);
    assert_eq!(rt; slots.owned(), 0b101);
    assert_eq!(rt; abort_all(&mut all), 0b011);
    assert_eq!(rt; all.owned(), 0b111);
}
