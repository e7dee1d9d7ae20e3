ghost use Rattle.std.specs.Prelude.{◌≡◌, ◌<◌, ◌^◌, IsTrue, IfOk};
ghost use Rattle.ata_base.specs.Operations.{is_data};
ghost use Rattle.ata_tf.specs.CommandCodes.{lba_of};
ghost use Rattle.drive_model.specs.Sectors.{IsShort};

use ata_base::{Fault, Identity, IssueNo, Ms, Name8, Name20, Name40, Op, Regs, Tag};
use ata_log::LogError;
use ata_tf::{of_op, to_h2d};
use drive_model::*;
use std::alloc::Global;
use std::test::Fail;

/// A drive with 64 sectors that is ready 300 ms after a reset.
fn drive(alloc: Global) -> Result<Drive, Fail>
    ensures { IfOk result (λ d. d.drive.ready.n ≡ 300) }
{
    let identity = Identity {
        model: Name40::new(b"MA").ok_or("model")?,
        serial: Name20::new(b"S1").ok_or("serial")?,
        firmware: Name8::new(b"ATAHOST1").ok_or("firmware")?,
        sectors: 64,
        depth: 32,
        gen_no: 3,
        udma: 0x7f,
    };
    Ok(Drive::new(alloc, identity, Ms { n: 300 })?)
}

fn tag(n: u8) -> Result<Tag, Fail> {
    Ok(Tag::new(n).ok_or("tag")?)
}

/// Issue `n`, unqueued.
fn give(drive: &mut Drive, n: u64, tag: Tag, op: &Op) -> Result<(), Fail>
    requires short { IsShort op.now }
    requires lba { lba_of op.now < 2 ^ 48 }
{
    let frame = to_h2d(&of_op(op, None), 0);
    drive.reserve(1)?;
    drive.take(IssueNo { n }, tag, &frame, stamp_of(op));
    Ok(())
}

/// Issue `n`, queued.
fn queue(drive: &mut Drive, n: u64, tag: Tag, op: &Op) -> Result<(), Fail>
    requires short { IsShort op.now }
    requires lba { lba_of op.now < 2 ^ 48 }
    requires queueable { IsTrue (is_data op.now) }
{
    let frame = to_h2d(&of_op(op, Some(tag)), 0);
    drive.reserve(1)?;
    drive.take(IssueNo { n }, tag, &frame, stamp_of(op));
    Ok(())
}

fn stamp_of(op: &Op) -> u64 {
    match *op {
        Op::Write { stamp, .. } => stamp,
        _ => 0,
    }
}

fn registers(status: u8, error: u8, lba: u64, count: u16) -> Option<Regs> {
    Some(Regs {
        status,
        error,
        lba,
        device: 0x40,
        count,
    })
}

const READ: Op = Op::Read { lba: 16, count: 8 };

const WRITE: Op = Op::Write {
    lba: 16,
    count: 8,
    stamp: 7,
};

fn work(drive: &mut Drive, pick: u8) -> DriveAct {
    drive.work(pick)
}

fn inject(drive: &mut Drive, fault: Fault) -> bool {
    drive.inject(&fault)
}

/// With what a command ends on a drive with this fault, and whether that stops the drive.
fn end(
    alloc: Global,
    fault: Fault,
    write: bool,
    queued: bool,
) -> Result<(Option<Regs>, bool), Fail> {
    let mut drive = drive(alloc)?;
    inject(&mut drive, fault);
    let tag = tag(3)?;
    if write {
        queue(&mut drive, 1, tag, &WRITE)?;
    } else if queued {
        queue(&mut drive, 1, tag, &READ)?;
    } else {
        give(&mut drive, 1, tag, &READ)?;
    }
    let regs = match work(&mut drive, 0) {
        DriveAct::Idle => None,
        DriveAct::Finished { regs, .. } => Some(regs),
    };
    Ok((regs, drive.stopped().is_some()))
}

#[test]
fn causes(rt: HostRuntime) -> Result<(), Fail> {
    let rows = [
        (Fault::Hang { k: 1 }, false, true, None, false),
        (
            Fault::Icrc { k: 1 },
            false,
            true,
            Some((0x41, 0x84, 0)),
            true,
        ),
        (
            Fault::Abort { k: 1 },
            true,
            true,
            Some((0x41, 0x04, 0)),
            true,
        ),
        (
            Fault::Idnf { k: 1 },
            false,
            true,
            Some((0x41, 0x10, 0)),
            true,
        ),
        (Fault::Df { k: 1 }, false, true, Some((0x60, 0, 0)), true),
        (
            Fault::BadStat { k: 1 },
            false,
            true,
            Some((0x80, 0, 0)),
            true,
        ),
        (
            Fault::Abort { k: 1 },
            false,
            false,
            Some((0x41, 0x04, 0)),
            false,
        ),
        (
            Fault::Media { lba: 20 },
            false,
            true,
            Some((0x41, 0x40, 20)),
            true,
        ),
        (
            Fault::Media { lba: 20 },
            true,
            true,
            Some((0x40, 0, 0)),
            false,
        ),
        (
            Fault::Media { lba: 24 },
            false,
            true,
            Some((0x40, 0, 0)),
            false,
        ),
    ];
    for (fault, write, queued, want, stops) in rows {
        let want = match want {
            Some((status, error, lba)) => registers(status, error, lba, 0),
            None => None,
        };
        assert_eq!(rt;
            end(rt.alloc(), fault, write, queued)?,
            (want, stops),
            "{fault:?}"
        );
    }
    Ok(())
}

/// Whether the log has a fault, its page, and the tags that are held after it was read.
type Reading = (bool, Option<[u8; 512]>, u32);

/// Whether the log has a fault, what it says of a queued read under tag 0 that was aborted, beside one under tag 1, and what is
/// held then.
fn log(alloc: Global, fault: Fault, idle: Option<Tag>) -> Result<Reading, Fail> {
    let mut drive = drive(alloc)?;
    inject(&mut drive, Fault::Abort { k: 1 });
    inject(&mut drive, fault);
    queue(&mut drive, 1, tag(0)?, &READ)?;
    queue(&mut drive, 2, tag(1)?, &READ)?;
    work(&mut drive, 0);
    let stands = drive.log_fault(idle).is_some();
    let page = drive.read_log(idle);
    Ok((stands, page, drive.held()))
}

#[test]
fn logs(rt: HostRuntime) -> Result<(), Fail> {
    let rows = [
        (Fault::Hang { k: 0 }, 2, false, Some(Ok(0)), 0),
        (Fault::LogFail { k: 1 }, 2, true, None, 2),
        (
            Fault::LogSum { k: 1 },
            2,
            true,
            Some(Err(LogError::BadSum)),
            0,
        ),
        (
            Fault::LogNq { k: 1 },
            2,
            true,
            Some(Err(LogError::NotQueued)),
            0,
        ),
        (Fault::LogIdle { k: 1 }, 2, true, Some(Ok(2)), 0),
        // All 32 tags are in flight.
        (Fault::LogIdle { k: 1 }, 32, false, Some(Ok(0)), 0),
    ];
    for (fault, idle, faulty, want, held) in rows {
        let (stands, page, left) = log(rt.alloc(), fault, Tag::new(idle))?;
        let said = match page {
            Some(page) => match ata_log::read(&page) {
                Ok((tag, _)) => Some(Ok(tag.get())),
                Err(error) => Some(Err(error)),
            },
            None => None,
        };
        assert!(rt;
            stands == faulty && said == want && left == held,
            "{fault:?}"
        );
    }
    Ok(())
}

fn stamps(act: &DriveAct) -> &[u64] {
    match act {
        DriveAct::Idle => &[],
        DriveAct::Finished { stamps, .. } => stamps.items(),
    }
}

/// Pick 33 of two issues is the second one, whose stamps are those of before the write.
#[test]
fn stamps_of_the_moment(rt: HostRuntime) -> Result<(), Fail> {
    let mut drive = drive(rt.alloc())?;
    let read = Op::Read { lba: 23, count: 2 };
    queue(&mut drive, 1, tag(0)?, &WRITE)?;
    queue(&mut drive, 2, tag(1)?, &read)?;
    assert_eq!(rt; stamps(&work(&mut drive, 33)), [0, 0].as_slice());
    work(&mut drive, 0);
    queue(&mut drive, 3, tag(1)?, &read)?;
    assert_eq!(rt; stamps(&work(&mut drive, 0)), [7, 0].as_slice());
    assert!(rt; work(&mut drive, 0) == DriveAct::Idle);
    Ok(())
}

/// A write and a read over the last two sectors and two more, both under one tag.
#[test]
fn sectors_past_the_end(rt: HostRuntime) -> Result<(), Fail> {
    let mut drive = drive(rt.alloc())?;
    let tag = tag(0)?;
    let write = Op::Write {
        lba: 62,
        count: 4,
        stamp: 9,
    };
    queue(&mut drive, 1, tag, &write)?;
    queue(&mut drive, 2, tag, &Op::Read { lba: 62, count: 4 })?;
    drive.finish(IssueNo { n: 1 });
    assert_eq!(rt; stamps(&work(&mut drive, 0)), [9, 9, 0, 0].as_slice());
    Ok(())
}

#[test]
fn power_and_identity(rt: HostRuntime) -> Result<(), Fail> {
    let mut drive = drive(rt.alloc())?;
    assert!(rt; inject(&mut drive, Fault::IdentFail { k: 1 }));
    assert!(rt; !inject(&mut drive, Fault::IdentFail { k: u32::MAX }));
    assert!(rt; !inject(&mut drive, Fault::Media { lba: 64 }));
    assert!(rt; drive.ask_identity().is_none());
    let page = drive.ask_identity().ok_or("page")?;
    assert_eq!(rt; ata_ident::read(&page)?.sectors, 64);
    give(&mut drive, 1, tag(31)?, &Op::Power)?;
    assert_eq!(rt; drive.held(), 0x8000_0000);
    assert!(rt; drive.issue(IssueNo { n: 1 }).is_some());
    match work(&mut drive, 9) {
        DriveAct::Finished { regs, .. } => assert_eq!(rt; regs.count, 255),
        DriveAct::Idle => assert!(rt; false),
    }
    Ok(())
}

#[test]
fn ready_after_a_reset(rt: HostRuntime) -> Result<(), Fail> {
    let mut drive = drive(rt.alloc())?;
    drive.drop_held();
    assert_eq!(rt; drive.ready_at(), Ms { n: 0 });
    drive.reset(Ms { n: 1_000 });
    assert_eq!(rt; drive.ready_at(), Ms { n: 1_300 });
    Ok(())
}
