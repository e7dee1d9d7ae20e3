ghost use Rattle.std.specs.Prelude.{◌≡◌, ℕ, ◌↔◌, Option, Some, IsSome, IsNone, IfSome, IsTrue};
ghost use Rattle.std.specs.Option.{IsSomeAnd};
ghost use Rattle.ata_base.specs.declared.op.Op.{Op};
ghost use Rattle.ata_base.specs.Operations.{is_data};
ghost use Rattle.ata_tf.specs.CommandCodes.{lba_of, taskfile_of, unqueued_taskfile, queued_taskfile, IsCommand, IsNoCommand, stamped, tag_in, under_tag, command_in};

use crate::taskfile::Taskfile;
use ata_base::{Op, Tag};

// The command codes (ACS-3, Command descriptions).
const READ_DMA_EXT: u8 = 0x25;

const WRITE_DMA_EXT: u8 = 0x35;

const READ_VERIFY_SECTORS_EXT: u8 = 0x42;

const READ_FPDMA_QUEUED: u8 = 0x60;

const WRITE_FPDMA_QUEUED: u8 = 0x61;

const CHECK_POWER_MODE: u8 = 0xe5;

const FLUSH_CACHE_EXT: u8 = 0xea;

/// The device register of every command: bit 6 says that the address is an LBA.
const LBA_MODE: u8 = 0x40;

/// The registers of an operation, queued under a tag or unqueued (ACS-3, the descriptions of the
/// commands that the constants above name). Only a read and a write can be queued.
///
/// The count of an unqueued command stands in `count`, and `features` is 0. The count of a queued one
/// stands in `features`, and its tag in bits 7:3 of `count`. Flush and power name no sectors.
pub fn of_op(op: &Op, queued: Option<Tag>) -> Taskfile
    requires { IsSome queued → IsTrue (is_data op.now) }
    ensures value { result ≡ taskfile_of op.now queued }
    ensures lba { result.lba ≡ lba_of op.now }
{
    match *op {
        Op::Read { lba, count } => match queued {
            None => unqueued(READ_DMA_EXT, lba, count),
            Some(tag) => queued_as(READ_FPDMA_QUEUED, lba, count, tag),
        },
        Op::Write { lba, count, .. } => match queued {
            None => unqueued(WRITE_DMA_EXT, lba, count),
            Some(tag) => queued_as(WRITE_FPDMA_QUEUED, lba, count, tag),
        },
        Op::Verify { lba, count } => unqueued(READ_VERIFY_SECTORS_EXT, lba, count),
        Op::Flush => unqueued(FLUSH_CACHE_EXT, 0, 0),
        Op::Power => unqueued(CHECK_POWER_MODE, 0, 0),
    }
}

fn unqueued(command: u8, lba: u64, count: u16) -> Taskfile
    ensures { result ≡ unqueued_taskfile command lba count }
{
    Taskfile {
        command,
        features: 0,
        lba,
        count,
        device: LBA_MODE,
    }
}

fn queued_as(command: u8, lba: u64, count: u16, tag: Tag) -> Taskfile
    ensures { result ≡ queued_taskfile command lba count tag }
{
    Taskfile {
        command,
        features: count,
        lba,
        count: u16::from(tag.get()) * 8,
        device: LBA_MODE,
    }
}

/// The operation, and the tag of a queued one, for which `of_op` gives these registers, None exactly where it gives
/// them for none. No register carries the stamp of a write: it is to be this one.
pub fn to_op(t: &Taskfile, stamp: u64) -> Option<(Op, Option<Tag>)>
    ensures none { IsNone result ↔ IsNoCommand t.now }
    ensures value { IfSome result (λ r. taskfile_of r.0 r.1 ≡ t.now) }
    ensures command { IfSome result (λ r. IsCommand r.0 r.1) }

    // What was given is read back.
    ensures back { (op : Op) (queued : Option ℕ) → IsCommand op queued
        → taskfile_of op queued ≡ t.now → result ≡ Some (stamped stamp op, queued) }
{
    let found = command_in(t, stamp);
    if is_for(&found, t) { found } else { None }
}

/// Whether there is an operation, and it has these registers.
fn is_for(found: &Option<(Op, Option<Tag>)>, t: &Taskfile) -> bool
    requires { IfSome found.now (λ r. IsSome r.1 → IsTrue (is_data r.0)) }
    ensures { IsTrue result ↔ IsSomeAnd found.now (λ r. taskfile_of r.0 r.1 ≡ t.now) }
{
    match found {
        Some((op, queued)) => of_op(op, *queued) == *t,
        None => false,
    }
}

/// What registers ask for, by the command code alone.
fn command_in(t: &Taskfile, stamp: u64) -> Option<(Op, Option<Tag>)>
    ensures value { result ≡ command_in t.now stamp }
    ensures queueable { IfSome result (λ r. IsSome r.1 → IsTrue (is_data r.0)) }
{
    let Taskfile {
        lba,
        count,
        features,
        ..
    } = *t;
    match t.command {
        READ_DMA_EXT => Some((Op::Read { lba, count }, None)),
        READ_FPDMA_QUEUED => under_tag(
            Op::Read {
                lba,
                count: features,
            },
            tag_in(t),
        ),
        WRITE_DMA_EXT => Some((Op::Write { lba, count, stamp }, None)),
        WRITE_FPDMA_QUEUED => under_tag(
            Op::Write {
                lba,
                count: features,
                stamp,
            },
            tag_in(t),
        ),
        READ_VERIFY_SECTORS_EXT => Some((Op::Verify { lba, count }, None)),
        FLUSH_CACHE_EXT => Some((Op::Flush, None)),
        CHECK_POWER_MODE => Some((Op::Power, None)),
        _ => None,
    }
}

/// A queued operation, None where there is no tag.
fn under_tag(op: Op, tag: Option<Tag>) -> Option<(Op, Option<Tag>)>
    ensures { result ≡ under_tag op tag }
{
    match tag {
        Some(tag) => Some((op, Some(tag))),
        None => None,
    }
}

/// The tag of a queued command: bits 7:3 of `count`.
fn tag_in(t: &Taskfile) -> Option<Tag>
    ensures { result ≡ tag_in t.now }
{
    match u8::try_from(t.count / 8) {
        Ok(n) => Tag::new(n),
        Err(_) => None,
    }
}
