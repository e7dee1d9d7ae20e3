ghost use Rattle.std.specs.Prelude.{◌≡◌, ◌+◌, ◌<◌, ◌^◌, true, IsTrue, IfSome, IfNone, option_map};
ghost use Rattle.std.specs.Option.{ForSome};
ghost use Rattle.ata_base.specs.Operations.{is_data};
ghost use Rattle.ata_tf.specs.CommandCodes.{lba_of};
ghost use Rattle.drive_model.specs.Sectors.{IsShort};
ghost use Rattle.hba_model.specs.Tags.{issued};
ghost use Rattle.host_issue.specs.Issuing.{GoesOut, Holds, frame_of, issue_of, tag_named};
ghost use Rattle.host_tags.specs.Slots.{free_below, put};

use ata_base::{Cmd, IssueNo, Kinds, Ms, Tag};
use ata_tf::{of_op, to_h2d};
use drive_model::Drive;
use hba_model::Hba;
use host_tags::{InFlight, Slots};

/// Issues a command at the time `now` as issue `number`, queued or not: it claims the lowest free tag below `limit`,
/// makes its frame, and hands it to the controller and, where a drive is handed in, to the drive. Answers the tag and
/// the frame. `None` exactly where no tag below `limit` is free; then nothing changes.
///
/// Only a read and a write can be queued. The sectors' address is below 2^48, and the time and the command's wait fit
/// 64 bits. A drive has memory for one issue more, and a read at most 16 sectors.
pub fn issue(
    slots: &mut Slots,
    hba: &mut Hba,
    drive: Option<&mut Drive>,
    cmd: &Cmd,
    queued: bool,
    limit: u8,
    now: Ms,
    number: IssueNo,
) -> Option<(Tag, [u8; 20])>
    requires queueable { IsTrue queued → IsTrue (is_data cmd.now.op) }
    requires lba { lba_of cmd.now.op < 2 ^ 48 }
    requires deadline { now.n + cmd.now.wait.n < 2 ^ 64 }
    requires spare { ForSome drive (λ d. 0 < d.now.spare) }
    requires short { ForSome drive (λ _. IsShort cmd.now.op) }
    ensures tag { option_map (λ issued. issued.0) result ≡ free_below limit slots.old }
    ensures frame { IfSome result (λ issued. issued.1 ≡ frame_of cmd.now queued issued.0) }
    ensures slots { IfSome result (λ issued.
        slots.new ≡ put issued.0 (issue_of cmd.now queued now.n number) slots.old) }
    ensures hba { IfSome result (λ told.
        hba.new ≡ record hba.old { tags = issued told.0 cmd.now.place hba.old.tags }) }
    ensures drive { IfSome result (λ issued.
        GoesOut (Holds number issued.0 cmd.now.op queued) drive.entry drive.exit) }
    ensures no_slots { IfNone result (slots.new ≡ slots.old) }
    ensures no_hba { IfNone result (hba.new ≡ hba.old) }
    ensures no_drive { IfNone result (GoesOut (λ was is. is ≡ was) drive.entry drive.exit) }
{
    match drive {
        Some(drive) => issue_to(slots, hba, drive, cmd, queued, limit, now, number),
        None => issue_alone(slots, hba, cmd, queued, limit, now, number),
    }
}

/// Issues a command to the controller and to a drive.
fn issue_to(
    slots: &mut Slots,
    hba: &mut Hba,
    drive: &mut Drive,
    cmd: &Cmd,
    queued: bool,
    limit: u8,
    now: Ms,
    number: IssueNo,
) -> Option<(Tag, [u8; 20])>
    requires queueable { IsTrue queued → IsTrue (is_data cmd.now.op) }
    requires lba { lba_of cmd.now.op < 2 ^ 48 }
    requires deadline { now.n + cmd.now.wait.n < 2 ^ 64 }
    requires spare { 0 < drive.old.spare }
    requires short { IsShort cmd.now.op }
    ensures tag { option_map (λ issued. issued.0) result ≡ free_below limit slots.old }
    ensures frame { IfSome result (λ issued. issued.1 ≡ frame_of cmd.now queued issued.0) }
    ensures slots { IfSome result (λ issued.
        slots.new ≡ put issued.0 (issue_of cmd.now queued now.n number) slots.old) }
    ensures hba { IfSome result (λ told.
        hba.new ≡ record hba.old { tags = issued told.0 cmd.now.place hba.old.tags }) }
    ensures drive { IfSome result (λ issued. Holds number issued.0 cmd.now.op queued drive.old drive.new) }
    ensures no_slots { IfNone result (slots.new ≡ slots.old) }
    ensures no_hba { IfNone result (hba.new ≡ hba.old) }
    ensures no_drive { IfNone result (drive.new ≡ drive.old) }
{
    match slots.claim(limit, in_flight(cmd, queued, now, number)) {
        Some(tag) => {
            let frame = frame(cmd, queued, tag);
            hba.issue(tag, cmd.place);
            drive.hold(number, tag, &cmd.op, queued);
            Some((tag, frame))
        }
        None => None,
    }
}

/// Issues a command to the controller.
fn issue_alone(
    slots: &mut Slots,
    hba: &mut Hba,
    cmd: &Cmd,
    queued: bool,
    limit: u8,
    now: Ms,
    number: IssueNo,
) -> Option<(Tag, [u8; 20])>
    requires queueable { IsTrue queued → IsTrue (is_data cmd.now.op) }
    requires lba { lba_of cmd.now.op < 2 ^ 48 }
    requires deadline { now.n + cmd.now.wait.n < 2 ^ 64 }
    ensures tag { option_map (λ issued. issued.0) result ≡ free_below limit slots.old }
    ensures frame { IfSome result (λ issued. issued.1 ≡ frame_of cmd.now queued issued.0) }
    ensures slots { IfSome result (λ issued.
        slots.new ≡ put issued.0 (issue_of cmd.now queued now.n number) slots.old) }
    ensures hba { IfSome result (λ told.
        hba.new ≡ record hba.old { tags = issued told.0 cmd.now.place hba.old.tags }) }
    ensures no_slots { IfNone result (slots.new ≡ slots.old) }
    ensures no_hba { IfNone result (hba.new ≡ hba.old) }
{
    match slots.claim(limit, in_flight(cmd, queued, now, number)) {
        Some(tag) => {
            let frame = frame(cmd, queued, tag);
            hba.issue(tag, cmd.place);
            Some((tag, frame))
        }
        None => None,
    }
}

/// The command in flight as issue `number`.
fn in_flight(cmd: &Cmd, queued: bool, now: Ms, number: IssueNo) -> InFlight
    requires { now.n + cmd.now.wait.n < 2 ^ 64 }
    ensures { result ≡ issue_of cmd.now queued now.n number }
{
    InFlight {
        id: cmd.id,
        number,
        place: cmd.place,
        queued,
        deadline: Ms {
            n: now.n + cmd.wait.n,
        },
        expired: false,
        owned: false,
        kinds: Kinds::none(),
    }
}

/// The frame of a command under a tag.
fn frame(cmd: &Cmd, queued: bool, tag: Tag) -> [u8; 20]
    requires queueable { IsTrue queued → IsTrue (is_data cmd.now.op) }
    requires lba { lba_of cmd.now.op < 2 ^ 48 }
    ensures { result ≡ frame_of cmd.now queued tag }
{
    to_h2d(&of_op(&cmd.op, tag_named(queued, tag)), cmd.place.get())
}

/// The tag that a frame names: a queued command's.
fn tag_named(queued: bool, tag: Tag) -> Option<Tag>
    ensures { result ≡ tag_named queued tag }
{
    if queued { Some(tag) } else { None }
}
