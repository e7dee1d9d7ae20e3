ghost use Rattle.std.specs.Prelude.{◌≡◌};
ghost use Rattle.ata_trace.specs.Ranges.{IsAct};
ghost use Rattle.port_core.specs.ActGroups.{group_of};
ghost use Rattle.port_core.specs.ActGroups.ActGroup.{Waiting, OfDrive, Answers, Judgements, Logs, Rings, Resets, Devices, Times, Plain};

use crate::number_ranges::{
    count_in_range, drive_in_range, frame_in_range, id_in_range, issue_in_range, kinds_in_range,
    long_in_range, name_in_range, place_in_range, registers_in_range, small_in_range,
    speed_in_range, stamps_in_range, tag_in_range, where_in_range,
};
use ata_trace::Act;

/// Each act is one that there is: its numbers are in the ranges of their types. It changes nothing.
#[tactic(auto, using(crate::proofs::NumberRanges::of_groups))]
pub(crate) fn in_range(act: &Act)
    ensures { IsAct act.now }
{
    waiting_in_range(act);
    of_drive_in_range(act);
    answer_in_range(act);
    judgement_in_range(act);
    log_in_range(act);
    ring_in_range(act);
    reset_in_range(act);
    device_in_range(act);
    time_in_range(act);
    plain_in_range(act);
}

// Those of commands that wait or are issued.
fn waiting_in_range(act: &Act)
    ensures { group_of act.now ≡ Waiting → IsAct act.now }
{
    match act {
        Act::Accepted { id } => id_in_range(*id),
        Act::Refused { id, .. } => id_in_range(*id),
        Act::Issued {
            id,
            number,
            tag,
            deadline,
            fis,
        } => {
            issue_in_range(*id, *number);
            tag_in_range(*tag);
            long_in_range(deadline.n);
            frame_in_range(fis);
        }
        Act::Deferred { id, .. } => id_in_range(*id),
        Act::Exclusive { place } => place_in_range(*place),
        _ => {}
    }
}

// Those of the drive and of the timer.
fn of_drive_in_range(act: &Act)
    ensures { group_of act.now ≡ OfDrive → IsAct act.now }
{
    match act {
        Act::Done {
            number,
            status,
            error,
            lba,
            count,
        } => {
            long_in_range(number.n);
            registers_in_range(*status, *error, *lba, *count);
        }
        Act::Aborted { number } => long_in_range(number.n),
        Act::Expired { id, number } => issue_in_range(*id, *number),
        _ => {}
    }
}

// Those of a command that is answered with success or without a device, or tried again.
fn answer_in_range(act: &Act)
    ensures { group_of act.now ≡ Answers → IsAct act.now }
{
    match act {
        Act::AnsweredOk {
            id,
            number,
            status,
            error,
            lba,
            count,
            stamps,
        } => {
            issue_in_range(*id, *number);
            registers_in_range(*status, *error, *lba, *count);
            stamps_in_range(stamps);
        }
        Act::AnsweredNodev { id, number } => issue_in_range(*id, *number),
        Act::Retried { id, number, .. } => issue_in_range(*id, *number),
        _ => {}
    }
}

// Those with kinds of error.
fn judgement_in_range(act: &Act)
    ensures { group_of act.now ≡ Judgements → IsAct act.now }
{
    match act {
        Act::AnsweredFailed {
            id,
            number,
            kinds,
            status,
            error,
            lba,
            count,
        } => {
            issue_in_range(*id, *number);
            kinds_in_range(*kinds);
            registers_in_range(*status, *error, *lba, *count);
        }
        Act::Condemned { number, kinds } => {
            long_in_range(number.n);
            kinds_in_range(*kinds);
        }
        Act::Judged { number, kinds } => {
            long_in_range(number.n);
            kinds_in_range(*kinds);
        }
        Act::Action { place, kinds, .. } => {
            place_in_range(*place);
            kinds_in_range(*kinds);
        }
        _ => {}
    }
}

// Those of the error log.
fn log_in_range(act: &Act)
    ensures { group_of act.now ≡ Logs → IsAct act.now }
{
    match act {
        Act::Log {
            place,
            tag,
            status,
            error,
            lba,
            count,
        } => {
            place_in_range(*place);
            tag_in_range(*tag);
            small_in_range(*status);
            small_in_range(*error);
            long_in_range(*lba);
            count_in_range(*count);
        }
        Act::LogFailed { place } => place_in_range(*place),
        Act::LogBadSum { place } => place_in_range(*place),
        Act::LogNotQueued { place } => place_in_range(*place),
        _ => {}
    }
}

// Those of the ring and of the speed.
fn ring_in_range(act: &Act)
    ensures { group_of act.now ≡ Rings → IsAct act.now }
{
    match act {
        Act::Recorded {
            place,
            kinds,
            action,
            ..
        } => {
            place_in_range(*place);
            kinds_in_range(*kinds);
            speed_in_range(*action);
        }
        Act::Cleared { place } => place_in_range(*place),
        Act::Hot { place, generation } => {
            place_in_range(*place);
            small_in_range(*generation);
        }
        Act::Mode { place, udma, .. } => {
            place_in_range(*place);
            small_in_range(*udma);
        }
        _ => {}
    }
}

// Those of resets, and of asking a drive who it is.
fn reset_in_range(act: &Act)
    ensures { group_of act.now ≡ Resets → IsAct act.now }
{
    match act {
        Act::ResetBegun {
            place,
            attempt,
            deadline,
        } => {
            where_in_range(*place);
            small_in_range(*attempt);
            long_in_range(deadline.n);
        }
        Act::ResetLate { place } => where_in_range(*place),
        Act::ResetFailed { place } => where_in_range(*place),
        Act::ResetEndedGen { place, generation } => {
            place_in_range(*place);
            small_in_range(*generation);
        }
        Act::ResetEndedNone { place } => place_in_range(*place),
        Act::IdentAsked {
            place,
            attempt,
            deadline,
        } => {
            place_in_range(*place);
            small_in_range(*attempt);
            long_in_range(deadline.n);
        }
        Act::IdentLate { place } => place_in_range(*place),
        _ => {}
    }
}

// Those of devices.
fn device_in_range(act: &Act)
    ensures { group_of act.now ≡ Devices → IsAct act.now }
{
    match act {
        Act::Identified {
            place,
            model,
            serial,
            sectors,
            depth,
        } => {
            place_in_range(*place);
            name_in_range(model);
            name_in_range(serial);
            long_in_range(*sectors);
            small_in_range(*depth);
        }
        Act::Same { place } => place_in_range(*place),
        Act::Attached { place } => place_in_range(*place),
        Act::Detached { place } => place_in_range(*place),
        Act::Disabled { place } => place_in_range(*place),
        _ => {}
    }
}

// Those of time, of what is waited for, and of what is plugged or put in.
fn time_in_range(act: &Act)
    ensures { group_of act.now ≡ Times → IsAct act.now }
{
    match act {
        Act::WaitingTag { tag } => tag_in_range(*tag),
        Act::WaitingReset { place } => place_in_range(*place),
        Act::WaitingIdent { place } => place_in_range(*place),
        Act::Now { at } => long_in_range(at.n),
        Act::Plugged { place, drive } => {
            place_in_range(*place);
            drive_in_range(*drive);
        }
        Act::Unplugged { place } => place_in_range(*place),
        Act::Injected { place } => place_in_range(*place),
        _ => {}
    }
}

// Those without a number.
fn plain_in_range(act: &Act)
    ensures { group_of act.now ≡ Plain → IsAct act.now }
{
    let _ = act;
}
