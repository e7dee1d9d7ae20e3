ghost use Rattle.std.specs.Prelude.{◌≡◌, ◌<◌, ◌≤◌, length};
ghost use Rattle.ata_trace.specs.Text.{joined, act_words, drive_words, answer_words, judgement_words, recovery_words, log_words, ring_words, reset_words, device_words, other_words};

use crate::act::Act;
use crate::line::Line;
use crate::pieces::{
    action_word, deferral_word, either, put_id, put_issue, put_kinds, put_number, put_numbers,
    put_place, put_place_number, put_place_word, put_registers, put_speed, put_verdict, put_where,
    refusal_word,
};

// The words of acts, in groups: each writes its own, and gives every other act to the next.

/// Appends the words of an act. First those of commands.
pub(crate) fn put_act(line: &mut Line, act: &Act)
    requires { length line.old ≤ 1 }
    ensures text { line.new ≡ joined line.old (act_words act.now) }
    ensures len { length line.new < 500 }
{
    match act {
        Act::Accepted { id } => put_id(line, b"accepted", *id),
        Act::Refused { id, why } => {
            put_id(line, b"refused", *id);
            line.word(refusal_word(*why));
        }
        Act::Issued {
            id,
            number,
            tag,
            deadline,
            fis,
        } => {
            put_issue(line, b"issued", *id, *number);
            line.number(tag.get() as u64);
            line.number(deadline.n);
            line.frame(fis);
        }
        Act::Deferred { id, why } => {
            put_id(line, b"deferred", *id);
            line.word(deferral_word(*why));
        }
        Act::Exclusive { place } => put_place(line, b"exclusive", *place),
        _ => put_drive_act(line, act),
    }
}

// Those of the drive, of the interrupt line and of the timer.
fn put_drive_act(line: &mut Line, act: &Act)
    requires { length line.old ≤ 1 }
    ensures text { line.new ≡ joined line.old (drive_words act.now) }
    ensures len { length line.new < 500 }
{
    match act {
        Act::Done {
            number,
            status,
            error,
            lba,
            count,
        } => {
            put_number(line, b"done", number.n);
            put_registers(line, *status, *error, *lba, *count);
        }
        Act::Aborted { number } => put_number(line, b"aborted", number.n),
        Act::Raised => line.word(b"raised"),
        Act::Lost => line.word(b"lost"),
        Act::Expired { id, number } => put_issue(line, b"expired", *id, *number),
        Act::Drained => line.word(b"drained"),
        _ => put_answer(line, act),
    }
}

// Those of a command that recovery leaves alone, that has no device or that is tried again.
fn put_answer(line: &mut Line, act: &Act)
    requires { length line.old ≤ 1 }
    ensures text { line.new ≡ joined line.old (answer_words act.now) }
    ensures len { length line.new < 500 }
{
    match act {
        Act::AnsweredOk {
            id,
            number,
            status,
            error,
            lba,
            count,
            stamps,
        } => {
            put_issue(line, b"answered", *id, *number);
            line.word(b"ok");
            put_registers(line, *status, *error, *lba, *count);
            put_numbers(line, stamps.items());
        }
        Act::AnsweredNodev { id, number } => {
            put_issue(line, b"answered", *id, *number);
            line.word(b"nodev");
        }
        Act::Retried {
            id,
            number,
            allowance_raised,
        } => {
            put_issue(line, b"retried", *id, *number);
            line.word(either(*allowance_raised, b"yes", b"no"));
        }
        _ => put_judgement(line, act),
    }
}

// Those with kinds of error.
fn put_judgement(line: &mut Line, act: &Act)
    requires { length line.old ≤ 1 }
    ensures text { line.new ≡ joined line.old (judgement_words act.now) }
    ensures len { length line.new < 500 }
{
    match act {
        Act::AnsweredFailed {
            id,
            number,
            kinds,
            status,
            error,
            lba,
            count,
        } => {
            put_issue(line, b"answered", *id, *number);
            line.word(b"failed");
            put_kinds(line, *kinds);
            put_registers(line, *status, *error, *lba, *count);
        }
        Act::Condemned { number, kinds } => {
            put_number(line, b"condemned", number.n);
            put_kinds(line, *kinds);
        }
        Act::Judged { number, kinds } => {
            put_number(line, b"judged", number.n);
            put_kinds(line, *kinds);
        }
        Act::Action {
            place,
            kinds,
            action,
        } => {
            put_place(line, b"action", *place);
            put_kinds(line, *kinds);
            line.word(action_word(*action));
        }
        _ => put_recovery_act(line, act),
    }
}

// Those of the stages of recovery.
fn put_recovery_act(line: &mut Line, act: &Act)
    requires { length line.old ≤ 1 }
    ensures text { line.new ≡ joined line.old (recovery_words act.now) }
    ensures len { length line.new < 500 }
{
    match act {
        Act::Frozen => line.word(b"frozen"),
        Act::Thawed => line.word(b"thawed"),
        Act::Requested => line.word(b"requested"),
        Act::Begun => line.word(b"begun"),
        Act::Autopsied => line.word(b"autopsied"),
        Act::Ended => line.word(b"ended"),
        _ => put_log_act(line, act),
    }
}

// Those of the error log.
fn put_log_act(line: &mut Line, act: &Act)
    requires { length line.old ≤ 1 }
    ensures text { line.new ≡ joined line.old (log_words act.now) }
    ensures len { length line.new < 500 }
{
    match act {
        Act::Log {
            place,
            tag,
            status,
            error,
            lba,
            count,
        } => {
            put_place(line, b"log", *place);
            line.word(b"tag");
            line.number(tag.get() as u64);
            put_registers(line, *status, *error, *lba, *count);
        }
        Act::LogFailed { place } => put_place_word(line, b"log", *place, b"failed"),
        Act::LogBadSum { place } => put_place_word(line, b"log", *place, b"bad-sum"),
        Act::LogNotQueued { place } => put_place_word(line, b"log", *place, b"not-queued"),
        _ => put_ring_act(line, act),
    }
}

// Those of the ring of errors.
fn put_ring_act(line: &mut Line, act: &Act)
    requires { length line.old ≤ 1 }
    ensures text { line.new ≡ joined line.old (ring_words act.now) }
    ensures len { length line.new < 500 }
{
    match act {
        Act::Recorded {
            place,
            io,
            dubious,
            kinds,
            ncq_off,
            speed_down,
            pio,
            keep,
            action,
        } => {
            put_place_word(line, b"recorded", *place, either(*io, b"io", b"other"));
            line.word(either(*dubious, b"dubious", b"clean"));
            put_kinds(line, *kinds);
            put_verdict(line, *ncq_off, *speed_down, *pio, *keep);
            put_speed(line, action);
        }
        Act::Cleared { place } => put_place(line, b"cleared", *place),
        Act::Hot { place, generation } => put_place_number(
            line,
            b"hot",
            *place,
            *generation as u64,
        ),
        _ => put_reset_act(line, act),
    }
}

// Those of resets, and of asking who a drive is.
fn put_reset_act(line: &mut Line, act: &Act)
    requires { length line.old ≤ 1 }
    ensures text { line.new ≡ joined line.old (reset_words act.now) }
    ensures len { length line.new < 500 }
{
    match act {
        Act::ResetBegun {
            place,
            attempt,
            deadline,
        } => {
            put_where(line, b"reset-begun", *place);
            line.number(*attempt as u64);
            line.number(deadline.n);
        }
        Act::ResetLate { place } => put_where(line, b"reset-late", *place),
        Act::ResetFailed { place } => put_where(line, b"reset-failed", *place),
        Act::ResetEndedGen { place, generation } => {
            put_place_word(line, b"reset-ended", *place, b"gen");
            line.number(*generation as u64);
        }
        Act::ResetEndedNone { place } => put_place_word(line, b"reset-ended", *place, b"none"),
        Act::ResetEndedHost => {
            line.word(b"reset-ended");
            line.word(b"host");
        }
        Act::IdentAsked {
            place,
            attempt,
            deadline,
        } => {
            put_place_number(line, b"ident-asked", *place, *attempt as u64);
            line.number(deadline.n);
        }
        Act::IdentLate { place } => put_place(line, b"ident-late", *place),
        _ => put_device_act(line, act),
    }
}

// Those of devices.
fn put_device_act(line: &mut Line, act: &Act)
    requires { length line.old ≤ 1 }
    ensures text { line.new ≡ joined line.old (device_words act.now) }
    ensures len { length line.new < 500 }
{
    match act {
        Act::Identified {
            place,
            model,
            serial,
            sectors,
            depth,
        } => {
            put_place(line, b"identified", *place);
            line.word(model.bytes());
            line.word(serial.bytes());
            line.number(*sectors);
            line.number(*depth as u64);
        }
        Act::Same { place } => put_place(line, b"same", *place),
        Act::Attached { place } => put_place(line, b"attached", *place),
        Act::Detached { place } => put_place(line, b"detached", *place),
        Act::Disabled { place } => put_place(line, b"disabled", *place),
        Act::Mode {
            place,
            udma,
            ncq,
            dubious,
        } => {
            put_place_number(line, b"mode", *place, *udma as u64);
            line.word(either(*ncq, b"on", b"off"));
            line.word(either(*dubious, b"dubious", b"clean"));
        }
        _ => put_other_act(line, act),
    }
}

// Those of waiting, of the time, of plugs and of nothing.
fn put_other_act(line: &mut Line, act: &Act)
    requires { length line.old ≤ 1 }
    ensures text { line.new ≡ joined line.old (other_words act.now) }
    ensures len { length line.new < 500 }
{
    match act {
        Act::WaitingTag { tag } => {
            line.word(b"waiting");
            line.word(b"tag");
            line.number(tag.get() as u64);
        }
        Act::WaitingReset { place } => {
            line.word(b"waiting");
            put_place(line, b"reset", *place);
        }
        Act::WaitingIdent { place } => {
            line.word(b"waiting");
            put_place(line, b"ident", *place);
        }
        Act::Now { at } => put_number(line, b"now", at.n),
        Act::Plugged { place, drive } => put_place_number(
            line,
            b"plugged",
            *place,
            drive.get() as u64,
        ),
        Act::Unplugged { place } => put_place(line, b"unplugged", *place),
        Act::Injected { place } => put_place(line, b"injected", *place),
        _ => line.word(b"nothing"),
    }
}
