ghost use Rattle.std.specs.Prelude.{◌≡◌, ◌≤◌};
ghost use Rattle.ata_trace.specs.Ranks.{rank};

use crate::act::Act;

// An act once more. The kinds come in groups, of which the first has those of a command on its way.
pub(crate) fn copy_of(act: &Act) -> Act
    ensures { result ≡ act.now }
{
    match act {
        Act::Accepted { id } => Act::Accepted { id: *id },
        Act::Refused { id, why } => Act::Refused { id: *id, why: *why },
        Act::Issued {
            id,
            number,
            tag,
            deadline,
            fis,
        } => Act::Issued {
            id: *id,
            number: *number,
            tag: *tag,
            deadline: *deadline,
            fis: *fis,
        },
        Act::Deferred { id, why } => Act::Deferred { id: *id, why: *why },
        Act::Exclusive { place } => Act::Exclusive { place: *place },
        Act::Done {
            number,
            status,
            error,
            lba,
            count,
        } => Act::Done {
            number: *number,
            status: *status,
            error: *error,
            lba: *lba,
            count: *count,
        },
        Act::Raised => Act::Raised,
        Act::Lost => Act::Lost,
        _ => copy_of_answer(act),
    }
}

// One of an answer.
fn copy_of_answer(act: &Act) -> Act
    requires { 1 ≤ rank act.now }
    ensures { result ≡ act.now }
{
    match act {
        Act::AnsweredOk {
            id,
            number,
            status,
            error,
            lba,
            count,
            stamps,
        } => Act::AnsweredOk {
            id: *id,
            number: *number,
            status: *status,
            error: *error,
            lba: *lba,
            count: *count,
            stamps: stamps.copy(),
        },
        Act::AnsweredFailed {
            id,
            number,
            kinds,
            status,
            error,
            lba,
            count,
        } => Act::AnsweredFailed {
            id: *id,
            number: *number,
            kinds: *kinds,
            status: *status,
            error: *error,
            lba: *lba,
            count: *count,
        },
        Act::AnsweredNodev { id, number } => Act::AnsweredNodev {
            id: *id,
            number: *number,
        },
        _ => copy_of_issue(act),
    }
}

// One of an issue.
fn copy_of_issue(act: &Act) -> Act
    requires { 2 ≤ rank act.now }
    ensures { result ≡ act.now }
{
    match act {
        Act::Aborted { number } => Act::Aborted { number: *number },
        Act::Expired { id, number } => Act::Expired {
            id: *id,
            number: *number,
        },
        Act::Condemned { number, kinds } => Act::Condemned {
            number: *number,
            kinds: *kinds,
        },
        Act::Judged { number, kinds } => Act::Judged {
            number: *number,
            kinds: *kinds,
        },
        Act::Retried {
            id,
            number,
            allowance_raised,
        } => Act::Retried {
            id: *id,
            number: *number,
            allowance_raised: *allowance_raised,
        },
        _ => copy_of_port(act),
    }
}

// One of the port as a whole.
fn copy_of_port(act: &Act) -> Act
    requires { 3 ≤ rank act.now }
    ensures { result ≡ act.now }
{
    match act {
        Act::Drained => Act::Drained,
        Act::Frozen => Act::Frozen,
        Act::Thawed => Act::Thawed,
        Act::Requested => Act::Requested,
        Act::Begun => Act::Begun,
        Act::Autopsied => Act::Autopsied,
        Act::Ended => Act::Ended,
        Act::ResetEndedHost => Act::ResetEndedHost,
        Act::Nothing => Act::Nothing,
        _ => copy_of_log(act),
    }
}

// One of an error log.
fn copy_of_log(act: &Act) -> Act
    requires { 4 ≤ rank act.now }
    ensures { result ≡ act.now }
{
    match act {
        Act::Log {
            place,
            tag,
            status,
            error,
            lba,
            count,
        } => Act::Log {
            place: *place,
            tag: *tag,
            status: *status,
            error: *error,
            lba: *lba,
            count: *count,
        },
        Act::LogFailed { place } => Act::LogFailed { place: *place },
        Act::LogBadSum { place } => Act::LogBadSum { place: *place },
        Act::LogNotQueued { place } => Act::LogNotQueued { place: *place },
        _ => copy_of_judgement(act),
    }
}

// One of the judgement of a place.
fn copy_of_judgement(act: &Act) -> Act
    requires { 5 ≤ rank act.now }
    ensures { result ≡ act.now }
{
    match act {
        Act::Recorded {
            place,
            io,
            dubious,
            kinds,
            ncq_off,
            speed_down,
            pio,
            keep,
            action,
        } => Act::Recorded {
            place: *place,
            io: *io,
            dubious: *dubious,
            kinds: *kinds,
            ncq_off: *ncq_off,
            speed_down: *speed_down,
            pio: *pio,
            keep: *keep,
            action: *action,
        },
        Act::Cleared { place } => Act::Cleared { place: *place },
        Act::Hot { place, generation } => Act::Hot {
            place: *place,
            generation: *generation,
        },
        Act::Action {
            place,
            kinds,
            action,
        } => Act::Action {
            place: *place,
            kinds: *kinds,
            action: *action,
        },
        _ => copy_of_reset(act),
    }
}

// One of a reset.
fn copy_of_reset(act: &Act) -> Act
    requires { 6 ≤ rank act.now }
    ensures { result ≡ act.now }
{
    match act {
        Act::ResetBegun {
            place,
            attempt,
            deadline,
        } => Act::ResetBegun {
            place: *place,
            attempt: *attempt,
            deadline: *deadline,
        },
        Act::ResetLate { place } => Act::ResetLate { place: *place },
        Act::ResetFailed { place } => Act::ResetFailed { place: *place },
        Act::ResetEndedGen { place, generation } => Act::ResetEndedGen {
            place: *place,
            generation: *generation,
        },
        Act::ResetEndedNone { place } => Act::ResetEndedNone { place: *place },
        _ => copy_of_identity(act),
    }
}

// One of the identity of a device.
fn copy_of_identity(act: &Act) -> Act
    requires { 7 ≤ rank act.now }
    ensures { result ≡ act.now }
{
    match act {
        Act::IdentAsked {
            place,
            attempt,
            deadline,
        } => Act::IdentAsked {
            place: *place,
            attempt: *attempt,
            deadline: *deadline,
        },
        Act::IdentLate { place } => Act::IdentLate { place: *place },
        Act::Identified {
            place,
            model,
            serial,
            sectors,
            depth,
        } => Act::Identified {
            place: *place,
            model: model.copy(),
            serial: serial.copy(),
            sectors: *sectors,
            depth: *depth,
        },
        Act::Same { place } => Act::Same { place: *place },
        _ => copy_of_device(act),
    }
}

// One of a device and its modes.
fn copy_of_device(act: &Act) -> Act
    requires { 8 ≤ rank act.now }
    ensures { result ≡ act.now }
{
    match act {
        Act::Attached { place } => Act::Attached { place: *place },
        Act::Detached { place } => Act::Detached { place: *place },
        Act::Disabled { place } => Act::Disabled { place: *place },
        Act::Mode {
            place,
            udma,
            ncq,
            dubious,
        } => Act::Mode {
            place: *place,
            udma: *udma,
            ncq: *ncq,
            dubious: *dubious,
        },
        _ => copy_of_time(act),
    }
}

// One of the time, of what is waited for, of plugs and faults.
fn copy_of_time(act: &Act) -> Act
    requires { 9 ≤ rank act.now }
    ensures { result ≡ act.now }
{
    match act {
        Act::Now { at } => Act::Now { at: *at },
        Act::WaitingTag { tag } => Act::WaitingTag { tag: *tag },
        Act::WaitingReset { place } => Act::WaitingReset { place: *place },
        Act::WaitingIdent { place } => Act::WaitingIdent { place: *place },
        Act::Plugged { place, drive } => Act::Plugged {
            place: *place,
            drive: *drive,
        },
        Act::Unplugged { place } => Act::Unplugged { place: *place },
        Act::Injected { place } => Act::Injected { place: *place },
        _ => unreachable!(),
    }
}
