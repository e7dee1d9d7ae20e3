ghost use Rattle.std.specs.Prelude.{◌≡◌, ◌<◌, length, List, ℕ, Some, IfSome};
ghost use Rattle.ata_trace.specs.Parts.{words_of};
ghost use Rattle.ata_trace.specs.Ranges.{IsAct};
ghost use Rattle.ata_trace.specs.Text.{act_line};
ghost use Rattle.ata_trace.specs.Told.{act_told, command_told, answer_told, answered_told, recovery_told, ring_told, log_told, recorded_told, reset_told, device_told, reset_ended_told, other_told, waiting_told};
ghost use Rattle.ata_trace.specs.declared.act.Act.{Act};

use crate::act::Act;
use crate::parts::{Parts, Words, same, without_end};
use crate::reading::{
    byte, count, deferral, drive, frame, id, is, issue, kinds, link_action, long,
    name as drive_name, place, place_or_host, refusal, small, speed, stamps, tag, time,
};
use crate::text::act_line;

/// The act whose line these bytes are; `None` exactly where they are the line of no act.
pub fn read_act(bytes: &[u8]) -> Option<Act>
    ensures read { IfSome result (λ act. bytes.now ≡ act_line act) }
    ensures found { (act : Act) → IsAct act → bytes.now ≡ act_line act → result ≡ Some act }
{
    let act = act_told(&mut Words::new(without_end(bytes)));
    if same(act_line(&act).bytes(), bytes) {
        Some(act)
    } else {
        None
    }
}

// The act whose words these may be.
fn act_told(words: &mut Words<'_>) -> Act
    ensures { result ≡ act_told words.old }
{
    words.next();
    let name = words.next();
    command_told(name, words)
}

// An act of commands or of the line, or one of those that follow.
#[tactic(auto, unfolding(crate::specs::Told::command_told))]
fn command_told(name: &[u8], words: &mut Words<'_>) -> Act
    ensures { result ≡ command_told name.now words.old }
{
    if same(name, b"accepted") {
        Act::Accepted { id: id(words) }
    } else if same(name, b"refused") {
        Act::Refused {
            id: id(words),
            why: refusal(words),
        }
    } else if same(name, b"issued") {
        Act::Issued {
            id: id(words),
            number: issue(words),
            tag: tag(words),
            deadline: time(words),
            fis: frame(words),
        }
    } else if same(name, b"deferred") {
        Act::Deferred {
            id: id(words),
            why: deferral(words),
        }
    } else if same(name, b"exclusive") {
        Act::Exclusive {
            place: place(words),
        }
    } else if same(name, b"done") {
        Act::Done {
            number: issue(words),
            status: byte(words),
            error: byte(words),
            lba: long(words),
            count: count(words),
        }
    } else if same(name, b"aborted") {
        Act::Aborted {
            number: issue(words),
        }
    } else if same(name, b"raised") {
        Act::Raised
    } else if same(name, b"lost") {
        Act::Lost
    } else {
        answer_told(name, words)
    }
}

// An act of answers, or one of those that follow.
#[tactic(auto, unfolding(crate::specs::Told::answer_told))]
fn answer_told(name: &[u8], words: &mut Words<'_>) -> Act
    ensures { result ≡ answer_told name.now words.old }
{
    if same(name, b"answered") {
        answered_told(words)
    } else if same(name, b"expired") {
        Act::Expired {
            id: id(words),
            number: issue(words),
        }
    } else if same(name, b"drained") {
        Act::Drained
    } else if same(name, b"retried") {
        Act::Retried {
            id: id(words),
            number: issue(words),
            allowance_raised: is(words, b"yes"),
        }
    } else {
        recovery_told(name, words)
    }
}

// An answer.
#[tactic(auto, unfolding(crate::specs::Told::answered_told))]
fn answered_told(words: &mut Words<'_>) -> Act
    ensures { result ≡ answered_told words.old }
{
    let id = id(words);
    let number = issue(words);
    let status = words.next();
    if same(status, b"ok") {
        Act::AnsweredOk {
            id,
            number,
            status: byte(words),
            error: byte(words),
            lba: long(words),
            count: count(words),
            stamps: stamps(words),
        }
    } else if same(status, b"failed") {
        Act::AnsweredFailed {
            id,
            number,
            kinds: kinds(words),
            status: byte(words),
            error: byte(words),
            lba: long(words),
            count: count(words),
        }
    } else {
        Act::AnsweredNodev { id, number }
    }
}

// An act of recovery, or one of those that follow.
#[tactic(auto, unfolding(crate::specs::Told::recovery_told))]
fn recovery_told(name: &[u8], words: &mut Words<'_>) -> Act
    ensures { result ≡ recovery_told name.now words.old }
{
    if same(name, b"condemned") {
        Act::Condemned {
            number: issue(words),
            kinds: kinds(words),
        }
    } else if same(name, b"frozen") {
        Act::Frozen
    } else if same(name, b"thawed") {
        Act::Thawed
    } else if same(name, b"requested") {
        Act::Requested
    } else if same(name, b"begun") {
        Act::Begun
    } else if same(name, b"autopsied") {
        Act::Autopsied
    } else if same(name, b"ended") {
        Act::Ended
    } else if same(name, b"judged") {
        Act::Judged {
            number: issue(words),
            kinds: kinds(words),
        }
    } else if same(name, b"cleared") {
        Act::Cleared {
            place: place(words),
        }
    } else if same(name, b"hot") {
        Act::Hot {
            place: place(words),
            generation: small(words),
        }
    } else if same(name, b"action") {
        Act::Action {
            place: place(words),
            kinds: kinds(words),
            action: link_action(words),
        }
    } else {
        ring_told(name, words)
    }
}

// An act of logs or of the ring, or one of those that follow.
#[tactic(auto, unfolding(crate::specs::Told::ring_told))]
fn ring_told(name: &[u8], words: &mut Words<'_>) -> Act
    ensures { result ≡ ring_told name.now words.old }
{
    if same(name, b"log") {
        log_told(words)
    } else if same(name, b"recorded") {
        recorded_told(words)
    } else {
        reset_told(name, words)
    }
}

// What was read of a log.
#[tactic(auto, unfolding(crate::specs::Told::log_told))]
fn log_told(words: &mut Words<'_>) -> Act
    ensures { result ≡ log_told words.old }
{
    let place = place(words);
    let what = words.next();
    if same(what, b"failed") {
        Act::LogFailed { place }
    } else if same(what, b"bad-sum") {
        Act::LogBadSum { place }
    } else if same(what, b"not-queued") {
        Act::LogNotQueued { place }
    } else {
        Act::Log {
            place,
            tag: tag(words),
            status: byte(words),
            error: byte(words),
            lba: long(words),
            count: count(words),
        }
    }
}

// An entry of a ring.
#[tactic(auto, unfolding(crate::specs::Told::recorded_told))]
fn recorded_told(words: &mut Words<'_>) -> Act
    ensures { result ≡ recorded_told words.old }
{
    let place = place(words);
    let io = is(words, b"io");
    let dubious = is(words, b"dubious");
    let kinds = kinds(words);
    let mut verdict = Parts::<43>::new(words.next());
    Act::Recorded {
        place,
        io,
        dubious,
        kinds,
        ncq_off: verdict.take(b"ncq-off"),
        speed_down: verdict.take(b"speed-down"),
        pio: verdict.take(b"pio"),
        keep: verdict.take(b"keep"),
        action: speed(words),
    }
}

// An act of resets or of asking for an identity, or one of those that follow.
#[tactic(auto, unfolding(crate::specs::Told::reset_told))]
fn reset_told(name: &[u8], words: &mut Words<'_>) -> Act
    ensures { result ≡ reset_told name.now words.old }
{
    if same(name, b"reset-begun") {
        Act::ResetBegun {
            place: place_or_host(words),
            attempt: small(words),
            deadline: time(words),
        }
    } else if same(name, b"reset-late") {
        Act::ResetLate {
            place: place_or_host(words),
        }
    } else if same(name, b"reset-failed") {
        Act::ResetFailed {
            place: place_or_host(words),
        }
    } else if same(name, b"reset-ended") {
        reset_ended_told(words)
    } else if same(name, b"ident-asked") {
        Act::IdentAsked {
            place: place(words),
            attempt: small(words),
            deadline: time(words),
        }
    } else if same(name, b"ident-late") {
        Act::IdentLate {
            place: place(words),
        }
    } else {
        device_told(name, words)
    }
}

// The end of a reset.
#[tactic(auto, unfolding(crate::specs::Told::reset_ended_told))]
fn reset_ended_told(words: &mut Words<'_>) -> Act
    ensures { result ≡ reset_ended_told words.old }
{
    if words.take(b"host") {
        return Act::ResetEndedHost;
    }
    let place = place(words);
    if same(words.next(), b"none") {
        Act::ResetEndedNone { place }
    } else {
        Act::ResetEndedGen {
            place,
            generation: small(words),
        }
    }
}

// An act of devices, or one of those that follow.
#[tactic(auto, unfolding(crate::specs::Told::device_told))]
fn device_told(name: &[u8], words: &mut Words<'_>) -> Act
    ensures { result ≡ device_told name.now words.old }
{
    if same(name, b"identified") {
        Act::Identified {
            place: place(words),
            model: drive_name(words),
            serial: drive_name(words),
            sectors: long(words),
            depth: small(words),
        }
    } else if same(name, b"same") {
        Act::Same {
            place: place(words),
        }
    } else if same(name, b"attached") {
        Act::Attached {
            place: place(words),
        }
    } else if same(name, b"detached") {
        Act::Detached {
            place: place(words),
        }
    } else if same(name, b"disabled") {
        Act::Disabled {
            place: place(words),
        }
    } else if same(name, b"mode") {
        Act::Mode {
            place: place(words),
            udma: small(words),
            ncq: is(words, b"on"),
            dubious: is(words, b"dubious"),
        }
    } else {
        other_told(name, words)
    }
}

// An act of waiting, of the time, of plugs or of nothing.
#[tactic(auto, unfolding(crate::specs::Told::other_told))]
fn other_told(name: &[u8], words: &mut Words<'_>) -> Act
    ensures { result ≡ other_told name.now words.old }
{
    if same(name, b"waiting") {
        waiting_told(words)
    } else if same(name, b"now") {
        Act::Now { at: time(words) }
    } else if same(name, b"plugged") {
        Act::Plugged {
            place: place(words),
            drive: drive(words),
        }
    } else if same(name, b"unplugged") {
        Act::Unplugged {
            place: place(words),
        }
    } else if same(name, b"injected") {
        Act::Injected {
            place: place(words),
        }
    } else {
        Act::Nothing
    }
}

// What is waited for.
#[tactic(auto, unfolding(crate::specs::Told::waiting_told))]
fn waiting_told(words: &mut Words<'_>) -> Act
    ensures { result ≡ waiting_told words.old }
{
    let what = words.next();
    if same(what, b"tag") {
        Act::WaitingTag { tag: tag(words) }
    } else if same(what, b"reset") {
        Act::WaitingReset {
            place: place(words),
        }
    } else {
        Act::WaitingIdent {
            place: place(words),
        }
    }
}
