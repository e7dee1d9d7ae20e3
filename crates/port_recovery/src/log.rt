ghost use Rattle.std.specs.Prelude.{◌≡◌, ℕ, ◌+◌, ◌≤◌, ◌<◌, ◌↔◌, Some, IsTrue, IsBitSet};
ghost use Rattle.drive_model.specs.Holding.{has_tag};
ghost use Rattle.host_tags.specs.Slots.{flight_at, lowest_free};
ghost use Rattle.port_ledger.specs.LedgerView.{past};
ghost use Rattle.port_past.specs.Drives.{drive_at, drives};
ghost use Rattle.port_past.specs.Slots.{slots};
ghost use Rattle.port_recovery.specs.Reading.{HoldFlights, aborted_of, all_aborted, dropped, is_in, log_act, reading_act};
ghost use Rattle.port_rules.specs.Logs.{log_acts, page_act};
ghost use Rattle.port_telling.specs.Adds.{Adds};
ghost use Rattle.port_telling.specs.Walks.{slots_in};

use ata_base::{Place, Regs, TAG_COUNT, Tag};
use ata_trace::Act;
use drive_model::{Drive, LogFault, QueuedError};
use port_ledger::Ledger;

/// The log of a place is read: what the page of the drive that is linked there says, or what is wrong with it, and then
/// the issues that the drive drops, in tag order.
pub fn read_log(ledger: &mut Ledger, place: Place)
    requires room { 33 ≤ ledger.old.room }
    requires held { HoldFlights (slots (past ledger.old)) (drives ledger.old.head (past ledger.old)) }
    ensures { Adds ledger.old ledger.new (log_acts ledger.old.head (past ledger.old) place) }
{
    let tags = dropped(ledger, place);
    let act = log_act(ledger, place);
    ledger.note(act);
    abort_all(ledger, tags);
}

/// The tags of the issues that the drive at a place drops as its log is read: bit t stands for tag t.
#[tactic(auto, using(crate::proofs::LogLemmas::no_tag))]
fn dropped(ledger: &Ledger, place: Place) -> u32
    ensures { (t : ℕ) → IsBitSet result t ↔ IsTrue (has_tag t
        (dropped (lowest_free (slots (past ledger.now))) (drive_at ledger.now.head (past ledger.now) place))) }
{
    match ledger.drive(place) {
        Some(drive) => dropped_by(drive, ledger.lowest_free()),
        None => 0,
    }
}

/// The tags of the issues that a drive drops as its log is read, `idle` the least tag that isn't in flight.
#[tactic(auto, using(crate::proofs::LogLemmas::no_tag))]
fn dropped_by(drive: &Drive, idle: Option<Tag>) -> u32
    ensures { (t : ℕ) → IsBitSet result t ↔ IsTrue (has_tag t (dropped idle (Some drive.now.drive))) }
{
    if drive.log_page(idle).is_some() {
        drive.held()
    } else {
        0
    }
}

/// What is told of the reading of a place's log.
fn log_act(ledger: &Ledger, place: Place) -> Act
    ensures { result
        ≡ log_act place (lowest_free (slots (past ledger.now))) (drive_at ledger.now.head (past ledger.now) place) }
{
    match ledger.drive(place) {
        Some(drive) => drive_act(place, ledger.lowest_free(), drive),
        None => Act::LogFailed { place },
    }
}

/// What is told of the reading of a drive's log, `idle` the least tag that isn't in flight.
fn drive_act(place: Place, idle: Option<Tag>, drive: &Drive) -> Act
    ensures { result ≡ log_act place idle (Some drive.now.drive) }
{
    match drive.stopped() {
        Some(error) => reading_act(place, &error, &drive.log_fault(idle)),
        None => Act::LogFailed { place },
    }
}

/// What is told of a reading that has a fault or none.
fn reading_act(place: Place, error: &QueuedError, fault: &Option<LogFault>) -> Act
    ensures { result ≡ reading_act place error.now fault.now }
{
    match fault {
        None => page_act(place, error.tag, &error.regs),
        Some(LogFault::Fail) => Act::LogFailed { place },
        Some(LogFault::Sum) => Act::LogBadSum { place },
        Some(LogFault::NotQueued) => Act::LogNotQueued { place },
        Some(LogFault::Idle { tag }) => page_act(place, *tag, &error.regs),
    }
}

/// A page that names a tag.
fn page_act(place: Place, tag: Tag, regs: &Regs) -> Act
    ensures { result ≡ page_act place tag regs.now }
{
    Act::Log {
        place,
        tag,
        status: regs.status,
        error: regs.error,
        lba: regs.lba,
        count: regs.count,
    }
}

/// The issues in flight under the tags of a mask are aborted, in tag order.
fn abort_all(ledger: &mut Ledger, tags: u32)
    requires room { 32 ≤ ledger.old.room }
    ensures { Adds ledger.old ledger.new (all_aborted tags (slots_in ledger.old)) }
{
    for tag in 0..TAG_COUNT as u8 {
        abort_at(ledger, Tag::at(tag), is_in(tags, tag));
    }
}

/// Whether a tag is in a mask.
fn is_in(mask: u32, tag: u8) -> bool
    requires { tag < 32 }
    ensures { result ≡ is_in mask tag }
{
    mask & (1 << tag) != 0
}

/// The issue in flight under a tag is aborted, where its drive held it.
fn abort_at(ledger: &mut Ledger, tag: Tag, held: bool)
    requires room { 1 ≤ ledger.old.room }
    ensures adds { Adds ledger.old ledger.new (aborted_of held (flight_at (slots_in ledger.old) tag)) }
    ensures slots { slots_in ledger.new ≡ slots_in ledger.old }
    ensures few { ledger.old.room ≤ ledger.new.room + 1 }
{
    if !held {
        return;
    }
    if let Some(flight) = ledger.flight(tag) {
        let number = flight.number;
        ledger.note(Act::Aborted { number });
    }
}
