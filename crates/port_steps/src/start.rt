ghost use Rattle.std.specs.Prelude.{◌≡◌, ◌≤◌, ◌<◌, ◌+◌, IfSome, flat_map, length};
ghost use Rattle.ata_trace.specs.Event.{onto};
ghost use Rattle.port_ledger.specs.LedgerView.{past};
ghost use Rattle.port_past.specs.Heads.{drive_at_boot, identity_of, places_of, stands_at};
ghost use Rattle.port_rules.specs.Boot.{boot_acts, found_acts, found_at};
ghost use Rattle.port_telling.specs.Adds.{Adds};

use ata_base::Place;
use ata_script::DriveHead;
use ata_trace::Act;
use port_ledger::Ledger;
use port_telling::{drive_of, identified, nothing};

/// Each drive that stands at a place is identified, attached and given its mode, place after place.
#[tactic(auto, using(port_telling::proofs::AddLemmas::or_nothing_some, port_telling::proofs::AddLemmas::or_nothing_none, port_telling::proofs::AddLemmas::adds_act))]
pub fn boot(ledger: &mut Ledger)
    requires room { 45 ≤ ledger.old.room }
    ensures past { past ledger.new ≡ onto (past ledger.old) (boot_acts ledger.old.head) }
    ensures head { ledger.new.head ≡ ledger.old.head }
{
    let room = ledger.room();
    find_all(ledger);
    if ledger.room() == room {
        nothing(ledger);
    }
}

/// Tells the drives that stand, place after place.
fn find_all(ledger: &mut Ledger)
    requires room { 45 ≤ ledger.old.room }
    ensures { Adds ledger.old ledger.new (flat_map (found_at ledger.old.head) (places_of ledger.old.head)) }
{
    for at in 0..ledger.head().places {
        find_at(ledger, Place::at(at));
    }
}

/// Tells the drive that stands at a place, where one does.
fn find_at(ledger: &mut Ledger, place: Place)
    requires room { 3 ≤ ledger.old.room }
    ensures adds { Adds ledger.old ledger.new (found_at ledger.old.head place) }
    ensures few { ledger.old.room ≤ ledger.new.room + 3 }
{
    if let Some(number) = drive_at_boot(ledger.head().drives.items(), place) {
        find(ledger, place, number);
    }
}

/// The number of the first of these drives that stands at a place.
fn drive_at_boot(drives: &[DriveHead], place: Place) -> Option<usize>
    ensures value { result ≡ drive_at_boot drives.now place }
    ensures within { IfSome result (λ number. number < length drives.now) }
{
    drives.iter().position(|drive| stands_at(drive, place))
}

/// Whether a drive stands at a place.
fn stands_at(drive: &DriveHead, place: Place) -> bool
    ensures { result ≡ stands_at place drive.now }
{
    match &drive.place {
        Some(its) => its.get() == place.get(),
        None => false,
    }
}

/// The drive of a number is identified at a place, attached and given its mode.
#[tactic(auto, using(port_telling::proofs::AddLemmas::adds_act, port_telling::proofs::AddLemmas::adds_more))]
fn find(ledger: &mut Ledger, place: Place, number: usize)
    requires room { 3 ≤ ledger.old.room }
    requires within { number < length ledger.old.head.drives }
    ensures adds { Adds ledger.old ledger.new (found_acts place (identity_of ledger.old.head.drives number)) }
    ensures few { ledger.old.room ≤ ledger.new.room + 3 }
{
    let drive = drive_of(ledger.head().drives.items(), number);
    let ncq = drive.identity.depth != 0;
    let identified = identified(place, drive);
    ledger.note(identified);
    ledger.note(Act::Attached { place });
    ledger.note(Act::Mode {
        place,
        udma: 6,
        ncq,
        dubious: true,
    });
}
