ghost use Rattle.std.specs.Prelude.{◌≡◌, ◌≤◌, ◌∷◌};
ghost use Rattle.ata_trace.specs.declared.act.Act.TheVariants.{Plugged, Unplugged};
ghost use Rattle.port_ledger.specs.LedgerView.{past};
ghost use Rattle.port_past.specs.Links.{links};
ghost use Rattle.port_rules.specs.Plug.{can_plug, plug_acts, unplug_acts};
ghost use Rattle.port_rules.specs.Told.{raised_acts};
ghost use Rattle.port_telling.specs.Adds.{Adds};

use ata_base::{DriveNo, Place};
use ata_trace::Act;
use port_ledger::Ledger;
use port_telling::raise;

/// A drive is plugged at a place, where it can be, and the line goes up.
pub fn plug(ledger: &mut Ledger, place: Place, drive: DriveNo)
    requires room { 2 ≤ ledger.old.room }
    ensures { Adds ledger.old ledger.new (plug_acts ledger.old.head (past ledger.old) place drive) }
{
    if can_plug(ledger, place, drive) {
        put_in(ledger, place, drive);
    } else {
        ledger.note(Act::Nothing);
    }
}

/// Whether a drive can be plugged at a place: the port has both, the place is empty, and the drive is plugged nowhere.
fn can_plug(ledger: &Ledger, place: Place, drive: DriveNo) -> bool
    ensures { result ≡ can_plug ledger.now.head (links ledger.now.head (past ledger.now)) place drive }
{
    let head = ledger.head();
    place.get() < head.places
        && (drive.get() as usize) < head.drives.items().len()
        && ledger.plugged(place).is_none()
        && !ledger.is_plugged(drive)
}

/// A drive is plugged at a place, and the line goes up.
#[tactic(auto, using(port_telling::proofs::AddLemmas::adds_act, port_telling::proofs::AddLemmas::adds_more))]
fn put_in(ledger: &mut Ledger, place: Place, drive: DriveNo)
    requires room { 2 ≤ ledger.old.room }
    ensures { Adds ledger.old ledger.new (Plugged place drive ∷ raised_acts (past ledger.old)) }
{
    ledger.note(Act::Plugged { place, drive });
    raise(ledger);
}

/// The drive at a place is unplugged, where one is plugged, and the line goes up.
pub fn unplug(ledger: &mut Ledger, place: Place)
    requires room { 2 ≤ ledger.old.room }
    ensures { Adds ledger.old ledger.new (unplug_acts ledger.old.head (past ledger.old) place) }
{
    if ledger.plugged(place).is_some() {
        pull_out(ledger, place);
    } else {
        ledger.note(Act::Nothing);
    }
}

/// The drive at a place is unplugged, and the line goes up.
#[tactic(auto, using(port_telling::proofs::AddLemmas::adds_act, port_telling::proofs::AddLemmas::adds_more))]
fn pull_out(ledger: &mut Ledger, place: Place)
    requires room { 2 ≤ ledger.old.room }
    ensures { Adds ledger.old ledger.new (Unplugged place ∷ raised_acts (past ledger.old)) }
{
    ledger.note(Act::Unplugged { place });
    raise(ledger);
}
