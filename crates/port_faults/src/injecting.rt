ghost use Rattle.std.specs.Prelude.{◌≡◌, ◌≤◌, ◌∷◌, Some, false};
ghost use Rattle.std.specs.Option.{option_map_or};
ghost use Rattle.ata_trace.specs.declared.act.Act.TheVariants.{Injected};
ghost use Rattle.drive_model.specs.Inject.{can_inject};
ghost use Rattle.port_ledger.specs.DriveParts.{fault_put};
ghost use Rattle.port_ledger.specs.LedgerView.{past};
ghost use Rattle.port_ledger.specs.Sound.{IsPut};
ghost use Rattle.port_past.specs.Drives.{drives, plugged_drive};
ghost use Rattle.port_past.specs.Links.{links};
ghost use Rattle.port_past.specs.Steps.{last_step};
ghost use Rattle.port_rules.specs.Plug.{fault_acts, inject_acts};
ghost use Rattle.port_rules.specs.Told.{raised_acts};
ghost use Rattle.port_telling.specs.Adds.{Adds};

use ata_base::{Fault, Place};
use ata_trace::Act;
use port_ledger::Ledger;
use port_telling::raise;

/// A fault is put into a place, where it can be: a bit of SError at each place of the port, which raises the line; another
/// fault into a plugged drive that can take it. It has to be the fault of the step.
pub fn inject(ledger: &mut Ledger, place: Place, fault: &Fault)
    requires room { 2 ≤ ledger.old.room }
    requires asked { fault_put (last_step (past ledger.old)) ≡ Some fault.now }
    ensures { Adds ledger.old ledger.new (inject_acts ledger.old.head (past ledger.old) place fault.now) }
{
    if place.get() < ledger.head().places {
        put_in(ledger, place, fault);
    } else {
        ledger.note(Act::Nothing);
    }
}

/// A fault is put into a place of the port, where it can be.
fn put_in(ledger: &mut Ledger, place: Place, fault: &Fault)
    requires room { 2 ≤ ledger.old.room }
    requires asked { fault_put (last_step (past ledger.old)) ≡ Some fault.now }
    ensures { Adds ledger.old ledger.new
        (fault_acts (past ledger.old) place fault.now (plugged_drive ledger.old.head (past ledger.old) place)) }
{
    if let Fault::Serr { .. } = fault {
        upset(ledger, place);
    } else if can_take(ledger, place, fault) {
        ledger.note(Act::Injected { place });
    } else {
        ledger.note(Act::Nothing);
    }
}

/// Whether a drive is plugged at a place that can take a fault.
fn can_take(ledger: &Ledger, place: Place, fault: &Fault) -> bool
    ensures { result ≡ option_map_or (can_inject fault.now) (plugged_drive ledger.now.head (past ledger.now) place) false }
{
    match ledger.plugged_drive(place) {
        Some(drive) => drive.can_inject(fault),
        None => false,
    }
}

/// A bit of SError is put into a place, and the line goes up.
#[tactic(auto, using(port_telling::proofs::AddLemmas::adds_act, port_telling::proofs::AddLemmas::adds_more))]
fn upset(ledger: &mut Ledger, place: Place)
    requires room { 2 ≤ ledger.old.room }
    requires put { IsPut (last_step (past ledger.old)) (links ledger.old.head (past ledger.old)) (drives ledger.old.head (past ledger.old)) (Injected place) }
    ensures { Adds ledger.old ledger.new (Injected place ∷ raised_acts (past ledger.old)) }
{
    ledger.note(Act::Injected { place });
    raise(ledger);
}
