ghost use Rattle.std.specs.Prelude.{◌≡◌, ◌≤◌, ◌∷◌, ◌++◌, [], None, Some, not, if◌then◌else◌};
ghost use Rattle.ata_trace.specs.declared.act.Act.TheVariants.{Detached, Disabled, ResetBegun, ResetEndedHost, ResetFailed, Thawed};
ghost use Rattle.port_ledger.specs.LedgerView.{past};
ghost use Rattle.port_past.specs.Drives.{drive_at};
ghost use Rattle.port_rules.specs.Resets.{generation_of, if_attached, reset_begun_acts, reset_gone_acts, reset_late_acts, reset_ready_acts, thaw_acts};
ghost use Rattle.port_rules.specs.Told.{frozen_acts};
ghost use Rattle.port_telling.specs.Adds.{Adds};

use ata_base::{Ms, Place};
use ata_trace::Act;
use port_ledger::Ledger;

/// The host's link begins to be reset, and the port is frozen where it isn't.
pub fn begin_host(ledger: &mut Ledger, deadline: Ms)
    requires room { 2 ≤ ledger.old.room }
    ensures { Adds ledger.old ledger.new (frozen_acts (past ledger.old) ++ ResetBegun None 1 deadline ∷ []) }
{
    freeze(ledger);
    ledger.note(Act::ResetBegun {
        place: None,
        attempt: 1,
        deadline,
    });
}

/// The reset of the host's link ends, and the port is thawed.
pub fn end_host(ledger: &mut Ledger)
    requires room { 2 ≤ ledger.old.room }
    ensures { Adds ledger.old ledger.new (ResetEndedHost ∷ Thawed ∷ []) }
{
    ledger.note(Act::ResetEndedHost);
    ledger.note(Act::Thawed);
}

/// A try to reset a place begins, which freezes a direct port where it isn't frozen.
pub fn begin_reset(ledger: &mut Ledger, place: Place, attempt: u8, deadline: Ms)
    requires room { 2 ≤ ledger.old.room }
    ensures { Adds ledger.old ledger.new (reset_begun_acts ledger.old.head (past ledger.old) place attempt deadline) }
{
    freeze_direct(ledger);
    ledger.note(Act::ResetBegun {
        place: Some(place),
        attempt,
        deadline,
    });
}

/// The reset of a place ends, since no drive is linked: a direct port is thawed, and a device that is attached is gone.
pub fn end_gone(ledger: &mut Ledger, place: Place)
    requires room { 3 ≤ ledger.old.room }
    ensures { Adds ledger.old ledger.new (reset_gone_acts ledger.old.head (past ledger.old) place) }
{
    ledger.note(Act::ResetEndedNone { place });
    thaw_direct(ledger);
    detach_if_attached(ledger, place);
}

/// The reset of a place ends, since its drive is ready, and a direct port is thawed.
pub fn end_ready(ledger: &mut Ledger, place: Place)
    requires room { 2 ≤ ledger.old.room }
    ensures { Adds ledger.old ledger.new
        (reset_ready_acts ledger.old.head (past ledger.old) place (drive_at ledger.old.head (past ledger.old) place)) }
{
    let generation = generation_of(ledger, place);
    ledger.note(Act::ResetEndedGen { place, generation });
    thaw_direct(ledger);
}

/// A try to reset a place is late: it is tried again, or given up.
pub fn reset_late(ledger: &mut Ledger, place: Place, again: bool)
    requires room { 3 ≤ ledger.old.room }
    ensures { Adds ledger.old ledger.new (reset_late_acts (past ledger.old) place again) }
{
    ledger.note(Act::ResetLate { place: Some(place) });
    if !again {
        give_up(ledger, place);
    }
}

/// The reset of a place is given up, and a device that is attached may not be used any more.
fn give_up(ledger: &mut Ledger, place: Place)
    requires room { 2 ≤ ledger.old.room }
    ensures { Adds ledger.old ledger.new
        (ResetFailed (Some place) ∷ if_attached (past ledger.old) place (Disabled place)) }
{
    ledger.note(Act::ResetFailed { place: Some(place) });
    disable_if_attached(ledger, place);
}

/// The port is frozen where it isn't.
fn freeze(ledger: &mut Ledger)
    requires room { 1 ≤ ledger.old.room }
    ensures { Adds ledger.old ledger.new (frozen_acts (past ledger.old)) }
{
    if !ledger.is_frozen() {
        ledger.note(Act::Frozen);
    }
}

/// A direct port is frozen where it isn't.
fn freeze_direct(ledger: &mut Ledger)
    requires room { 1 ≤ ledger.old.room }
    ensures { Adds ledger.old ledger.new (if ledger.old.head.pmp then [] else frozen_acts (past ledger.old)) }
{
    if is_direct(ledger) {
        freeze(ledger);
    }
}

/// A direct port is thawed with the end of its reset.
fn thaw_direct(ledger: &mut Ledger)
    requires room { 1 ≤ ledger.old.room }
    ensures { Adds ledger.old ledger.new (thaw_acts ledger.old.head) }
{
    if is_direct(ledger) {
        ledger.note(Act::Thawed);
    }
}

/// Whether the port is a direct one, without a multiplier.
fn is_direct(ledger: &Ledger) -> bool
    ensures { result ≡ not ledger.now.head.pmp }
{
    !ledger.head().pmp
}

/// The device of a place is gone, where one is attached.
fn detach_if_attached(ledger: &mut Ledger, place: Place)
    requires room { 1 ≤ ledger.old.room }
    ensures { Adds ledger.old ledger.new (if_attached (past ledger.old) place (Detached place)) }
{
    if ledger.is_attached(place) {
        ledger.note(Act::Detached { place });
    }
}

/// The device of a place may not be used any more, where one is attached.
pub fn disable_if_attached(ledger: &mut Ledger, place: Place)
    requires room { 1 ≤ ledger.old.room }
    ensures { Adds ledger.old ledger.new (if_attached (past ledger.old) place (Disabled place)) }
{
    if ledger.is_attached(place) {
        ledger.note(Act::Disabled { place });
    }
}

/// The generation of a place's link: the lesser of its limit and its drive's.
fn generation_of(ledger: &Ledger, place: Place) -> u8
    ensures { result ≡
        generation_of ledger.now.head (past ledger.now) place (drive_at ledger.now.head (past ledger.now) place) }
{
    match ledger.drive(place) {
        Some(drive) => drive.identity().gen_no.min(ledger.limit(place)),
        None => 0,
    }
}
