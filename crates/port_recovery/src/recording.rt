ghost use Rattle.std.specs.Prelude.{◌≡◌, ◌≤◌, ◌&&◌, not, [], if◌then◌else◌};
ghost use Rattle.ata_trace.specs.declared.act.Act.TheVariants.{Cleared, Hot};
ghost use Rattle.link_model.specs.LinkView.{IsGeneration};
ghost use Rattle.port_ledger.specs.Sound.{IsSpeed};
ghost use Rattle.port_rules.specs.Autopsy.{has_effect};
ghost use Rattle.port_rules.specs.Told.{told_if};
ghost use Rattle.port_telling.specs.Adds.{Adds};
ghost use Rattle.port_recovery.specs.Findings.{clears, recording_of};

use crate::findings::Findings;
use ata_base::{Place, SpeedAction};
use ata_trace::Act;
use port_ledger::Ledger;

/// The error of a place is recorded, where it is to be.
pub fn record_if(ledger: &mut Ledger, place: Place, found: &Findings)
    requires room { 2 ≤ ledger.old.room }
    requires limited { IsSpeed found.now.speed }
    ensures { Adds ledger.old ledger.new (if found.now.recorded then recording_of place found.now else []) }
{
    if found.recorded {
        record_error(ledger, place, found);
    }
}

/// The error of a place is recorded. Where something is done about the speed, the ring's entries become old, unless the
/// verdict keeps them.
#[tactic(auto, using(port_telling::proofs::AddLemmas::adds_act, port_telling::proofs::AddLemmas::adds_more))]
fn record_error(ledger: &mut Ledger, place: Place, found: &Findings)
    requires room { 2 ≤ ledger.old.room }
    requires limited { IsSpeed found.now.speed }
    ensures { Adds ledger.old ledger.new (recording_of place found.now) }
{
    ledger.note(Act::Recorded {
        place,
        io: found.io,
        dubious: found.dubious,
        kinds: found.kinds,
        ncq_off: found.verdict.ncq_off,
        speed_down: found.verdict.speed_down,
        pio: found.verdict.pio,
        keep: found.verdict.keep,
        action: found.speed,
    });
    clear_if(ledger, place, clears(found));
}

/// Whether the ring's entries become old: something is done about the speed, and the verdict doesn't keep them.
fn clears(found: &Findings) -> bool
    ensures { result ≡ clears found.now }
{
    has_effect(&found.speed) && !found.verdict.keep
}

/// Whether something is done about the speed.
fn has_effect(action: &SpeedAction) -> bool
    ensures { result ≡ has_effect action.now }
{
    !matches!(action, SpeedAction::NoChange)
}

/// The entries of a place's ring become old, where something holds.
fn clear_if(ledger: &mut Ledger, place: Place, holds: bool)
    requires room { 1 ≤ ledger.old.room }
    ensures { Adds ledger.old ledger.new (told_if holds (Cleared place)) }
{
    if holds {
        ledger.note(Act::Cleared { place });
    }
}

/// A place is told to be hot, where it is; its link is limited.
pub fn heat_if(ledger: &mut Ledger, place: Place, found: &Findings)
    requires room { 1 ≤ ledger.old.room }
    requires limited { IsGeneration found.now.limit }
    ensures { Adds ledger.old ledger.new (told_if found.now.hot (Hot place found.now.limit)) }
{
    if found.hot {
        ledger.note(Act::Hot {
            place,
            generation: found.limit,
        });
    }
}
