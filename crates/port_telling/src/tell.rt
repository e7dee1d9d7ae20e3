ghost use Rattle.std.specs.Prelude.{◌≡◌, ◌<◌, ◌≤◌, ◌&&◌, ◌∷◌, [], not};
ghost use Rattle.ata_trace.specs.declared.act.Act.TheVariants.{Drained, Frozen, Nothing, Raised, Requested};
ghost use Rattle.port_ledger.specs.LedgerView.{past};
ghost use Rattle.port_rules.specs.Told.{raised_acts, told_if};
ghost use Rattle.port_telling.specs.Adds.{Adds};

use ata_trace::Act;
use port_ledger::Ledger;

// An act has room in the frame of the function that makes it, and costs its size where that is entered, told or not. So
// each is made in a function of its own.

/// There was nothing to do.
pub fn nothing(ledger: &mut Ledger)
    requires room { 0 < ledger.old.room }
    ensures { Adds ledger.old ledger.new (Nothing ∷ []) }
{
    ledger.note(Act::Nothing);
}

/// The port is frozen where something holds.
pub fn freeze_if(ledger: &mut Ledger, holds: bool)
    requires room { 1 ≤ ledger.old.room }
    ensures { Adds ledger.old ledger.new (told_if holds Frozen) }
{
    if holds {
        freeze(ledger);
    }
}

fn freeze(ledger: &mut Ledger)
    requires room { 0 < ledger.old.room }
    ensures { Adds ledger.old ledger.new (Frozen ∷ []) }
{
    ledger.note(Act::Frozen);
}

/// Recovery is asked for where something holds.
pub fn request_if(ledger: &mut Ledger, holds: bool)
    requires room { 1 ≤ ledger.old.room }
    ensures { Adds ledger.old ledger.new (told_if holds Requested) }
{
    if holds {
        request(ledger);
    }
}

fn request(ledger: &mut Ledger)
    requires room { 0 < ledger.old.room }
    ensures { Adds ledger.old ledger.new (Requested ∷ []) }
{
    ledger.note(Act::Requested);
}

/// The port gives up waiting where something holds.
pub fn drain_if(ledger: &mut Ledger, holds: bool)
    requires room { 1 ≤ ledger.old.room }
    ensures { Adds ledger.old ledger.new (told_if holds Drained) }
{
    if holds {
        drain(ledger);
    }
}

fn drain(ledger: &mut Ledger)
    requires room { 0 < ledger.old.room }
    ensures { Adds ledger.old ledger.new (Drained ∷ []) }
{
    ledger.note(Act::Drained);
}

/// Whether something holds that isn't so yet.
pub fn is_more(holds: bool, already: bool) -> bool
    ensures { result ≡ (holds && not already) }
{
    holds && !already
}

/// The line goes up where it was down.
pub fn raise(ledger: &mut Ledger)
    requires room { 0 < ledger.old.room }
    ensures { Adds ledger.old ledger.new (raised_acts (past ledger.old)) }
{
    if !ledger.is_line_up() {
        lift(ledger);
    }
}

fn lift(ledger: &mut Ledger)
    requires room { 0 < ledger.old.room }
    ensures { Adds ledger.old ledger.new (Raised ∷ []) }
{
    ledger.note(Act::Raised);
}
