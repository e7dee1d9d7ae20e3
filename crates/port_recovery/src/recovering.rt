ghost use Rattle.std.specs.Prelude.{◌≡◌, ◌≤◌, ◌∷◌, [], Some};
ghost use Rattle.ata_trace.specs.declared.act.Act.TheVariants.{IdentAsked};
ghost use Rattle.eh_flow.specs.Table.{recovery_row};
ghost use Rattle.port_ledger.specs.LedgerView.{past};
ghost use Rattle.port_past.specs.PlaceTold.{ident_lates, place_told};
ghost use Rattle.port_rules.specs.Observing.{observed};
ghost use Rattle.port_rules.specs.Phase.{phase};
ghost use Rattle.port_rules.specs.Recover.{recover_acts, row_acts};
ghost use Rattle.port_telling.specs.Adds.{Adds};
ghost use Rattle.port_recovery.specs.Recoverable.{AreFewTries, IsRecoverable};

use crate::autopsied::autopsy;
use crate::begun::begin;
use crate::finishing::finish;
use crate::identities::{ident_late, read_identity};
use crate::log::read_log;
use crate::observing::observe;
use crate::resets::{begin_host, begin_reset, end_gone, end_host, end_ready, reset_late};
use crate::standing::phase;
use ata_base::{Ms, Place};
use ata_trace::Act;
use eh_flow::{Row, next};
use port_ledger::Ledger;
use port_telling::nothing;

/// A recover step: it tells the acts of its row. On a port that isn't recovering there is nothing to do.
#[tactic(auto, using(crate::proofs::RowLemmas::nothing_to_recover))]
pub fn recover(ledger: &mut Ledger)
    requires room { 128 ≤ ledger.old.room }
    requires reached { IsRecoverable ledger.old.head (past ledger.old) }
    ensures { Adds ledger.old ledger.new (recover_acts ledger.old.head (past ledger.old)) }
{
    if ledger.is_recovering() {
        recover_on(ledger);
    } else {
        nothing(ledger);
    }
}

/// The same at any port. It stands apart, so that it costs nothing where recovery isn't asked for and doesn't run.
#[inline(never)]
fn recover_on(ledger: &mut Ledger)
    requires room { 128 ≤ ledger.old.room }
    requires reached { IsRecoverable ledger.old.head (past ledger.old) }
    ensures { Adds ledger.old ledger.new (recover_acts ledger.old.head (past ledger.old)) }
{
    let row = next_row(ledger);
    tell_row(ledger, &row);
}

/// The row of a step: that of where recovery stands and what it sees of its port.
fn next_row(ledger: &Ledger) -> Row
    requires tries { AreFewTries (place_told (past ledger.now)) (ident_lates (past ledger.now)) }
    ensures { recovery_row (phase ledger.now.head (past ledger.now))
        (observed ledger.now.head (past ledger.now) (phase ledger.now.head (past ledger.now))) ≡ Some result }
{
    let stands = phase(ledger);
    let seen = observe(ledger, &stands);
    next(&stands, &seen)
}

/// Tells the acts of a row.
fn tell_row(ledger: &mut Ledger, row: &Row)
    requires room { 128 ≤ ledger.old.room }
    requires reached { IsRecoverable ledger.old.head (past ledger.old) }
    ensures { Adds ledger.old ledger.new (row_acts ledger.old.head (past ledger.old) row.now) }
{
    match *row {
        Row::Nothing => ledger.note(Act::Nothing),
        Row::WaitTag { tag } => ledger.note(Act::WaitingTag { tag }),
        Row::Begin => begin(ledger),
        Row::Log { place } => read_log(ledger, place),
        Row::Autopsy => autopsy(ledger),
        Row::HostBegin { deadline } => begin_host(ledger, deadline),
        Row::HostEnd => end_host(ledger),
        Row::ResetBegin {
            place,
            attempt,
            deadline,
            ..
        } => begin_reset(ledger, place, attempt, deadline),
        Row::ResetGone { place } => end_gone(ledger, place),
        Row::ResetReady { place } => end_ready(ledger, place),
        Row::ResetLate { place, again } => reset_late(ledger, place, again),
        Row::ResetWait { place } => ledger.note(Act::WaitingReset { place }),
        Row::IdentAsk {
            place,
            attempt,
            deadline,
        } => ask_identity(ledger, place, attempt, deadline),
        Row::IdentRead { place } => read_identity(ledger, place),
        Row::IdentLate { place, again } => ident_late(ledger, place, again),
        Row::IdentWait { place } => ledger.note(Act::WaitingIdent { place }),
        Row::Finish => finish(ledger),
    }
}

/// The drive at a place is asked for its identity.
fn ask_identity(ledger: &mut Ledger, place: Place, attempt: u8, deadline: Ms)
    requires room { 1 ≤ ledger.old.room }
    ensures { Adds ledger.old ledger.new (IdentAsked place attempt deadline ∷ []) }
{
    ledger.note(Act::IdentAsked {
        place,
        attempt,
        deadline,
    });
}
