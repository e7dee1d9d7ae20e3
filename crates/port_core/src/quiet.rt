ghost use Rattle.std.specs.Prelude.{◌≡◌, ◌&&◌};
ghost use Rattle.port_core.specs.Quiet.{are_empty, are_free};
ghost use Rattle.port_ledger.specs.LedgerView.{past};
ghost use Rattle.port_past.specs.Queues.{queues};
ghost use Rattle.port_past.specs.Slots.{slots};

use ata_base::{MOST_PLACES, Place};
use port_ledger::Ledger;

/// Whether no issue is in flight, and no command waits.
pub(crate) fn is_quiet(ledger: &Ledger) -> bool
    ensures { result ≡ (are_free (slots (past ledger.now)) && are_empty (queues (past ledger.now))) }
{
    none_flies(ledger) && none_waits(ledger)
}

/// Whether no issue is in flight.
fn none_flies(ledger: &Ledger) -> bool
    ensures { result ≡ are_free (slots (past ledger.now)) }
{
    let flights = ledger.slots().flights();
    flights.iter().all(|flight| flight.is_none())
}

/// Whether no command waits at any place.
fn none_waits(ledger: &Ledger) -> bool
    ensures { result ≡ are_empty (queues (past ledger.now)) }
{
    for place in 0..MOST_PLACES as u8 {
        if ledger.front(Place::at(place)).is_some() {
            return false;
        }
    }
    true
}
