ghost use Rattle.std.specs.Prelude.{◌≡◌};
ghost use Rattle.eh_verdict.specs.Table.{verdict_of};
ghost use Rattle.port_ledger.specs.LedgerView.{past};
ghost use Rattle.eh_ring.specs.Marks.{with_entry};
ghost use Rattle.port_recovery.specs.Findings.{verdict_by, view_in};

use ata_base::{Kinds, Place};
use eh_ring::RingEntry;
use eh_verdict::Verdict;
use port_ledger::Ledger;

/// The verdict over the error ring of a place, once an error of these kinds is recorded, which the verdict counts.
pub fn verdict_by(ledger: &Ledger, place: Place, io: bool, kinds: Kinds) -> Verdict
    ensures { result ≡ verdict_by (view_in ledger.now place) io kinds }
{
    let entry = RingEntry {
        io,
        dubious: ledger.is_dubious(place),
        stale: false,
        kinds,
        at: ledger.clock(),
    };
    verdict_with(ledger, place, &entry)
}

/// The verdict over the error ring of a place with an entry more.
fn verdict_with(ledger: &Ledger, place: Place, entry: &RingEntry) -> Verdict
    ensures { result ≡ verdict_of (with_entry entry.now (view_in ledger.now place).ring) (view_in ledger.now place).clock }
{
    eh_verdict::verdict_with(ledger.ring(place), entry, ledger.clock())
}
