ghost use Rattle.std.specs.Prelude.{◌≤◌};
ghost use Rattle.port_ledger.specs.LedgerView.{past};
ghost use Rattle.port_rules.specs.Begin.{begin_acts};
ghost use Rattle.port_telling.specs.Adds.{Adds};

use ata_base::{ErrMask, Kinds, MOST_PLACES};
use ata_trace::Act;
use port_ledger::Ledger;
use port_telling::{answer_all, condemn_all, freeze_if, is_more};

/// Recovery begins: the completed issues that aren't owned are answered, the others condemned with timeout, which freezes
/// the port.
pub fn begin(ledger: &mut Ledger)
    requires room { 66 ≤ ledger.old.room }
    ensures { Adds ledger.old ledger.new (begin_acts ledger.old.head (past ledger.old)) }
{
    let frozen = ledger.is_frozen();
    ledger.note(Act::Begun);
    answer_all(ledger);
    let room = ledger.room();
    condemn_all(
        ledger,
        true,
        &[None; MOST_PLACES],
        Kinds::at(ErrMask::TIMEOUT),
    );
    let some = ledger.room() < room;
    freeze_if(ledger, is_more(some, frozen));
}
