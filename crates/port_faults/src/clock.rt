ghost use Rattle.std.specs.Prelude.{◌≤◌};
ghost use Rattle.port_ledger.specs.LedgerView.{past};
ghost use Rattle.port_rules.specs.Time.{tick_acts};
ghost use Rattle.port_telling.specs.Adds.{Adds};

use ata_base::{Ms, Tick};
use ata_trace::Act;
use port_ledger::Ledger;

/// The last time that there is, in ms.
const LAST_TIME: u64 = 4_611_686_018_427_387_904;

/// Time passes by so many ms, 0 to 1,000,000; where that would go past the last time, nothing happens.
pub fn tick(ledger: &mut Ledger, ms: Tick)
    requires room { 1 ≤ ledger.old.room }
    ensures { Adds ledger.old ledger.new (tick_acts (past ledger.old) ms) }
{
    let n = ledger.clock().n + ms.get().n;
    if n <= LAST_TIME {
        ledger.note(Act::Now { at: Ms { n } });
    } else {
        ledger.note(Act::Nothing);
    }
}
