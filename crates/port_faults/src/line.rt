ghost use Rattle.std.specs.Prelude.{◌<◌};
ghost use Rattle.port_ledger.specs.LedgerView.{past};
ghost use Rattle.port_rules.specs.Line.{drop_acts, stray_acts};
ghost use Rattle.port_telling.specs.Adds.{Adds};

use ata_trace::Act;
use port_ledger::Ledger;

/// An interrupt comes without cause.
pub fn stray(ledger: &mut Ledger)
    requires room { 0 < ledger.old.room }
    ensures { Adds ledger.old ledger.new (stray_acts (past ledger.old)) }
{
    let up = ledger.is_line_up();
    if up {
        ledger.note(Act::Nothing);
    } else {
        ledger.note(Act::Raised);
    }
}

/// An interrupt is lost: the line goes down where it was up.
pub fn lose(ledger: &mut Ledger)
    requires room { 0 < ledger.old.room }
    ensures { Adds ledger.old ledger.new (drop_acts (past ledger.old)) }
{
    if ledger.is_line_up() {
        ledger.note(Act::Lost);
    } else {
        ledger.note(Act::Nothing);
    }
}
