ghost use Rattle.std.specs.Prelude.{◌≡◌};
ghost use Rattle.port_ledger.specs.LedgerView.{past};
ghost use Rattle.port_past.specs.Causes.{has_notify, tferr};
ghost use Rattle.port_rules.specs.Interrupt.{must_freeze, must_request};
ghost use Rattle.port_steps.specs.Taken.{asks};

use ata_base::MOST_PLACES;
use eh_autopsy::FailedIssue;
use port_ledger::{Ledger, is_failing};

/// What a served interrupt takes: by place the failed issue of TFERR, whether a cause stands that freezes the port, and
/// whether NOTIFY stands.
#[derive(Drop)]
pub struct Taken {
    pub failing: [Option<FailedIssue>; MOST_PLACES],
    pub freeze: bool,
    pub notify: bool,
}

/// Whether a cause stands that an interrupt takes.
pub fn has_cause(ledger: &Ledger) -> bool
    ensures { result ≡ must_request ledger.now.head (past ledger.now) }
{
    is_failing(ledger.failures())
        || (ledger.has_iferr() || ledger.has_connect())
        || ledger.has_notify()
}

/// The causes that stand, for an interrupt that takes them as its entry begins.
pub fn standing(ledger: &Ledger) -> Taken
    ensures failing { result.failing ≡ tferr (past ledger.now) }
    ensures freeze { result.freeze ≡ must_freeze ledger.now.head (past ledger.now) }
    ensures notify { result.notify ≡ has_notify ledger.now.head (past ledger.now) }
{
    Taken {
        failing: *ledger.failures(),
        freeze: ledger.has_iferr() || ledger.has_connect(),
        notify: ledger.has_notify(),
    }
}

/// Whether a cause was taken.
pub fn asks(taken: &Taken) -> bool
    ensures { result ≡ asks taken.now }
{
    is_failing(&taken.failing) || taken.freeze || taken.notify
}
