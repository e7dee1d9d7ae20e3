ghost use Rattle.std.specs.Prelude.{◌≡◌, ◌+◌, ◌<◌, ◌≤◌, ◌^◌};
ghost use Rattle.port_past.specs.Causes.{has_iferr, has_connect, has_notify, tferr};
ghost use Rattle.port_past.specs.Clock.{clock};
ghost use Rattle.port_past.specs.Drain.{drained_since, is_drained, quiet_since};
ghost use Rattle.port_past.specs.Exclusive.{exclusive};
ghost use Rattle.port_past.specs.Issues.{issue_count};
ghost use Rattle.port_past.specs.Line.{is_irq_served, is_line_up};
ghost use Rattle.port_past.specs.PlaceTold.{host_told};
ghost use Rattle.port_past.specs.PortState.{is_asked, is_autopsied, is_frozen, is_recovering, is_running};
ghost use Rattle.port_past.specs.Settlings.{settle_count};
ghost use Rattle.port_past.specs.Steps.{last_step};
ghost use Rattle.port_past.specs.Tasks.{tasks};
ghost use Rattle.port_ledger.specs.LedgerView.{past};

use super::Ledger;
use ata_base::{MOST_PLACES, Ms, Place};
use ata_script::PortHead;
use ata_trace::{OpenEntry, Step};
use eh_autopsy::FailedIssue;
use port_past::{HostTold, Task};

// What is asked of a port as a whole.
impl Ledger {
    /// The head of the port, lent.
    pub fn head(&self) -> &PortHead
        ensures { result.now ≡ self.now.head }
    {
        &self.head
    }

    /// The entry that began last, lent.
    pub fn entry(&self) -> &OpenEntry
        ensures { result.now.entries ≡ self.now.entries }
    {
        &self.entry
    }

    /// For how many more acts there is room.
    pub fn room(&self) -> usize
        ensures { result ≡ self.now.room }
    {
        self.room
    }

    /// The step of the entry that began last, lent.
    pub fn step(&self) -> &Step
        ensures { result.now ≡ last_step (past self.now) }
    {
        &self.step
    }

    /// The time in ms by the clock, at most 2^62.
    pub fn clock(&self) -> Ms
        ensures value { result.n ≡ clock (past self.now) }
        ensures early { result.n ≤ 2 ^ 62 }
    {
        Ms { n: self.clock }
    }

    /// How many issues there were.
    pub fn issue_count(&self) -> u64
        ensures value { result ≡ issue_count (past self.now) }
        ensures room { result + self.now.room < 2 ^ 64 }
    {
        self.issues
    }

    /// How many entries of the settling there were.
    pub fn settle_count(&self) -> u64
        ensures { result ≡ settle_count (past self.now) }
    {
        self.settlings
    }

    /// Whether the interrupt line is up.
    pub fn is_line_up(&self) -> bool
        ensures { result ≡ is_line_up (past self.now) }
    {
        self.line
    }

    /// Whether an interrupt that came now would be served: the port isn't frozen and the line is up.
    pub fn is_irq_served(&self) -> bool
        ensures { result ≡ is_irq_served (past self.now) }
    {
        !self.state.frozen && self.line
    }

    /// Whether the port is frozen.
    pub fn is_frozen(&self) -> bool
        ensures { result ≡ is_frozen (past self.now) }
    {
        self.state.frozen
    }

    /// Whether recovery is asked for.
    pub fn is_asked(&self) -> bool
        ensures { result ≡ is_asked (past self.now) }
    {
        self.state.asked
    }

    /// Whether recovery runs.
    pub fn is_running(&self) -> bool
        ensures { result ≡ is_running (past self.now) }
    {
        self.state.running
    }

    /// Whether recovery is asked for or runs.
    pub fn is_recovering(&self) -> bool
        ensures { result ≡ is_recovering (past self.now) }
    {
        self.state.asked || self.state.running
    }

    /// Whether this recovery has its autopsy.
    pub fn is_autopsied(&self) -> bool
        ensures { result ≡ is_autopsied (past self.now) }
    {
        self.state.autopsied
    }

    /// Whether the port gave up waiting since recovery was asked for last.
    pub fn drained_since(&self) -> bool
        ensures { result ≡ drained_since (past self.now) }
    {
        self.state.drained
    }

    /// Whether the port is asked and gave up waiting.
    pub fn is_drained(&self) -> bool
        ensures { result ≡ is_drained (past self.now) }
    {
        self.state.asked && self.state.drained
    }

    /// Since when in ms an asked port is quiet.
    pub fn quiet_since(&self) -> u64
        ensures { result ≡ quiet_since (past self.now) }
    {
        self.state.quiet_since
    }

    /// The place that alone may issue, where there is one.
    pub fn exclusive(&self) -> Option<Place>
        ensures { result ≡ exclusive (past self.now) }
    {
        self.exclusive
    }

    /// The tasks of this recovery, lent.
    pub fn tasks(&self) -> &[Task]
        ensures { result.now ≡ tasks self.now.head (past self.now) }
    {
        self.eh.tasks.items()
    }

    /// By place the failed issue that set TFERR, where it stands, lent.
    pub fn failures(&self) -> &[Option<FailedIssue>; MOST_PLACES]
        ensures { result.now ≡ tferr (past self.now) }
    {
        &self.causes.tferr
    }

    /// Whether IFERR stands.
    pub fn has_iferr(&self) -> bool
        ensures { result ≡ has_iferr self.now.head (past self.now) }
    {
        self.causes.iferr
    }

    /// Whether CONNECT stands.
    pub fn has_connect(&self) -> bool
        ensures { result ≡ has_connect self.now.head (past self.now) }
    {
        self.causes.connect
    }

    /// Whether NOTIFY stands.
    pub fn has_notify(&self) -> bool
        ensures { result ≡ has_notify self.now.head (past self.now) }
    {
        self.causes.notify
    }

    /// What was told last of the host link since recovery began.
    pub fn host_told(&self) -> HostTold
        ensures { result ≡ host_told (past self.now) }
    {
        self.eh.recovery.host
    }
}
