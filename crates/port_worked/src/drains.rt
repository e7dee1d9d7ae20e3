ghost use Rattle.std.specs.Prelude.{◌≡◌};
ghost use Rattle.port_rules.specs.Run.{run};
ghost use Rattle.port_worked.specs.Boots.{queued_found};
ghost use Rattle.port_worked.specs.GivesUpWaiting.{gives_up_waiting_rows};
ghost use Rattle.port_worked.specs.Heads.{drained, queued};
ghost use Rattle.port_worked.specs.ProgressBeforeGivingUp.{progress_before_giving_up_rows};
ghost use Rattle.port_worked.specs.Rows.{calls, journal};
ghost use Rattle.port_worked.specs.WaitsWithoutDrain.{waits_without_drain_rows};

/// Gives up waiting: a port with fast drain waits 3,000 ms for a command that doesn't come.
pub fn gives_up_waiting()
    ensures { run drained (calls gives_up_waiting_rows) ≡ journal queued_found gives_up_waiting_rows }
{}

/// Progress before giving up: an answer begins the 3,000 ms anew.
pub fn progress_before_giving_up()
    ensures { run drained (calls progress_before_giving_up_rows) ≡ journal queued_found progress_before_giving_up_rows }
{}

/// Waits without drain: the same hangs on a port without fast drain, which waits for the last deadline.
#[tactic(auto, unfolding(eh_ring::specs::Counts::counts_in))]
pub fn waits_without_drain()
    ensures { run queued (calls waits_without_drain_rows) ≡ journal queued_found waits_without_drain_rows }
{}
