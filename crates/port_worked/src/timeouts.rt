ghost use Rattle.std.specs.Prelude.{◌≡◌};
ghost use Rattle.port_rules.specs.Run.{run};
ghost use Rattle.port_worked.specs.Boots.{queued_found, unqueued_found};
ghost use Rattle.port_worked.specs.CompletedBeforeRecovery.{completed_before_recovery_rows};
ghost use Rattle.port_worked.specs.Hang.{hang_rows};
ghost use Rattle.port_worked.specs.Heads.{queued, slow, unqueued};
ghost use Rattle.port_worked.specs.LateButDone.{late_but_done_rows};
ghost use Rattle.port_worked.specs.LostInterrupt.{lost_interrupt_rows};
ghost use Rattle.port_worked.specs.Rows.{calls, journal};
ghost use Rattle.port_worked.specs.SecondHang.{second_hang_rows};
ghost use Rattle.port_worked.specs.SlowDrive.{slow_drive_rows};

/// Lost interrupt: the next one answers both commands that the drive has ended.
pub fn lost_interrupt()
    ensures { run queued (calls lost_interrupt_rows) ≡ journal queued_found lost_interrupt_rows }
{}

/// Completed before recovery: the interrupt is lost and the time is up, but recovery answers the command as it begins.
pub fn completed_before_recovery()
    ensures { run unqueued (calls completed_before_recovery_rows) ≡ journal unqueued_found completed_before_recovery_rows }
{}

/// Late but done: the time is up, but an interrupt answers the command before recovery begins.
pub fn late_but_done()
    ensures { run unqueued (calls late_but_done_rows) ≡ journal unqueued_found late_but_done_rows }
{}

/// Hang: the command is condemned, its place is reset and identified, and it is tried again.
#[tactic(auto, unfolding(eh_ring::specs::Counts::counts_in))]
pub fn hang()
    ensures { run unqueued (calls hang_rows) ≡ journal unqueued_found hang_rows }
{}

/// Second hang: the verdict ends NCQ, so the third issue isn't queued.
#[tactic(auto, unfolding(eh_ring::specs::Counts::counts_in))]
pub fn second_hang()
    ensures { run queued (calls second_hang_rows) ≡ journal queued_found second_hang_rows }
{}

/// Slow drive: four tries of its reset are late, then its device is disabled.
#[tactic(auto, unfolding(eh_ring::specs::Counts::counts_in))]
pub fn slow_drive()
    ensures { run slow (calls slow_drive_rows) ≡ journal unqueued_found slow_drive_rows }
{}
