ghost use Rattle.std.specs.Prelude.{◌≡◌};
ghost use Rattle.port_rules.specs.Run.{run};
ghost use Rattle.port_worked.specs.AnotherDrive.{another_drive_rows};
ghost use Rattle.port_worked.specs.Boots.{queued_found, unqueued_found};
ghost use Rattle.port_worked.specs.Heads.{unqueued, with_spare};
ghost use Rattle.port_worked.specs.PluggedBeforeRecovery.{plugged_before_recovery_rows};
ghost use Rattle.port_worked.specs.Rows.{calls, journal};
ghost use Rattle.port_worked.specs.ThreePhyChanges.{three_phy_changes_rows};
ghost use Rattle.port_worked.specs.UnpluggedOnceAsked.{unplugged_once_asked_rows};
ghost use Rattle.port_worked.specs.UnpluggedOnceAutopsied.{unplugged_once_autopsied_rows};
ghost use Rattle.port_worked.specs.UnpluggedOnceBegun.{unplugged_once_begun_rows};
ghost use Rattle.port_worked.specs.UnpluggedOnceEnded.{unplugged_once_ended_rows};
ghost use Rattle.port_worked.specs.UnpluggedOnceIdentified.{unplugged_once_identified_rows};
ghost use Rattle.port_worked.specs.UnpluggedOnceReset.{unplugged_once_reset_rows};
ghost use Rattle.port_worked.specs.UnpluggedOnceResetting.{unplugged_once_resetting_rows};

/// Another drive: an unplug ends the commands of the place, and the drive that is plugged then is another device.
pub fn another_drive()
    ensures { run with_spare (calls another_drive_rows) ≡ journal queued_found another_drive_rows }
{}

/// Three phy changes within a minute: the third limits the link to generation 1.
pub fn three_phy_changes()
    ensures { run unqueued (calls three_phy_changes_rows) ≡ journal unqueued_found three_phy_changes_rows }
{}

/// Plugged before recovery: the reset finds another drive, and the device changes in one entry.
pub fn plugged_before_recovery()
    ensures { run with_spare (calls plugged_before_recovery_rows) ≡ journal queued_found plugged_before_recovery_rows }
{}

/// Unplugged while recovering: whichever row of a recovery came last, the command ends once, without a device.
#[tactic(auto, unfolding(eh_ring::specs::Counts::counts_in))]
pub fn unplugged_while_recovering()
    ensures begun { run unqueued (calls unplugged_once_begun_rows) ≡ journal unqueued_found unplugged_once_begun_rows }
    ensures autopsied { run unqueued (calls unplugged_once_autopsied_rows) ≡ journal unqueued_found unplugged_once_autopsied_rows }
    ensures resetting { run unqueued (calls unplugged_once_resetting_rows) ≡ journal unqueued_found unplugged_once_resetting_rows }
    ensures reset { run unqueued (calls unplugged_once_reset_rows) ≡ journal unqueued_found unplugged_once_reset_rows }
    ensures asked { run unqueued (calls unplugged_once_asked_rows) ≡ journal unqueued_found unplugged_once_asked_rows }
    ensures identified { run unqueued (calls unplugged_once_identified_rows) ≡ journal unqueued_found unplugged_once_identified_rows }
    ensures ended { run unqueued (calls unplugged_once_ended_rows) ≡ journal unqueued_found unplugged_once_ended_rows }
{}
