ghost use Rattle.std.specs.Prelude.{◌≡◌};
ghost use Rattle.port_rules.specs.Run.{run};
ghost use Rattle.port_worked.specs.AbortedRead.{aborted_read_rows};
ghost use Rattle.port_worked.specs.AbortedReadWithoutAllowance.{aborted_read_without_allowance_rows};
ghost use Rattle.port_worked.specs.AllFaultsOfTheLog.{all_faults_of_the_log_rows};
ghost use Rattle.port_worked.specs.BlamedWithoutAllowance.{blamed_without_allowance_rows};
ghost use Rattle.port_worked.specs.Boots.{queued_found, unqueued_found};
ghost use Rattle.port_worked.specs.FailedPower.{failed_power_rows};
ghost use Rattle.port_worked.specs.Heads.{queued, unqueued};
ghost use Rattle.port_worked.specs.LinkError.{link_error_rows};
ghost use Rattle.port_worked.specs.LogBadSum.{log_bad_sum_rows};
ghost use Rattle.port_worked.specs.LogIdleTag.{log_idle_tag_rows};
ghost use Rattle.port_worked.specs.LogNotQueued.{log_not_queued_rows};
ghost use Rattle.port_worked.specs.LogUnread.{log_unread_rows};
ghost use Rattle.port_worked.specs.LostIdentity.{lost_identity_rows};
ghost use Rattle.port_worked.specs.MediaErrorAmongQueued.{media_error_among_queued_rows};
ghost use Rattle.port_worked.specs.MediaErrorWithoutAllowance.{media_error_without_allowance_rows};
ghost use Rattle.port_worked.specs.Rows.{calls, journal};
ghost use Rattle.port_worked.specs.SlowerSpeed.{slower_speed_rows};
ghost use Rattle.port_worked.specs.TenBadStatuses.{ten_bad_statuses_rows};
ghost use Rattle.port_worked.specs.ThreeLostIdentities.{three_lost_identities_rows};

/// Media error among queued commands: the one that found the bad sector fails alone, the others are tried
/// again for nothing.
pub fn media_error_among_queued()
    ensures { run queued (calls media_error_among_queued_rows) ≡ journal queued_found media_error_among_queued_rows }
{}

/// Faults of the log: where it names no queued command of the place, each one is blamed.
#[tactic(auto, unfolding(eh_ring::specs::Counts::counts_in))]
pub fn faults_of_the_log()
    ensures not_queued { run queued (calls log_not_queued_rows) ≡ journal queued_found log_not_queued_rows }
    ensures bad_sum { run queued (calls log_bad_sum_rows) ≡ journal queued_found log_bad_sum_rows }
    ensures idle_tag { run queued (calls log_idle_tag_rows) ≡ journal queued_found log_idle_tag_rows }
    ensures unread { run queued (calls log_unread_rows) ≡ journal queued_found log_unread_rows }
{}

/// Slower speed: the fourth error of the wire makes the link slower.
#[tactic(auto, unfolding(eh_ring::specs::Counts::counts_in))]
pub fn slower_speed()
    ensures { run unqueued (calls slower_speed_rows) ≡ journal unqueued_found slower_speed_rows }
{}

/// Lost identity: a drive doesn't answer, is reset and asked again.
#[tactic(auto, unfolding(eh_ring::specs::Counts::counts_in))]
pub fn lost_identity()
    ensures { run unqueued (calls lost_identity_rows) ≡ journal unqueued_found lost_identity_rows }
{}

/// Failed power: a command that isn't worth a retry fails, and its drive is left alone.
#[tactic(auto, unfolding(eh_ring::specs::Counts::counts_in))]
pub fn failed_power()
    ensures { run unqueued (calls failed_power_rows) ≡ journal unqueued_found failed_power_rows }
{}

/// Aborted read: the drive is asked who it is, and the read tried again; with an allowance of 0 it fails.
#[tactic(auto, unfolding(eh_ring::specs::Counts::counts_in))]
pub fn aborted_read()
    ensures retried { run unqueued (calls aborted_read_rows) ≡ journal unqueued_found aborted_read_rows }
    ensures failed { run unqueued (calls aborted_read_without_allowance_rows) ≡ journal unqueued_found aborted_read_without_allowance_rows }
{}

/// Without allowance: beside a bad sector commands are tried again all the same, since they aren't blamed; those that are
/// blamed fail.
#[tactic(auto, unfolding(eh_ring::specs::Counts::counts_in))]
pub fn without_allowance()
    ensures unblamed { run queued (calls media_error_without_allowance_rows) ≡ journal queued_found media_error_without_allowance_rows }
    ensures blamed { run queued (calls blamed_without_allowance_rows) ≡ journal queued_found blamed_without_allowance_rows }
{}

/// All faults of the log: the first leaves the log unread, and after the reset of the place no log is needed.
#[tactic(auto, unfolding(eh_ring::specs::Counts::counts_in))]
pub fn all_faults_of_the_log()
    ensures { run queued (calls all_faults_of_the_log_rows) ≡ journal queued_found all_faults_of_the_log_rows }
{}

/// Ten bad statuses: five retries at slower links and modes, then the command fails.
#[tactic(auto, unfolding(eh_ring::specs::Counts::counts_in))]
pub fn ten_bad_statuses()
    ensures { run unqueued (calls ten_bad_statuses_rows) ≡ journal unqueued_found ten_bad_statuses_rows }
{}

/// Three lost identities: after the third the device is disabled, and its command ends without one.
#[tactic(auto, unfolding(eh_ring::specs::Counts::counts_in))]
pub fn three_lost_identities()
    ensures { run unqueued (calls three_lost_identities_rows) ≡ journal unqueued_found three_lost_identities_rows }
{}

/// Link error: what flies is condemned, the port is frozen, and its place reset.
#[tactic(auto, unfolding(eh_ring::specs::Counts::counts_in))]
pub fn link_error()
    ensures { run unqueued (calls link_error_rows) ≡ journal unqueued_found link_error_rows }
{}
