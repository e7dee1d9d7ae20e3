ghost use Rattle.std.specs.Prelude.{◌≡◌};
ghost use Rattle.port_rules.specs.Run.{run};
ghost use Rattle.port_worked.specs.Boots.{queued_found, two_found, unlike_found};
ghost use Rattle.port_worked.specs.EmptyPlaceLeftAlone.{empty_place_left_alone_rows};
ghost use Rattle.port_worked.specs.ExclusivePlace.{exclusive_place_rows};
ghost use Rattle.port_worked.specs.Heads.{one_empty_place, two_places, two_switched, unlike_places};
ghost use Rattle.port_worked.specs.HotPlaceAfterHostReset.{hot_place_after_host_reset_rows};
ghost use Rattle.port_worked.specs.OwnedIsNotAnswered.{owned_is_not_answered_rows};
ghost use Rattle.port_worked.specs.Rows.{calls, journal};
ghost use Rattle.port_worked.specs.SlowPlaceBehindTheHost.{slow_place_behind_the_host_rows};
ghost use Rattle.port_worked.specs.TwoPlacesInFlight.{two_places_in_flight_rows};

/// Exclusive place: two places of a multiplier take turns, the one that had to wait alone may issue next.
pub fn exclusive_place()
    ensures { run two_places (calls exclusive_place_rows) ≡ journal two_found exclusive_place_rows }
{}

/// Two places in flight: an error at one of them leaves the other's command alone.
pub fn two_places_in_flight()
    ensures { run two_switched (calls two_places_in_flight_rows) ≡ journal two_found two_places_in_flight_rows }
{}

/// Owned is not answered: what a drive ends between the reset of the host and its own is no success.
#[tactic(auto, unfolding(eh_ring::specs::Counts::counts_in))]
pub fn owned_is_not_answered()
    ensures { run two_places (calls owned_is_not_answered_rows) ≡ journal two_found owned_is_not_answered_rows }
{}

/// Hot place after a host reset: a drive that was plugged meanwhile is reset and attached too.
#[tactic(auto, unfolding(eh_ring::specs::Counts::counts_in))]
pub fn hot_place_after_host_reset()
    ensures { run one_empty_place (calls hot_place_after_host_reset_rows) ≡ journal queued_found hot_place_after_host_reset_rows }
{}

/// Slow place behind the host: the host is reset, then each place in order; the exclusive place is told anew.
#[tactic(auto, unfolding(eh_ring::specs::Counts::counts_in))]
pub fn slow_place_behind_the_host()
    ensures { run unlike_places (calls slow_place_behind_the_host_rows) ≡ journal unlike_found slow_place_behind_the_host_rows }
{}

/// Empty place left alone: behind the host of a frozen multiplier only the place with a device is reset.
#[tactic(auto, unfolding(eh_ring::specs::Counts::counts_in))]
pub fn empty_place_left_alone()
    ensures { run one_empty_place (calls empty_place_left_alone_rows) ≡ journal queued_found empty_place_left_alone_rows }
{}
