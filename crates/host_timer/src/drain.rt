ghost use Rattle.std.specs.Prelude.{◌≡◌, nat_le};
ghost use Rattle.host_timer.specs.Due.{drain_time};

use ata_base::Ms;

/// For how many milliseconds a port has to be quiet before it gives up waiting.
pub const DRAIN_WAIT: u64 = 3_000;

/// Whether a port that has been quiet since the time `quiet` gives up waiting at the time `now`: exactly where 3,000 ms
/// have gone by.
pub fn drain_now(quiet: Ms, now: Ms) -> bool
    ensures { result ≡ nat_le (drain_time quiet.n) now.n }
{
    quiet.n <= now.n && DRAIN_WAIT <= now.n - quiet.n
}
