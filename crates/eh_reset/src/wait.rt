ghost use Rattle.std.specs.Prelude.{◌≡◌};
ghost use Rattle.eh_reset.specs.ResetWaits.{reset_wait_of};

use ata_base::Ms;

/// How many tries a reset has.
pub const RESET_TRIES: u8 = 4;

/// How long the reset of this try, 1 to 4, may take until it is late: 10,000, 10,000, 35,000 and 5,000 ms. `None`
/// exactly where there is no such try.
pub fn reset_wait(attempt: u8) -> Option<Ms>
    ensures { result ≡ reset_wait_of attempt }
{
    let wait = match attempt {
        1 | 2 => 10_000,
        3 => 35_000,
        4 => 5_000,
        _ => return None,
    };
    Some(Ms { n: wait })
}
