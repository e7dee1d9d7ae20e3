ghost use Rattle.std.specs.Prelude.{◌≡◌};
ghost use Rattle.eh_reval.specs.IdentWaits.{ident_wait_of};

use ata_base::Ms;

/// How many tries an identity has.
pub const IDENT_TRIES: u8 = 3;

/// How long a drive may take to tell its identity in this try, 1 to 3, until it is late: 5,000, 10,000 and 30,000 ms.
/// `None` exactly where there is no such try.
pub fn ident_wait(attempt: u8) -> Option<Ms>
    ensures { result ≡ ident_wait_of attempt }
{
    let wait = match attempt {
        1 => 5_000,
        2 => 10_000,
        3 => 30_000,
        _ => return None,
    };
    Some(Ms { n: wait })
}
