ghost use Rattle.std.specs.Prelude.{◌≡◌};
ghost use Rattle.eh_autopsy.specs.Actions.{is_worth_retry};

use ata_base::{ErrMask, Kinds};
use bitflags::Flags;

/// Whether a command with these final kinds is worth a retry; `io` says whether it is a read, a write or a flush.
/// Never with an error of the medium; else always for those; else not with an error of the request, and not where the
/// kinds are exactly that of the drive.
pub fn worth_retry(io: bool, k: Kinds) -> bool
    ensures { result ≡ is_worth_retry io k.0 }
{
    !k.mask().intersects(ErrMask::MEDIA)
        && (io || (!k.mask().intersects(ErrMask::INVALID) && k != Kinds::at(ErrMask::DEV)))
}
