ghost use Rattle.std.specs.Prelude.{◌≡◌};
ghost use Rattle.eh_ring.specs.Category.{category_of};

use crate::error_category::Category;
use ata_base::{ErrMask, Kinds};
use bitflags::Flags;

/// The category of an error with these kinds; `io` says whether it was one of a read, a write or a flush. The first
/// that fits: the kind of the wire is `Bus`; a timeout is `Timeout`; with `io`, an error of the host's state machine
/// is `Timeout`, and one of the drive that is neither of the medium nor of the request is `Unknown`; else `Nil`.
pub fn category(io: bool, kinds: Kinds) -> Category
    ensures { result ≡ category_of io kinds.0 }
{
    let mask = kinds.mask();
    if mask.intersects(ErrMask::ATA_BUS) {
        Category::Bus
    } else if mask.intersects(ErrMask::TIMEOUT) {
        Category::Timeout
    } else if io && mask.intersects(ErrMask::HSM) {
        Category::Timeout
    } else if io
        && mask.intersects(ErrMask::DEV)
        && !mask.intersects(ErrMask::MEDIA)
        && !mask.intersects(ErrMask::INVALID)
    {
        Category::Unknown
    } else {
        Category::Nil
    }
}
