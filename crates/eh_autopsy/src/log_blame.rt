ghost use Rattle.std.specs.Prelude.{◌≡◌};
ghost use Rattle.eh_autopsy.specs.Blame.{blame_of, is_owned_queued, kinds_of_page};

use crate::kinds::analyse_regs;
use ata_base::{ErrMask, Kinds, Place, Regs, Tag};
use host_tags::Slots;

/// The kinds that a reading of a place's error log gives to the owned issue of that place under a tag. `page` has the
/// tag and the registers that the log's page names; `None` is every other outcome: it couldn't be read, its sum is
/// wrong, or the error wasn't a queued command's. A page that names an owned queued issue of the place blames that one
/// alone: it gets the kinds of the registers and `NCQ`, and each other one none. Every other outcome blames each owned
/// issue of the place with `HSM`.
pub fn blame(slots: &Slots, place: Place, tag: Tag, page: &Option<(Tag, Regs)>) -> Kinds
    ensures { result.0 ≡ blame_of place slots.now tag page.now }
{
    match page {
        Some((named, regs)) if is_owned_queued(slots, place, *named) => {
            kinds_of_page(*named == tag, regs)
        }
        _ => Kinds::at(ErrMask::HSM),
    }
}

/// Whether an owned queued issue of a place is in flight under a tag.
fn is_owned_queued(slots: &Slots, place: Place, tag: Tag) -> bool
    ensures { result ≡ is_owned_queued place slots.now tag }
{
    match slots.get(tag) {
        Some(f) => f.place == place && f.owned && f.queued,
        None => false,
    }
}

/// The kinds that a page gives to the issue that it names, and to another.
fn kinds_of_page(is_named: bool, regs: &Regs) -> Kinds
    ensures { result.0 ≡ kinds_of_page is_named regs.now }
{
    if is_named {
        analyse_regs(regs).union(Kinds::at(ErrMask::NCQ))
    } else {
        Kinds::none()
    }
}
