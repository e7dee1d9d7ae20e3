ghost use Rattle.std.specs.Prelude.{◌≡◌, ℕ, ◌↔◌, IsTrue, IsBitSet};
ghost use Rattle.host_timer.specs.Due.{has_due, is_due, due_mask};

use ata_base::{Ms, mask_of};
use host_tags::{InFlight, Slots};

/// The tags whose issues are due at the time `now`: in flight, not owned by recovery, and with a deadline at most `now`;
/// where the port is `drained`, has given up waiting, whatever the deadline. Bit t stands for tag t.
pub fn due(slots: &Slots, now: Ms, drained: bool) -> u32
    ensures value { result ≡ due_mask now.n drained slots.now }
    ensures bits { (t : ℕ) → IsBitSet result t ↔ IsTrue (is_due now.n drained slots.now t) }
{
    mask_of(slots.flights(), |slot| has_due(slot, now, drained))
}

/// Whether a slot's issue is due.
fn has_due(slot: &Option<InFlight>, now: Ms, drained: bool) -> bool
    ensures { result ≡ has_due now.n drained slot.now }
{
    match slot {
        Some(f) => !f.owned && (f.deadline.n <= now.n || drained),
        None => false,
    }
}
