ghost use Rattle.std.specs.Prelude.{◌≡◌, ◌+◌, ◌<◌, ◌^◌, false};
ghost use Rattle.ata_trace.specs.Event.Event.{Told};
ghost use Rattle.port_past.specs.Attachment.{attached_after, detachments_after};
ghost use Rattle.port_past.specs.Places.{changed_at, everywhere};
ghost use Rattle.port_ledger.specs.Parts.{AreAtMost};

use ata_base::{MOST_PLACES, Place};
use ata_trace::Act;

/// A count for each place.
pub type Counts = [u64; MOST_PLACES];

/// By place: whether a device is attached, and how many detachments there were.
#[derive(Drop)]
pub struct Attachments {
    pub attached: [bool; MOST_PLACES],
    pub detachments: Counts,
}

impl Attachments {
    /// No device is attached, and none was.
    pub fn new() -> Attachments
        ensures { result ≡ record { attached = everywhere false; detachments = everywhere 0 } }
    {
        Attachments {
            attached: [false; MOST_PLACES],
            detachments: [0; MOST_PLACES],
        }
    }
}

/// One more at a place, where none was above `most`.
#[tactic(auto, using(crate::proofs::ListLemmas::changed_number, crate::proofs::CountLemmas::more_at_most, crate::proofs::CountLemmas::can_grow))]
pub fn count(counts: &mut Counts, place: Place, most: u64)
    requires room { most + 1 < 2 ^ 64 }
    requires most { AreAtMost most counts.old }
    ensures value { counts.new ≡ changed_at place (λ n. n + 1) counts.old }
    ensures most { AreAtMost (most + 1) counts.new }
{
    counts[place.get() as usize] += 1;
}

/// They after an act, where no count was above `most`.
#[tactic(auto, using(crate::proofs::CountLemmas::still_at_most))]
pub fn note_attachments(attachments: &mut Attachments, act: &Act, most: u64)
    requires room { most + 1 < 2 ^ 64 }
    requires most { AreAtMost most attachments.old.detachments }
    ensures attached { attachments.new.attached ≡ attached_after (Told act.now) attachments.old.attached }
    ensures detachments { attachments.new.detachments ≡ detachments_after (Told act.now) attachments.old.detachments }
    ensures most { AreAtMost (most + 1) attachments.new.detachments }
{
    match act {
        Act::Attached { place } => attachments.attached[place.get() as usize] = true,
        Act::Detached { place } | Act::Disabled { place } => {
            attachments.attached[place.get() as usize] = false;
            count(&mut attachments.detachments, *place, most);
        }
        _ => {}
    }
}
