// The entries before the open one. They exist only in contracts, and take no memory.
ghost use Rattle.std.specs.Prelude.{◌≡◌, List, [], ◌∷◌, ◌++◌};
ghost use base.Fml.{ftrue};
ghost use Rattle.ata_trace.specs.Entries.{EntryView};

use crate::last::Last;
use std::marker::Model;

#[derive(Drop)]
pub(crate) struct Before {
    ghost entries: { List EntryView },
}

impl Model for Before {
    ghost also_owns = { λ _. ftrue };
}

// It owns nothing.
unsafe impl Send for Before {}

impl Before {
    ghost use Rattle.ata_trace.specs.OpenEntries.{entry_last};

    // No entries.
    #[inline(always)]
    pub(crate) fn new() -> Before
        ensures { result.entries ≡ [] }
    {
        Before {}
    }

    // These entries and the last one.
    #[inline(always)]
    pub(crate) fn then(&self, _last: &Last) -> Before
        ensures { result.entries ≡ self.now.entries ++ entry_last _last.now ∷ [] }
    {
        Before {}
    }
}
