use ata_base::{Regs, Tag};

/// What a reading of the error log told.
#[derive(Clone, Copy, Debug, PartialEq, Eq)]
pub enum LogTold {
    /// A page, which names the tag and the registers of a queued command.
    Page { tag: Tag, regs: Regs },
    /// A page that names none: its sum is wrong, or the error wasn't a queued command's.
    BadPage,
    /// There is no page.
    NoPage,
}
