use ata_base::{Regs, Stamps};

/// The good end of an issue: its registers (status 40, error 00, lba 0, so that only the count varies) and, of a read,
/// the stamp of each sector as it then was.
#[derive(Debug, Drop, PartialEq, Eq)]
pub struct Completion {
    pub regs: Regs,
    pub stamps: Stamps,
}
