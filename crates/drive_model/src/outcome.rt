use ata_base::{Regs, Stamps};

/// With what an issue ends: its registers and, of a good read, the stamp of each of its sectors.
#[derive(Debug, Drop, PartialEq, Eq)]
pub struct Outcome {
    pub regs: Regs,
    pub stamps: Stamps,
}
