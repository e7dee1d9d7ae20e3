use ata_base::{Kinds, Regs};

/// What the autopsy made of an issue: its final kinds, and the registers that were analysed, where any were.
#[derive(Clone, Copy, Debug, PartialEq, Eq)]
pub struct Judgement {
    pub kinds: Kinds,
    pub regs: Option<Regs>,
}
