use ata_base::Op;

/// What the frame of a command asks for: an operation, and whether it is a queued one.
#[derive(Clone, Copy, Debug, PartialEq, Eq)]
pub struct Asked {
    pub op: Op,
    pub queued: bool,
}
