use ata_trace::{ModelName, SerialName};

/// What `identified` told of a drive.
#[derive(Debug, Drop, PartialEq, Eq)]
pub struct IdentityTold {
    pub model: ModelName,
    pub serial: SerialName,
    pub sectors: u64,
    pub depth: u8,
}
