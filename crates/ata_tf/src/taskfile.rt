/// The registers with which a command is given to a drive (ACS-3, ATA command inputs).
#[derive(Clone, Copy, Debug, PartialEq, Eq)]
pub struct Taskfile {
    pub command: u8,
    pub features: u16,

    /// The address of the first sector, of which a frame carries 48 bits.
    pub lba: u64,
    pub count: u16,
    pub device: u8,
}
