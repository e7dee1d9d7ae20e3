use ata_base::Place;

/// What an interrupt stands for.
#[derive(Clone, Copy, Debug, PartialEq, Eq)]
pub enum Cause {
    /// DONE: a command ended well.
    Done,
    /// TFERR: a command of this place failed, as its task file tells.
    Tferr { place: Place },
    /// IFERR: an error on the wire.
    Iferr,
    /// CONNECT: a drive was plugged, unplugged or exchanged at a direct port.
    Connect,
    /// NOTIFY: a port multiplier tells of a change at a place.
    Notify,
}

/// The causes that stand. Bit p of `tferr` stands for the place p, 0 to 14; its bit 15 is 0.
#[derive(Clone, Copy, Debug, PartialEq, Eq)]
pub struct Causes {
    pub done: bool,
    pub tferr: u16,
    pub iferr: bool,
    pub connect: bool,
    pub notify: bool,
}
