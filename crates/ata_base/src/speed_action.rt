/// What is done about the speed of a place after a verdict.
#[derive(Clone, Copy, Debug, PartialEq, Eq)]
pub enum SpeedAction {
    /// Nothing.
    NoChange,
    /// No command is queued any more.
    NcqOff,
    /// The link is limited to a generation, 1 to 3.
    Speed { generation: u8 },
    /// The mode becomes a UDMA mode, 0 to 6.
    Mode { udma: u8 },
}
