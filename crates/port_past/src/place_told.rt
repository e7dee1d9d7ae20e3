use ata_base::Ms;

/// What recovery told last of a place since it began.
#[derive(Clone, Copy, Debug, PartialEq, Eq)]
pub enum PlaceTold {
    /// Nothing yet.
    NotBegun,
    ResetBegun { attempt: u8, deadline: Ms },
    /// With the try that was late.
    ResetLate { attempt: u8 },
    /// Whether a drive was found.
    ResetEnded { found: bool },
    ResetFailed,
    IdentAsked { deadline: Ms },
    IdentLate,
    Mode,
}

/// What recovery told last of the host link since it began.
#[derive(Clone, Copy, Debug, PartialEq, Eq)]
pub enum HostTold {
    /// Nothing yet.
    NotBegun,
    ResetBegun,
    ResetEnded,
}
