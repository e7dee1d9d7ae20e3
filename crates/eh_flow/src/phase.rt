use ata_base::{Ms, Place};

/// Where a recovery stands. `attempt` is the try of what is owed or open, from 1 on; `ident` is the try of the identity
/// that is kept over a reset. A deadline is the time from which on a try is late.
#[derive(Clone, Copy, Debug, PartialEq, Eq)]
pub enum Phase {
    /// Recovery isn't running.
    Idle,
    /// It runs, and has no autopsy yet.
    Logs,
    /// The host's link is to be reset.
    HostOwed,
    /// The reset of the host's link is open.
    HostOpen,
    /// A place is to be reset.
    ResetOwed {
        place: Place,
        attempt: u8,
        ident: u8,
    },
    /// The reset of a place is open.
    ResetOpen {
        place: Place,
        attempt: u8,
        ident: u8,
        deadline: Ms,
    },
    /// The drive at a place is to be asked for its identity.
    IdentOwed {
        place: Place,
        attempt: u8,
    },
    /// The drive at a place was asked for its identity.
    IdentOpen {
        place: Place,
        attempt: u8,
        deadline: Ms,
    },
    /// All tasks are through.
    Through,
}
