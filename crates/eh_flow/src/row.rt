use ata_base::{Ms, Place, Tag};

/// What one step of recovery does.
#[derive(Clone, Copy, Debug, PartialEq, Eq)]
pub enum Row {
    /// Nothing: recovery isn't asked for.
    Nothing,
    /// Waits for an issue in flight, which is neither owned nor due.
    WaitTag {
        tag: Tag,
    },
    /// Recovery begins.
    Begin,
    /// Reads the error log of a place.
    Log {
        place: Place,
    },
    /// Makes the autopsy.
    Autopsy,
    /// Begins to reset the host's link.
    HostBegin {
        deadline: Ms,
    },
    /// Ends the reset of the host's link.
    HostEnd,
    /// Begins a try to reset a place. `ident` is the try of the identity that is kept.
    ResetBegin {
        place: Place,
        attempt: u8,
        ident: u8,
        deadline: Ms,
    },
    /// The reset of a place ends, since no drive is linked.
    ResetGone {
        place: Place,
    },
    /// The reset of a place ends, since its drive is ready.
    ResetReady {
        place: Place,
    },
    /// The try to reset a place is late. `again` is false at the last try.
    ResetLate {
        place: Place,
        again: bool,
    },
    /// Waits for the drive at a place to be ready.
    ResetWait {
        place: Place,
    },
    /// Asks the drive at a place for its identity.
    IdentAsk {
        place: Place,
        attempt: u8,
        deadline: Ms,
    },
    /// Reads the identity that the drive at a place has told.
    IdentRead {
        place: Place,
    },
    /// The try to get an identity is late. `again` is false at the last try.
    IdentLate {
        place: Place,
        again: bool,
    },
    /// Waits for the drive at a place to tell its identity.
    IdentWait {
        place: Place,
    },
    /// Finishes the issues that recovery owns, and ends.
    Finish,
}
