use ata_base::{Ms, Place, Tag};

/// What a step of recovery sees of its port. `linked`, `ready` and `answered` are those of the phase's place; where the
/// phase has none, they are false, 0 and false.
#[derive(Clone, Copy, Debug, PartialEq, Eq)]
pub struct Observation {
    /// The time.
    pub time: Ms,
    /// Whether recovery is asked for.
    pub asked: bool,
    /// The least tag in flight that is neither owned nor due.
    pub waiting: Option<Tag>,
    /// The least place whose error log is to be read; none while the port is frozen.
    pub log: Option<Place>,
    /// Whether the port is frozen.
    pub frozen: bool,
    /// Whether a drive is linked at the place.
    pub linked: bool,
    /// The time from which on that drive is ready.
    pub ready: Ms,
    /// Whether it has answered who it is.
    pub answered: bool,
}
