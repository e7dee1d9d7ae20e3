use ata_base::Place;

/// What is looked at before a command is issued: whether the port is frozen, whether recovery is asked
/// for or running, whether a multiplier is on the port, whether it switches by frames (FIS-based), so
/// that places don't exclude each other, the place that alone may issue until an issue of it is
/// answered or recovery begins, and for each tag that is busy the place of its issue and whether that
/// is queued.
#[derive(Clone, Copy, Debug, PartialEq, Eq)]
pub struct View {
    pub frozen: bool,
    pub recovering: bool,
    pub pmp: bool,
    pub fbs: bool,
    pub exclusive: Option<Place>,
    pub slots: [Option<(Place, bool)>; 32],
}
