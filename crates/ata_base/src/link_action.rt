/// What recovery does at a place.
#[derive(Clone, Copy, Debug, PartialEq, Eq)]
pub enum LinkAction {
    /// Nothing.
    NoAction,
    /// Asks the drive for its identity.
    Revalidate,
    /// Resets the link.
    Reset,
}
