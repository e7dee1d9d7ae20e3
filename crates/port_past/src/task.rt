use ata_base::Place;

/// What a recovery has to do.
#[derive(Clone, Copy, Debug, PartialEq, Eq)]
pub enum Task {
    /// A reset of the host link.
    Host,
    /// A reset of a place, and then its identity.
    Reset { place: Place },
    /// The identity of a place alone.
    Revalidate { place: Place },
}
