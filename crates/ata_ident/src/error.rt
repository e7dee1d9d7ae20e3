use thiserror::Error;

/// Why a page isn't taken for an identity.
#[derive(Clone, Copy, Debug, PartialEq, Eq, Error)]
pub enum IdentError {
    /// The page has a sum, by the A5h in word 255, and the sum isn't 0.
    #[error("BadSum")]
    BadSum,
    /// Word 83 doesn't tell of 48-bit addressing.
    #[error("NoLba48")]
    NoLba48,
    /// Words 100 to 103 tell of no sector.
    #[error("NoSectors")]
    NoSectors,
}
