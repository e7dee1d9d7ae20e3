use thiserror::Error;

/// Why a page doesn't tell of a queued command that failed.
#[derive(Clone, Copy, Debug, PartialEq, Eq, Error)]
pub enum LogError {
    /// The sum of all bytes isn't 0 modulo 256.
    #[error("BadSum")]
    BadSum,
    /// NQ is 1: the command that failed wasn't a queued one.
    #[error("NotQueued")]
    NotQueued,
}
