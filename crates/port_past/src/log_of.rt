use ata_base::Place;
use drive_model::LogTold;

/// What was told of the error log of a place.
#[derive(Clone, Copy, Debug, PartialEq, Eq)]
pub struct LogOf {
    pub place: Place,
    pub told: LogTold,
}
