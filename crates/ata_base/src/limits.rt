/// How many places a port has at most.
pub const MOST_PLACES: usize = 15;

/// How many tags a port has: 0 to 31.
pub const TAG_COUNT: usize = 32;

/// How many acts an entry has at most.
pub const MOST_ACTS: usize = 128;

/// How many sectors a drive has at most.
pub const MOST_DRIVE_SECTORS: usize = 65_536;
