/// What the journals of a host come to. A number that doesn't fit in 64 bits stands at the last one.
#[derive(Clone, Copy, Debug, PartialEq, Eq)]
pub struct Summary {
    /// The submit steps of the script.
    pub commands: u64,
    /// The acts `accepted`.
    pub accepted: u64,
    /// The acts `refused`.
    pub refused: u64,
    /// The acts `issued`.
    pub issued: u64,
    /// The acts `answered` that tell success.
    pub ok: u64,
    /// The acts `answered` that tell failure.
    pub failed: u64,
    /// The acts `answered` without a device.
    pub nodev: u64,
    /// The acts `retried`.
    pub retried: u64,
    /// The acts `begun`: how often recovery ran.
    pub runs: u64,
    /// The acts `recorded`.
    pub recorded: u64,
    /// All entries, those of boot and of settling too.
    pub entries: u64,
    /// The commands that are live at the end, of all ports; any u32.
    pub live: u64,
}
