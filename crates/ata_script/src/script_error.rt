use thiserror::Error;

/// Why bytes were not read as a script.
#[derive(Clone, Copy, Debug, PartialEq, Eq, Error)]
pub enum ScriptError {
    /// A rule is broken: the number of the first such line, counted from 1, and the least of its rules.
    #[error("Fault")]
    Fault { line: u32, rule: u8 },
    /// There is no memory for what the script says.
    #[error("Memory")]
    Memory,
}
