/// Why a line was not taken.
#[derive(Clone, Copy, Debug, PartialEq, Eq)]
pub(crate) enum Refusal {
    /// It breaks this rule, the least of those that it breaks.
    Rule(u8),
    /// There is no memory for what it says.
    Memory,
}
