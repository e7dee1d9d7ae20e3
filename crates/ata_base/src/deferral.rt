/// Why a command isn't issued now. The first that holds is told.
#[derive(Clone, Copy, Debug, PartialEq, Eq)]
pub enum Deferral {
    /// The port is frozen.
    Frozen,
    /// Recovery is asked for, or running.
    Recovering,
    /// Issues are in flight at the place beside which the command can't go.
    LinkBusy,
    /// Another place of a multiplier has the port.
    PortBusy,
    /// No tag that the command may have is free.
    NoTag,
}
