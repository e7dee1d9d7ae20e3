/// What becomes of a command whose issue recovery owns.
#[derive(Clone, Copy, Debug, PartialEq, Eq)]
pub enum Finish {
    /// It is answered: its device is gone.
    NoDev,
    /// It is tried again. `raised` says that the try is free: the allowance was raised by one for it.
    Retry { raised: bool },
    /// It is answered: it failed.
    Fail,
}
