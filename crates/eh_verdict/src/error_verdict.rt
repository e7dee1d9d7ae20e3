/// What the errors of a place ask for: no queueing any more, less speed, PIO (which does nothing on SATA), and that
/// the ring's entries don't become old by it.
#[derive(Clone, Copy, Debug, PartialEq, Eq)]
pub struct Verdict {
    pub ncq_off: bool,
    pub speed_down: bool,
    pub pio: bool,
    pub keep: bool,
}
