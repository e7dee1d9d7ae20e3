/// Called before and after each step of an actor, 0 to 31, outside every hold. `made` counts the steps that the actor made
/// before this one, over all ports; it stops at the last value of its type. No contract depends on a gate.
pub trait Gate {
    /// Before a step.
    fn before(&self, actor: u8, made: u32);

    /// After it; not called where there was no memory for the step.
    fn after(&self, actor: u8, made: u32);
}

/// The gate that does nothing.
#[derive(Clone, Copy, Drop)]
pub struct NoGate;

impl Gate for NoGate {
    fn before(&self, _actor: u8, _made: u32) {}

    fn after(&self, _actor: u8, _made: u32) {}
}
