use crate::passes::Passes;

/// There was no memory in a turn, and the walk ended there. The passes can enter again.
#[derive(Drop)]
pub struct Short {
    pub passes: Passes,
}
