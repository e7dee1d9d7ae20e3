ghost use Rattle.std.specs.Prelude.{◌≡◌, false};
ghost use Rattle.ata_trace.specs.Event.Event.{Told};
ghost use Rattle.port_past.specs.Drain.{drained_after, quiet_since_after};
ghost use Rattle.port_past.specs.PortState.{frozen_after, asked_after, running_after, autopsied_after};

use ata_trace::Act;

/// Whether the port is frozen, whether recovery is asked for, whether it runs, and whether it has its autopsy; whether it
/// gave up waiting since it was asked, and since when it is quiet.
#[derive(Drop)]
pub struct PortState {
    pub frozen: bool,
    pub asked: bool,
    pub running: bool,
    pub autopsied: bool,
    pub drained: bool,
    pub quiet_since: u64,
}

impl PortState {
    /// A port that isn't frozen, for which no recovery is asked for or runs, since 0.
    pub fn new() -> PortState
        ensures { result ≡ record { frozen = false; asked = false; running = false; autopsied = false; drained = false; quiet_since = 0 } }
    {
        PortState {
            frozen: false,
            asked: false,
            running: false,
            autopsied: false,
            drained: false,
            quiet_since: 0,
        }
    }
}

/// The state of the port after an act, at a time by the clock.
pub fn note_state(state: &mut PortState, act: &Act, clock: u64)
    ensures frozen { state.new.frozen ≡ frozen_after (Told act.now) state.old.frozen }
    ensures asked { state.new.asked ≡ asked_after (Told act.now) state.old.asked }
    ensures running { state.new.running ≡ running_after (Told act.now) state.old.running }
    ensures autopsied { state.new.autopsied ≡ autopsied_after (Told act.now) state.old.autopsied }
    ensures drained { state.new.drained ≡ drained_after (Told act.now) state.old.drained }
    ensures quiet { state.new.quiet_since ≡ quiet_since_after (Told act.now) clock state.old.quiet_since }
{
    match act {
        Act::Frozen => state.frozen = true,
        Act::Thawed => state.frozen = false,
        Act::Requested => {
            state.asked = true;
            state.drained = false;
            state.quiet_since = clock;
        }
        Act::Begun => {
            state.asked = false;
            state.running = true;
            state.autopsied = false;
        }
        Act::Autopsied => state.autopsied = true,
        Act::Ended => state.running = false,
        Act::Drained => state.drained = true,
        Act::AnsweredOk { .. } => state.quiet_since = clock,
        _ => {}
    }
}
