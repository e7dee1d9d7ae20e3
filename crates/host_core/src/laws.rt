ghost use Rattle.std.specs.Prelude.{ℕ, List};
ghost use Rattle.ata_script.specs.declared.port_head.PortHead.{PortHead};
ghost use Rattle.ata_trace.specs.declared.step.Step.{Step};
ghost use Rattle.host_core.specs.Calm.{AreCalmSteps, AreWellEnded, HaveAtMost};
ghost use Rattle.port_core.specs.Weave.{AreScriptSteps, journals_of};

/// The law that calm scripts end well: where no step of a script disturbs a port, and there are as many rounds as commands
/// were accepted at a port, each journal ends with no command live, each accepted one answered `ok`, and no tick. It does
/// nothing.
pub fn calm_scripts_end_well()
    ensures { (rounds : ℕ) → (heads : List PortHead) → (steps : List (ℕ × ℕ × Step)) → AreScriptSteps steps → AreCalmSteps steps
        → HaveAtMost rounds (journals_of rounds heads steps) → AreWellEnded (journals_of rounds heads steps) }
{}
