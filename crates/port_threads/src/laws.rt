ghost use Rattle.std.specs.Prelude.{ℕ, List};
ghost use Rattle.ata_script.specs.declared.port_head.PortHead.{PortHead};
ghost use Rattle.ata_trace.specs.declared.step.Step.{Step};
ghost use Rattle.host_core.specs.Calm.{AreCalmPorts, AreCalmSteps};
ghost use Rattle.port_core.specs.PortView.{PortView};
ghost use Rattle.port_threads.specs.Weave.{IsRunOf};

/// The law that ports stay calm in a run of a script no step of which disturbs a port, in whatever order its actors take
/// their steps. It does nothing.
pub fn calm_runs_stay_calm()
    ensures { (heads : List PortHead) → (lines : List (ℕ × ℕ × Step)) → (ports : List PortView) → AreCalmSteps lines
        → IsRunOf heads lines ports → AreCalmPorts ports }
{}
