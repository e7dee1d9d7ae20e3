ghost use Rattle.std.specs.Prelude.{◌≡◌, ◌∷◌, []};
ghost use Rattle.ata_trace.specs.declared.act.Act.TheVariants.{Deferred, Frozen, Thawed, Requested, Begun, Ended, Nothing};
ghost use Rattle.ata_base.specs.declared.deferral.Deferral.TheVariants as why;
ghost use Rattle.ata_trace.specs.declared.step.Step.TheVariants.{Kick, Irq};
ghost use Rattle.port_worked.specs.BehindTheGate.{one_waits, one_is_done, acts_behind, its_issue, its_answer};

/// Behind the gate: a kick is deferred while the port is frozen, before all else, and while recovery
/// is asked for or runs; it issues once the port is thawed and recovery has ended.
pub fn kicks_behind_the_gate()
    ensures frozen { acts_behind one_waits (Frozen ∷ []) (Kick 0) ≡ Deferred 1 why.Frozen ∷ [] }
    ensures asked { acts_behind one_waits (Requested ∷ []) (Kick 0) ≡ Deferred 1 why.Recovering ∷ [] }
    ensures running { acts_behind one_waits (Requested ∷ Begun ∷ []) (Kick 0) ≡ Deferred 1 why.Recovering ∷ [] }
    ensures both { acts_behind one_waits (Frozen ∷ Requested ∷ []) (Kick 0) ≡ Deferred 1 why.Frozen ∷ [] }
    ensures asked_again { acts_behind one_waits (Requested ∷ Begun ∷ Requested ∷ Ended ∷ []) (Kick 0) ≡ Deferred 1 why.Recovering ∷ [] }
    ensures thawed { acts_behind one_waits (Frozen ∷ Thawed ∷ []) (Kick 0) ≡ its_issue }
    ensures ended { acts_behind one_waits (Requested ∷ Begun ∷ Ended ∷ []) (Kick 0) ≡ its_issue }
{}

/// Behind the gate: a frozen port serves no interrupt, one that only recovers does.
pub fn interrupts_behind_the_gate()
    ensures frozen { acts_behind one_is_done (Frozen ∷ []) Irq ≡ Nothing ∷ [] }
    ensures recovering { acts_behind one_is_done (Requested ∷ []) Irq ≡ its_answer }
    ensures thawed { acts_behind one_is_done (Frozen ∷ Thawed ∷ []) Irq ≡ its_answer }
{}
