ghost use Rattle.std.specs.Prelude.{◌≡◌, []};
ghost use Rattle.host_core.specs.Worked.{mixed_steps, of_port_0, of_port_1};
ghost use Rattle.port_core.specs.Weave.{asked_at};

/// Steps of two actors at two ports, as they are asked for at each: worked by hand, computed by the checker.
/// It does nothing.
pub fn a_worked_row()
    ensures first { asked_at 0 mixed_steps ≡ of_port_0 }
    ensures second { asked_at 1 mixed_steps ≡ of_port_1 }
    ensures third { asked_at 2 mixed_steps ≡ [] }
{}
