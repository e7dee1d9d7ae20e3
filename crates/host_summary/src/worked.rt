ghost use Rattle.std.specs.Prelude.{◌≡◌, ◌∷◌, []};
ghost use Rattle.host_summary.specs.Summary.{summary_of};
ghost use Rattle.host_summary.specs.Worked.{few_counts, few_steps, first_port, second_port};

/// The journals of two ports summed up by hand, computed by the checker. It does nothing.
pub fn a_worked_summary()
    ensures { summary_of few_steps (first_port ∷ second_port ∷ []) ≡ few_counts }
{}
