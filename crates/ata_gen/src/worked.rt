ghost use Rattle.std.specs.Prelude.{◌≡◌};
ghost use Rattle.ata_gen.specs.Generated.{lines_at, lines_drawn, number_at, op_drawn};
ghost use Rattle.ata_gen.specs.Worked.{both_lines, fifth_op, fiftieth_lines, first_lines, hundredth_lines, last_op, seventieth_lines};

/// Lines and numbers that were worked by hand, computed by the checker. It does nothing.
pub fn worked_lines()
    ensures number { number_at 1 1 ≡ 1103527590 }
    ensures second { number_at 1 2 ≡ 377401575 }
    ensures of_20000 { number_at 20000 1 ≡ 615461849 }
    ensures first { lines_at 1 1 ≡ first_lines }
    ensures fiftieth { lines_drawn 16838 50 ≡ fiftieth_lines }
    ensures seventieth { lines_drawn 16839 70 ≡ seventieth_lines }
    ensures hundredth { lines_drawn 16838 100 ≡ hundredth_lines }
    ensures both { lines_drawn 16838 350 ≡ both_lines }
    ensures fifth { op_drawn 16870 9 ≡ fifth_op }
    ensures last { op_drawn 16894 9 ≡ last_op }
{}
