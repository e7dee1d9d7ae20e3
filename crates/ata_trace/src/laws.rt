ghost use Rattle.std.specs.Prelude.{◌≡◌, ℕ, List};
ghost use Rattle.ata_trace.specs.Ranges.{IsAct, IsLong, IsStep, IsWho};
ghost use Rattle.ata_trace.specs.Text.{act_line, head_line};
ghost use Rattle.ata_trace.specs.Texts.{PortText, ArePorts, ports_text};
ghost use Rattle.ata_trace.specs.declared.act.Act.{Act};
ghost use Rattle.ata_trace.specs.declared.step.Step.{Step};
ghost use Rattle.ata_trace.specs.declared.who.Who.{Who};

/// The law that no line belongs to two acts. It does nothing.
pub fn one_act()
    ensures { (a b : Act) → IsAct a → IsAct b → act_line a ≡ act_line b → a ≡ b }
{}

/// The law that no line belongs to two heads. It does nothing.
pub fn one_head()
    ensures { (at bt : ℕ) → (who other : Who) → (seq req : ℕ) → (step next : Step)
        → IsLong at → IsWho who → IsLong seq → IsStep step
        → IsLong bt → IsWho other → IsLong req → IsStep next
        → head_line at who seq step ≡ head_line bt other req next
        → (at ≡ bt) × (who ≡ other) × (seq ≡ req) × (step ≡ next) }
{}

/// The law that no text belongs to two journals: the texts of ports, put together, with their `live`
/// and `end` lines. It does nothing.
pub fn one_text()
    ensures { (a b : List PortText) → ArePorts a → ArePorts b → ports_text a ≡ ports_text b → a ≡ b }
{}
