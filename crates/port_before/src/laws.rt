ghost use Rattle.std.specs.Prelude.{◌≡◌, ℕ, false, List};
ghost use Rattle.ata_script.specs.declared.port_head.PortHead.{PortHead};
ghost use Rattle.ata_trace.specs.Entries.{EntryView, past_of};
ghost use Rattle.ata_trace.specs.Event.{Event};
ghost use Rattle.ata_trace.specs.declared.step.Step.{Step};
ghost use Rattle.ata_trace.specs.declared.who.Who.{Who};
ghost use Rattle.port_before.specs.BeforeDrain.{coming_before_drain, entry_before_drain};
ghost use Rattle.port_before.specs.BeforeSwitching.{entry_before_switching};
ghost use Rattle.port_rules.specs.Coming.{coming};
ghost use Rattle.port_rules.specs.Legal.{entry_after, IsLegal};

/// At a port that doesn't switch by frames each step after a legal journal makes the entry of the rules before
/// switching: another place defers a command of a multiplier, and an error at a place takes the issues of the whole port.
pub fn steps_before_switching()
    ensures { (head : PortHead) → head.fbs ≡ false → (journal : List EntryView) → IsLegal head journal
        → (who : Who) (seq : ℕ) (step : Step)
        → entry_after head (past_of journal) who seq step ≡ entry_before_switching head (past_of journal) who seq step }
{}

/// At a port that doesn't give up waiting each step after a legal journal makes the entry of the rules before that:
/// an issue is due by its deadline alone, for the timer and for the recovery that waits for it.
pub fn steps_before_drain()
    ensures { (head : PortHead) → head.drain ≡ false → (journal : List EntryView) → IsLegal head journal
        → (who : Who) (seq : ℕ) (step : Step)
        → entry_after head (past_of journal) who seq step ≡ entry_before_drain head (past_of journal) who seq step }
{}

/// At a port that doesn't give up waiting, after any past, the coming time is the least of the deadlines and of the
/// times of recovery above the present.
pub fn coming_times_before_drain()
    ensures { (head : PortHead) → head.drain ≡ false → (past : List Event) → coming head past ≡ coming_before_drain head past }
{}
