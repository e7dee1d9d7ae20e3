ghost use Rattle.std.specs.Prelude.{ℕ, List};
ghost use Rattle.ata_script.specs.declared.port_head.PortHead.{PortHead};
ghost use Rattle.ata_trace.specs.Entries.{EntryView, grown, past_of};
ghost use Rattle.ata_trace.specs.Event.{Event};
ghost use Rattle.ata_trace.specs.declared.step.Step.{Step};
ghost use Rattle.ata_trace.specs.declared.who.Who.{Who};
ghost use Rattle.port_facts.specs.Reached.{IsReached};
ghost use Rattle.port_rules.specs.Legal.{entry_after, IsLegal};

/// What is reached stays so over the entry of each step.
pub fn entries_keep_what_is_reached()
    ensures { (head : PortHead) → (past : List Event) (who : Who) (seq : ℕ) (step : Step) → IsReached head past → IsReached head (grown past (entry_after head past who seq step)) }
{}

/// The past of each legal journal is reached: each of its events is allowed, a running recovery owns each issue in flight,
/// and a port that isn't recovering owns none.
pub fn legal_journals_are_reached()
    ensures { (head : PortHead) → (journal : List EntryView) → IsLegal head journal → IsReached head (past_of journal) }
{}
