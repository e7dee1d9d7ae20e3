ghost use Rattle.std.specs.Prelude.{ℕ, ◌≤◌, List, ◌++◌, length};
ghost use Rattle.ata_script.specs.declared.port_head.PortHead.{PortHead};
ghost use Rattle.ata_trace.specs.Entries.{EntryView, past_of};
ghost use Rattle.port_past.specs.Commands.{commands};
ghost use Rattle.port_past.specs.Live.{live};
ghost use Rattle.port_rules.specs.Legal.{HasLegalActs, IsLegal};
ghost use Rattle.port_rules.specs.Settle.{settling};
ghost use Rattle.port_calm.specs.Calm.{IsCalmJournal, EndsWell, StaysCalm};

/// Settling appends entries with exactly the legal acts, whatever the journal. Of a legal one the journal with its
/// settling is legal as a whole: `port_stands::settling_is_legal`.
pub fn settling_has_legal_acts()
    ensures { (head : PortHead) → (journal : List EntryView) → HasLegalActs head journal → (rounds : ℕ) → HasLegalActs head (journal ++ settling head rounds (past_of journal)) }
{}

/// Where no step of a legal journal disturbs its port, settling doesn't either, however many rounds it may make: it has
/// no tick, the port isn't recovering, and no command has another answer than success.
pub fn calm_ports_stay_calm()
    ensures { (head : PortHead) → (journal : List EntryView) → IsLegal head journal → IsCalmJournal journal → (rounds : ℕ) → StaysCalm (past_of journal) (settling head rounds (past_of journal)) }
{}

/// Where moreover settling may make as many rounds as commands are live, no command is left live, and each that was
/// accepted is answered with success.
pub fn calm_ports_end_well()
    ensures { (head : PortHead) → (journal : List EntryView) → IsLegal head journal → IsCalmJournal journal → (rounds : ℕ) → length (live (past_of journal)) ≤ rounds → EndsWell (past_of journal) (settling head rounds (past_of journal)) }
{}

/// As many rounds as commands were accepted are enough, and so are more.
pub fn rounds_for_all_are_enough()
    ensures { (head : PortHead) → (journal : List EntryView) → IsLegal head journal → IsCalmJournal journal → (rounds : ℕ) → length (commands (past_of journal)) ≤ rounds → EndsWell (past_of journal) (settling head rounds (past_of journal)) }
{}
