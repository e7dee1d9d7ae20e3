ghost use Rattle.std.specs.Prelude.{◌≡◌, ℕ, List};
ghost use Rattle.ata_script.specs.Scripts.{IsScript};
ghost use Rattle.ata_script.specs.declared.port_head.PortHead.{PortHead};
ghost use Rattle.ata_script.specs.declared.script.Script.{Script};
ghost use Rattle.ata_trace.specs.Entries.{EntryView, past_of};
ghost use Rattle.ata_trace.specs.declared.step.Step.{Step};
ghost use Rattle.ata_trace.specs.declared.who.Who.TheVariants.{Actor};
ghost use Rattle.port_recovery.specs.Recoverable.{IsRecoverable};
ghost use Rattle.port_rules.specs.Legal.{IsLegal};
ghost use Rattle.port_rules.specs.Run.{StepCall, numbered, run};
ghost use Rattle.port_rules.specs.Settle.{settled_journal};
ghost use Rattle.port_core.specs.Text.{texts_of};
ghost use Rattle.port_core.specs.Told.{AreInRange};
ghost use Rattle.port_core.specs.Weave.{AreLegalFor, AreScriptCalls, AreScriptSteps, IsInLineOrder, asked_at, asked_by, journals_of, steps_at, steps_of};

use ata_trace::one_text;

/// The law that the journal which steps make is legal, whatever the steps that a script can have: so each law of
/// the legal journals holds of it. It does nothing.
pub fn runs_are_legal()
    ensures { (head : PortHead) → (asked : List StepCall) → AreScriptCalls asked → IsLegal head (run head asked) }
{}

/// The law that the journals of a script are legal: each of its steps is one that a script can have, and each
/// journal that they make, settled with at most so many rounds, is legal for its port. It does nothing.
pub fn script_journals_are_legal()
    ensures steps { (bytes : List ℕ) → (script : Script) → IsScript bytes script → AreScriptSteps script.steps }
    ensures journals { (bytes : List ℕ) → (script : Script) → (rounds : ℕ) → IsScript bytes script
        → AreLegalFor script.head (journals_of rounds script.head script.steps) }
{}

/// The law that the steps of a script have one journal at a port that settles with at most so many rounds: the
/// run of those there with its settling is legal and in the order of the script's lines, and no other journal is.
/// It does nothing.
pub fn one_in_line_order()
    ensures runs { (rounds : ℕ) → (head : PortHead) → (number : ℕ) → (steps : List (ℕ × ℕ × Step))
        → AreScriptSteps steps → IsInLineOrder rounds head number steps (settled_journal rounds head (asked_at number steps)) }
    ensures alone { (rounds : ℕ) → (head : PortHead) → (number : ℕ) → (steps : List (ℕ × ℕ × Step)) → (entries : List EntryView)
        → IsInLineOrder rounds head number steps entries → entries ≡ settled_journal rounds head (asked_at number steps) }
{}

/// The law that what is asked of a port is a weave of the steps of the actors there: of each actor all its
/// steps, in their order, numbered from 0. It does nothing.
pub fn actors_in_turn()
    ensures { (port actor : ℕ) → (steps : List (ℕ × ℕ × Step))
        → asked_by actor (asked_at port steps) ≡ numbered (Actor actor) 0 (steps_of actor (steps_at port steps)) }
{}

/// The law that recovery can work on the past of each legal journal: no command has two issues in flight, what a drive holds
/// it holds once and is in flight, and the tries of resets and identities fit into a byte. It does nothing.
pub fn legal_pasts_are_recoverable()
    ensures { (head : PortHead) → (entries : List EntryView) → IsLegal head entries → IsRecoverable head (past_of entries) }
{}

/// The law that no text belongs to two lists of journals whose numbers are in the ranges of their types. It does nothing.
pub fn one_text_of_journals()
    ensures { (these those : List (List EntryView)) → AreInRange these → AreInRange those → texts_of these ≡ texts_of those → these ≡ those }
{
    one_text();
}
