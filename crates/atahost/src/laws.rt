ghost use Rattle.std.specs.Prelude.{◌≡◌, ℕ, List, Option};
ghost use Rattle.ata_trace.specs.Entries.{EntryView};
ghost use Rattle.atahost.specs.Completeness.{EndsCalmly, HasCalmScript};
ghost use Rattle.atahost.specs.Headline.{Replayed, Tells};
ghost use Rattle.atahost.specs.Journals.{AreJournalsOf};
ghost use Rattle.port_core.specs.Text.{texts_of};
ghost use Rattle.atahost.specs.declared.status.Status.{Status};

use ata_script::one_script;
use host_core::calm_scripts_end_well;
use port_core::{one_text_of_journals, script_journals_are_legal};

/// The law that no bytes have two lists of journals with the same rounds of settling: they follow from the bytes and the
/// rounds. It does nothing.
pub fn one_list_of_journals()
    ensures { (rounds : ℕ) → (bytes : List ℕ) → (these those : List (List EntryView))
        → AreJournalsOf rounds bytes these → AreJournalsOf rounds bytes those → these ≡ those }
{
    one_script();
}

/// The law that two replays which print the same text have the same journals, whatever their scripts and rounds. It does
/// nothing.
pub fn one_text_of_replays()
    ensures { (rounds others : ℕ) → (left before after : Option (List ℕ)) → (k : ℕ) → (source first last : Option (List ℕ)) → (n : ℕ)
        → (these : Replayed (AreJournalsOf rounds) left before after k) → (those : Replayed (AreJournalsOf others) source first last n)
        → texts_of these.journals ≡ texts_of those.journals → these.journals ≡ those.journals }
{
    one_text_of_journals();
}

/// The law that a calm script ends well with as many rounds as commands are accepted at a port: where a status tells of its
/// replay, it tells of no live command, and each that was accepted is answered `ok`. It does nothing.
pub fn calm_scripts_end_calmly()
    ensures { (rounds : ℕ) → (left rest before after : Option (List ℕ)) → (status : Status)
        → Tells (AreJournalsOf rounds) left rest before after status → (calm : HasCalmScript rounds left) → EndsCalmly calm status }
{
    one_list_of_journals();
    script_journals_are_legal();
    calm_scripts_end_well();
}
