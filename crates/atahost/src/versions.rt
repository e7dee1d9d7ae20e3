ghost use Rattle.std.specs.Prelude.{◌≡◌, ℕ, List};
ghost use Rattle.ata_trace.specs.Entries.{EntryView};
ghost use Rattle.atahost.specs.Journals.{AreJournalsOf};
ghost use Rattle.host_core.specs.Versions.{in_version};

use crate::laws::one_list_of_journals;
use host_core::first_scripts_are_second_too;

/// The law that a script of version 1 and the same script with line 1 `atahost 2` have the same journals, with the same
/// rounds of settling. It does nothing.
pub fn versions_have_the_same_journals()
    ensures kept { (rounds : ℕ) → (rest : List ℕ) → (journals : List (List EntryView))
        → AreJournalsOf rounds (in_version 1 rest) journals → AreJournalsOf rounds (in_version 2 rest) journals }
    ensures same { (rounds : ℕ) → (rest : List ℕ) → (these those : List (List EntryView))
        → AreJournalsOf rounds (in_version 1 rest) these → AreJournalsOf rounds (in_version 2 rest) those → these ≡ those }
{
    first_scripts_are_second_too();
    one_list_of_journals();
}
