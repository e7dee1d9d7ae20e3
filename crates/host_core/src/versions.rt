ghost use Rattle.std.specs.Prelude.{ℕ, List};
ghost use Rattle.ata_script.specs.Scripts.{IsScript};
ghost use Rattle.ata_script.specs.declared.script.Script.{Script};
ghost use Rattle.host_core.specs.Versions.{HasSecondVersion, in_version};

/// The law that each script of version 1 is one of version 2 too: the same bytes with line 1 `atahost 2` are a script
/// with the same ports and steps. So both have the same journals, which follow from ports and steps. It does nothing.
pub fn first_scripts_are_second_too()
    ensures { (rest : List ℕ) → (first : Script) → IsScript (in_version 1 rest) first → HasSecondVersion rest first }
{}
