ghost use Rattle.std.specs.Prelude.{◌≡◌, ℕ, List, None};
ghost use Rattle.ata_script.specs.Forms.{rule_of};
ghost use Rattle.ata_script.specs.Items.{item_words};
ghost use Rattle.ata_script.specs.ScriptText.{script_text};
ghost use Rattle.ata_script.specs.Scripts.{IsScript, script_said};
ghost use Rattle.ata_script.specs.Taking.{item_for};
ghost use Rattle.ata_script.specs.declared.script.Script.{Script};

/// The law that a line that breaks none of the rules 3 to 5 has the words of what it says. It does
/// nothing.
pub fn words_are_said()
    ensures { (version : ℕ) → (words : List (List ℕ)) → rule_of version words ≡ None
        → item_words (item_for version words) ≡ words }
{}

/// The law that no bytes are two scripts: what they say follows from them. It does nothing.
pub fn one_script()
    ensures { (bytes : List ℕ) → (a b : Script) → IsScript bytes a → IsScript bytes b
        → script_said a ≡ script_said b }
{}

/// The law that the text of a script is right, and says that script again. So `read`, given what
/// `write` wrote of at most 4,194,304 bytes, gives the script again, unless memory runs out. It does
/// nothing.
pub fn reads_back()
    ensures { (script : Script) → IsScript (script_text script) script }
{}
