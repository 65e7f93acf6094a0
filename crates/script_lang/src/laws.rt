//! Laws of scripts that callers rest on: functions that do nothing, whose contracts are the laws.
ghost use Rattle.std.specs.Prelude.{ℕ, ◌≡◌, List};
ghost use Rattle.script_lang.specs.Grammar.{IsScript, IsRefused};
ghost use Rattle.script_lang.specs.Parts.{Parts};
ghost use Rattle.script_lang.specs.Printed.{IsReadBack};
ghost use Rattle.script_lang.specs.declared.refusal.ScriptRefusal.TheVariants.{BadLine};

/// Bytes spell one script at most.
pub fn scripts_are_read_in_one_way()
    ensures { (bytes : List ℕ) (script : Parts) (other : Parts) → IsScript bytes script
        → IsScript bytes other → script ≡ other }
{}

/// Bytes that spell a script have no bad line and no group that is open at their end: no line of them is refused.
pub fn scripts_are_not_refused()
    ensures { (bytes : List ℕ) (script : Parts) (line : ℕ) → IsScript bytes script
        → IsRefused bytes (BadLine line) → ⊥ }
{}

/// Scripts that are printed line by line are read back.
pub fn printed_scripts_are_read_back()
    ensures { IsReadBack }
{}
