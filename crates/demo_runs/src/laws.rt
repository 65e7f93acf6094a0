//! Laws of demos that callers rest on: functions that do nothing, whose contracts are the laws.
ghost use Rattle.std.specs.Prelude.{ℕ, ◌≡◌, ◌<◌, ◌≤◌, List};
ghost use Rattle.demo.specs.Script.{demo_bytes};
ghost use Rattle.script_lang.specs.Grammar.{IsScript, IsRefused};
ghost use Rattle.script_lang.specs.Parts.{Parts};
ghost use Rattle.script_lang.specs.declared.refusal.ScriptRefusal.TheVariants.{BadLine};
ghost use Rattle.demo_runs.specs.Parts.{demo_parts};

use demo::laws::demos_are_short;
use script_lang::laws::{
    printed_scripts_are_read_back, scripts_are_not_refused, scripts_are_read_in_one_way,
};

/// The bytes of a demo spell its script, and no other one.
pub fn a_demo_is_lawful()
    ensures script { (seed : ℕ) (files : ℕ) (edits : ℕ) → 0 < files → files ≤ 10000 → edits ≤ 50000
        → IsScript (demo_bytes seed files edits) (demo_parts seed files edits) }
    ensures only { (seed : ℕ) (files : ℕ) (edits : ℕ) (script : Parts) → 0 < files → files ≤ 10000
        → edits ≤ 50000 → IsScript (demo_bytes seed files edits) script
        → script ≡ demo_parts seed files edits }
{
    demos_are_short();
    printed_scripts_are_read_back();
    scripts_are_read_in_one_way();
}

/// No line of a demo is refused.
pub fn no_demo_is_refused()
    ensures { (seed : ℕ) (files : ℕ) (edits : ℕ) (line : ℕ) → 0 < files → files ≤ 10000
        → edits ≤ 50000 → IsRefused (demo_bytes seed files edits) (BadLine line) → ⊥ }
{
    a_demo_is_lawful();
    scripts_are_not_refused();
}
