//! Laws of runs that callers rest on: functions that do nothing, whose contracts are the laws.
ghost use Rattle.std.specs.Prelude.{ℕ, ◌≡◌, ◌<◌, ◌≤◌, List, [], length};
ghost use Rattle.script_lang.specs.Parts.{Parts};
ghost use Rattle.transcripts.specs.Worked.{Worked};
ghost use Rattle.transcripts.specs.Serial.{RunEnd, run_of};
ghost use Rattle.transcripts.specs.Fits.{RunFits};
ghost use Rattle.transcripts.specs.Transcript.{summary_of};
ghost use Rattle.demo_runs.specs.Apart.{WritesApart};
ghost use Rattle.demo_runs.specs.Parts.{demo_parts};

use demo::laws::demos_have_their_commands;
use transcripts::laws::a_section_alone_is_serial;

/// Every run of a script whose two lanes write different files, with at most eight workers, has the summary of the run on
/// one thread.
pub fn runs_with_lanes_apart_agree()
    ensures { (script : Parts) (told : List Worked) (ended : RunEnd) → WritesApart script
        → length told ≤ 8 → RunFits [] script told ended
        → summary_of ended ≡ summary_of (run_of [] script) }
{
    a_section_alone_is_serial();
}

/// Every run of a demo's script, with at most eight workers, has the summary of the run on one thread.
pub fn demo_runs_agree()
    ensures { (seed : ℕ) (files : ℕ) (edits : ℕ) (told : List Worked) (ended : RunEnd) → 0 < files
        → files ≤ 10000 → edits ≤ 50000 → length told ≤ 8
        → RunFits [] (demo_parts seed files edits) told ended
        → summary_of ended ≡ summary_of (run_of [] (demo_parts seed files edits)) }
{
    demos_have_their_commands();
    runs_with_lanes_apart_agree();
}
