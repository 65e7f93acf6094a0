//! What is checked is what a run printed: functions that do nothing, whose contracts are the laws.
ghost use Rattle.std.specs.Prelude.{ℕ, ◌≡◌, ◌+◌, ◌<◌, ◌^◌, List, [], length, Some, None, Err};
ghost use Rattle.write_history.specs.declared.entry.Entry.{Entry};
ghost use Rattle.script_lang.specs.declared.line.Line.{Line};
ghost use Rattle.script_lang.specs.Held.{AreOfScript};
ghost use Rattle.script_lang.specs.Parts.{Parts};
ghost use Rattle.transcripts.specs.declared.loaded.Loaded.{Loaded};
ghost use Rattle.transcripts.specs.Play.{IsTranscriptOf};
ghost use Rattle.transcript_check.specs.Checked.{AreTextsOfRun};
ghost use Rattle.transcript_check.specs.declared.misfit.Misfit.TheVariants as line_of;
ghost use Rattle.transcript_check.specs.declared.stop.LineStop.{LineStop};
ghost use Rattle.transcript_check.specs.declared.stop.SideStop.{SideStop};
ghost use Rattle.transcript_check.specs.Section.{Cursor};
ghost use Rattle.transcript_check.specs.Phase.{Sides};
ghost use Rattle.transcript_check.specs.Stops.{serial_from, phase_from};
ghost use Rattle.transcript_check.specs.Misfit.{misfit_among, misfit_of};
ghost use Rattle.transcript_check.specs.Meaning.{DiffersFromRun, StopsAtLine, StopsBeside};

use crate::blocks::transcripts_are_cut;
use transcripts::laws::{a_run_alone_is_serial, a_section_alone_is_serial};

/// Texts of entries and records without a misfit are those of a run of the script, and all those of a run are without one.
pub fn checked_texts_are_those_of_a_run()
    ensures sound { (loads : List Loaded) (script : Parts) (workers : ℕ) (entries : List (List ℕ))
        (records : List (List ℕ))
        → misfit_among loads script workers entries records ≡ None
        → AreTextsOfRun loads script workers entries records }
    ensures complete { (loads : List Loaded) (script : Parts) (workers : ℕ)
        (entries : List (List ℕ)) (records : List (List ℕ))
        → AreOfScript script → workers < 2 ^ 32 → AreTextsOfRun loads script workers entries records
        → misfit_among loads script workers entries records ≡ None }
{
    a_section_alone_is_serial();
}

/// Bytes without a misfit are a transcript of the script, and all its transcripts are without one.
pub fn transcripts_alone_have_no_misfit()
    ensures sound { (loads : List Loaded) (script : Parts) (workers : ℕ) (bytes : List ℕ)
        → misfit_of loads script workers bytes ≡ None → IsTranscriptOf loads script workers bytes }
    ensures complete { (loads : List Loaded) (script : Parts) (workers : ℕ) (bytes : List ℕ)
        → AreOfScript script → workers < 2 ^ 32 → IsTranscriptOf loads script workers bytes
        → misfit_of loads script workers bytes ≡ None }
{
    checked_texts_are_those_of_a_run();
    a_run_alone_is_serial();
    transcripts_are_cut();
}

/// Where a section that goes alone stops, the texts begin with what one thread makes of the lines before that, and don't go
/// on with what it makes of this one. Where lanes and workers stop, the entries before that go in one after another, and
/// this one doesn't; or all of theirs do, and a lane isn't over.
pub fn what_comes_before_a_stop_fits()
    ensures line { (seat : ℕ) (history : List Entry) (lines : List Line) (loads : List Loaded)
        (entries : List (List ℕ)) (records : List (List ℕ)) (stop : LineStop)
        → serial_from seat history lines loads entries records ≡ Err stop
        → StopsAtLine seat history lines loads entries records stop }
    ensures beside { (sides : Sides) (cursors : List Cursor) (entries : List (List ℕ))
        (stop : SideStop)
        → phase_from sides [] cursors entries ≡ Err stop → StopsBeside sides [] cursors entries stop }
{}

/// Of a script without lanes, and without workers, a line that is the misfit is the first at which the texts differ from
/// those of its one run.
pub fn a_line_is_the_first_to_differ()
    ensures { (loads : List Loaded) (script : Parts) (entries : List (List ℕ))
        (records : List (List ℕ)) (seat : ℕ) (number : ℕ) (entry : ℕ) (block : ℕ)
        → script.lanes ≡ []
        → misfit_among loads script 0 entries records ≡ Some (line_of.Line seat number entry block)
        → DiffersFromRun loads script entries records seat number entry block }
{}
