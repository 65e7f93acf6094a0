//! Laws of runs that callers rest on: functions that do nothing, whose contracts are the laws.
ghost use Rattle.std.specs.Prelude.{ℕ, ◌≡◌, ◌++◌, false, List, [], length};
ghost use Rattle.write_history.specs.declared.entry.Entry.{Entry};
ghost use Rattle.script_lang.specs.declared.line.Line.{Line};
ghost use Rattle.script_lang.specs.Parts.{Parts};
ghost use Rattle.transcripts.specs.declared.loaded.Loaded.{Loaded};
ghost use Rattle.transcripts.specs.declared.record.Record.{Record};
ghost use Rattle.transcripts.specs.Serial.{RunEnd, done_from, run_of};
ghost use Rattle.transcripts.specs.Fits.{Progress, SectionFits, RunFits};

/// Where all that a history has behind a place was made by one section that began there, its records are those of going
/// through its lines on one thread.
pub fn a_section_alone_is_serial()
    ensures { (seat : ℕ) (low high : Progress) (lines : List Line) (loads : List Loaded)
        (earlier : List Record) (records : List Record) (start : List Entry) (own : List Entry)
        → low.seen ≡ length start
        → SectionFits false (start ++ own) seat low lines loads records own high
        → done_from seat (record { history = start; records = earlier }) lines loads
        ≡ record { history = start ++ own; records = earlier ++ records } }
{}

/// A run without lanes and workers is the one on one thread.
pub fn a_run_alone_is_serial()
    ensures { (loads : List Loaded) (script : Parts) (ended : RunEnd) → script.lanes ≡ []
        → RunFits loads script [] ended → ended ≡ run_of loads script }
{}
