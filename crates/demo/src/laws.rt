//! Laws of demos that callers rest on: functions that do nothing, whose contracts are the laws.
ghost use Rattle.std.specs.Prelude.{ℕ, ◌≡◌, ◌<◌, ◌≤◌, length};
ghost use Rattle.demo.specs.Commands.{creates, edits};
ghost use Rattle.demo.specs.Script.{demo_bytes, max_len};

/// A demo has a creation for each file, and each of its edits once.
pub fn demos_have_their_commands()
    ensures creates { (seed : ℕ) (files : ℕ) → length (creates seed files) ≡ files }
    ensures edits { (state : ℕ) (files : ℕ) (edited : ℕ)
        → length (edits state files edited) ≡ edited }
{}

/// A demo is no longer than a script may be.
pub fn demos_are_short()
    ensures { (seed : ℕ) (files : ℕ) (edited : ℕ) → 0 < files → files ≤ 10000 → edited ≤ 50000
        → length (demo_bytes seed files edited) ≤ max_len }
{}
