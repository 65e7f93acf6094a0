//! How often a question looks while it is answered, and where it is stopped.
ghost use Rattle.std.specs.Prelude.{◌≡◌, true, IfOk};
ghost use Rattle.write_history.specs.Changes.{is_edit};

use crate::asked::{Asked, extension_of, query_of, row_count};
use crate::calls::{put, share_of, text_of};
use crate::late::late_intake;
use action_lock::Watch;
use ide_calls::IdeHome;
use ide_text::Name;
use ide_world::State;
use query_engine::{AskRefusal, NoWatch, ask};
use std::alloc::{AllocError, Global};
use write_history::Change;

/// A watch that sees at its second look that the work is to end: its looks, and how many of them saw something: all but the first.
#[derive(Clone, Copy, Drop)]
struct SecondLook {
    looks: u64,
    sightings: u64,
}

impl Watch for SecondLook {
    ghost use Rattle.std.specs.Prelude.{◌≤◌};
    ghost use Rattle.std.proofs.Common.{le_refl, le_trans};

    ghost looks = { λ watch. watch.looks };

    ghost sightings = { λ watch. watch.sightings };

    ghost can_look = { λ watch. Unit {0} };

    ghost stays = { λ a b. a.looks ≤ b.looks };

    ghost stays_itself = { λ a. le_refl a.looks };

    ghost stays_on = { λ a b c p q. le_trans p q };

    fn look(&mut self) -> bool {
        self.looks = self.looks.saturating_add(1);
        if self.looks < 2 {
            return false;
        }
        self.sightings = self.sightings.saturating_add(1);
        true
    }
}

/// Adds files with so many times this line each, one after another, and tells after each how a question goes.
pub fn tell(
    alloc: Global,
    home: &mut IdeHome,
    line: &str,
    counts: &[u32],
    asked: Asked,
) -> Result<String, AllocError> {
    let mut out = String::new(alloc);
    let extension = extension_of(asked);
    let mut file = 0u32;
    for count in counts {
        file = file.saturating_add(1);
        let path = Name::of_string(alloc, format!(in alloc; "{file}.{extension}")?)?;
        add(alloc, home, path, line, *count)?;
        late_intake(alloc, home, &[], file, &[])?;
        let share = share_of(alloc, home)?;
        push_looks(alloc, share.state(), asked, &mut out)?;
    }
    Ok(out)
}

/// Adds a file with so many times this line.
fn add(
    alloc: Global,
    home: &mut IdeHome,
    path: Name,
    line: &str,
    count: u32,
) -> Result<(), AllocError> {
    put(alloc, home, file_of_lines(alloc, path, line, count)?)?;
    Ok(())
}

/// The change that makes a file with so many times this line.
pub fn file_of_lines(
    alloc: Global,
    path: Name,
    line: &str,
    count: u32,
) -> Result<Change, AllocError>
    ensures { IfOk result (λ change. is_edit change ≡ true) }
{
    let mut text = String::new(alloc);
    for _ in 0..count {
        text.push_str(line)?;
    }
    Ok(Change::Create {
        path,
        text: text_of(alloc, &text)?,
    })
}

/// Adds how often the question looks, and how many rows it gives, with a watch that sees nothing; and the same with one
/// that stops it at its second look.
fn push_looks(
    alloc: Global,
    state: &State,
    asked: Asked,
    out: &mut String,
) -> Result<(), AllocError> {
    let mut never = NoWatch::new();
    let rows = rows_of(alloc, state, asked, &mut never)?;
    let looks = never.looks();
    out.push_str(format!(in alloc; "{looks} looks, {rows:?}; ")?.as_str())?;
    let mut second = SecondLook {
        looks: 0,
        sightings: 0,
    };
    let rows = rows_of(alloc, state, asked, &mut second)?;
    let looks = second.looks;
    out.push_str(format!(in alloc; "{looks} looks, {rows:?}\n")?.as_str())
}

/// How many rows the answer has, or nothing where the question is stopped.
fn rows_of<W: Watch>(
    alloc: Global,
    state: &State,
    asked: Asked,
    watch: &mut W,
) -> Result<Option<usize>, AllocError>
    requires { W.can_look watch.old }
{
    match ask(alloc, state, &query_of(alloc, asked)?, watch) {
        Ok(answer) => Ok(row_count(&answer)),
        Err(AskRefusal::Cancelled) => Ok(None),
        Err(_) => Err(AllocError),
    }
}
