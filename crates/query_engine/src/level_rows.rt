//! The rows of types that were found, by their levels.
ghost use Rattle.std.specs.Prelude.{◌≡◌, ℕ, None, IfOk, map};
ghost use Rattle.query_engine.specs.Listed.{AreAhead, stub_at};
ghost use Rattle.query_engine.specs.Leveled.{seen_row, seen_listing, RowsRise, with_row_level};

use crate::answer::{LevelRow, RowList};
use crate::listed_file::ListedFile;
use crate::reached::Reached;
use ide_world::State;
use std::alloc::{AllocError, Global};

/// The rows of types that were found, by their levels. Lines and columns are found in one walk over each file's text.
pub(crate) fn level_rows(
    alloc: Global,
    state: &State,
    reached: &Reached<'_>,
) -> Result<RowList<LevelRow>, AllocError>
    requires { AreAhead stub_at state.now.world None (map seen_listing reached.now.seen) }
    ensures rise { IfOk result RowsRise }
    ensures same { IfOk result
        (λ rows. (level : ℕ)
        → with_row_level level rows
        ≡ with_row_level level (map (seen_row state.now.world) reached.now.seen)) }
{
    let mut rows = placed_rows(alloc, state, reached)?;
    rows.sort_by(|a, b| a.level.cmp(&b.level))?;
    Ok(RowList::of(rows))
}

/// The rows of types that were found, file by file.
fn placed_rows(
    alloc: Global,
    state: &State,
    reached: &Reached<'_>,
) -> Result<Vec<LevelRow>, AllocError>
    requires { AreAhead stub_at state.now.world None (map seen_listing reached.now.seen) }
    ensures { IfOk result (λ rows. rows.items ≡ map (seen_row state.now.world) reached.now.seen) }
{
    let mut rows = Vec::new(alloc);
    let mut before = None;
    for (place, found) in reached.seen() {
        let mut file = ListedFile::continued(state, before, place.0);
        rows.push(LevelRow {
            level: found.level(),
            row: file.row(found.stub())?,
        })?;
        before = Some(file);
    }
    Ok(rows)
}
