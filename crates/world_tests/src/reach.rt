//! Where a name is used, and which types come from it, in a few small files.
use crate::asked::{Asked, push_rows, query_of};
use crate::calls::{Edit, changed, put, share_of, text_of};
use crate::late::late_intake;
use ide_calls::IdeHome;
use ide_text::Name;
use ide_world::State;
use query_engine::{NoWatch, ask};
use std::alloc::{AllocError, Global};
use write_history::Change;

/// Makes these files, then edits of `A.java`, has everything taken in, and tells what the answer to a question shows and
/// how often it looked.
pub fn tell(
    alloc: Global,
    home: &mut IdeHome,
    files: &[(&'static str, &'static str)],
    edits: &[Edit],
    asked: Asked,
) -> Result<String, AllocError> {
    make(alloc, home, files)?;
    changed(alloc, home, edits)?;
    let mut file = 0u32;
    for _ in files {
        file = file.saturating_add(1);
        late_intake(alloc, home, &[], file, &[])?;
    }
    let share = share_of(alloc, home)?;
    answered(alloc, share.state(), asked)
}

/// Makes files.
fn make(
    alloc: Global,
    home: &mut IdeHome,
    files: &[(&'static str, &'static str)],
) -> Result<(), AllocError> {
    for (path, text) in files {
        let change = Change::Create {
            path: Name::of(alloc, path)?,
            text: text_of(alloc, text)?,
        };
        put(alloc, home, change)?;
    }
    Ok(())
}

/// What the answer to a question shows, and how often it looked.
fn answered(alloc: Global, state: &State, asked: Asked) -> Result<String, AllocError> {
    let mut out = String::new(alloc);
    let mut watch = NoWatch::new();
    match ask(alloc, state, &query_of(alloc, asked)?, &mut watch) {
        Ok(answer) => push_rows(alloc, &answer, &mut out)?,
        Err(why) => out.push_str(format!(in alloc; "{why:?}; ")?.as_str())?,
    }
    let looks = watch.looks();
    out.push_str(format!(in alloc; "{looks} looks")?.as_str())?;
    Ok(out)
}
