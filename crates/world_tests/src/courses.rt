//! What is done in a new workspace, and what it comes to.
use crate::asked::Asked;
use crate::calls::{Edit, changed, rows, share_of};
use crate::{kinds, late, looks, reach};
use ide_calls::IdeHome;
use std::alloc::{AllocError, Global};

/// What is done.
#[derive(Clone, Copy)]
pub enum Course {
    /// Index data of a file are made between edits, and taken in behind them.
    Late {
        earlier: &'static [Edit],
        file: u32,
        later: &'static [Edit],
    },
    /// Files with so many times a line each are added, and a question is asked after each.
    Looks {
        line: &'static str,
        counts: &'static [u32],
        asked: Asked,
    },
    /// A question about a few files, of which the first is edited.
    Reached {
        files: &'static [(&'static str, &'static str)],
        edits: &'static [Edit],
        asked: Asked,
    },
    /// Edits of one file, of which some move it; then its index data are taken in, if it is unready.
    Kinds {
        edits: &'static [Edit],
    },
    /// A share is kept between edits.
    Shared {
        earlier: &'static [Edit],
        later: &'static [Edit],
    },
}

/// What a course comes to.
pub fn told(alloc: Global, course: Course) -> Result<String, AllocError> {
    let mut home = IdeHome::new(alloc)?;
    tell(alloc, &mut home, course)
}

/// The same in a workspace that is there.
fn tell(alloc: Global, home: &mut IdeHome, course: Course) -> Result<String, AllocError> {
    match course {
        Course::Late {
            earlier,
            file,
            later,
        } => late::tell(alloc, home, earlier, file, later),
        Course::Looks {
            line,
            counts,
            asked,
        } => looks::tell(alloc, home, line, counts, asked),
        Course::Reached {
            files,
            edits,
            asked,
        } => reach::tell(alloc, home, files, edits, asked),
        Course::Kinds { edits } => kinds::tell(alloc, home, edits),
        Course::Shared { earlier, later } => tell_shared(alloc, home, earlier, later),
    }
}

/// How many edits are accepted before and after a share was made, and how many types of three names the share and the
/// workspace then have.
fn tell_shared(
    alloc: Global,
    home: &mut IdeHome,
    earlier: &[Edit],
    later: &[Edit],
) -> Result<String, AllocError> {
    let first = changed(alloc, home, earlier)?;
    let share = share_of(alloc, home)?;
    let second = changed(alloc, home, later)?;
    let now = share_of(alloc, home)?;
    let mut out = format!(in alloc; "{first} and {second} accepted;")?;
    for name in ["A", "BA", "CBA"] {
        let before = rows(alloc, share.state(), name)?;
        let after = rows(alloc, now.state(), name)?;
        out.push_str(format!(in alloc; " {name} {before:?} {after:?};")?.as_str())?;
    }
    Ok(out)
}
