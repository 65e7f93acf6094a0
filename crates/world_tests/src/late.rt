//! Index data that come late: made after a part of a history, and taken in after more of it.
ghost use Rattle.std.specs.Prelude.{◌≡◌, Some, IfOk, IfSome};
ghost use Rattle.write_history.specs.Fold.{fold};
ghost use Rattle.ide_world.specs.Task.{IsOfWorld, task_with_id};

use crate::calls::{Edit, changed, entry_of, rows, share_of};
use ide_calls::IdeHome;
use ide_world::laws::a_task_stays_of_the_world;
use ide_world::{Made, job, make, prepare_intake};
use std::alloc::{AllocError, Global};
use write_history::{Change, Refusal};

/// What became of index data.
#[derive(Clone, Copy)]
pub enum Late {
    /// No data were made: the file wasn't unready.
    Nothing,
    Taken,
    Refused(Refusal),
}

/// What becomes of the index data of a file that are made between these edits, and how many types are then named `A`.
pub fn tell(
    alloc: Global,
    home: &mut IdeHome,
    earlier: &[Edit],
    file: u32,
    later: &[Edit],
) -> Result<String, AllocError> {
    let became = late_intake(alloc, home, earlier, file, later)?;
    let share = share_of(alloc, home)?;
    let types = rows(alloc, share.state(), "A")?;
    match became {
        Late::Nothing => format!(in alloc; "nothing, {types:?}"),
        Late::Taken => format!(in alloc; "taken, {types:?}"),
        Late::Refused(why) => format!(in alloc; "{why}, {types:?}"),
    }
}

/// Makes the first edits, then the index data of a file, then the other edits, and then has the data taken in.
pub fn late_intake(
    alloc: Global,
    home: &mut IdeHome,
    earlier: &[Edit],
    file: u32,
    later: &[Edit],
) -> Result<Late, AllocError> {
    a_task_stays_of_the_world();
    changed(alloc, home, earlier)?;
    let Some(made) = made_of(alloc, home, file)? else {
        return Ok(Late::Nothing);
    };
    changed(alloc, home, later)?;
    home.len();
    taken_in(alloc, home, made)
}

/// The index data of a file, if it is unready.
fn made_of(alloc: Global, home: &IdeHome, file: u32) -> Result<Option<Made>, AllocError>
    ensures { IfOk result
        (λ made. IfSome made
        (λ m. task_with_id (fold home.now) file
        ≡ Some
        (record { file = m.file; kind = m.kind; stamp = m.stamp; content = m.text }))) }
{
    let share = share_of(alloc, home)?;
    match job(share.state(), file)? {
        Some(job) => Ok(Some(make(alloc, job)?)),
        None => Ok(None),
    }
}

/// Has index data taken in.
fn taken_in(alloc: Global, home: &mut IdeHome, made: Made) -> Result<Late, AllocError>
    requires { IsOfWorld (fold home.old)
        (record { file = made.file; kind = made.kind; stamp = made.stamp; content = made.text }) }
{
    let intake = Change::Intake {
        file: made.file,
        stamp: made.stamp,
    };
    let share = share_of(alloc, home)?;
    match prepare_intake(alloc, share.state(), made) {
        Ok(ready) => {
            home.accept(ready, entry_of(intake))?;
            Ok(Late::Taken)
        }
        Err(why) => Ok(Late::Refused(why)),
    }
}
