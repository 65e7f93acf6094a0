//! Changes, groups and loads of lines.
ghost use Rattle.std.specs.Prelude.{◌≡◌, true, false, IfOk, None, length};
ghost use Rattle.std.specs.List.{list_all};
ghost use Rattle.write_history.specs.declared.refusal.Refusal.TheVariants.{BadPath};
ghost use Rattle.write_history.specs.Path.{is_path};
ghost use Rattle.write_history.specs.Changes.{is_edit};
ghost use Rattle.shared_ide.specs.Made.{IsAnswered};
ghost use Rattle.shared_ide.specs.Passes.{ide_view};
ghost use Rattle.shared_ide.specs.Passes.{IsIdePassOf, Continues};
ghost use Rattle.transcripts.specs.declared.record.Answer.TheVariants.{Refused};
ghost use Rattle.transcripts.specs.Serial.{told, change_step, group_step, load_step};

use ide_text::Name;
use shared_ide::{ChangeRefusal, GroupChangeRefusal, IdePass, SharedIde};
use std::alloc::{AllocError, Global};
use std::sync::Wait;
use transcripts::{Answer, Loaded};
use write_history::{Change, Changes, is_lawful_path};

/// Makes a change, or answers with the first reason to refuse it. May block.
pub(crate) fn do_change<R: Wait>(
    rt: &R,
    alloc: Global,
    ide: &SharedIde,
    pass: &mut IdePass,
    line: u32,
    change: Change,
) -> Result<Answer, AllocError>
    requires pass { IsIdePassOf ide.now pass.old }
    requires edit { is_edit change ≡ true }
    ensures pass { Continues ide.now pass.old pass.new }
    ensures answer { IfOk result
        (IsAnswered (λ start seat. change_step start seat line change) (ide_view pass.old)
        (ide_view pass.new)) }
{
    match ide.change(rt, alloc, pass, line, change) {
        Ok(at) => Ok(Answer::Accepted { at }),
        Err(ChangeRefusal::Refused { at, why }) => Ok(Answer::Refused {
            at,
            place: None,
            why,
        }),
        Err(ChangeRefusal::OutOfMemory) => Err(AllocError),
    }
}

/// Makes the changes of a group together, or answers with the place and the reason of the first that is refused. May block.
pub(crate) fn do_group<R: Wait>(
    rt: &R,
    alloc: Global,
    ide: &SharedIde,
    pass: &mut IdePass,
    line: u32,
    changes: Changes,
) -> Result<Answer, AllocError>
    requires pass { IsIdePassOf ide.now pass.old }
    requires edits { list_all is_edit changes ≡ true }
    ensures pass { Continues ide.now pass.old pass.new }
    ensures answer { IfOk result
        (IsAnswered (λ start seat. group_step start seat line changes) (ide_view pass.old)
        (ide_view pass.new)) }
{
    match ide.change_group(rt, alloc, pass, line, changes) {
        Ok(at) => Ok(Answer::Accepted { at }),
        Err(GroupChangeRefusal::Refused { at, place, why }) => Ok(Answer::Refused {
            at,
            place: Some(place),
            why,
        }),
        Err(GroupChangeRefusal::OutOfMemory) => Err(AllocError),
    }
}

/// Makes a file of what was read for a load. May block.
pub(crate) fn do_load<R: Wait>(
    rt: &R,
    alloc: Global,
    ide: &SharedIde,
    pass: &mut IdePass,
    line: u32,
    path: &Name,
    load: &Loaded,
) -> Result<Answer, AllocError>
    requires pass { IsIdePassOf ide.now pass.old }
    ensures pass { Continues ide.now pass.old pass.new }
    ensures answer { IfOk result
        (IsAnswered (λ start seat. load_step start seat line path.now load.now) (ide_view pass.old)
        (ide_view pass.new)) }
{
    if !is_lawful_path(path) {
        return refuse_path(rt, alloc, ide, pass, line, path);
    }
    match load {
        Loaded::Nothing => Ok(Answer::NotText { at: 0 }),
        Loaded::NotText { at } => Ok(Answer::NotText { at: *at }),
        Loaded::TooLong { count } => Ok(Answer::TooLong { count: *count }),
        Loaded::Text { text } => {
            let change = Change::Create {
                path: path.copy()?,
                text: text.share()?,
            };
            do_change(rt, alloc, ide, pass, line, change)
        }
    }
}

/// Refuses a load of an unlawful path, at a moment of the history: that of a move to this path, which is refused for the
/// same reason. May block.
fn refuse_path<R: Wait>(
    rt: &R,
    alloc: Global,
    ide: &SharedIde,
    pass: &mut IdePass,
    line: u32,
    path: &Name,
) -> Result<Answer, AllocError>
    requires pass { IsIdePassOf ide.now pass.old }
    requires unlawful { is_path path.now ≡ false }
    ensures pass { Continues ide.now pass.old pass.new }
    ensures answer { IfOk result
        (IsAnswered (λ start seat. told (Refused (length start) None BadPath)) (ide_view pass.old)
        (ide_view pass.new)) }
{
    let change = Change::Move {
        path: path.copy()?,
        to: path.copy()?,
    };
    do_change(rt, alloc, ide, pass, line, change)
}
