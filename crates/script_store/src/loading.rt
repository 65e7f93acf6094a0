//! Loads: files are made of what was read.
ghost use Rattle.std.specs.Prelude.{◌∷◌, [], OnOk, option_map, unwrap_or};
ghost use Rattle.write_history.specs.declared.change.Change.TheVariants.{Create};
ghost use Rattle.script_lang.specs.declared.command.Command.TheVariants.{Load};
ghost use Rattle.transcripts.specs.declared.loaded.Loaded.TheVariants.{Nothing};
ghost use Rattle.script_store.specs.Along.{HasEntered, HasGone};

use crate::entering::enter;
use ide_text::{Name, SharedText};
use replay::Replay;
use std::alloc::{AllocError, Global};
use transcripts::Loaded;
use write_history::{Change, Changes, is_lawful_path};

/// Goes behind a load of a path, for which this was read: a file is made of it where it is a text and the path is lawful.
pub(crate) fn load_in(
    alloc: Global,
    replay: &mut Replay,
    path: &Name,
    load: Option<&Loaded>,
) -> Result<(), AllocError>
    ensures { OnOk result
        (HasGone (unwrap_or (option_map (λ l. l.now) load.entry) Nothing)
        (Load path.now) replay.old replay.new) }
{
    if !is_lawful_path(path) {
        return Ok(());
    }
    let Some(load) = load else {
        return Ok(());
    };
    match load {
        Loaded::Text { text } => create(alloc, replay, path, text),
        Loaded::NotText { at: _ } => Ok(()),
        Loaded::TooLong { count: _ } => Ok(()),
        Loaded::Nothing => Ok(()),
    }
}

/// Makes a file of a text, where the rules let it.
fn create(
    alloc: Global,
    replay: &mut Replay,
    path: &Name,
    text: &SharedText,
) -> Result<(), AllocError>
    ensures { OnOk result (HasEntered (Create path.now text.now ∷ []) replay.old replay.new) }
{
    let change = Change::Create {
        path: path.copy()?,
        text: text.share()?,
    };
    enter(alloc, replay, &Changes::one(change))
}
