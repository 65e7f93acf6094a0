//! Reading what the loads of a prelude ask for.
ghost use Rattle.std.specs.Prelude.{◌≡◌, ◌≢◌, IfOk, OnOk, Err};
ghost use Rattle.std.specs.String.{string_bytes};
ghost use Rattle.ide_io.specs.Asks.{AsksEach, AsksFront, AsksSome};
ghost use Rattle.ide_io.specs.Fault.{HasFault};
ghost use Rattle.transcripts.specs.Loads.{AreLoadsOf, IsLoadOf, loaded_of, paths_asked, paths_of};

use crate::{LoadRefusal, Loaded};
use ide_io::laws::trees_are_asked_in_turn;
use ide_io::{ReadFileError, Tree};
use ide_text::{Name, SharedText, Text, TextRefusal};
use script_lang::{Command, Line};
use std::alloc::{AllocError, Global};
use write_history::is_lawful_path;

/// Reads the file of each load of a lawful path, in the order of the lines, and gives for each line what was read for it:
/// nothing for every other line. The tree is asked for each such file once and for no other; `TreeFault` where it fails at
/// one, and no later one is asked for then. The cost is that of the lines, and of reading each file as a text.
pub fn read_loads<T: Tree>(
    alloc: Global,
    lines: &[Line],
    tree: &mut T,
) -> Result<Vec<Loaded>, LoadRefusal>
    ensures loads { IfOk result (λ loads. AreLoadsOf (T.files tree.old) lines.now loads.items) }
    ensures asks { AsksFront T.asks tree.old (paths_of lines.now) tree.new }
    ensures asks_each { OnOk result (AsksEach T.asks tree.old (paths_of lines.now) tree.new) }
    ensures asks_some { result ≡ Err LoadRefusal.TreeFault
        → AsksSome T.asks tree.old (paths_of lines.now) tree.new }
    ensures fault { result ≡ Err LoadRefusal.TreeFault
        → HasFault (T.faults tree.old) (T.faults tree.new) }
    ensures files { T.files tree.new ≡ T.files tree.old }
    ensures quiet { result ≢ Err LoadRefusal.TreeFault → T.faults tree.new ≡ T.faults tree.old }
{
    trees_are_asked_in_turn::<T>();
    let mut loads = Vec::new(alloc);
    loads.reserve_exact(lines.len())?;
    for line in lines {
        let load = read_load(alloc, &line.command, tree)?;
        loads.push(load)?;
    }
    Ok(loads)
}

/// Reads the file of a command, where it is a load of a lawful path.
fn read_load<T: Tree>(alloc: Global, command: &Command, tree: &mut T) -> Result<Loaded, LoadRefusal>
    ensures load { IfOk result (λ load. IsLoadOf (T.files tree.old) command.now load) }
    ensures asks { AsksFront T.asks tree.old (paths_asked command.now) tree.new }
    ensures asks_each { OnOk result (AsksEach T.asks tree.old (paths_asked command.now) tree.new) }
    ensures asks_some { result ≡ Err LoadRefusal.TreeFault
        → AsksSome T.asks tree.old (paths_asked command.now) tree.new }
    ensures fault { result ≡ Err LoadRefusal.TreeFault
        → HasFault (T.faults tree.old) (T.faults tree.new) }
    ensures files { T.files tree.new ≡ T.files tree.old }
    ensures quiet { result ≢ Err LoadRefusal.TreeFault → T.faults tree.new ≡ T.faults tree.old }
{
    match command {
        Command::Load { path } if is_lawful_path(path) => {
            let bytes = match tree.read_file(alloc, path) {
                Ok(bytes) => bytes,
                Err(ReadFileError::Failed) => return Err(LoadRefusal::TreeFault),
                Err(ReadFileError::OutOfMemory) => return Err(LoadRefusal::OutOfMemory),
            };
            Ok(loaded(alloc, bytes)?)
        }
        _ => Ok(Loaded::Nothing),
    }
}

/// What bytes give as a text, which takes their memory over where it can.
fn loaded(alloc: Global, bytes: Vec<u8>) -> Result<Loaded, AllocError>
    ensures { IfOk result (λ load. load ≡ loaded_of bytes.items) }
{
    match String::from_utf8(bytes) {
        Ok(text) => loaded_text(alloc, text),
        Err(fault) => Ok(Loaded::NotText {
            at: fault.utf8_error().valid_up_to(),
        }),
    }
}

/// What a string gives as a text, which takes its memory over where it can.
fn loaded_text(alloc: Global, mut text: String) -> Result<Loaded, AllocError>
    ensures { IfOk result (λ load. load ≡ loaded_of (string_bytes text)) }
{
    text.shrink_to_fit();
    match Text::from_string(alloc, text) {
        Ok(text) => Ok(Loaded::Text {
            text: SharedText::new(alloc, text)?,
        }),
        Err(TextRefusal::NotText { at }) => Ok(Loaded::NotText { at }),
        Err(TextRefusal::TooLong { count }) => Ok(Loaded::TooLong { count }),
        Err(TextRefusal::OutOfMemory) => Err(AllocError),
    }
}
