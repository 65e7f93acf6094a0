//! The store of index data that a script is played with.
ghost use Rattle.std.specs.Prelude.{◌≡◌, ◌≢◌, IfOk, OnOk, Err, option_to_list};
ghost use Rattle.ide_io.specs.Asks.{AsksEach, AsksFront, AsksSome};
ghost use Rattle.ide_io.specs.Fault.{HasFault};
ghost use Rattle.ide_script.specs.Store.{IsStoreAt, IsStoreFor, IsStoreFrom};

use crate::PlayRefusal;
use ide_io::{ReadFileError, Tree};
use ide_text::Name;
use index_store::{Store, StoreRefusal};
use std::alloc::{AllocError, Global};

/// The store in the file at a path, and the empty one where no path is given or no store stands in the file's bytes. The
/// tree is asked for that file alone.
pub(crate) fn read_store<T: Tree>(
    alloc: Global,
    path: &Option<Name>,
    tree: &mut T,
) -> Result<Store, PlayRefusal>
    ensures store { IfOk result (IsStoreFor (T.files tree.old) path.now) }
    ensures asks { AsksFront T.asks tree.old (option_to_list path.now) tree.new }
    ensures asks_each { OnOk result (AsksEach T.asks tree.old (option_to_list path.now) tree.new) }
    ensures asks_some { result ≡ Err PlayRefusal.TreeFault
        → AsksSome T.asks tree.old (option_to_list path.now) tree.new }
    ensures fault { result ≡ Err PlayRefusal.TreeFault
        → HasFault (T.faults tree.old) (T.faults tree.new) }
    ensures files { T.files tree.new ≡ T.files tree.old }
    ensures quiet { result ≢ Err PlayRefusal.TreeFault → T.faults tree.new ≡ T.faults tree.old }
{
    match path {
        Some(path) => read_store_at(alloc, path, tree),
        None => Ok(Store::empty(alloc)),
    }
}

/// The store in the file at a path, and the empty one where no store stands in its bytes.
fn read_store_at<T: Tree>(alloc: Global, path: &Name, tree: &mut T) -> Result<Store, PlayRefusal>
    ensures store { IfOk result (IsStoreAt (T.files tree.old) path.now) }
    ensures asks { T.asks tree.old path.now tree.new }
    ensures fault { result ≡ Err PlayRefusal.TreeFault
        → HasFault (T.faults tree.old) (T.faults tree.new) }
    ensures files { T.files tree.new ≡ T.files tree.old }
    ensures quiet { result ≢ Err PlayRefusal.TreeFault → T.faults tree.new ≡ T.faults tree.old }
{
    let bytes = match tree.read_file(alloc, path) {
        Ok(bytes) => bytes,
        Err(ReadFileError::Failed) => return Err(PlayRefusal::TreeFault),
        Err(ReadFileError::OutOfMemory) => return Err(PlayRefusal::OutOfMemory),
    };
    Ok(store_from(alloc, &bytes)?)
}

/// The store that bytes give: the empty one where they are refused.
fn store_from(alloc: Global, bytes: &[u8]) -> Result<Store, AllocError>
    ensures { IfOk result (IsStoreFrom bytes.now) }
{
    match Store::read(alloc, bytes) {
        Ok(store) => Ok(store),
        Err(StoreRefusal::OutOfMemory) => Err(AllocError),
        Err(_) => Ok(Store::empty(alloc)),
    }
}
