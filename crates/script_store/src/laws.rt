//! What a store keeps: a function that does nothing, whose contract is the law.
ghost use Rattle.std.specs.Prelude.{◌≡◌};
ghost use Rattle.std.specs.List.{list_any};
ghost use Rattle.write_history.specs.World.{World};
ghost use Rattle.index_store.specs.Data.{StoreEntry};
ghost use Rattle.index_store.specs.Entries.{has_entry};
ghost use Rattle.script_store.specs.Indexed.{entries_of};
ghost use Rattle.script_store.specs.Kept.{is_kept};

use dumb_mode::laws::a_path_has_one_kind;
use index_store::laws::one_entry_is_added;

/// The store of a world has a text with a kind exactly where some live file that is indexed at its present stamp has that
/// content and that kind.
pub fn a_store_has_the_indexed_texts()
    ensures { (x : StoreEntry) (world : World)
        → has_entry x (entries_of world) ≡ list_any (is_kept x) world.files }
{
    a_path_has_one_kind();
    one_entry_is_added();
}
