//! Laws of the rows: functions that do nothing, whose contracts are the laws.
ghost use Rattle.std.specs.Prelude.{◌≡◌, ℕ, List, filter};
ghost use Rattle.std.specs.Str.{bytes_eq};
ghost use Rattle.file_index.specs.KeyRows.{values_with};
ghost use Rattle.stub_tree.specs.declared.stub.Stub.{Stub};
ghost use Rattle.stub_index.specs.Named.{is_type_named, names_super, is_method_named, type_names, super_names, method_names, rows_by_name};

use file_index::laws::sorting_keeps_the_rows_of_a_key;
use ide_text::Name;
use stub_tree::Stub;

/// Under a name stand the types of that name, in the order of the list.
pub fn types_are_found_by_their_names()
    ensures { (stubs : List Stub) (name : List ℕ)
        → values_with bytes_eq name (rows_by_name type_names stubs)
        ≡ filter (is_type_named name) stubs }
{
    sorting_keeps_the_rows_of_a_key::<Name, Stub>();
}

/// Under a name stand the types that name it as a super, in the order of the list, each once.
pub fn types_are_found_by_their_supers()
    ensures { (stubs : List Stub) (name : List ℕ)
        → values_with bytes_eq name (rows_by_name super_names stubs)
        ≡ filter (names_super name) stubs }
{
    sorting_keeps_the_rows_of_a_key::<Name, Stub>();
}

/// Under a name stand the methods of that name, in the order of the list.
pub fn methods_are_found_by_their_names()
    ensures { (stubs : List Stub) (name : List ℕ)
        → values_with bytes_eq name (rows_by_name method_names stubs)
        ≡ filter (is_method_named name) stubs }
{
    sorting_keeps_the_rows_of_a_key::<Name, Stub>();
}
