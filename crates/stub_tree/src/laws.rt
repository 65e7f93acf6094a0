//! Laws of lawful lists that callers rest on: functions that do nothing, whose contracts are the laws.
ghost use Rattle.std.specs.Prelude.{◌≤◌, ◌++◌, ◌∷◌, [], List, None, length};
ghost use Rattle.std.specs.List.{last_or};
ghost use Rattle.ide_text.specs.Text.{max_chars};
ghost use Rattle.stub_tree.specs.declared.stub.Stub.{Stub};
ghost use Rattle.stub_tree.specs.Lawful.{IsLawfulList, IsLawfulStub, MayFollow};

/// A lawful list stays lawful with a lawful stub at its end that may follow the last one.
pub fn a_lawful_list_grows()
    ensures { (stubs : List Stub) (stub : Stub) → IsLawfulList stubs → IsLawfulStub stub
        → MayFollow (last_or None stubs) stub → IsLawfulList (stubs ++ stub ∷ []) }
{}

/// A lawful list has no more stubs than a text may have characters.
pub fn lawful_lists_are_short()
    ensures { (stubs : List Stub) → IsLawfulList stubs → length stubs ≤ max_chars }
{}
