//! Laws of the bytes of lists: functions that do nothing, whose contracts are the laws.
ghost use Rattle.std.specs.Prelude.{◌≡◌, ◌<◌, ℕ, List, All, Ok};
ghost use Rattle.stub_tree.specs.declared.stub.Stub.{Stub};
ghost use Rattle.stub_codec.specs.Reading.{all_of};
ghost use Rattle.stub_codec.specs.Spelling.{IsStubBytes};

use stub_tree::laws::lawful_lists_are_short;

/// Reading from left to right meets no fault exactly where the bytes are those of a list, and then it gives that list.
pub fn stub_lists_are_read_back()
    ensures read { (bytes : List ℕ) (stubs : List Stub) → All (λ b. b < 256) bytes
        → all_of bytes ≡ Ok stubs → IsStubBytes stubs bytes }
    ensures again { (bytes : List ℕ) (stubs : List Stub) → IsStubBytes stubs bytes
        → all_of bytes ≡ Ok stubs }
{
    lawful_lists_are_short();
}
