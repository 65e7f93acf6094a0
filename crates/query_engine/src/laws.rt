//! Laws of the answers: functions that do nothing, whose contracts are the laws.
ghost use Rattle.std.specs.Prelude.{◌≤◌, ℕ, List, length};
ghost use Rattle.std.specs.List.{AllPairs};
ghost use Rattle.write_history.specs.World.{World};
ghost use Rattle.query_engine.specs.Inheritors.{ListedType, inheritors_of, IsOnLevel, EndsChain, IsLeast, Precedes};
ghost use Rattle.query_engine.specs.Reply.{types_of};

use decl_parser::laws::offsets_rise;

/// The types that come from a name are those to which a chain of types leads from it, each at the length of its
/// shortest chain. They stand in the order of levels, files and offsets, each once.
pub fn inheritors_are_the_ends_of_chains()
    ensures sound { (name : List ℕ) (types : List ListedType) (level : ℕ) (t : ListedType)
        → IsOnLevel (inheritors_of name types) level t → EndsChain types name level t }
    ensures least { (name : List ℕ) (types : List ListedType) (level : ℕ) (t : ListedType)
        → IsOnLevel (inheritors_of name types) level t → IsLeast types name level t }
    ensures few { (name : List ℕ) (types : List ListedType) (level : ℕ) (t : ListedType)
        → IsOnLevel (inheritors_of name types) level t → level ≤ length types }
    ensures complete { (name : List ℕ) (types : List ListedType) (len : ℕ) (t : ListedType)
        → EndsChain types name len t
        → (level : ℕ) × (level ≤ len) × IsOnLevel (inheritors_of name types) level t }
    ensures ordered { (name : List ℕ) (world : World)
        → AllPairs Precedes (inheritors_of name (types_of world)) }
{
    offsets_rise();
}
