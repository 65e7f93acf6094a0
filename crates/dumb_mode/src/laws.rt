//! A law of the kinds: a function that does nothing, whose contract is the law.
ghost use Rattle.std.specs.Prelude.{◌≡◌, ℕ, List, Some};
ghost use Rattle.dumb_mode.specs.declared.kind.FileKind.{FileKind};
ghost use Rattle.dumb_mode.specs.Filter.{has_kind, is_same_kind, kind_of};

/// A path ends as one kind says at most: it is of a kind exactly where that is its kind.
pub fn a_path_has_one_kind()
    ensures { (kind : FileKind) (path : List ℕ)
        → has_kind kind path ≡ is_same_kind (kind_of path) (Some kind) }
{}
