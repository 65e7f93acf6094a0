//! Laws of names and paths that callers rest on: functions that do nothing, whose contracts are the
//! laws.
ghost use Rattle.std.specs.Prelude.{ℕ, ◌≡◌, List, Some, true, not, IsTrue};
ghost use Rattle.std.specs.Char.{is_ascii_control};
ghost use Rattle.std.specs.List.{flat_map, list_all};
ghost use Rattle.std.specs.Str.{all_scalars};
ghost use Rattle.workspace_paths.specs.Paths.{encoded, path_of, decoded, printed, shown, is_plain_from};

/// What a name is written as stands for that name, and is printed as its characters are.
pub fn names_are_read_back()
    ensures decoded { (name : List ℕ) → decoded (encoded name) ≡ name }
    ensures shown { (name : List ℕ) → shown (encoded name) ≡ flat_map printed name }
{}

/// Names that are written alike are the same, and so are those of one path.
pub fn paths_tell_names_apart()
    ensures encoded { (a : List ℕ) (b : List ℕ) → encoded a ≡ encoded b → a ≡ b }
    ensures paths { (a : List ℕ) (b : List ℕ) (path : List ℕ) → path_of a ≡ Some path
        → path_of b ≡ Some path → a ≡ b }
{}

/// A name of which nothing is encoded is written as it is.
pub fn plain_names_stay()
    ensures { (name : List ℕ) → is_plain_from true name ≡ true → encoded name ≡ name }
{}

/// No control character is printed of any path, so that it is one line; and what is printed of
/// characters are characters.
pub fn shown_names_are_one_line()
    ensures plain { (path : List ℕ) → list_all (λ c. not (is_ascii_control c)) (shown path) ≡ true }
    ensures scalars { (path : List ℕ) → IsTrue (all_scalars path)
        → IsTrue (all_scalars (shown path)) }
{}
