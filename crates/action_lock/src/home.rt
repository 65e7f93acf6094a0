//! The value under the lock, and what it stands for.
ghost use Rattle.std.specs.Prelude.{◌≡◌, ℕ, List, IfOk};

use std::alloc::{AllocError, Global};

/// A value that stands for a list of entries, its history, and gives out shares that stand for the same list.
pub trait Home {
    /// What the history is a list of.
    type Entry;

    /// What a reader keeps. Dropping it is all that ends it.
    type Share: Drop;

    // The number of the pass that made the entry.
    ghost number_of: { Self.Entry → ℕ };

    // The home value stands for the list.
    ghost stands: { Self → List Self.Entry → Type 0 };

    // The share stands for the list.
    ghost share_stands: { Self.Share → List Self.Entry → Type 0 };

    /// A share of the value as it is now.
    fn share(&self, alloc: Global) -> Result<Self::Share, AllocError>
        ensures { IfOk result
            (λ s. (entries : List Self.Entry) → stands self.now entries → share_stands s entries) };

    /// A second share of what a share stands for. A reader keeps it, and leaves the first to its place.
    fn again(alloc: Global, share: &Self::Share) -> Result<Self::Share, AllocError>
        ensures { IfOk result
            (λ s. (entries : List Self.Entry) → share_stands share.now entries
            → share_stands s entries) };

    // A home value stands for one list only.
    ghost one_list: { (home : Self) (xs ys : List Self.Entry) → stands home xs → stands home ys → xs ≡ ys };
}
