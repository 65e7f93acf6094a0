//! Characters of a text by which a name is looked up, with no name made of them.
ghost use Rattle.std.specs.Prelude.{◌≡◌, IfOk, IsTrue, bytes_eq, encode_utf8_all};
ghost use Rattle.std.specs.Cmp.{partial_equiv_from_equiv};
ghost use Rattle.std.specs.Cmp.Lexicographic.{nat_list_eq_equiv, bytes_decides};
ghost use Rattle.std.specs.Hash as fed;
ghost use Rattle.std.specs.Str.{chars, all_scalars};
ghost use Rattle.std.proofs.Common.{ap};

use crate::Name;
use indexmap::Equivalent;
use std::alloc::{AllocError, Global};
use std::hash::{Hash, Hasher};
use std::marker::Model;

/// Some characters of a text that lie in memory in UTF-8, by which a name is looked up without making one.
#[derive(Drop)]
pub struct Spelt<'a> {
    letters: &'a str,
}

impl<'a> Model for Spelt<'a> {
    ghost use Rattle.std.specs.Prelude.{List, ℕ, IsUtf8};
    ghost use Rattle.std.specs.Str.{chars};

    ghost Value = { List ℕ };

    ghost view = { λ s. chars s.letters.now };

    ghost invariant = { λ s. IsUtf8 s.letters.now };
}

impl<'a> Spelt<'a> {
    /// The characters of some letters.
    pub(crate) fn of(letters: &'a str) -> Spelt<'a>
        ensures { result ≡ chars letters.now }
    {
        Spelt { letters }
    }

    /// The characters in UTF-8.
    pub fn as_str(&self) -> &str
        ensures utf8 { result.now ≡ encode_utf8_all self.now }
        ensures value { chars result.now ≡ self.now }
        ensures scalars { IsTrue (all_scalars self.now) }
    {
        self.letters
    }

    /// The name of these characters.
    pub fn name(&self, alloc: Global) -> Result<Name, AllocError>
        ensures { IfOk result (λ name. name ≡ self.now) }
    {
        Name::of(alloc, self.letters)
    }
}

impl PartialEq for Spelt<'_> {
    ghost eq = { λ a b. bytes_eq a b };

    ghost laws = { partial_equiv_from_equiv nat_list_eq_equiv };

    fn eq(&self, other: &Self) -> bool {
        self.as_str() == other.as_str()
    }
}

impl Eq for Spelt<'_> {
    ghost laws = { nat_list_eq_equiv };
}

impl Hash for Spelt<'_> {
    ghost hash_input = { λ spelt. fed.str (encode_utf8_all spelt) };

    ghost respects_eq = { λ a b same. ap (λ n. fed.str (encode_utf8_all n)) ((bytes_decides a b).0 same) };

    fn hash<H: Hasher>(&self, state: &mut H) {
        self.as_str().hash(state);
    }
}

impl Equivalent<Name> for &Spelt<'_> {
    ghost equivalent = { λ q k. bytes_eq q.now k };

    ghost respects_hash = { λ q k same. ap (λ n. fed.str (encode_utf8_all n)) ((bytes_decides q.now k).0 same) };

    ghost respects_eq = { λ q x y. nat_list_eq_equiv.congr q.now x y };

    fn equivalent(&self, key: &Name) -> bool {
        self.as_str() == key.as_str()
    }
}
