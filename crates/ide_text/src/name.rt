//! A name: a short list of characters, as a path, an identifier or a key, with their order.
ghost use Rattle.std.specs.Prelude.{◌≡◌, ◌≤◌, ◌-◌, ◌↔◌, Some, IfOk, IsTrue, ◌==◌, length, take, drop, refl, bytes_eq, encode_utf8_all};
ghost use Rattle.std.specs.Hash as fed;
ghost use Rattle.std.specs.Str.{chars, all_scalars};
ghost use Rattle.std.specs.String.{string_bytes};
ghost use Rattle.std.specs.Ordering.{nat_cmp};
ghost use Rattle.std.specs.Cmp.{partial_equiv_from_equiv};
ghost use Rattle.std.specs.Cmp.Lexicographic.{slice_cmp, nat_list_eq_equiv, nat_list_cmp_total, texts_ties, texts_po, bytes_decides};
ghost use Rattle.std.proofs.Common.{ap};

use crate::Text;
use crate::spelling::Spelling;
use std::alloc::{AllocError, Global};
use std::cmp::Ordering;
use std::fmt;
use std::hash::{Hash, Hasher};
use std::marker::Model;

/// A list of characters, ordered by them from the left, which is the order of their UTF-8. It is never changed; a short one lies
/// in place, and a longer one may have several owners.
#[derive(Drop)]
pub struct Name {
    spelling: Spelling,
}

impl Model for Name {
    ghost use Rattle.std.specs.Prelude.{List, ℕ};
    ghost use Rattle.std.specs.Str.{chars};
    ghost use Rattle.ide_text.specs.Spelling.{bytes_of};

    ghost Value = { List ℕ };

    ghost view = { λ n. chars (bytes_of n.spelling) };
}

impl Name {
    /// The characters of a text.
    pub fn of(alloc: Global, text: &str) -> Result<Name, AllocError>
        ensures { IfOk result (λ name. name ≡ chars text.now) }
    {
        Ok(Name {
            spelling: Spelling::of(alloc, text)?,
        })
    }

    /// The characters of a string, whose memory the name takes over where it isn't short.
    pub fn of_string(alloc: Global, text: String) -> Result<Name, AllocError>
        ensures { IfOk result (λ name. name ≡ chars (string_bytes text)) }
    {
        Ok(Name {
            spelling: Spelling::of_string(alloc, text)?,
        })
    }

    /// The characters of a text from one offset up to another.
    pub fn of_text(alloc: Global, text: &Text, from: u32, to: u32) -> Result<Name, AllocError>
        requires ordered { from ≤ to }
        requires inside { to ≤ length text.now }
        ensures { IfOk result (λ name. name ≡ take (to - from) (drop from text.now)) }
    {
        Ok(Name {
            spelling: text.spelling(alloc, from, to)?,
        })
    }

    /// The number of characters. Linear in it.
    pub fn len(&self) -> usize
        ensures { result ≡ length self.now }
    {
        self.as_str().chars().count()
    }

    /// Whether there is no character.
    pub fn is_empty(&self) -> bool
        ensures { result ≡ (length self.now == 0) }
    {
        self.as_str().is_empty()
    }

    /// The name in UTF-8.
    pub fn as_str(&self) -> &str
        ensures utf8 { result.now ≡ encode_utf8_all self.now }
        ensures value { chars result.now ≡ self.now }
        ensures scalars { IsTrue (all_scalars self.now) }
    {
        self.spelling.as_str()
    }

    /// The same name once more. Constant time.
    pub fn copy(&self) -> Result<Name, AllocError>
        ensures { IfOk result (λ copy. copy ≡ self.now) }
    {
        Ok(Name {
            spelling: self.spelling.share()?,
        })
    }

    /// Whether the other name has the same characters.
    pub fn same(&self, other: &Name) -> bool
        ensures { IsTrue result ↔ (self.now ≡ other.now) }
    {
        self == other
    }
}

impl PartialEq for Name {
    ghost eq = { λ a b. bytes_eq a b };

    ghost laws = { partial_equiv_from_equiv nat_list_eq_equiv };

    fn eq(&self, other: &Name) -> bool {
        self.as_str() == other.as_str()
    }
}

impl Eq for Name {
    ghost laws = { nat_list_eq_equiv };
}

impl PartialOrd for Name {
    ghost partial_cmp = { λ a b. Some (slice_cmp nat_cmp a b) };

    ghost laws = { texts_po };

    fn partial_cmp(&self, other: &Name) -> Option<Ordering> {
        Some(self.cmp(other))
    }
}

impl Ord for Name {
    ghost cmp = { slice_cmp nat_cmp };

    ghost total = { nat_list_cmp_total };

    ghost matches_partial_cmp = { λ a b. refl };

    ghost matches_eq = { texts_ties };

    fn cmp(&self, other: &Name) -> Ordering {
        self.as_str().cmp(other.as_str())
    }
}

impl Hash for Name {
    ghost hash_input = { λ name. fed.str (encode_utf8_all name) };

    ghost respects_eq = { λ a b same. ap (λ n. fed.str (encode_utf8_all n)) ((bytes_decides a b).0 same) };

    fn hash<H: Hasher>(&self, state: &mut H) {
        self.as_str().hash(state);
    }
}

impl fmt::Display for Name {
    ghost output = { λ name. Some (encode_utf8_all name) };

    fn fmt<W: fmt::Write>(&self, f: &mut fmt::Formatter<W>) -> fmt::Result {
        f.write_str(self.as_str())
    }
}

impl fmt::Debug for Name {
    ghost debug_output = { λ name. Some (encode_utf8_all name) };

    fn fmt<W: fmt::Write>(&self, f: &mut fmt::Formatter<W>) -> fmt::Result {
        write!(f, "{self}")
    }
}
