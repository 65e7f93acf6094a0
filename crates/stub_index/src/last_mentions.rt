//! Where each name of a list is mentioned last.
ghost use Rattle.std.specs.Prelude.{◌≡◌, ℕ, List, length, IfOk};
ghost use Rattle.std.specs.Ordering.{nat_cmp};
ghost use Rattle.std.specs.Cmp.Lexicographic.{slice_cmp};
ghost use Rattle.std.specs.BTreeMap.{get_by};
ghost use Rattle.stub_index.specs.Mentions.{behind_last, is_in_front_of};

use ide_text::Name;
use std::alloc::{AllocError, Global};
use std::collections::BTreeMap;

/// How many names stand behind the last mention of each name.
pub(crate) fn last_mentions<'a>(
    alloc: Global,
    names: &'a [Name],
) -> Result<BTreeMap<&'a Name, usize>, AllocError>
    ensures { IfOk result
        (λ found. (name : List ℕ)
        → get_by (λ k. slice_cmp nat_cmp name k.now) found ≡ behind_last name names.now) }
{
    let mut found = BTreeMap::new(alloc);
    let mut left = names;
    while let Some((name, rest)) = left.split_first() {
        found.insert(name, rest.len())?;
        left = rest;
    }
    Ok(found)
}

/// Whether so many names stand behind the last mention of a name.
pub(crate) fn is_last<'a>(
    mentions: &BTreeMap<&'a Name, usize>,
    name: &'a Name,
    behind: usize,
) -> bool
    ensures { result
        ≡ is_in_front_of behind (get_by (λ k. slice_cmp nat_cmp name.now k.now) mentions.now) }
{
    match mentions.get(&name) {
        Some(last) => *last == behind,
        None => false,
    }
}
