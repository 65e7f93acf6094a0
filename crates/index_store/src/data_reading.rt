//! Bytes to the data of a text, of which only the end is told.
ghost use Rattle.std.specs.Prelude.{◌≡◌, nat_lt};
ghost use Rattle.std.specs.List.{list_all};
ghost use Rattle.stub_tree.specs.declared.stub.Stub.{Stub as AStub};
ghost use Rattle.byte_fields.specs.Answers.{Gives};
ghost use Rattle.stub_codec.specs.Reading.{all_of};
ghost use Rattle.dumb_mode.specs.declared.kind.FileKind.TheVariants.{Java};
ghost use Rattle.index_store.specs.Reading.{behind, data_at, field, stubs_at};

use crate::reading::{past_keys, past_words};
use byte_fields::{Fault, check, number_of};
use dumb_mode::FileKind;
use std::alloc::Global;
use stub_codec::{StubRefusal, decode};
use stub_tree::StubList;

/// What is left behind the data of a text of this kind with so many characters.
#[tactic(auto, unfolding(crate::specs::Reading::data_at))]
pub(crate) fn past_data(
    alloc: Global,
    kind: FileKind,
    len: u32,
    bytes: &[u8],
) -> Result<&[u8], Fault>
    ensures { Gives (λ left. left.now) result (behind (data_at kind len bytes.now)) }
{
    match kind {
        FileKind::Java => past_java_data(alloc, len, bytes),
        FileKind::Properties => past_keys(alloc, len, bytes),
    }
}

/// What is left behind the declarations and the words of a text with so many characters.
#[tactic(auto, unfolding(crate::specs::Reading::data_at))]
fn past_java_data(alloc: Global, len: u32, bytes: &[u8]) -> Result<&[u8], Fault>
    ensures { Gives (λ left. left.now) result (behind (data_at Java len bytes.now)) }
{
    let rest = past_stubs(alloc, len, bytes)?;
    past_words(alloc, rest)
}

/// What is left behind the declarations of a text with so many characters.
#[tactic(auto, unfolding(crate::specs::Reading::stubs_at))]
fn past_stubs(alloc: Global, len: u32, bytes: &[u8]) -> Result<&[u8], Fault>
    ensures { Gives (λ left. left.now) result (behind (stubs_at len bytes.now)) }
{
    let (size, rest) = number_of(bytes)?;
    let size = size as usize;
    check(size <= rest.len(), rest)?;
    let (front, after) = rest.split_at(size);
    let listed = stubs_of(alloc, front, rest)?;
    check(are_inside(&listed, len), rest)?;
    Ok(after)
}

/// The list that bytes spell, which are a field at the front of others.
fn stubs_of(alloc: Global, bytes: &[u8], all: &[u8]) -> Result<StubList, Fault>
    ensures { Gives (λ list. list) result (field (all_of bytes.now) all.now) }
{
    match decode(alloc, bytes) {
        Ok(list) => Ok(list),
        Err(StubRefusal::OutOfMemory) => Err(Fault::Memory),
        Err(StubRefusal::BadStub { at: _ }) => Err(Fault::Unlawful(all.len())),
    }
}

/// Whether each offset of a list is one of a text with so many characters.
fn are_inside(list: &StubList, len: u32) -> bool
    ensures { result ≡ list_all (λ (s : AStub). nat_lt s.at len) list.now }
{
    for stub in list.as_slice() {
        if stub.at >= len {
            return false;
        }
    }
    true
}
