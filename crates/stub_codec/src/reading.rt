//! Bytes to a list of stubs.
ghost use Rattle.std.specs.Prelude.{◌≡◌, List, length, IfOk, IfErr, Ok, option_copied};
ghost use Rattle.stub_tree.specs.declared.stub.Stub.{Stub as AStub};
ghost use Rattle.byte_fields.specs.Answers.{Gives};
ghost use Rattle.byte_fields.specs.Reading.{name_at, many_at};
ghost use Rattle.stub_codec.specs.declared.refusal.StubRefusal.TheVariants.{OutOfMemory};
ghost use Rattle.stub_codec.specs.Answers.{IsRefusalOf};
ghost use Rattle.stub_codec.specs.Spelling.{IsStubBytes};
ghost use Rattle.stub_codec.specs.Reading.{supers_at, stub_at, all_of, is_kind, is_type_kind, may_be_depth, may_be_offset};

use crate::laws::stub_lists_are_read_back;
use crate::refusal::StubRefusal;
use byte_fields::{Fault, byte_of, check, name_of, number_of};
use ide_text::MAX_CHARS;
use std::alloc::Global;
use stub_tree::{MAX_DEPTH, Names, Stub, StubList};

/// The version that is read.
const VERSION: u8 = 1;

/// The list that the bytes spell. Linear in them.
pub fn decode(alloc: Global, bytes: &[u8]) -> Result<StubList, StubRefusal>
    ensures found { IfOk result (λ stubs. IsStubBytes stubs bytes.now) }
    ensures only { (stubs : List AStub) → IsStubBytes stubs bytes.now
        → IfOk result (λ list. list ≡ stubs) × IfErr result (λ refusal. refusal ≡ OutOfMemory) }
    ensures refused { IfErr result (IsRefusalOf bytes.now) }
    ensures read { IfOk result (λ stubs. all_of bytes.now ≡ Ok stubs) }
{
    stub_lists_are_read_back();
    match all(alloc, bytes) {
        Ok(stubs) => Ok(stubs),
        Err(Fault::Memory) => Err(StubRefusal::OutOfMemory),
        Err(Fault::Unlawful(left)) => Err(StubRefusal::BadStub {
            at: bytes.len().saturating_sub(left),
        }),
    }
}

/// All of the bytes.
#[tactic(auto, unfolding(crate::specs::Reading::all_of, byte_fields::specs::Reading::counted_at))]
fn all(alloc: Global, bytes: &[u8]) -> Result<StubList, Fault>
    ensures { Gives (λ stubs. stubs) result (all_of bytes.now) }
{
    let (version, rest) = byte_of(bytes)?;
    check(version == VERSION, bytes)?;
    let (count, rest) = number_of(rest)?;
    let (stubs, rest) = stubs_of(alloc, count, rest)?;
    check(rest.is_empty(), rest)?;
    Ok(StubList::from_vec(stubs))
}

/// So many stubs.
fn stubs_of(alloc: Global, count: u32, bytes: &[u8]) -> Result<(Vec<Stub>, &[u8]), Fault>
    ensures { Gives (λ x. (x.0.items, x.1.now)) result (many_at stub_at count None bytes.now) }
{
    let mut stubs = Vec::new(alloc);
    let mut rest = bytes;
    for _ in 0..count {
        let (stub, after) = stub_of(alloc, stubs.last(), rest)?;
        stubs.push(stub)?;
        rest = after;
    }
    Ok((stubs, rest))
}

/// One stub, behind the one before it.
#[tactic(auto, unfolding(crate::specs::Reading::stub_at))]
fn stub_of<'a>(
    alloc: Global,
    before: Option<&Stub>,
    bytes: &'a [u8],
) -> Result<(Stub, &'a [u8]), Fault>
    ensures { Gives (λ x. (x.0, x.1.now)) result (stub_at (option_copied before.entry) bytes.now) }
{
    let (kind, behind_kind) = byte_of(bytes)?;
    check(is_kind(kind), bytes)?;
    let (depth, behind_depth) = byte_of(behind_kind)?;
    check(may_be_depth(before, depth), behind_kind)?;
    let (at, rest) = number_of(behind_depth)?;
    check(may_be_offset(before, at), behind_depth)?;
    let (name, rest) = name_of(alloc, rest)?;
    let (supers, rest) = supers_of(alloc, is_type_kind(kind), rest)?;
    let stub = Stub {
        kind,
        depth,
        at,
        name,
        supers,
    };
    Ok((stub, rest))
}

/// Whether a byte is the code of a kind.
fn is_kind(kind: u8) -> bool
    ensures { result ≡ is_kind kind }
{
    1 <= kind && kind <= 9
}

/// Whether a byte is the code of a type's kind.
fn is_type_kind(kind: u8) -> bool
    ensures { result ≡ is_type_kind kind }
{
    1 <= kind && kind <= 5
}

/// Whether a depth may stand behind a stub, or at the front.
fn may_be_depth(before: Option<&Stub>, depth: u8) -> bool
    ensures { result ≡ may_be_depth (option_copied before.entry) depth }
{
    match before {
        None => depth == 0,
        Some(before) => {
            depth <= MAX_DEPTH
                && (depth <= before.depth || (depth - before.depth == 1 && before.is_type()))
        }
    }
}

/// Whether an offset may stand behind a stub, or at the front.
fn may_be_offset(before: Option<&Stub>, at: u32) -> bool
    ensures { result ≡ may_be_offset (option_copied before.entry) at }
{
    match before {
        None => (at as usize) < MAX_CHARS,
        Some(before) => (at as usize) < MAX_CHARS && before.at < at,
    }
}

/// The supers of a type; of any other declaration none are read.
#[tactic(auto, unfolding(crate::specs::Reading::supers_at, byte_fields::specs::Reading::counted_at))]
fn supers_of(alloc: Global, of_type: bool, bytes: &[u8]) -> Result<(Names, &[u8]), Fault>
    ensures { Gives (λ x. (x.0, x.1.now)) result (supers_at of_type bytes.now) }
{
    if !of_type {
        return Ok((Names::new(alloc), bytes));
    }
    let (count, rest) = number_of(bytes)?;
    names_of(alloc, count, rest)
}

/// So many names.
fn names_of(alloc: Global, count: u32, bytes: &[u8]) -> Result<(Names, &[u8]), Fault>
    ensures { Gives (λ x. (x.0, x.1.now)) result (many_at (λ _. name_at) count None bytes.now) }
{
    let mut names = Names::new(alloc);
    let mut rest = bytes;
    for _ in 0..count {
        let (name, after) = name_of(alloc, rest)?;
        names.push(name)?;
        rest = after;
    }
    Ok((names, rest))
}
