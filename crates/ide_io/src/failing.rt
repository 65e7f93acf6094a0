//! Objects whose listed calls fail.

ghost use Rattle.std.specs.Prelude.{◌≡◌, ◌≢◌, ◌<◌, ◌≤◌, Err, Some, IsErr, IsErrOf, IfOk, IfSome, OnOk, OnErr, length, vec_len, false, true};
ghost use Rattle.std.specs.Io.{ReadsAtMost, WritesAtMost};
ghost use Rattle.ide_io.specs.Failing.{AsksUnlessListed, faults_with};
ghost use Rattle.ide_io.specs.Fault.{HasFault};
ghost use Rattle.ide_io.specs.Files.{max_file_len};
ghost use Rattle.ide_io.specs.Known.{ReadTakes, ReadTells, WriteTakes};
ghost use Rattle.ide_io.specs.Plan.{is_next_listed, plan_after};

use crate::failed::Failed;
use crate::fault_plan::FaultPlan;
use crate::sink::Sink;
use crate::source::Source;
use crate::tree::{ReadFileError, Tree};
use ide_text::Name;
use std::alloc::Global;

/// An object whose calls fail where the plan lists them. Any other call fails only with a fault of `inner`.
///
/// Its faults are those of the plan and those of `inner`.
#[derive(Drop)]
pub struct Failing<T> {
    /// What answers the calls that the plan lets through.
    pub inner: T,
    /// Which calls fail.
    pub plan: FaultPlan,
}

impl<S: Source> Source for Failing<S> {
    ghost left = { λ source. S.left source.inner };

    ghost faults = { faults_with S.faults };

    ghost ends = { λ source. S.ends source.inner };

    fn read(&mut self, into: &mut [u8]) -> Result<usize, Failed>
        ensures counted { self.new.plan ≡ plan_after self.old.plan }
        ensures listed { is_next_listed self.old.plan ≡ true
            → IsErr result × (self.new.inner ≡ self.old.inner) × (into.new ≡ into.old) }
        ensures other { is_next_listed self.old.plan ≡ false
            → OnErr result (HasFault (S.faults self.old.inner) (S.faults self.new.inner)) }

        ensures count { ReadsAtMost result into.new }
        ensures bytes { ReadTakes (S.left self.old.inner) (S.left self.new.inner) result into.new }
        ensures told { ReadTells (S.ends self.old.inner) (S.ends self.new.inner) result into.new }
        ensures never_falls { faults_with S.faults self.old ≤ faults_with S.faults self.new }
        ensures no_fault { OnOk result
            (faults_with S.faults self.new ≡ faults_with S.faults self.old) }
        ensures fault { OnErr result
            (HasFault (faults_with S.faults self.old) (faults_with S.faults self.new)) }
    {
        if self.plan.count_call() {
            return Err(Failed);
        }
        self.inner.read(into)
    }
}

impl<K: Sink> Sink for Failing<K> {
    ghost taken = { λ sink. K.taken sink.inner };

    ghost faults = { faults_with K.faults };

    fn write(&mut self, piece: &[u8]) -> Result<usize, Failed>
        ensures counted { self.new.plan ≡ plan_after self.old.plan }
        ensures listed { is_next_listed self.old.plan ≡ true
            → IsErr result × (self.new.inner ≡ self.old.inner) }
        ensures other { is_next_listed self.old.plan ≡ false
            → OnErr result (HasFault (K.faults self.old.inner) (K.faults self.new.inner)) }

        ensures count { WritesAtMost result piece.now }
        ensures some { IfOk result (λ n. 0 < length piece.now → 0 < n) }
        ensures bytes { WriteTakes (K.taken self.old.inner)
            (K.taken self.new.inner) result piece.now }
        ensures never_falls { faults_with K.faults self.old ≤ faults_with K.faults self.new }
        ensures no_fault { OnOk result
            (faults_with K.faults self.new ≡ faults_with K.faults self.old) }
        ensures fault { OnErr result
            (HasFault (faults_with K.faults self.old) (faults_with K.faults self.new)) }
    {
        if self.plan.count_call() {
            return Err(Failed);
        }
        self.inner.write(piece)
    }
}

impl<T: Tree> Tree for Failing<T> {
    ghost files = { λ tree. T.files tree.inner };

    ghost faults = { faults_with T.faults };

    ghost asks = { AsksUnlessListed T.asks };

    fn read_file(&mut self, alloc: Global, path: &Name) -> Result<Vec<u8>, ReadFileError>
        ensures counted { self.new.plan ≡ plan_after self.old.plan }
        ensures listed { is_next_listed self.old.plan ≡ true
            → (result ≡ Err ReadFileError.Failed) × (self.new.inner ≡ self.old.inner) }
        ensures other { is_next_listed self.old.plan ≡ false → IsErrOf result ReadFileError.Failed
            → HasFault (T.faults self.old.inner) (T.faults self.new.inner) }

        ensures bytes { IfOk result
            (λ v. IfSome (T.files self.old.inner) (λ at. at path.now ≡ Some v.items)) }
        ensures limit { IfOk result (λ v. vec_len v ≤ max_file_len) }
        ensures asks { AsksUnlessListed T.asks self.old path.now self.new }
        ensures files { T.files self.new.inner ≡ T.files self.old.inner }
        ensures never_falls { faults_with T.faults self.old ≤ faults_with T.faults self.new }
        ensures no_fault { result ≢ Err ReadFileError.Failed
            → faults_with T.faults self.new ≡ faults_with T.faults self.old }
        ensures fault { IsErrOf result ReadFileError.Failed
            → HasFault (faults_with T.faults self.old) (faults_with T.faults self.new) }
    {
        if self.plan.count_call() {
            return Err(ReadFileError::Failed);
        }
        self.inner.read_file(alloc, path)
    }
}
