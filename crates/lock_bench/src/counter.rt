//! A home value as small as one can be: a count of the writes of number 0, under an `Arc`.
ghost use Rattle.std.specs.Prelude.{◌≡◌, ◌∷◌, ◌++◌, [], IfOk, IsTrue, IsFalse};
ghost use Rattle.std.specs.Arc.{arc_value};
ghost use Rattle.lock_bench.specs.Zeros.{zeros};
ghost use Rattle.std.proofs.Common.{sym, ◌∙◌};

use action_lock::Home;
use std::alloc::{AllocError, Global};
use std::sync::Arc;

/// A count of writes.
#[derive(Drop)]
pub struct Counter {
    /// How many writes number 0 has made.
    pub count: Arc<u64>,
}

/// What the shares of one place have in common. It is so large that the counts of no two blocks share a cache line.
#[derive(Drop)]
pub struct Block {
    /// How many writes number 0 has made.
    pub count: Arc<u64>,
    /// What keeps the counts apart.
    pub apart: [u64; 14],
}

impl Counter {
    /// A counter at 0.
    pub fn new(alloc: Global) -> Result<Counter, AllocError>
        ensures { IfOk result (λ counter. arc_value counter.count ≡ 0) }
    {
        Ok(Counter {
            count: Arc::new(alloc, 0)?,
        })
    }

    /// Counts one more, unless the count is at its end or is shared and can't be copied. Whether it did.
    pub fn step(&mut self) -> bool
        ensures made { IsTrue result
            → zeros (arc_value self.new.count) ≡ zeros (arc_value self.old.count) ++ 0 ∷ [] }
        ensures none { IsFalse result → arc_value self.new.count ≡ arc_value self.old.count }
    {
        let Some(next) = self.count.checked_add(1) else {
            return false;
        };
        match Arc::make_mut(&mut self.count) {
            Ok(count) => {
                *count = next;
                true
            }
            Err(_) => false,
        }
    }
}

impl Home for Counter {
    // The number of the pass that counted.
    type Entry = u32;

    type Share = Arc<Block>;

    ghost number_of = { λ number. number };

    ghost stands = { λ counter numbers. zeros (arc_value counter.count) ≡ numbers };

    ghost share_stands = { λ share numbers. zeros (arc_value (arc_value share).count) ≡ numbers };

    ghost one_list = { λ counter xs ys p q. sym p ∙ q };

    fn share(&self, alloc: Global) -> Result<Arc<Block>, AllocError> {
        let block = Block {
            count: Arc::try_clone(&self.count)?,
            apart: [0; 14],
        };
        Ok(Arc::new(alloc, block)?)
    }

    fn again(_alloc: Global, share: &Arc<Block>) -> Result<Arc<Block>, AllocError> {
        Arc::try_clone(share)
    }
}
