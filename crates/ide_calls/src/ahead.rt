//! Index data that a settle has made ahead of their turn, on threads of their own, while it takes earlier ones in.
ghost use Rattle.std.specs.Prelude.{◌≡◌, [], map};
ghost use Rattle.std.specs.Option.{option_map_or};
ghost use Rattle.ide_calls.specs.Intake.{task_of_made};
ghost use Rattle.ide_calls.specs.Ahead.{HasBegun, HasTakenFirst, HasJoined};

use crate::making::{Making, batch_from};
use ide_world::{Made, State};
use index_store::Store;
use std::alloc::{AllocError, Global};
use std::collections::VecDeque;
use std::marker::Model;
use std::thread::{Threads, available_parallelism};

/// A batch that costs less isn't worth a thread: it is left to the one that takes the files in.
const LEAST_COST: u32 = 32_768;

/// The most threads at once. Each holds one batch, so this bounds the memory.
const MOST_THREADS: usize = 16;

/// Data that are made and threads that make more, in order of ids: seen by contracts as the work that they are of.
#[derive(Drop)]
pub(crate) struct Ahead {
    made: VecDeque<Made>,
    makings: VecDeque<Making>,
    /// No thread has a file from this id on.
    end: u32,
    /// How many threads there may be at once, where that is known: none once no further batch is worth one.
    threads: Option<usize>,
}

impl Model for Ahead {
    ghost use Rattle.std.specs.Prelude.{List};
    ghost use Rattle.ide_world.specs.Task.{Task};

    ghost Value = { List Task };

    ghost use Rattle.ide_calls.specs.Ahead.{tasks_ahead};

    ghost view = { tasks_ahead };
}

impl Ahead {
    /// Nothing. It takes no memory, and starts no thread.
    pub(crate) fn new(alloc: Global) -> Ahead
        ensures { result ≡ [] }
    {
        Ahead {
            made: VecDeque::new(alloc),
            makings: VecDeque::new(alloc),
            end: 0,
            threads: None,
        }
    }

    /// Starts one thread more, for a batch of unready files behind this one and behind those of other threads that the store hasn't,
    /// where that is worth a thread and there is a processor for it.
    pub(crate) fn begin<R: Threads>(
        &mut self,
        rt: &R,
        alloc: Global,
        store: &Store,
        state: &State,
        file: u32,
    ) -> Result<(), AllocError>
        ensures { HasBegun state.now.world self.old self.new }
    {
        if self.is_full() {
            return Ok(());
        }
        let batch = batch_from(alloc, store, state, self.end.max(file.saturating_add(1)))?;
        if batch.cost < LEAST_COST || !self.may_start(rt) {
            self.threads = Some(0);
            return Ok(());
        }
        self.makings.reserve(1)?;
        self.end = batch.end;
        match Making::start(rt, alloc, batch.jobs) {
            Some(making) => self.makings.push_back(making).unwrap(),
            None => self.threads = Some(0),
        }
        Ok(())
    }

    /// Whether there are as many threads as there may be.
    fn is_full(&self) -> bool {
        match self.threads {
            Some(most) => most <= self.makings.len(),
            None => false,
        }
    }

    /// Whether there may be threads. The processors are counted at the first call, which costs some system calls.
    fn may_start<R: Threads>(&mut self, rt: &R) -> bool
        ensures { self.new ≡ self.old }
    {
        if self.threads.is_none() {
            self.threads = Some(threads_for(rt));
        }
        self.threads != Some(0)
    }

    /// The first of the data, for which it may wait for a thread to end. Nothing where there are none.
    pub(crate) fn take<R: Threads>(&mut self, rt: &R) -> Option<Made>
        ensures { HasTakenFirst self.old self.new result }
    {
        if let Some(made) = self.made.pop_front() {
            return Some(made);
        }
        self.made = join_first(rt, &mut self.makings)?;
        self.made.pop_front()
    }

    /// Waits for the threads that are left.
    pub(crate) fn join_all<R: Threads>(self, rt: &R) {
        for making in self.makings {
            drop(making.join(rt));
        }
    }
}

/// Waits for the first of the threads. Where it found no memory its data are lost, and are made in their turn.
fn join_first<R: Threads>(rt: &R, makings: &mut VecDeque<Making>) -> Option<VecDeque<Made>>
    ensures { HasJoined makings.old.items makings.new.items
        (option_map_or (λ made. map task_of_made made.items) result []) }
{
    makings.pop_front()?.join(rt)
}

/// How many threads a settle starts at once: none on one processor.
fn threads_for<R: Threads>(rt: &R) -> usize {
    match available_parallelism(rt) {
        Ok(count) if 1 < count.get() => count.get().min(MOST_THREADS),
        _ => 0,
    }
}
