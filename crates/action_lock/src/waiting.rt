//! How a call waits for a word of the lock: it looks at it for some rounds, and then sleeps on it until it is woken. No clause rests on any of
//! this: what is looked at here is counted nowhere, and a wake that is missed costs a millisecond and no answer.
ghost use Rattle.std.specs.Prelude.{◌<◌};

use crate::home::Home;
use crate::lock::ActionLock;
use crate::pass::Pass;
use crate::words::{INTENT, PENDING, TURN, has_pending, word_at};
use std::hint::spin_loop;
use std::sync::Wait;
use std::sync::atomic::Ordering;
use std::thread;
use std::time::Duration;

/// How often a round looks at the word before it lets other threads run: some microseconds, in which a short read or write ends.
const SPINS: u32 = 100;

/// How many rounds come before the first sleep. Where many threads write for microseconds each, who sleeps is woken late and costs each write a
/// wake: with ten rounds a demo with four workers took 1.4 to 2.3 times as long as with these.
const ROUNDS: u32 = 50;

/// The longest sleep, in milliseconds.
const NAP: u64 = 1;

/// How many sleeps a soft read takes before it tries again under a mark that is still up, which may be held by its own thread: 100 ms in all.
const NAPS_AT_A_MARK: u32 = 100;

impl<H: Home> ActionLock<H> {
    /// Looks at the pass's place until it might enter, for a short while, and then lets other threads run. These looks are not counted.
    pub fn pause(&self, pass: &Pass<H>) {
        self.linger(word_at(pass.place()), PENDING | TURN, 0);
    }

    /// Waits until the pending mark of the pass's place is down, or 100 milliseconds have passed: the mark may be held by the caller's own
    /// thread. These looks are not counted. May block.
    pub fn wait_for_mark<R: Wait>(&self, rt: &R, pass: &Pass<H>) {
        let word = word_at(pass.place());
        for turns in 0..ROUNDS + NAPS_AT_A_MARK {
            if !has_pending(self.table.shared.peek(word)) {
                return;
            }
            self.wait_turn(rt, word, PENDING, 0, turns);
        }
    }

    /// Waits for the intent, which another pass has, a turn longer, and answers with how often it has waited.
    pub(crate) fn wait_for_intent<R: Wait>(&self, rt: &R, turns: u32) -> u32 {
        self.wait_turn(rt, INTENT, u64::MAX, 0, turns)
    }

    /// Waits until the pass's place might let it in, a turn longer, and answers with how often it has waited.
    pub(crate) fn wait_for_place<R: Wait>(&self, rt: &R, pass: &Pass<H>, turns: u32) -> u32 {
        self.wait_turn(rt, word_at(pass.place()), PENDING | TURN, 0, turns)
    }

    /// Waits until the readers of a place that is marked have left, a turn longer, and answers with how often it has waited.
    pub(crate) fn wait_for_readers<R: Wait>(&self, rt: &R, place: usize, turns: u32) -> u32
        requires { place < 32 }
    {
        self.wait_turn(rt, word_at(place), u64::MAX, PENDING, turns)
    }

    /// Waits for these marks of the word to be as awaited: the first turns are rounds of looks, the later ones sleeps.
    fn wait_turn<R: Wait>(&self, rt: &R, word: usize, marks: u64, awaited: u64, turns: u32) -> u32
        requires { word < 544 }
    {
        if turns < ROUNDS {
            self.linger(word, marks, awaited);
        } else {
            self.sleep(rt, word, marks, awaited);
        }
        turns.saturating_add(1)
    }

    /// Looks at these marks of the word until they are as awaited, for a short while, and then lets other threads run.
    fn linger(&self, word: usize, marks: u64, awaited: u64)
        requires { word < 544 }
    {
        for _ in 0..SPINS {
            if self.table.shared.peek(word) & marks == awaited {
                return;
            }
            spin_loop();
        }
        thread::yield_now();
    }

    /// Sleeps until the word changes and somebody wakes its sleepers, or a millisecond has passed; not at all where its marks are as awaited.
    /// It is counted first, and looks then: who changes the word after that look finds it counted.
    fn sleep<R: Wait>(&self, rt: &R, word: usize, marks: u64, awaited: u64)
        requires { word < 544 }
    {
        let shared = &self.table.shared;
        self.sleepers.fetch_add(1, Ordering::SeqCst);
        let found = shared.peek(word);
        if found & marks != awaited {
            let low = (found % 4_294_967_296) as u32;
            shared.park_timeout(rt, word, low, Duration::from_millis(NAP));
        }
        self.sleepers.fetch_sub(1, Ordering::SeqCst);
    }

    /// Wakes all that sleep on the word, which has just changed. It costs a load where nobody sleeps.
    pub(crate) fn wake(&self, word: usize)
        requires { word < 544 }
    {
        if self.sleepers.load(Ordering::SeqCst) > 0 {
            self.table.shared.wake_all(word);
        }
    }

    /// Wakes the writer that waits at a place, if one does: a reader or a turn has just left its word, which was found so.
    pub(crate) fn wake_writer(&self, word: usize, found: u64)
        requires { word < 544 }
    {
        if has_pending(found) {
            self.wake(word);
        }
    }

    /// Wakes one of those that sleep on the intent word, which is free now.
    pub(crate) fn wake_for_intent(&self) {
        if self.sleepers.load(Ordering::SeqCst) > 0 {
            self.table.shared.wake_one(INTENT);
        }
    }
}
