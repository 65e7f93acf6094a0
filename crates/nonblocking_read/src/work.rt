//! A piece of work that can be stopped.
ghost use Rattle.std.specs.Prelude.{◌≡◌, ◌↔◌, ℕ, List, IfOk};
ghost use Rattle.nonblocking_read.specs.Polled.{HasPolled};

use action_lock::{Home, Watch};
use std::alloc::Global;

/// Why a piece of work gave no answer.
#[derive(Clone, Copy, Debug, PartialEq, Eq)]
pub enum Stopped {
    /// Its watch saw that it is to end.
    Seen,
    /// Memory ran out.
    OutOfMemory,
}

/// Work on what a share stands for. It looks at its watch as often as it owes, and ends at the look that sees something.
pub trait Work<H: Home> {
    /// The answer.
    type Out;

    // The answer is one to this work, on this list of entries.
    ghost fits: { Self → Self.Out → List H.Entry → Type 0 };

    // So many looks are owed by a run on this list of entries, where no look sees anything.
    ghost owes: { Self → List H.Entry → ℕ → Type 0 };

    /// Works on the share until it has an answer, or its watch has seen that it is to end.
    fn run<W: Watch>(
        &mut self,
        alloc: Global,
        share: &H::Share,
        watch: &mut W,
    ) -> Result<Self::Out, Stopped>
        requires { W.can_look watch.old }
        ensures again { W.can_look watch.new }
        ensures stays { W.stays watch.old watch.new }
        ensures meaning { (out : Self.Out) (entries : List H.Entry)
            → fits self.old out entries ↔ fits self.new out entries }
        ensures ok { IfOk result
            (λ out. (entries : List H.Entry) → H.share_stands share.now entries
            → fits self.old out entries) }
        ensures owed { (entries : List H.Entry) (n : ℕ)
            → owes self.old entries n ↔ owes self.new entries n }
        ensures polled { (entries : List H.Entry) → H.share_stands share.now entries
            → (n : ℕ) × owes self.old entries n
            × HasPolled W.looks W.sightings W.stays result n watch.old watch.new };
}
