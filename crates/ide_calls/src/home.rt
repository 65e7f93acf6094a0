//! The workspace under the lock: its state, and the history that led to it.
ghost use Rattle.std.specs.Prelude.{◌≡◌, ◌≤◌, ◌∷◌, ◌++◌, [], length, IfOk, OnOk, OnErr};
ghost use Rattle.std.proofs.Common.{sym, ◌∙◌};
ghost use Rattle.write_history.specs.Effect.{max_entries};
ghost use Rattle.write_history.specs.Fold.{fold, IsLegal};
ghost use Rattle.ide_world.specs.Ready.{IsReadyFor, Makes, hinted};

use crate::kept::Kept;
use crate::share::{IdeShare, ShareBlock};
use action_lock::Home;
use history_laws::laws::histories_go_on;
use ide_world::{Ready, empty, install, reserve};
use std::alloc::{AllocError, Global};
use std::marker::Model;
use std::sync::Arc;
use write_history::{Entry, History};

/// The state and its history, seen by contracts as the entries of the history.
#[derive(Drop)]
pub struct IdeHome {
    kept: Arc<Kept>,
    history: History,
}

impl Model for IdeHome {
    ghost use Rattle.std.specs.Prelude.{List};
    ghost use Rattle.write_history.specs.declared.entry.Entry.{Entry};

    ghost Value = { List Entry };

    ghost use Rattle.ide_calls.specs.Kept.{history_of, StandsForHistory};

    ghost view = { history_of };

    ghost invariant = { StandsForHistory };
}

impl IdeHome {
    /// No file, and no entry.
    pub fn new(alloc: Global) -> Result<IdeHome, AllocError>
        ensures { IfOk result (λ home. home ≡ []) }
    {
        Ok(IdeHome {
            kept: Arc::new(
                alloc,
                Kept {
                    state: empty(alloc)?,
                },
            )?,
            history: History::new(alloc),
        })
    }

    /// The number of entries.
    pub fn len(&self) -> u64
        ensures value { result ≡ length self.now }
        ensures legal { IsLegal self.now }
        ensures bounded { length self.now ≤ max_entries }
    {
        self.history.len()
    }

    /// The history.
    pub fn into_history(self) -> History
        ensures entries { result.entries ≡ self }
        ensures legal { IsLegal result.entries }
        ensures bounded { length result.entries ≤ max_entries }
    {
        let IdeHome { kept: _, history } = self;
        history
    }

    /// Lets changes that are ready in, as one entry, or leaves all as it was where there is no memory. The state is
    /// copied only where a share of it is still out. The answer is the first of the changed files that is unready now.
    pub fn accept(&mut self, ready: Ready, entry: Entry) -> Result<Option<u32>, AllocError>
        requires ready { IsReadyFor (fold self.old) ready }
        requires makes { Makes (fold self.old) ready entry.changes }
        ensures ok { OnOk result (self.new ≡ self.old ++ entry ∷ []) }
        ensures legal { IsLegal self.new }
        ensures bounded { length self.new ≤ max_entries }
        ensures unready { IfOk result (λ file. file ≡ hinted (fold self.old) entry.changes) }
        ensures err { OnErr result (self.new ≡ self.old) }
    {
        histories_go_on();
        self.history.reserve()?;
        let kept = Arc::make_mut(&mut self.kept)?;
        reserve(&mut kept.state, &ready)?;
        let unready = install(&mut kept.state, ready);
        self.history.push(entry);
        Ok(unready)
    }
}

impl Home for IdeHome {
    ghost use Rattle.write_history.specs.Effect.{max_entries};
    ghost use Rattle.write_history.specs.Fold.{fold, IsLegal};

    type Entry = Entry;

    type Share = IdeShare;

    ghost number_of = { λ entry. entry.seat };

    ghost stands = { λ home entries. (home ≡ entries) × IsLegal entries × (length entries ≤ max_entries) };

    ghost share_stands = { λ share entries. (share ≡ fold entries) × IsLegal entries × (length entries ≤ max_entries) };

    ghost one_list = { λ home xs ys p q. sym p.0 ∙ q.0 };

    fn share(&self, alloc: Global) -> Result<IdeShare, AllocError> {
        let block = ShareBlock {
            kept: Arc::try_clone(&self.kept)?,
            apart: [0; 12],
        };
        Ok(IdeShare {
            block: Arc::new(alloc, block)?,
        })
    }

    fn again(_alloc: Global, share: &IdeShare) -> Result<IdeShare, AllocError> {
        Ok(IdeShare {
            block: Arc::try_clone(&share.block)?,
        })
    }
}
