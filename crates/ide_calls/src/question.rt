//! A question as a piece of work that can be stopped.
use crate::answering::reply_by;
use crate::replied::Replied;
use crate::{IdeHome, IdeShare};
use action_lock::Watch;
use nonblocking_read::{Stopped, Work};
use queries::Query;
use std::alloc::Global;

/// A question as a piece of work: it looks at its watch as the engine does.
#[derive(Drop)]
pub(crate) struct Question<'a> {
    pub(crate) query: &'a Query,
}

impl<'a> Work<IdeHome> for Question<'a> {
    ghost use Rattle.write_history.specs.Fold.{fold, IsLegal};
    ghost use Rattle.ide_calls.specs.Replied.{IsRepliedIn};
    ghost use Rattle.query_engine.specs.Looks.{MayLook};

    type Out = Replied;

    ghost fits = { λ work out entries. IsRepliedIn (fold entries) work.query.now out × IsLegal entries };

    ghost owes = { λ work entries n. MayLook (fold entries) work.query.now n };

    fn run<W: Watch>(
        &mut self,
        alloc: Global,
        share: &IdeShare,
        watch: &mut W,
    ) -> Result<Replied, Stopped> {
        reply_by(alloc, share.state(), self.query, watch)
    }
}
