//! The rule that holds of the queue and of all passes between any two pushes and pops, and what each step tells.
ghost use Rattle.job_queue.specs.Rule.{IsPut, IsTaken, Stood};
ghost use Rattle.job_queue.specs.Views.{splitting, split_off, joined, spent_view};

use crate::hint::Hint;
use crate::view::QueueView;
use crossbeam_queue::protocol::{Join, Lesson, Outcome, Protocol, Split};

/// The rule of the queue. No value of it is made.
pub struct JobRule;

impl Protocol<Hint, QueueView> for JobRule {
    ghost use Rattle.job_queue.specs.Rule.{IsKept};
    ghost use Rattle.job_queue.specs.Views.{first_view};

    ghost holds = { IsKept };

    ghost first = { first_view };
}

pub(crate) struct Put;

impl Outcome<Hint, QueueView> for Put {
    ghost then = { IsPut };
}

impl Lesson<Hint, QueueView> for Put {
    ghost fact = { Stood };
}

pub(crate) struct Take;

impl Outcome<Hint, QueueView> for Take {
    ghost then = { IsTaken };
}

impl Lesson<Hint, QueueView> for Take {
    ghost fact = { Stood };
}

pub(crate) struct Cut;

impl Split<QueueView> for Cut {
    ghost left = { splitting };

    ghost right = { split_off };
}

pub(crate) struct Glue;

impl Join<QueueView> for Glue {
    ghost both = { joined };

    ghost spent = { spent_view };
}
