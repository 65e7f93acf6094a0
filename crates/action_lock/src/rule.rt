//! The rule that holds of the lock's words, slots and views between any two steps.
use crate::home::Home;
use crate::slot::Slot;
use crate::view::View;
use atomic_table::TableRule;
use std::marker::PhantomData;

/// The rule of the lock over a home value of this type. No value of it is made.
pub struct GateRule<H> {
    home: PhantomData<H>,
}

impl<H: Home> TableRule<Slot<H, H::Share>, View<H::Entry>, u32> for GateRule<H> {
    ghost use Rattle.action_lock.specs.Rule.{IsKept};
    ghost use Rattle.action_lock.specs.Views.{first_view};

    // The table is told how many places the lock has.
    ghost holds = { IsKept H.number_of H.stands H.share_stands };

    ghost first = { first_view };
}
