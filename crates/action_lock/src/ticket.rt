//! What a pass has seen, as a value that any thread may hold.
ghost use Rattle.std.specs.Prelude.{◌≡◌};
ghost use Rattle.action_lock.specs.Advances.{Advances};
ghost use Rattle.action_lock.specs.Passes.{view_of, IsSamePass, IsPassOf};
ghost use Rattle.action_lock.specs.Steps.{caught_up};
ghost use Rattle.action_lock.specs.Tickets.{IsTicketOf, seen_by};
ghost use Rattle.list_laws.specs.Prefixes.{IsPrefix};

use crate::home::Home;
use crate::lock::ActionLock;
use crate::pass::Pass;
use crate::plays::{CatchUp, Issue, Tell};
use crate::slot::Slot;
use crate::view::View;
use crate::words::COUNT;
use atomic_table::Seat;

/// What a pass had seen when the ticket was made. A pass that catches up with it answers from then on with all of that in view. It has no number,
/// holds nothing up, and may be dropped.
#[derive(Drop)]
pub struct Ticket<H: Home> {
    pub(crate) seat: Seat<Slot<H, H::Share>, View<H::Entry>>,
}

impl<H: Home> Pass<H> {
    /// A ticket of all that the pass has seen.
    pub fn ticket(&mut self, lock: &ActionLock<H>) -> Ticket<H>
        requires { IsPassOf lock.now self.old }
        ensures pass { IsPassOf lock.now self.new × IsSamePass self.old self.new }
        ensures view { view_of self.new ≡ view_of self.old }
        ensures ticket { IsTicketOf lock.now result }
        ensures seen { seen_by result ≡ (view_of self.old).seen }
    {
        Ticket {
            seat: lock.table.shared.split_seat::<Issue>(&mut self.seat),
        }
    }

    /// Takes in what the ticket tells: what this pass has seen begins from now on with all that the ticket's pass had seen.
    pub fn catch_up(&mut self, lock: &ActionLock<H>, ticket: Ticket<H>)
        requires pass { IsPassOf lock.now self.old }
        requires ticket { IsTicketOf lock.now ticket }
        ensures pass { IsPassOf lock.now self.new × IsSamePass self.old self.new }
        ensures view { view_of self.new ≡ caught_up (seen_by ticket) (view_of self.old) }
        ensures keeps { IsPrefix (view_of self.old).seen (view_of self.new).seen }
        ensures learns { IsPrefix (seen_by ticket) (view_of self.new).seen }
        ensures advances { Advances (view_of self.old) (view_of self.new) }
    {
        let Ticket { seat } = ticket;
        lock.table.shared.join_seat::<CatchUp>(&mut self.seat, seat);
        lock.table.shared.load::<Tell<H>>(&mut self.seat, COUNT);
    }
}

impl<H: Home> Ticket<H> {
    /// A second ticket of the same, for another pass.
    pub fn again(&mut self, lock: &ActionLock<H>) -> Ticket<H>
        requires { IsTicketOf lock.now self.old }
        ensures same { IsTicketOf lock.now self.new × (seen_by self.new ≡ seen_by self.old) }
        ensures ticket { IsTicketOf lock.now result × (seen_by result ≡ seen_by self.old) }
    {
        Ticket {
            seat: lock.table.shared.split_seat::<Issue>(&mut self.seat),
        }
    }
}
