//! What one thread was told, as a value that another thread can ask behind.
ghost use Rattle.std.specs.Prelude.{◌≡◌};
ghost use Rattle.list_laws.specs.Prefixes.{IsPrefix};
ghost use Rattle.action_lock.specs.Steps.{caught_up};
ghost use Rattle.index_workers.specs.Passes.{ide_view, IsSameIdePass};
ghost use Rattle.shared_ide.specs.Passes.{IsIdePassOf, Continues};
ghost use Rattle.shared_ide.specs.Tickets.{IsIdeTicketOf, told_by};

use crate::shared::SharedIde;
use action_lock::Ticket;
use ide_calls::IdeHome;
use index_workers::IdePass;

/// All that a pass had seen when it was drawn. Any thread may hold it, and it may be dropped.
#[derive(Drop)]
pub struct IdeTicket {
    of_lock: Ticket<IdeHome>,
}

impl SharedIde {
    /// A ticket of all that the pass has seen, with its own changes.
    pub fn ticket(&self, pass: &mut IdePass) -> IdeTicket
        requires { IsIdePassOf self.now pass.old }
        ensures pass { IsIdePassOf self.now pass.new × IsSameIdePass pass.old pass.new }
        ensures view { ide_view pass.new ≡ ide_view pass.old }
        ensures hints { pass.new.queue ≡ pass.old.queue }
        ensures ticket { IsIdeTicketOf self.now result }
        ensures told { told_by result ≡ (ide_view pass.old).seen }
    {
        IdeTicket {
            of_lock: pass.lock.ticket(&self.lock),
        }
    }

    /// A second ticket of the same, for another pass.
    pub fn ticket_again(&self, ticket: &mut IdeTicket) -> IdeTicket
        requires { IsIdeTicketOf self.now ticket.old }
        ensures same { IsIdeTicketOf self.now ticket.new × (told_by ticket.new ≡ told_by ticket.old) }
        ensures ticket { IsIdeTicketOf self.now result × (told_by result ≡ told_by ticket.old) }
    {
        IdeTicket {
            of_lock: ticket.of_lock.again(&self.lock),
        }
    }

    /// The pass catches up with a ticket: from now on each of its answers holds all that the ticket's pass had seen.
    pub fn catch_up(&self, pass: &mut IdePass, ticket: IdeTicket)
        requires pass { IsIdePassOf self.now pass.old }
        requires ticket { IsIdeTicketOf self.now ticket }
        ensures pass { Continues self.now pass.old pass.new }
        ensures view { ide_view pass.new ≡ caught_up (told_by ticket) (ide_view pass.old) }
        ensures learns { IsPrefix (told_by ticket) (ide_view pass.new).seen }
        ensures hints { pass.new.queue ≡ pass.old.queue }
    {
        pass.lock.catch_up(&self.lock, ticket.of_lock);
    }
}
