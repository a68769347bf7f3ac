//! What holds of every history of calls on tickets.
ghost use Rattle.ticket.specs.Truth.{TicketsTellTheTruth};

use joining::Joining;

/// On a board that is reached through its tickets alone, each ticket that is out tells the truth
/// of its station's view, so that no call is refused for being out of turn.
pub fn tickets_tell_the_truth<V: Joining>()
    ensures { TicketsTellTheTruth V.Joining }
{}
