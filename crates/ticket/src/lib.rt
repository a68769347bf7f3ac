//! Tickets: callers hold one in place of a station's number, and its type says what the station
//! may do next.

#![tactic(auto)]

mod any;
mod law;
mod on_tickets;
mod ticket_board;
mod tickets;

pub use law::tickets_tell_the_truth;
pub use ticket_board::TicketBoard;
pub use tickets::{AnyTicket, Ticket};
