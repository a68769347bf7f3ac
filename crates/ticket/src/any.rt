//! What a ticket of any kind may do, which is what every ticket may.
ghost use Rattle.std.specs.Prelude.{◌≡◌, Some, None, ⊤, IfOk, OnOk, IsOk, MatchResult};
ghost use Rattle.calls.specs.declared.actions.Action.TheVariants.{Register, Drop, View as AskView};
ghost use Rattle.calls.specs.declared.actions.Answer.TheVariants.{Registered, Dropped, Viewed};
ghost use Rattle.board.specs.Board.{as_answer, board_step};
ghost use Rattle.ticket_kinds.specs.Kinds.{newcomer_kind};
ghost use Rattle.ticket.specs.Calls.{by_number, kind_in, station_in, IsTicket};
ghost use Rattle.ticket.specs.Truth.{Truthful, Keeps};

use crate::ticket_board::TicketBoard;
use crate::tickets::AnyTicket;
use accumulator::Accumulator;
use calls::{Mode, View};
use refusal::Refusal;

impl AnyTicket {
    /// The station that it is for.
    pub fn station(&self) -> u8
        ensures { result ≡ station_in self.now }
    {
        match self {
            AnyTicket::Open(ticket) => ticket.station(),
            AnyTicket::Signed(ticket) => ticket.station(),
            AnyTicket::SignOnly(ticket) => ticket.station(),
            AnyTicket::WaitOnly(ticket) => ticket.station(),
        }
    }

    /// Brings in another station with the counts of its own, and answers them with the newcomer's
    /// ticket.
    pub fn register<A: Accumulator>(
        &self,
        board: &mut TicketBoard<A>,
        other: u8,
        mode: Mode,
    ) -> Result<(u32, u32, AnyTicket), Refusal>
        ensures result { (as_answer (λ c. Registered c.0 c.1) result, board.new)
            ≡ board_step A.Value.Joining A.changes board.old (station_in self.now) (Register other mode) }
        ensures ticket { IfOk result (λ c. IsTicket (newcomer_kind (kind_in self.now) mode) other c.2) }
        ensures keeps { Keeps board.old.state (station_in self.now) (kind_in self.now) (Some (kind_in self.now)) result board.new.state }
        ensures enters { Truthful board.old.state (station_in self.now) (kind_in self.now) →
            OnOk result (Truthful board.new.state other (newcomer_kind (kind_in self.now) mode)) }
    {
        match self {
            AnyTicket::Open(ticket) => ticket.register(board, other, mode),
            AnyTicket::Signed(ticket) => ticket.register(board, other, mode),
            AnyTicket::SignOnly(ticket) => ticket.register(board, other, mode),
            AnyTicket::WaitOnly(ticket) => ticket.register(board, other, mode),
        }
    }

    /// Removes its station, which ends it. A ticket that tells the truth is never refused.
    pub fn drop<A: Accumulator>(
        self,
        board: &mut TicketBoard<A>,
    ) -> Result<(), (Refusal, AnyTicket)>
        ensures result { (as_answer (λ _. Dropped) (by_number result), board.new)
            ≡ board_step A.Value.Joining A.changes board.old (station_in self) Drop }
        ensures ticket { MatchResult result (λ _. ⊤) (λ e. e.1 ≡ self) }
        ensures keeps { Keeps board.old.state (station_in self) (kind_in self) None (by_number result) board.new.state }
        ensures ends { Truthful board.old.state (station_in self) (kind_in self) → IsOk result }
    {
        match self {
            AnyTicket::Open(ticket) => ticket
                .drop(board)
                .map_err(|(refusal, ticket)| (refusal, AnyTicket::Open(ticket))),
            AnyTicket::Signed(ticket) => ticket
                .drop(board)
                .map_err(|(refusal, ticket)| (refusal, AnyTicket::Signed(ticket))),
            AnyTicket::SignOnly(ticket) => ticket
                .drop(board)
                .map_err(|(refusal, ticket)| (refusal, AnyTicket::SignOnly(ticket))),
            AnyTicket::WaitOnly(ticket) => ticket
                .drop(board)
                .map_err(|(refusal, ticket)| (refusal, AnyTicket::WaitOnly(ticket))),
        }
    }

    /// The view of its station.
    pub fn view<A: Accumulator>(&self, board: &TicketBoard<A>) -> Result<View, Refusal>
        ensures result { (as_answer Viewed result, board.now)
            ≡ board_step A.Value.Joining A.changes board.now (station_in self.now) AskView }
        ensures keeps { Keeps board.now.state (station_in self.now) (kind_in self.now) (Some (kind_in self.now)) result board.now.state }
    {
        match self {
            AnyTicket::Open(ticket) => ticket.view(board),
            AnyTicket::Signed(ticket) => ticket.view(board),
            AnyTicket::SignOnly(ticket) => ticket.view(board),
            AnyTicket::WaitOnly(ticket) => ticket.view(board),
        }
    }
}
