//! A board that is reached through its tickets alone.
ghost use Rattle.std.specs.Prelude.{◌≡◌, ℕ, [], Ok};
ghost use Rattle.refusal.specs.Rules.{verdict};
ghost use Rattle.accumulator.specs.Meaning.{new_meaning};
ghost use Rattle.phaser.specs.Law.{RecordOf};
ghost use Rattle.board.specs.Entry.{board_rules};
ghost use Rattle.board.specs.Board.{new_state_on};
ghost use Rattle.ticket_kinds.specs.Kinds.{first_kind};
ghost use Rattle.ticket.specs.Calls.{IsTicket};
ghost use Rattle.ticket.specs.Truth.{Truthful};

use crate::tickets::AnyTicket;
use accumulator::Accumulator;
use board::Board;
use calls::Mode;
use refusal::Refusal;
use std::marker::Model;
use ticket_kinds::Kind;

/// A board whose calls are made on tickets, and by no number.
#[derive(Drop)]
pub struct TicketBoard<A: Accumulator> {
    pub(crate) board: Board<A>,
}

impl<A: Accumulator> Model for TicketBoard<A> {
    ghost use Rattle.board.specs.Board.{WholeBoard};

    ghost Value = { WholeBoard A.Value };

    ghost view = { λ b. b.board };
}

impl<A: Accumulator> TicketBoard<A> {
    /// Whether `new` can be called: it refuses a first member that is no station.
    pub fn trial(first: u8) -> Result<(), Refusal>
        ensures { result ≡ verdict (board_rules first) }
    {
        Board::<A>::trial(first)
    }

    /// A board whose only member has signed and observed nothing, and that member's ticket.
    pub fn new(first: u8, mode: Mode, accumulator: A) -> (TicketBoard<A>, AnyTicket)
        requires { verdict (board_rules first) ≡ Ok tt }
        ensures board { result.0
            ≡ record { state = new_state_on first mode (A.meaning accumulator); cells = A.cells accumulator } }
        ensures record { (limit : ℕ) → A.meaning accumulator ≡ new_meaning A.Value.Joining limit →
            RecordOf A.Value.Joining first mode limit [] result.0.state }
        ensures ticket { IsTicket (first_kind mode) first result.1 }
        ensures truth { Truthful result.0.state first (first_kind mode) }
    {
        let board = Board::new(first, mode, accumulator);
        (
            TicketBoard { board },
            AnyTicket::new(Kind::first(mode), first),
        )
    }
}
