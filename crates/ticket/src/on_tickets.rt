//! The calls on tickets. Each answers as the call by number does, on every board.
ghost use Rattle.std.specs.Prelude.{◌≡◌, Some, None, ⊤, IfOk, OnOk, IsOk, MatchResult};
ghost use Rattle.calls.specs.declared.actions.Action.TheVariants.{Register, Signal, Wait, Drop, Send, Result as AskResult, View as AskView};
ghost use Rattle.calls.specs.declared.actions.Answer.TheVariants.{Registered, Signaled, Observed, Dropped, Sent, Total, Viewed};
ghost use Rattle.phaser.specs.State.{seat};
ghost use Rattle.phaser.specs.Rules.{view_after_wait};
ghost use Rattle.phaser.specs.Steps.{view_of};
ghost use Rattle.board.specs.Board.{as_answer, board_step};
ghost use Rattle.board.specs.Holders.{holders_of, WaitsFor};
ghost use Rattle.ticket_kinds.specs.Kinds.{newcomer_kind};
ghost use Rattle.ticket.specs.Calls.{by_number, without_ticket, IsTicket, ComesBack};
ghost use Rattle.ticket.specs.Truth.{Truthful, Keeps};

use crate::ticket_board::TicketBoard;
use crate::tickets::{AnyTicket, Ticket};
use accumulator::Accumulator;
use calls::{Mode, View};
use refusal::Refusal;
use ticket_kinds::{MayRead, MaySend, MaySign, MayWait, TicketKind};

// Each call is promised as one equation with the call by number (`result`), and says what it does
// to the truth of tickets (`keeps`).
impl<K: TicketKind> Ticket<K> {
    /// Brings in another station with the counts of its own, and answers them with the newcomer's
    /// ticket.
    pub fn register<A: Accumulator>(
        &self,
        board: &mut TicketBoard<A>,
        other: u8,
        mode: Mode,
    ) -> Result<(u32, u32, AnyTicket), Refusal>
        ensures result { (as_answer (λ c. Registered c.0 c.1) result, board.new)
            ≡ board_step A.Value.Joining A.changes board.old self.now (Register other mode) }
        ensures ticket { IfOk result (λ c. IsTicket (newcomer_kind K.kind mode) other c.2) }
        ensures keeps { Keeps board.old.state self.now K.kind (Some K.kind) result board.new.state }
        ensures enters { Truthful board.old.state self.now K.kind →
            OnOk result (Truthful board.new.state other (newcomer_kind K.kind mode)) }
    {
        let (sp, wp) = board.board.register(self.station(), other, mode)?;
        let ticket = AnyTicket::new(K::kind().newcomer(mode), other);
        Ok((sp, wp, ticket))
    }

    /// Removes its station, which ends it. A ticket that tells the truth is never refused.
    pub fn drop<A: Accumulator>(
        self,
        board: &mut TicketBoard<A>,
    ) -> Result<(), (Refusal, Ticket<K>)>
        ensures result { (as_answer (λ _. Dropped) (by_number result), board.new)
            ≡ board_step A.Value.Joining A.changes board.old self Drop }
        ensures ticket { MatchResult result (λ _. ⊤) (λ e. e.1 ≡ self) }
        ensures keeps { Keeps board.old.state self K.kind None (by_number result) board.new.state }
        ensures ends { Truthful board.old.state self K.kind → IsOk result }
    {
        match board.board.drop(self.station()) {
            Ok(()) => {
                self.end();
                Ok(())
            }
            Err(refusal) => Err((refusal, self)),
        }
    }

    /// The view of its station.
    pub fn view<A: Accumulator>(&self, board: &TicketBoard<A>) -> Result<View, Refusal>
        ensures result { (as_answer Viewed result, board.now)
            ≡ board_step A.Value.Joining A.changes board.now self.now AskView }
        ensures keeps { Keeps board.now.state self.now K.kind (Some K.kind) result board.now.state }
    {
        board.board.view(self.station())
    }
}

impl<K: MaySign> Ticket<K> {
    /// Raises the passes that its station has signed by one, and answers them with the station's
    /// next ticket.
    pub fn sign<A: Accumulator>(
        self,
        board: &mut TicketBoard<A>,
    ) -> Result<(u32, Ticket<K::Next>), (Refusal, Ticket<K>)>
        ensures result { (as_answer Signaled (without_ticket result), board.new)
            ≡ board_step A.Value.Joining A.changes board.old self Signal }
        ensures ticket { ComesBack self result }
        ensures keeps { Keeps board.old.state self K.kind (Some K.Next.kind) (without_ticket result) board.new.state }
    {
        let answer = board.board.signal(self.station());
        self.hand_over(answer)
    }
}

impl<K: MayWait> Ticket<K> {
    /// Raises the passes that its station has observed by one, and answers them with the
    /// station's next ticket.
    pub fn wait<A: Accumulator>(
        self,
        board: &mut TicketBoard<A>,
    ) -> Result<(u32, Ticket<K::Next>), (Refusal, Ticket<K>)>
        ensures result { (as_answer Observed (without_ticket result), board.new)
            ≡ board_step A.Value.Joining A.changes board.old self Wait }
        ensures ticket { ComesBack self result }
        ensures keeps { Keeps board.old.state self K.kind (Some K.Next.kind) (without_ticket result) board.new.state }
    {
        let answer = board.board.wait(self.station());
        self.hand_over(answer)
    }

    /// The stations that its station waits for, as a set with its count: bit k is station k's.
    pub fn holders<A: Accumulator>(&self, board: &TicketBoard<A>) -> Result<(u64, u32), Refusal>
        ensures answer { result ≡ holders_of board.now.state.members self.now }
        ensures who { let after = view_after_wait (view_of (seat board.now.state self.now)) in
            IfOk result (λ h. WaitsFor board.now.state.members after h.0) }
    {
        board.board.holders(self.station())
    }
}

impl<K: MaySend> Ticket<K> {
    /// Takes a value for the pass that its station signs next, and answers that pass.
    pub fn send<A: Accumulator>(
        &self,
        board: &mut TicketBoard<A>,
        value: A::Value,
    ) -> Result<u32, Refusal>
        ensures result { (as_answer Sent result, board.new)
            ≡ board_step A.Value.Joining A.changes board.old self.now (Send value) }
        ensures keeps { Keeps board.old.state self.now K.kind (Some K.kind) result board.new.state }
    {
        board.board.send(self.station(), value)
    }
}

impl<K: MayRead> Ticket<K> {
    /// The last pass that its station has observed, and its total.
    pub fn result<A: Accumulator>(&self, board: &TicketBoard<A>) -> Result<(u32, A::Value), Refusal>
        ensures result { (as_answer (λ t. Total t.0 t.1) result, board.now)
            ≡ board_step A.Value.Joining A.changes board.now self.now AskResult }
        ensures keeps { Keeps board.now.state self.now K.kind (Some K.kind) result board.now.state }
    {
        board.board.result(self.station())
    }
}
