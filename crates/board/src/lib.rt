//! The pass board: a phaser with an accumulator, its seven calls, whom a waiter waits for, and
//! lists of calls played.

#![tactic(auto)]

ghost use Rattle.std.specs.Prelude.{◌≡◌, ℕ, [], Ok};
ghost use Rattle.refusal.specs.Rules.{verdict};
ghost use Rattle.calls.specs.declared.actions.Action.TheVariants.{Register, Signal, Wait, Drop, Send, Result as AskResult, View as AskView};
ghost use Rattle.calls.specs.declared.actions.Answer.TheVariants.{Registered, Signaled, Observed, Dropped, Sent, Total, Viewed};
ghost use Rattle.accumulator.specs.Meaning.{new_meaning};
ghost use Rattle.phaser.specs.Law.{RecordOf};
ghost use Rattle.board.specs.Entry.{board_rules};
ghost use Rattle.board.specs.Board.{new_state_on, as_answer, board_step};

mod every_board;
mod histories;
mod holders;
mod members;
mod station;
mod turns;

use crate::members::Member;
use crate::station::Station;
use crate::turns::in_turn;
use accumulator::{Accumulator, LEAD};
use calls::{Mode, Verb, View, brings};
pub use histories::{play, play_both};
pub use members::{Members, SEATS};
use refusal::Refusal;
use std::marker::Model;

/// The members, and the accumulator of their values.
#[derive(Drop)]
pub struct Board<A: Accumulator> {
    pub(crate) members: Members,
    pub(crate) accumulator: A,
}

impl<A: Accumulator> Model for Board<A> {
    ghost use Rattle.board.specs.Board.{WholeBoard};

    ghost Value = { WholeBoard A.Value };

    ghost view = { λ b. record {
      state = record { members = b.members; account = A.meaning b.accumulator };
      cells = A.cells b.accumulator;
    } };
}

impl<A: Accumulator> Board<A> {
    /// Whether `new` can be called: it refuses a first member that is no station with 9.
    pub fn trial(first: u8) -> Result<(), Refusal>
        ensures { result ≡ verdict (board_rules first) }
    {
        Station::try_from(first)?;
        Ok(())
    }

    /// A board whose only member has signed and observed nothing.
    pub fn new(first: u8, mode: Mode, accumulator: A) -> Board<A>
        requires { verdict (board_rules first) ≡ Ok tt }
        ensures state { result
            ≡ record { state = new_state_on first mode (A.meaning accumulator); cells = A.cells accumulator } }
        ensures record { (limit : ℕ) → A.meaning accumulator ≡ new_meaning A.Value.Joining limit →
            RecordOf A.Value.Joining first mode limit [] result.state }
    {
        Board {
            members: Members::alone(Station { number: first }, mode),
            accumulator,
        }
    }

    /// Brings in another station with the caller's counts, and answers them. Refused with 9, 10, 11
    /// and 12.
    pub fn register(&mut self, caller: u8, other: u8, mode: Mode) -> Result<(u32, u32), Refusal>
        ensures { (as_answer (λ c. Registered c.0 c.1) result, self.new)
            ≡ board_step A.Value.Joining A.changes self.old caller (Register other mode) }
    {
        Station::try_from(caller)?;
        let newcomer = Station::try_from(other)?;
        let Member { view, .. } = self.members.enter(caller, Verb::Register)?;
        if self.members.has(newcomer) {
            return Err(Refusal::AlreadyMember { other });
        }
        if !brings(view.mode, mode) {
            return Err(Refusal::ModeDenied { caller });
        }
        self.members.put(newcomer, Some(View { mode, ..view }));
        Ok((view.sp, view.wp))
    }

    /// Raises the passes that the caller has signed by one, and answers them. Refused with 9, 10, 12,
    /// 13 and 14.
    pub fn signal(&mut self, caller: u8) -> Result<u32, Refusal>
        ensures { (as_answer Signaled result, self.new) ≡ board_step A.Value.Joining A.changes self.old caller Signal }
    {
        let member = self.members.enter(caller, Verb::Signal)?;
        let sp = member.next_to_sign()?;
        let seat = Some(View { sp, ..member.view });
        self.members.put(member.station, seat);
        Ok(sp)
    }

    /// Raises the passes that the caller has observed by one, and answers them. In mode SW, where it
    /// observes the first kept pass plus `LEAD`, the accumulator moves on. Refused with 9, 10, 12, 13,
    /// 14 and 15.
    pub fn wait(&mut self, caller: u8) -> Result<u32, Refusal>
        ensures { (as_answer Observed result, self.new) ≡ board_step A.Value.Joining A.changes self.old caller Wait }
    {
        let member = self.members.enter(caller, Verb::Wait)?;
        let wp = member.next_to_observe()?;
        if !self.members.all_signed(wp) {
            return Err(Refusal::NotSigned { caller });
        }
        if in_turn(member.view.mode) && self.accumulator.first() + LEAD == wp {
            self.accumulator.move_on()?;
        }
        let seat = Some(View { wp, ..member.view });
        self.members.put(member.station, seat);
        Ok(wp)
    }

    /// Removes the caller. Refused with 9 and 10.
    pub fn drop(&mut self, caller: u8) -> Result<(), Refusal>
        ensures { (as_answer (λ _. Dropped) result, self.new)
            ≡ board_step A.Value.Joining A.changes self.old caller Drop }
    {
        let member = self.members.enter(caller, Verb::Drop)?;
        self.members.put(member.station, None);
        Ok(())
    }

    /// Takes a value for the pass that the caller signs next, and answers that pass. Refused with 9,
    /// 10, 12, 13, 14, 17 and 18.
    pub fn send(&mut self, caller: u8, value: A::Value) -> Result<u32, Refusal>
        ensures { (as_answer Sent result, self.new)
            ≡ board_step A.Value.Joining A.changes self.old caller (Send value) }
    {
        let member = self.members.enter(caller, Verb::Send)?;
        let pass = member.next_to_sign()?;
        self.accumulator.add(caller, pass, value)?;
        Ok(pass)
    }

    /// The last pass that the caller has observed, and its total. Refused with 9, 10, 12, 16 and 18.
    pub fn result(&self, caller: u8) -> Result<(u32, A::Value), Refusal>
        ensures { (as_answer (λ t. Total t.0 t.1) result, self.now)
            ≡ board_step A.Value.Joining A.changes self.now caller AskResult }
    {
        let Member { view, .. } = self.members.enter(caller, Verb::Result)?;
        if view.wp == 0 {
            return Err(Refusal::NothingObserved { caller });
        }
        let total = self.accumulator.total(view.wp)?;
        Ok((view.wp, total))
    }

    /// The caller's view. Refused with 9 and 10.
    pub fn view(&self, caller: u8) -> Result<View, Refusal>
        ensures { (as_answer Viewed result, self.now) ≡ board_step A.Value.Joining A.changes self.now caller AskView }
    {
        let member = self.members.enter(caller, Verb::View)?;
        Ok(member.view)
    }
}
