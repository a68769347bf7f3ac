//! Takes one coil of three stations through two passes by tickets alone, and prints what each
//! call answers.

#![tactic(auto, unfolding(crate::specs::Hands::IsTruthful))]

ghost use Rattle.std.specs.Prelude.{◌≡◌, ◌+◌, IsOk, vec_len};
ghost use Rattle.ticket.specs.Calls.{station_in};
ghost use Rattle.hall.specs.Hands.{IsTruthful, OnlyActs, InHand, CrewInHand};

use accumulator::Eager;
use calls::{Answer, Mode, Verb};
use commandline::is_to_work;
use joining::CoilRecord;
use playlog::Outcome;
use refusal::Refusal;
use refusal::limits::STATIONS;
use std::alloc::AllocError;
use ticket::AnyTicket::{self, Open, SignOnly, Signed, WaitOnly};
use ticket::TicketBoard;

/// The tickets of two gauges and a reel.
type Crew = (AnyTicket, AnyTicket, AnyTicket);

/// The coil's board, and what its calls were answered.
#[derive(Drop)]
struct Coil {
    board: TicketBoard<Eager<CoilRecord>>,
    outcomes: Vec<Outcome>,
    // Where an outcome finds no memory, that is told at the end: a `?` would let the tickets go
    // that are out.
    kept: Result<(), AllocError>,
}

impl Coil {
    /// Notes what a call was answered.
    fn note(&mut self, verb: Verb, caller: u8, answer: Result<Answer<CoilRecord>, Refusal>)
        ensures board { self.new.board ≡ self.old.board }
        ensures kept { IsOk self.new.kept → IsOk self.old.kept × (vec_len self.new.outcomes ≡ vec_len self.old.outcomes + 1) }
    {
        let outcome = Outcome {
            number: self.outcomes.len() + 1,
            verb,
            caller,
            result: answer,
        };
        if self.outcomes.push(outcome).is_err() {
            self.kept = Err(AllocError);
        }
    }

    /// Sends a reading, where the ticket is open.
    fn send(&mut self, ticket: &AnyTicket, reading: CoilRecord)
        requires { IsTruthful self.old.board.state ticket.now }
        ensures own { IsTruthful self.new.board.state ticket.now }
        ensures others { OnlyActs self.old.board.state ticket.now self.new.board.state }
    {
        if let Open(open) = ticket {
            let sent = open.send(&mut self.board, reading);
            let answer = sent.map(|pass| Answer::Sent { pass });
            self.note(Verb::Send, open.station(), answer);
        }
    }

    /// Takes the ticket's turn: an open one signs, a signed and a wait-only one wait. None here
    /// is sign-only.
    fn take_turn(&mut self, ticket: AnyTicket) -> AnyTicket
        requires { IsTruthful self.old.board.state ticket }
        ensures own { InHand self.new.board.state (station_in ticket) result }
        ensures others { OnlyActs self.old.board.state ticket self.new.board.state }
    {
        let (verb, answer, ticket) = match ticket {
            Open(open) => match open.sign(&mut self.board) {
                Ok((sp, signed)) => (Verb::Signal, Ok(Answer::Signaled { sp }), Signed(signed)),
                Err((refusal, open)) => (Verb::Signal, Err(refusal), Open(open)),
            },
            Signed(signed) => match signed.wait(&mut self.board) {
                Ok((wp, open)) => (Verb::Wait, Ok(Answer::Observed { wp }), Open(open)),
                Err((refusal, signed)) => (Verb::Wait, Err(refusal), Signed(signed)),
            },
            WaitOnly(only) => match only.wait(&mut self.board) {
                Ok((wp, only)) => (Verb::Wait, Ok(Answer::Observed { wp }), WaitOnly(only)),
                Err((refusal, only)) => (Verb::Wait, Err(refusal), WaitOnly(only)),
            },
            SignOnly(only) => return SignOnly(only),
        };
        self.note(verb, ticket.station(), answer);
        ticket
    }

    /// Asks on an open ticket for the total of the last pass observed, on another for the view.
    fn ask(&mut self, ticket: &AnyTicket)
        ensures { self.new.board ≡ self.old.board }
    {
        if let Open(open) = ticket {
            let total = open.result(&self.board);
            let answer = total.map(|(pass, total)| Answer::Total { pass, total });
            self.note(Verb::Result, open.station(), answer);
        } else {
            let seen = ticket.view(&self.board);
            let answer = seen.map(|view| Answer::Viewed { view });
            self.note(Verb::View, ticket.station(), answer);
        }
    }

    /// Leaves the board.
    fn leave(&mut self, ticket: AnyTicket)
        requires { IsTruthful self.old.board.state ticket }
        ensures { OnlyActs self.old.board.state ticket self.new.board.state }
    {
        let caller = ticket.station();
        ticket.drop(&mut self.board).unwrap();
        self.note(Verb::Drop, caller, Ok(Answer::Dropped));
    }

    /// One pass: each gauge sends and signs, all wait, and all ask what came of it.
    #[tactic(auto)]
    fn pass(&mut self, crew: Crew, one: CoilRecord, two: CoilRecord) -> Crew
        requires { CrewInHand self.old.board.state crew }
        ensures { CrewInHand self.new.board.state result }
    {
        let (first, second, reel) = crew;
        self.send(&first, one);
        let first = self.take_turn(first);
        self.send(&second, two);
        let second = self.take_turn(second);
        let first = self.take_turn(first);
        let second = self.take_turn(second);
        let reel = self.take_turn(reel);
        self.ask(&first);
        self.ask(&second);
        self.ask(&reel);
        (first, second, reel)
    }
}

const ABOUT: &str = "\
Takes one coil of three stations through two passes by tickets alone.";

const DETAILS: &str = "\
It reads nothing, and prints what each call is answered.

Status: 0, or 1 where writing or memory failed.

Example:
  hall";

fn main(rt: HostRuntime) -> anyhow::Result<()> {
    if is_to_work(&rt, "hall", ABOUT, DETAILS)? {
        work(&rt)?;
    }
    Ok(())
}

/// Station 0, a gauge, brings in 1, another one, and 2, a reel that only waits. Two passes, and
/// all leave.
fn work(rt: &HostRuntime) -> anyhow::Result<()> {
    let (board, first) = TicketBoard::new(0, Mode::SignalWait, Eager::new(STATIONS as usize));
    let mut coil = Coil {
        board,
        outcomes: Vec::new(rt.alloc()),
        kept: Ok(()),
    };
    let caller = first.station();
    let (sp, wp, second) = first
        .register(&mut coil.board, 1, Mode::SignalWait)
        .unwrap();
    coil.note(Verb::Register, caller, Ok(Answer::Registered { sp, wp }));
    let (sp, wp, reel) = first.register(&mut coil.board, 2, Mode::WaitOnly).unwrap();
    coil.note(Verb::Register, caller, Ok(Answer::Registered { sp, wp }));
    let one = CoilRecord::of_reading(1000, -3, 0);
    let two = CoilRecord::of_reading(500, 4, 2);
    let crew = coil.pass((first, second, reel), one, two);
    let one = CoilRecord::of_reading(800, -1, 1);
    let two = CoilRecord::of_reading(900, 6, 4);
    let (first, second, reel) = coil.pass(crew, one, two);
    coil.leave(first);
    coil.leave(second);
    coil.leave(reel);
    coil.kept?;
    for outcome in coil.outcomes.as_slice() {
        println!(rt; "{outcome}")?;
    }
    Ok(())
}
