//! The same pass on tickets: what is out of turn does not compile.
ghost use Rattle.std.specs.Prelude.{◌≡◌};
ghost use Rattle.joining.specs.Kinds.{joint_record};
ghost use Rattle.accumulator.specs.Meaning.{new_meaning};
ghost use Rattle.ticket_kinds.specs.declared.Kind.TheVariants as kind;
ghost use Rattle.ticket.specs.Calls.{kind_in, station_in};

use crate::by_number::GAUGES;
use accumulator::{Accumulator, Eager};
use calls::Mode;
use joining::CoilRecord;
use ticket::{AnyTicket, Ticket, TicketBoard};
use ticket_kinds::Open;

/// A ticket that is known to be open, by its type.
fn open(ticket: AnyTicket) -> Ticket<Open>
    requires { kind_in ticket ≡ kind.Open }
    ensures { result ≡ station_in ticket }
{
    let AnyTicket::Open(open) = ticket else {
        unreachable!()
    };
    open
}

/// Each gauge sends what it measured, signs and waits; gauge 0 asks for the total, and both leave.
/// On an accumulator just made for two stations no call is refused, as each `unwrap` shows.
fn pass_on<A: Accumulator + Drop>(accumulator: A, one: A::Value, two: A::Value) -> (u32, A::Value)
    requires { A.meaning accumulator ≡ new_meaning A.Value.Joining GAUGES }
    ensures { result ≡ (1, A.Value.joined one two) }
{
    let (mut board, ticket) = TicketBoard::new(0, Mode::SignalWait, accumulator);
    let zero = open(ticket);
    let (_, _, ticket) = zero.register(&mut board, 1, Mode::SignalWait).unwrap();
    let other = open(ticket);
    zero.send(&mut board, one).unwrap();
    other.send(&mut board, two).unwrap();
    let (_, zero) = zero.sign(&mut board).unwrap();
    let (_, other) = other.sign(&mut board).unwrap();
    let (_, zero) = zero.wait(&mut board).unwrap();
    let (_, other) = other.wait(&mut board).unwrap();
    let total = zero.result(&board).unwrap();
    zero.drop(&mut board).unwrap();
    other.drop(&mut board).unwrap();
    total
}

/// The pass on tickets: the total of pass 1 is what both sent, joined.
pub fn one_pass_on_tickets(one: CoilRecord, two: CoilRecord) -> (u32, CoilRecord)
    ensures { result ≡ (1, joint_record one two) }
{
    pass_on(Eager::new(GAUGES), one, two)
}
