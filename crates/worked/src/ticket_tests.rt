//! Each kind of ticket, on a lazy accumulator, and a ticket on a board that is not its own.
use accumulator::{Eager, Lazy};
use calls::{Mode, View};
use joining::Length;
use refusal::Refusal;
use std::process::Abort;
use ticket::{AnyTicket, Ticket, TicketBoard};
use ticket_kinds::{Open, SignOnly, Signed, WaitOnly};

fn granted<T, E>(rt: &impl Abort, answer: Result<T, E>) -> T {
    match answer {
        Ok(value) => value,
        Err(_) => panic!(rt; "refused"),
    }
}

fn open(rt: &impl Abort, ticket: AnyTicket) -> Ticket<Open> {
    match ticket {
        AnyTicket::Open(ticket) => ticket,
        _ => panic!(rt; "not open"),
    }
}

fn signed(rt: &impl Abort, ticket: AnyTicket) -> Ticket<Signed> {
    match ticket {
        AnyTicket::Signed(ticket) => ticket,
        _ => panic!(rt; "not signed"),
    }
}

fn sign_only(rt: &impl Abort, ticket: AnyTicket) -> Ticket<SignOnly> {
    match ticket {
        AnyTicket::SignOnly(ticket) => ticket,
        _ => panic!(rt; "not sign-only"),
    }
}

fn wait_only(rt: &impl Abort, ticket: AnyTicket) -> Ticket<WaitOnly> {
    match ticket {
        AnyTicket::WaitOnly(ticket) => ticket,
        _ => panic!(rt; "not wait-only"),
    }
}

#[test]
fn each_kind_of_ticket_has_its_calls(rt: HostRuntime) {
    let mut cells = [Length::new(0); 9];
    let (mut board, first) = TicketBoard::new(0, Mode::SignalWait, Lazy::new(3, &mut cells));
    let zero = open(&rt, first);
    assert_eq!(rt; zero.send(&mut board, Length::new(7)), Ok(1));
    let (sp, zero) = granted(&rt, zero.sign(&mut board));
    assert_eq!(rt; sp, 1);
    let (sp, wp, one) = granted(&rt, zero.register(&mut board, 1, Mode::SignalWait));
    assert_eq!(rt; (sp, wp), (1, 0));
    let one = signed(&rt, one);
    let (_, _, two) = granted(&rt, one.register(&mut board, 2, Mode::SignalOnly));
    let two = sign_only(&rt, two);
    let (_, _, three) = granted(&rt, one.register(&mut board, 3, Mode::WaitOnly));
    let three = wait_only(&rt, three);
    let (sp, two) = granted(&rt, two.sign(&mut board));
    assert_eq!(rt; sp, 2);
    let (wp, zero) = granted(&rt, zero.wait(&mut board));
    assert_eq!(rt; wp, 1);
    assert_eq!(rt; zero.result(&board), Ok((1, Length::new(7))));
    let (_, three) = granted(&rt, three.wait(&mut board));
    assert_eq!(rt; three.holders(&board), Ok((3, 2)));
    let three = match three.wait(&mut board) {
        Ok(_) => panic!(rt; "not all have signed"),
        Err((refusal, three)) => {
            assert_eq!(rt; refusal, Refusal::NotSigned { caller: 3 });
            three
        }
    };
    let seen = View {
        mode: Mode::WaitOnly,
        sp: 1,
        wp: 1,
    };
    assert_eq!(rt; three.view(&board), Ok(seen));
    granted(&rt, zero.drop(&mut board));
    granted(&rt, one.drop(&mut board));
    granted(&rt, two.drop(&mut board));
    granted(&rt, three.drop(&mut board));
}

#[test]
fn on_another_board_a_ticket_answers_as_its_number(rt: HostRuntime) {
    let (mut own, five) = TicketBoard::new(5, Mode::SignalOnly, Eager::<Length>::new(8));
    let (mut other, zero) = TicketBoard::new(0, Mode::WaitOnly, Eager::<Length>::new(8));
    let five = match five.drop(&mut other) {
        Ok(()) => panic!(rt; "no member there"),
        Err((refusal, five)) => {
            assert_eq!(rt; refusal, Refusal::NotMember { caller: 5 });
            five
        }
    };
    granted(&rt, five.drop(&mut own));
    granted(&rt, zero.drop(&mut other));
}
