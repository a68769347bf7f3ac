//! Two boards in two orders, whom a waiter waits for, and which of two views happened before the
//! other.
use accumulator::{Eager, Lazy};
use board::{Board, play_both};
use calls::{Action, Answer, Call, Mode, View, compare};
use joining::Length;
use std::process::Abort;
use std::test::Fail;

fn call(caller: u8, action: Action<Length>) -> Call<Length> {
    Call { caller, action }
}

fn send(caller: u8, length: u64) -> Call<Length> {
    let value = Length::new(length);
    call(caller, Action::Send { value })
}

/// Stations 0 and 1 send, sign, wait and ask for the total: in one order on an eager accumulator,
/// in another on a lazy one.
#[test]
fn the_order_of_calls_does_not_matter(rt: HostRuntime) -> Result<(), Fail> {
    let mode = Mode::SignalWait;
    let brings = call(0, Action::Register { other: 1, mode });
    let one_after_the_other = [
        brings,
        send(0, 7),
        call(0, Action::Signal),
        send(1, 9),
        call(1, Action::Signal),
        call(0, Action::Wait),
        call(0, Action::Result),
        call(1, Action::Wait),
        call(1, Action::Result),
    ];
    let mixed = [
        brings,
        send(1, 9),
        call(1, Action::Signal),
        send(0, 7),
        call(0, Action::Signal),
        call(1, Action::Wait),
        call(0, Action::Wait),
        call(1, Action::Result),
        call(0, Action::Result),
    ];
    let mut cells = [Length::new(1); 6];
    let mut eager = Board::new(0, mode, Eager::new(2));
    let mut lazy = Board::new(0, mode, Lazy::new(2, &mut cells));
    let (left, right) = play_both(
        &mut eager,
        &mut lazy,
        &one_after_the_other,
        &mixed,
        rt.alloc(),
    )?;
    let total = Ok(Answer::Total {
        pass: 1,
        total: Length::new(16),
    });
    assert_eq!(rt; left.as_slice()[6], total);
    assert_eq!(rt; left.as_slice()[8], total);
    assert_eq!(rt; right.as_slice()[7], total);
    assert_eq!(rt; right.as_slice()[8], total);
    assert_eq!(rt; eager.view(0), lazy.view(0));
    assert_eq!(rt; eager.view(1), lazy.view(1));
    Ok(())
}

#[test]
fn a_waiter_waits_for_those_who_have_not_signed(rt: HostRuntime) {
    let mut board = Board::new(0, Mode::SignalWait, Eager::<Length>::new(3));
    assert_eq!(rt; board.register(0, 5, Mode::SignalOnly), Ok((0, 0)));
    assert_eq!(rt; board.register(0, 2, Mode::WaitOnly), Ok((0, 0)));
    assert_eq!(rt; board.holders(2), Ok((33, 2)));
    assert_eq!(rt; board.signal(0), Ok(1));
    assert_eq!(rt; board.holders(2), Ok((32, 1)));
    assert_eq!(rt; board.signal(5), Ok(1));
    assert_eq!(rt; board.holders(2), Ok((0, 0)));
    assert_eq!(rt; board.wait(2), Ok(1));
}

#[test]
fn what_was_observed_happened_after_what_was_not_signed(rt: HostRuntime) {
    let view = |sp: u32, wp: u32| View {
        mode: Mode::SignalWait,
        sp,
        wp,
    };
    assert_eq!(rt; compare(&view(0, 0), &view(1, 1)), (true, false));
    assert_eq!(rt; compare(&view(1, 1), &view(0, 0)), (false, true));
    assert_eq!(rt; compare(&view(1, 0), &view(1, 1)), (false, false));
}
