//! The pass of two gauges in every way, with a kind of value of one's own, and the totals of a
//! shift.
use accumulator::Eager;
use calling::{
    Hottest, one_pass, one_pass_eagerly, one_pass_lazily, one_pass_on_tickets, play_shift,
};
use calls::{Action, Answer, Call};
use joining::{CoilRecord, Extremes, Length, Marks};
use std::test::Fail;

#[test]
fn the_pass_has_one_total_in_every_way(rt: HostRuntime) {
    let thin = CoilRecord::of_reading(1000, -3, 0);
    let thick = CoilRecord::of_reading(500, 4, 2);
    let both = CoilRecord {
        length: Length::new(1500),
        extremes: Extremes::new(-3, 4),
        marks: Marks::new(2),
    };
    assert_eq!(rt; one_pass_eagerly(thin, thick), Ok((1, both)));
    assert_eq!(rt; one_pass_lazily(thin, thick), Ok((1, both)));
    assert_eq!(rt; one_pass_on_tickets(thin, thick), (1, both));
}

#[test]
fn the_hottest_is_told(rt: HostRuntime) {
    let warm = Hottest { degrees: 870 };
    let hot = Hottest { degrees: 915 };
    assert_eq!(rt; one_pass(Eager::new(2), hot, warm), Ok((1, hot)));
}

#[test]
fn a_shift_is_played(rt: HostRuntime) -> Result<(), Fail> {
    let by = |action: Action<Length>| Call { caller: 0, action };
    let value = Length::new(7);
    let calls = [
        by(Action::Send { value }),
        by(Action::Signal),
        by(Action::Wait),
        by(Action::Result),
    ];
    let answers = play_shift(Eager::new(1), &calls, rt.alloc())?;
    let total = Ok(Answer::Total {
        pass: 1,
        total: value,
    });
    assert_eq!(rt; answers.as_slice()[3], total);
    Ok(())
}
