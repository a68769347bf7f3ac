//! The example of nine steps, and a log of one record, played.
use calls::{Action, Answer, Call, Mode, View};
use joining::{CoilRecord, Extremes, Length, Marks};
use playlog::{calls_of, outcomes_of, play_eagerly, play_lazily, play_log, same_answers};
use refusal::Refusal;
use shiftlog::form::VALUE_LEN;
use shiftlog::{Log, Step};
use std::test::Fail;

/// The step of a station.
fn by(caller: u8, action: Action<&[u8; VALUE_LEN]>) -> Step<'_> {
    Call { caller, action }
}

#[test]
fn the_nine_steps_are_answered_alike(rt: HostRuntime) -> Result<(), Fail> {
    let steps = [
        by(
            0,
            Action::Register {
                other: 1,
                mode: Mode::SignalWait,
            },
        ),
        by(
            0,
            Action::Send {
                value: &[232, 3, 0, 0, 253, 255, 0, 0],
            },
        ),
        by(0, Action::Signal),
        by(0, Action::Wait),
        by(
            1,
            Action::Send {
                value: &[244, 1, 0, 0, 4, 0, 2, 0],
            },
        ),
        by(1, Action::Drop),
        by(0, Action::Wait),
        by(0, Action::Result),
        by(7, Action::View),
    ];
    let total = CoilRecord {
        length: Length::new(1500),
        extremes: Extremes::new(-3, 4),
        marks: Marks::new(2),
    };
    let expected = [
        Ok(Answer::Registered { sp: 0, wp: 0 }),
        Ok(Answer::Sent { pass: 1 }),
        Ok(Answer::Signaled { sp: 1 }),
        Err(Refusal::NotSigned { caller: 0 }),
        Ok(Answer::Sent { pass: 1 }),
        Ok(Answer::Dropped),
        Ok(Answer::Observed { wp: 1 }),
        Ok(Answer::Total { pass: 1, total }),
        Err(Refusal::NotMember { caller: 7 }),
    ];
    let calls = calls_of(rt.alloc(), &steps)?;
    let eager = play_eagerly(rt.alloc(), calls.as_slice())?;
    let lazy = play_lazily(rt.alloc(), calls.as_slice())?;
    assert!(rt; same_answers(eager.as_slice(), &expected));
    assert!(rt; same_answers(lazy.as_slice(), &expected));
    let outcomes = outcomes_of(rt.alloc(), &steps, eager.as_slice())?;
    assert_eq!(rt; outcomes.len(), 9);
    Ok(())
}

#[test]
fn a_log_of_one_record_is_played(rt: HostRuntime) -> Result<(), Fail> {
    let mut block = [0u8; 512];
    block[4] = 1;
    block[8] = 124;
    block[16] = 7;
    let log = Log::check(&block).expect(&rt, "the log is good");
    let played = play_log(rt.alloc(), &log)?;
    assert!(rt; played.lazy_alike);
    assert_eq!(rt; played.outcomes.len(), 1);
    let view = View {
        mode: Mode::SignalWait,
        sp: 0,
        wp: 0,
    };
    let expected = [Ok(Answer::Viewed { view })];
    for outcome in &played.outcomes {
        assert_eq!(rt; outcome.number, 1);
        assert!(rt; same_answers(&[outcome.result], &expected));
    }
    Ok(())
}
