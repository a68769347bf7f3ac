//! The eager and the lazy accumulator side by side, and what they refuse.
use accumulator::{Accumulator, Call, Eager, Lazy, play_both};
use joining::{CoilRecord, Joining, Length, Marks};
use refusal::Refusal;
use std::process::Abort;
use std::test::Fail;

/// The same adds on both, each with its pass's total after it.
fn add_to_both<V: Joining + Copy + PartialEq>(
    rt: &impl Abort,
    eager: &mut Eager<V>,
    lazy: &mut Lazy<'_, V>,
    x: V,
    y: V,
) {
    for pass in 0..5 {
        assert!(rt; eager.add(0, pass, x) == lazy.add(0, pass, x));
        assert!(rt; (*eager).total(pass) == (*lazy).total(pass));
        assert!(rt; eager.add(1, pass, y) == lazy.add(1, pass, y));
        assert!(rt; (*eager).total(pass) == (*lazy).total(pass));
    }
}

/// The same adds and a move on, twice.
fn side_by_side<V: Joining + Copy + PartialEq>(
    rt: &impl Abort,
    eager: &mut Eager<V>,
    lazy: &mut Lazy<'_, V>,
    x: V,
    y: V,
) {
    add_to_both(rt, eager, lazy, x, y);
    assert_eq!(rt; eager.move_on(), lazy.move_on());
    add_to_both(rt, eager, lazy, y, x);
    assert_eq!(rt; eager.move_on(), lazy.move_on());
    add_to_both(rt, eager, lazy, x, x);
}

#[test]
fn lengths_add_up_alike(rt: HostRuntime) {
    let mut cells = [Length::new(30); 8];
    let mut eager = Eager::new(2);
    let mut lazy = Lazy::new(2, &mut cells);
    side_by_side(&rt, &mut eager, &mut lazy, Length::new(7), Length::new(30));
    assert_eq!(rt; eager.total(3), Ok(Length::new(51)));
    assert_eq!(rt; cells[6], Length::new(30));
    assert_eq!(rt; cells[7], Length::new(30));
}

#[test]
fn marks_and_records_add_up_alike(rt: HostRuntime) {
    let mut cells = [Marks::new(6); 6];
    side_by_side(
        &rt,
        &mut Eager::new(2),
        &mut Lazy::new(2, &mut cells),
        Marks::new(1),
        Marks::new(6),
    );
    let thin = CoilRecord::of_reading(1000, -3, 0);
    let thick = CoilRecord::of_reading(500, 4, 2);
    let mut coils = [thick; 7];
    side_by_side(
        &rt,
        &mut Eager::new(2),
        &mut Lazy::new(2, &mut coils),
        thin,
        thick,
    );
    assert_eq!(rt; coils[6], thick);
}

#[test]
fn a_played_list_is_answered_alike(rt: HostRuntime) -> Result<(), Fail> {
    let calls = [
        Call::Add {
            station: 0,
            pass: 0,
            value: Marks::new(5),
        },
        Call::Total { pass: 0 },
        Call::MoveOn,
        Call::Total { pass: 0 },
    ];
    let mut cells = [Marks::new(6); 6];
    let mut lazy = Lazy::new(2, &mut cells);
    let (left, right) = play_both(&mut Eager::new(2), &mut lazy, &calls, rt.alloc())?;
    assert!(rt; left == right);
    Ok(())
}

#[test]
fn the_limit_and_the_window_refuse(rt: HostRuntime) {
    let mut cells = [Length::new(9); 6];
    let mut lazy = Lazy::new(2, &mut cells);
    assert_eq!(rt;
        lazy.add(2, 3, Length::new(1)),
        Err(Refusal::NoCell { station: 2 })
    );
    assert_eq!(rt;
        lazy.add(1, 3, Length::new(1)),
        Err(Refusal::NotKept { pass: 3 })
    );
    assert_eq!(rt; lazy.add(1, 2, Length::new(1)), Ok(()));
    assert_eq!(rt; lazy.total(2), Ok(Length::new(1)));
    assert_eq!(rt; lazy.total(0), Ok(Length::new(0)));
}

#[test]
fn trials_answer_what_a_making_refuses(rt: HostRuntime) {
    let cells = [Marks::new(0); 6];
    assert_eq!(rt; Lazy::trial(2, &cells), Ok(()));
    assert_eq!(rt;
        Lazy::trial(2, &cells[0..5]),
        Err(Refusal::TooFewCells { cells: 5 })
    );
    assert_eq!(rt; Lazy::trial(0, &cells), Err(Refusal::Limit { limit: 0 }));
    assert_eq!(rt;
        Eager::<Marks>::trial(65),
        Err(Refusal::Limit { limit: 65 })
    );
}
