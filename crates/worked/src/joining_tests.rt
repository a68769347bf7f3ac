//! Examples of each kind and of the fold.
use joining::{CoilRecord, Extremes, Joining, Length, Marks, Toggles, join_every};

#[test]
fn two_readings_make_a_coil_record(rt: HostRuntime) {
    let coil = CoilRecord::of_reading(1000, -3, 0).join(CoilRecord::of_reading(500, 4, 2));
    let both = CoilRecord {
        length: Length::new(1500),
        extremes: Extremes::new(-3, 4),
        marks: Marks::new(2),
    };
    assert_eq!(rt; coil, both);
    assert_eq!(rt; CoilRecord::neutral().join(coil), both);
}

#[test]
fn a_length_wraps(rt: HostRuntime) {
    assert_eq!(rt; Length::new(u64::MAX).join(Length::new(2)), Length::new(1));
}

#[test]
fn toggles_vanish_the_second_time(rt: HostRuntime) {
    let some = Toggles::new(0b101);
    assert_eq!(rt; some.join(some), Toggles::neutral());
    assert_eq!(rt; some.join(Toggles::new(0b110)), Toggles::new(0b011));
}

#[test]
fn the_fold_takes_equal_steps(rt: HostRuntime) {
    let lengths = [
        Length::new(1),
        Length::new(20),
        Length::new(300),
        Length::new(4000),
    ];
    assert_eq!(rt; join_every(&lengths, 1, 2), Length::new(4020));
    assert_eq!(rt; join_every(&lengths, 0, 3), Length::new(4001));
    assert_eq!(rt; join_every(&lengths, 0, 0), Length::new(4321));
    assert_eq!(rt; join_every(&lengths, 4, 1), Length::neutral());
}

#[test]
fn the_fold_is_the_same_for_each_kind(rt: HostRuntime) {
    let marks = [Marks::new(1), Marks::new(2), Marks::new(5)];
    assert_eq!(rt; join_every(&marks, 0, 2), Marks::new(5));
    let coils = [
        CoilRecord::of_reading(1000, -3, 1),
        CoilRecord::of_reading(9, 99, 9),
        CoilRecord::of_reading(500, 4, 2),
    ];
    let ends = join_every(&coils, 0, 2);
    assert_eq!(rt; ends.length, Length::new(1500));
    assert_eq!(rt; ends.marks, Marks::new(3));
}
