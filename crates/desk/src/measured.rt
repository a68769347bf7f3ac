//! The kinds of value that readings are sent as.
ghost use Rattle.std.specs.Prelude.{◌≡◌, ℕ, List, Some, refl};
ghost use Rattle.joining.specs.Kinds.{length_of, bits_of, extremes_of, reading_of};
ghost use Rattle.joining.specs.Text.{length_text, bits_text, extremes_text, record_text};
ghost use Rattle.shiftlog.specs.declared.readings.Reading.{Reading};

use joining::{Bits, CoilRecord, Extremes, Length};
use shiftlog::Reading;
use std::fmt;

/// A kind of value that takes its part of a reading, and that is printed.
pub trait Measured: fmt::Display + Copy {
    ghost part_of: { Reading → Self };

    ghost text: { Self → List ℕ };

    /// Its part of a reading.
    fn part_of(reading: Reading) -> Self
        ensures { result ≡ part_of reading };

    /// It is printed as its text.
    ghost printed: { (value : Self) → Self.output value ≡ Some (text value) };
}

/// The length.
impl Measured for Length {
    ghost part_of = { λ r. length_of r.length };

    ghost text = { length_text };

    ghost printed = { λ _. refl };

    fn part_of(reading: Reading) -> Length {
        Length::new(u64::from(reading.length))
    }
}

/// The marks, for marks and for toggles.
impl<R> Measured for Bits<R> {
    ghost part_of = { λ r. bits_of r.marks };

    ghost text = { bits_text };

    ghost printed = { λ _. refl };

    fn part_of(reading: Reading) -> Bits<R> {
        Bits::new(reading.marks)
    }
}

/// The deviation, which is both extremes.
impl Measured for Extremes {
    ghost part_of = { λ r. extremes_of r.deviation r.deviation };

    ghost text = { extremes_text };

    ghost printed = { λ _. refl };

    fn part_of(reading: Reading) -> Extremes {
        Extremes::of(reading.deviation)
    }
}

/// All of it.
impl Measured for CoilRecord {
    ghost part_of = { λ r. reading_of r.length r.deviation r.marks };

    ghost text = { record_text };

    ghost printed = { λ _. refl };

    fn part_of(reading: Reading) -> CoilRecord {
        CoilRecord::of_reading(reading.length, reading.deviation, reading.marks)
    }
}
