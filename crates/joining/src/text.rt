//! Values of each kind as they are printed.
ghost use Rattle.std.specs.Prelude.{Some};
ghost use Rattle.joining.specs.Text.{length_text, bits_text, extremes_text, record_text};

use crate::kinds::{Bits, CoilRecord, Extremes, Length};
use std::fmt;

impl fmt::Display for Length {
    ghost output = { λ x. Some (length_text x) };

    fn fmt<W: fmt::Write>(&self, f: &mut fmt::Formatter<W>) -> fmt::Result {
        let run = self.run;
        write!(f, "{run}")
    }
}

impl<R> fmt::Display for Bits<R> {
    ghost output = { λ x. Some (bits_text x) };

    fn fmt<W: fmt::Write>(&self, f: &mut fmt::Formatter<W>) -> fmt::Result {
        let bits = self.bits;
        write!(f, "{bits}")
    }
}

impl fmt::Display for Extremes {
    ghost output = { λ x. Some (extremes_text x) };

    fn fmt<W: fmt::Write>(&self, f: &mut fmt::Formatter<W>) -> fmt::Result {
        let thinnest = self.thinnest;
        let thickest = self.thickest;
        write!(f, "{thinnest} {thickest}")
    }
}

impl fmt::Display for CoilRecord {
    ghost output = { λ r. Some (record_text r) };

    fn fmt<W: fmt::Write>(&self, f: &mut fmt::Formatter<W>) -> fmt::Result {
        let CoilRecord {
            length,
            extremes,
            marks,
        } = *self;
        write!(f, "{length} {extremes} {marks}")
    }
}
