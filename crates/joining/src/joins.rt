//! How each kind is joined.
ghost use Rattle.joining.specs.Kinds.{no_length, joint_length};
ghost use Rattle.joining.specs.Kinds.{bits_of, joint_bits};
ghost use Rattle.joining.specs.Kinds.{no_extremes, joint_extremes};
ghost use Rattle.joining.specs.Kinds.{no_record, joint_record};
ghost use Rattle.joining.specs.KindLaws.{length_laws, bits_laws, extremes_laws, record_laws};

use crate::Joining;
use crate::bit_rules::Bitwise;
use crate::kinds::{Bits, CoilRecord, Deviation, Extremes, Length, Marks};

impl Joining for Length {
    ghost neutral = { no_length };

    ghost joined = { joint_length };

    ghost laws = { length_laws };

    fn neutral() -> Length {
        Length::new(0)
    }

    fn join(self, other: Length) -> Length {
        Length::new(self.run.wrapping_add(other.run))
    }
}

impl<R: Bitwise> Joining for Bits<R> {
    ghost neutral = { bits_of 0 };

    ghost joined = { joint_bits R.operation };

    ghost laws = { bits_laws R.laws };

    fn neutral() -> Bits<R> {
        Bits::new(0)
    }

    fn join(self, other: Bits<R>) -> Bits<R> {
        Bits::new(R::operation(self.bits, other.bits))
    }
}

impl Joining for Extremes {
    ghost neutral = { no_extremes };

    ghost joined = { joint_extremes };

    ghost laws = { extremes_laws };

    fn neutral() -> Extremes {
        Extremes::new(Deviation::MAX, Deviation::MIN)
    }

    fn join(self, other: Extremes) -> Extremes {
        Extremes::new(
            self.thinnest.min(other.thinnest),
            self.thickest.max(other.thickest),
        )
    }
}

impl Joining for CoilRecord {
    ghost neutral = { no_record };

    ghost joined = { joint_record };

    ghost laws = { record_laws };

    fn neutral() -> CoilRecord {
        CoilRecord {
            length: Length::neutral(),
            extremes: Extremes::neutral(),
            marks: Marks::neutral(),
        }
    }

    fn join(self, other: CoilRecord) -> CoilRecord {
        CoilRecord {
            length: self.length.join(other.length),
            extremes: self.extremes.join(other.extremes),
            marks: self.marks.join(other.marks),
        }
    }
}
