//! The five kinds of value. Their ghost fields put the width into the type, since the laws are
//! owed for every number.
ghost use Rattle.std.specs.Prelude.{◌^◌, ◌<◌};
ghost use Rattle.joining.specs.Deviation.{InRange};

use crate::bit_rules::{Exclusive, Inclusive};
use std::marker::PhantomData;

/// How far a thickness lies from the wanted one, in micrometres.
pub type Deviation = i16;

/// A length, added modulo 2^64.
#[derive(Clone, Copy, PartialEq, Eq, Debug)]
pub struct Length {
    pub run: u64,
    ghost fits: { run < 2 ^ 64 },
}

/// A set of 16 bits, which is joined by the rule `R`.
#[derive_where(Clone, Copy, PartialEq, Eq, Debug)]
pub struct Bits<R> {
    pub bits: u16,
    #[derive_where(skip)]
    pub rule: PhantomData<R>,
}

/// A set of 16 marks: one that any value has stays.
pub type Marks = Bits<Inclusive>;

/// A set of 16 toggles: one that two values have is gone.
pub type Toggles = Bits<Exclusive>;

/// The smallest and the largest of some deviations. Of none, the smallest is the largest number,
/// and the reverse.
#[derive(Clone, Copy, PartialEq, Eq, Debug)]
pub struct Extremes {
    pub thinnest: Deviation,
    pub thickest: Deviation,
    ghost thinnest_fits: { InRange thinnest },
    ghost thickest_fits: { InRange thickest },
}

/// What is recorded of a coil: its length, the extremes of its thickness and its marks, side by
/// side.
#[derive(Clone, Copy, PartialEq, Eq, Debug)]
pub struct CoilRecord {
    pub length: Length,
    pub extremes: Extremes,
    pub marks: Marks,
}
